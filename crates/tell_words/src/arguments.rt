//! The arguments of a call.
use crate::questions::{CheckQuestion, FaultQuestion, ProgramQuestion, RunQuestion};
use clap::{Arg, ArgAction, ArgMatches, Command, Error};
use hcl_types::Datapath;
use std::alloc::{AllocError, Global};
use y86_base::Variant;

/// What a call asks for.
#[derive(Clone, Copy, Debug)]
pub enum Call<'a> {
    /// Explain the verdict on an HCL file.
    Check {
        hcl: &'a str,
        asked: CheckQuestion,
    },
    /// Report whether the theorem covers the program of an object file.
    Program {
        obj: &'a str,
        asked: ProgramQuestion,
    },
    /// Run a program under an HCL file for PIPE and by its instructions.
    Run {
        hcl: &'a str,
        obj: &'a str,
        asked: RunQuestion,
    },
    /// Report the faults of a file.
    Fault {
        file: &'a str,
        asked: FaultQuestion,
    },
    /// Explain a word, or list the words.
    Show {
        word: Option<&'a str>,
        json: bool,
    },
}

/// The words for the datapaths.
static PATHS: [&str; 3] = ["seq", "seqplus", "pipe"];

/// An argument that names a file.
fn file<'a>(alloc: Global, name: &'a str, help: &'a str) -> Arg<'a> {
    Arg::new(alloc, name)
        .required(true)
        .action(ArgAction::Set)
        .help(help)
}

/// An option without a value.
fn switch<'a>(alloc: Global, name: &'a str, help: &'a str) -> Arg<'a> {
    Arg::new(alloc, name)
        .long(name)
        .action(ArgAction::SetTrue)
        .help(help)
}

/// An option whose value is a number.
fn number<'a>(
    alloc: Global,
    name: &'a str,
    least: i64,
    most: i64,
    usual: &'a str,
    help: &'a str,
) -> Arg<'a> {
    Arg::new(alloc, name)
        .long(name)
        .action(ArgAction::Set)
        .value_parser(clap::value_parser!(u64).range(least..=most))
        .default_value(usual)
        .help(help)
}

/// The option `--full`.
fn full<'a>(alloc: Global) -> Arg<'a> {
    switch(alloc, "full", "With the instruction iaddq")
}

/// The option `--json`.
fn json<'a>(alloc: Global) -> Arg<'a> {
    switch(alloc, "json", "The same facts as JSON")
}

/// The argument that is an HCL file.
fn hcl<'a>(alloc: Global) -> Arg<'a> {
    file(alloc, "hcl", "The HCL file")
}

/// The argument that is an object file.
fn obj<'a>(alloc: Global) -> Arg<'a> {
    file(alloc, "obj", "The object file")
}

/// The option `--mem`.
fn mem<'a>(alloc: Global) -> Arg<'a> {
    let help = "The bytes of memory: a multiple of 8 from 64 to 1048576";
    number(alloc, "mem", 64, 1_048_576, "8192", help)
}

/// The option `--limit`.
fn limit<'a>(alloc: Global, help: &'a str) -> Arg<'a> {
    number(alloc, "limit", 1, 100_000_000, "10000", help)
}

/// The command `check`.
fn check_command<'a>(alloc: Global) -> Result<Command<'a>, AllocError> {
    let path = Arg::new(alloc, "processor")
        .required(true)
        .action(ArgAction::Set)
        .value_parser(PATHS.as_slice())
        .help("The processor that the file is for");
    Command::new(alloc, "check")
        .about("Explain the verdict on an HCL file")
        .arg(path)?
        .arg(hcl(alloc))?
        .arg(full(alloc))?
        .arg(json(alloc))
}

/// The command `program`.
fn program_command<'a>(alloc: Global) -> Result<Command<'a>, AllocError> {
    Command::new(alloc, "program")
        .about(
            "Say whether the theorem covers a program: it must not change code that is about to run",
        )
        .arg(obj(alloc))?
        .arg(full(alloc))?
        .arg(mem(alloc))?
        .arg(limit(alloc, "The most instructions: 1 to 100000000"))
}

/// The command `run`.
fn run_command<'a>(alloc: Global) -> Result<Command<'a>, AllocError> {
    let unchecked = switch(
        alloc,
        "unchecked",
        "Don't ask the check whether the theorem covers the run",
    );
    Command::new(alloc, "run")
        .about("Run a program on PIPE and by its instructions, and say where the two runs differ")
        .arg(hcl(alloc))?
        .arg(obj(alloc))?
        .arg(full(alloc))?
        .arg(mem(alloc))?
        .arg(limit(alloc, "The most cycles: 1 to 100000000"))?
        .arg(json(alloc))?
        .arg(unchecked)
}

/// The command `fault`.
fn fault_command<'a>(alloc: Global) -> Result<Command<'a>, AllocError> {
    let any = file(
        alloc,
        "file",
        "The file: HCL (.hcl), object text (.yo), or assembly",
    );
    let path = Arg::new(alloc, "processor")
        .action(ArgAction::Set)
        .value_parser(PATHS.as_slice())
        .help("The processor that the file is for; it is then read as HCL, whatever its name");
    Command::new(alloc, "fault")
        .about("Report the faults of a file, and what to do about each")
        .arg(any)?
        .arg(path)?
        .arg(full(alloc))?
        .arg(mem(alloc))?
        .arg(json(alloc))
}

/// The command `show`.
fn show_command<'a>(alloc: Global) -> Result<Command<'a>, AllocError> {
    let word = Arg::new(alloc, "word").action(ArgAction::Set).help(
        "O10, mrmovq, d_valA, hcl.semicolon; without a word all of them are listed",
    );
    Command::new(alloc, "show")
        .about("Explain an obligation, an instruction, a signal or a kind of fault")
        .arg(word)?
        .arg(json(alloc))
}

/// The program's commands.
fn command<'a>(alloc: Global) -> Result<Command<'a>, AllocError> {
    Command::new(alloc, "y86-tell")
        .bin_name("y86-tell")?
        .about("Explain what y86 answers, in sentences")
        .subcommand_required(true)
        .subcommand(check_command(alloc)?)?
        .subcommand(fault_command(alloc)?)?
        .subcommand(program_command(alloc)?)?
        .subcommand(run_command(alloc)?)?
        .subcommand(show_command(alloc)?)
}

/// The datapath with this name.
fn path_of(name: &str) -> Datapath {
    match name {
        "seq" => Datapath::Seq,
        "seqplus" => Datapath::SeqPlus,
        _ => Datapath::Pipe,
    }
}

/// The datapath that is asked for, if there is one.
fn asked_path(name: Option<&str>) -> Option<Datapath> {
    match name {
        Some(name) => Some(path_of(name)),
        None => None,
    }
}

/// The instruction set, by whether `--full` is given.
fn variant_of(own: &ArgMatches<'_>) -> Variant {
    if own.get_flag("full") {
        Variant::Full
    } else {
        Variant::Base
    }
}

/// The bytes of memory.
fn memory_of(own: &ArgMatches<'_>) -> u64 {
    own.get_one::<u64>("mem").unwrap_or(8192)
}

/// The most instructions, or the most cycles.
fn limit_of(own: &ArgMatches<'_>) -> u64 {
    own.get_one::<u64>("limit").unwrap_or(10_000)
}

/// The call of `check` with these arguments.
fn check_call<'a>(own: &ArgMatches<'a>) -> Call<'a> {
    Call::Check {
        hcl: own.get_str("hcl").unwrap_or(""),
        asked: CheckQuestion {
            path: path_of(own.get_str("processor").unwrap_or("pipe")),
            variant: variant_of(own),
            json: own.get_flag("json"),
        },
    }
}

/// The call of `program` with these arguments.
fn program_call<'a>(own: &ArgMatches<'a>) -> Call<'a> {
    Call::Program {
        obj: own.get_str("obj").unwrap_or(""),
        asked: ProgramQuestion {
            variant: variant_of(own),
            size: memory_of(own),
            limit: limit_of(own),
        },
    }
}

/// The call of `run` with these arguments.
fn run_call<'a>(own: &ArgMatches<'a>) -> Call<'a> {
    Call::Run {
        hcl: own.get_str("hcl").unwrap_or(""),
        obj: own.get_str("obj").unwrap_or(""),
        asked: RunQuestion {
            variant: variant_of(own),
            size: memory_of(own),
            limit: limit_of(own),
            json: own.get_flag("json"),
            checked: !own.get_flag("unchecked"),
        },
    }
}

/// The call of `fault` with these arguments.
fn fault_call<'a>(own: &ArgMatches<'a>) -> Call<'a> {
    Call::Fault {
        file: own.get_str("file").unwrap_or(""),
        asked: FaultQuestion {
            path: asked_path(own.get_str("processor")),
            variant: variant_of(own),
            size: memory_of(own),
            json: own.get_flag("json"),
        },
    }
}

/// The call of `show` with these arguments.
fn show_call<'a>(own: &ArgMatches<'a>) -> Call<'a> {
    Call::Show {
        word: own.get_str("word"),
        json: own.get_flag("json"),
    }
}

/// Reads the arguments, the program's own name first. `None` if they name no command.
fn read<'a>(alloc: Global, words: &'a [String]) -> Result<Option<Call<'a>>, Error> {
    let matches = command(alloc)?.try_get_matches_from(words)?;
    let Some((name, own)) = matches.subcommand() else {
        return Ok(None);
    };
    Ok(match name {
        "check" => Some(check_call(own)),
        "program" => Some(program_call(own)),
        "run" => Some(run_call(own)),
        "fault" => Some(fault_call(own)),
        "show" => Some(show_call(own)),
        _ => None,
    })
}

/// What the arguments ask for, the program's own name first. If they form no call, prints the error or help message,
/// and returns the status in `Err`: 2 unless they asked for help.
pub fn call_of<'a, R: Print + Eprint>(
    rt: &R,
    alloc: Global,
    words: &'a [String],
) -> Result<Call<'a>, u8> {
    match read(alloc, words) {
        Ok(Some(call)) => Ok(call),
        Ok(None) => Err(2),
        Err(error) => {
            let _ = error.print(rt);
            match error.exit_code() {
                0 => Err(0),
                _ => Err(2),
            }
        }
    }
}
