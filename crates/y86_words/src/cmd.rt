//! The commands that words can form.
ghost use Rattle.std.specs.Prelude.{◌≡◌, IfOk, None, OnErr, Some, map, string_bytes};
ghost use Rattle.std.specs.Option.{option_map};
ghost use Rattle.y86_words.specs.Forms.{form_of};
ghost use Rattle.y86_words.specs.Views.{command_in};
ghost use Rattle.y86_words.specs.Wording.{IsInRange};

use crate::argument::found_in;
use crate::form::command_of;
use y86_base::Variant;

/// A command with its file names and numbers.
#[derive(Clone, Copy)]
pub enum Cmd<'a> {
    /// Prints the object text of an assembly file. `mem` is the size of the memory in bytes.
    Yas {
        asm: &'a str,
        mem: u64,
        variant: Variant,
    },
    /// Runs an object file at the level of instructions. `mem` is the size of the memory in bytes, and `limit` the most
    /// steps.
    Yis {
        obj: &'a str,
        mem: u64,
        limit: u64,
        variant: Variant,
    },
    /// Reads and prints an HCL file.
    Hcl {
        hcl: &'a str,
    },
    /// Runs an object file on SEQ under an HCL file. `mem` is the size of the memory in bytes, and `limit` the most
    /// cycles.
    Ssim {
        hcl: &'a str,
        obj: &'a str,
        mem: u64,
        limit: u64,
        variant: Variant,
    },
    /// Runs an object file on SEQ+ under an HCL file, as `Ssim` does on SEQ.
    Ssimp {
        hcl: &'a str,
        obj: &'a str,
        mem: u64,
        limit: u64,
        variant: Variant,
    },
    /// Runs an object file on PIPE under an HCL file, as `Ssim` does on SEQ. With `trace` it prints a line for each
    /// instruction that retires. With `checked` it first checks the HCL file, as `CheckPipe` does, and runs it only if
    /// it is accepted.
    Psim {
        hcl: &'a str,
        obj: &'a str,
        mem: u64,
        limit: u64,
        trace: bool,
        checked: bool,
        variant: Variant,
    },
    /// Decides whether an HCL file meets the 16 obligations of SEQ. If it does, SEQ under it does what the instructions
    /// mean, for every program.
    CheckSeq {
        hcl: &'a str,
        variant: Variant,
    },
    /// Decides the same for SEQ+.
    CheckPlus {
        hcl: &'a str,
        variant: Variant,
    },
    /// Decides whether an HCL file meets the 27 obligations of PIPE. If it does, PIPE under it does what the instructions
    /// mean, for every program that doesn't store over one of the next three instructions.
    CheckPipe {
        hcl: &'a str,
        variant: Variant,
    },
    /// Decides the same, and writes a certificate if the file is accepted.
    CertifyPipe {
        hcl: &'a str,
        variant: Variant,
    },
    /// Checks a certificate that a file is accepted, without deciding again.
    Recheck {
        hcl: &'a str,
        cert: &'a str,
        variant: Variant,
    },
    /// Tries `count` drawn valuations against the obligations of PIPE.
    Sample {
        hcl: &'a str,
        seed: u64,
        count: u64,
        variant: Variant,
    },
    /// Writes the obligations of PIPE under an HCL file as AIGER text.
    Aig {
        hcl: &'a str,
        variant: Variant,
    },
    /// Counts, for each output of an AIGER file, the drawn inputs at which it is 1.
    Aigrun {
        aag: &'a str,
        seed: u64,
    },
    /// Runs the generated program with this number of instructions at the level of instructions and on PIPE.
    Big {
        number: u64,
        hcl: &'a str,
        variant: Variant,
    },
}

/// The words form no command.
#[derive(Clone, Copy, Debug, PartialEq, Eq)]
pub struct Usage;

/// The command that the words after the program's own name form, if any.
#[tactic(auto, unfolding(crate::specs::Forms::form_of))]
fn command_in_words<'a>(words: &'a [String]) -> Option<Cmd<'a>>
    ensures { option_map command_in result ≡ form_of (map string_bytes words.now) }
{
    let Some((name, rest)) = words.split_first() else {
        return None;
    };
    match found_in(rest) {
        None => None,
        Some(found) => command_of(name.as_str(), &found),
    }
}

/// The command that the words after the program's own name form. It allocates no memory.
#[tactic(auto, using(crate::proofs::Legal::form_legal))]
pub fn words<'a>(words: &'a [String]) -> Result<Cmd<'a>, Usage>
    ensures command { IfOk result (λ command. form_of (map string_bytes words.now) ≡ Some (command_in command)) }
    ensures legal { IfOk result (λ command. IsInRange (command_in command)) }
    ensures usage { OnErr result (form_of (map string_bytes words.now) ≡ None) }
{
    match command_in_words(words) {
        Some(command) => Ok(command),
        None => Err(Usage),
    }
}
