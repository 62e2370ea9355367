//! Answers a call: what it prints, and its exit status.
ghost use Rattle.std.specs.Prelude.{◌≡◌, IfErr, IfOk};
ghost use Rattle.tell_cli.specs.Statuses.{IsFaulty, IsRight, IsWrong};
ghost use Rattle.tell_faults.specs.Stops.{status_of};

use crate::showing::show;
use std::alloc::Global;
use tell_checks::check;
use tell_faults::{Said, Stop, report_faults};
use tell_runs::{report_program, tell_run};
use tell_words::{Call, is_limit, is_size};
use wb_io::{Files, Sink, put_all};

/// The message for a memory whose size is no multiple of 8.
const ODD_SIZE: &str = "--mem takes a multiple of 8 from 64 to 1048576\n";

/// The message for a limit that is out of range.
const ODD_LIMIT: &str = "--limit takes 1 to 100000000\n";

/// The message for a file that is too long, behind its name.
const TOO_LONG: &str =
    ": the file is too long: over 65,536 bytes for HCL, over 1,048,576 for others\n";

/// Writes the output, and returns the status.
fn say<'a, O: Sink>(said: Said, out: &mut O) -> Result<u8, Stop<'a>>
    ensures said { IfOk result (λ status. status ≡ said.status) }
    ensures stop { IfErr result (λ stop. stop ≡ Stop.Write) }
{
    match put_all(out, said.text.as_slice()) {
        Ok(()) => Ok(said.status),
        Err(_) => Err(Stop::Write),
    }
}

/// Does what a call asks for, and returns the status.
fn answer<'a, F: Files, O: Sink>(
    alloc: Global,
    call: Call<'a>,
    files: &mut F,
    out: &mut O,
) -> Result<u8, Stop<'a>>
    ensures right { IfOk result (λ status. status ≡ 0 → IsRight (F.told files.old) call.entry) }
    ensures wrong { IfOk result (λ status. status ≡ 1 → IsWrong (F.told files.old) call.entry) }
    ensures faulty { IfOk result (λ status. status ≡ 5 → IsFaulty (F.told files.old) call.entry) }
    ensures stops { IfErr result (λ stop. status_of stop ≡ 5 → IsFaulty (F.told files.old) call.entry) }
{
    match call {
        Call::Check { hcl, asked } => match check(alloc, hcl, asked, files) {
            Ok(said) => say(said, out),
            Err(stop) => Err(stop),
        },
        Call::Program { obj, asked } => {
            if is_size(asked.size) {
                report_program(alloc, obj, asked, files, out)
            } else {
                Err(Stop::Usage(ODD_SIZE))
            }
        }
        Call::Run { hcl, obj, asked } => {
            if !is_size(asked.size) {
                return Err(Stop::Usage(ODD_SIZE));
            }
            if !is_limit(asked.limit) {
                return Err(Stop::Usage(ODD_LIMIT));
            }
            match tell_run(alloc, hcl, obj, &asked, files) {
                Ok(said) => say(said, out),
                Err(stop) => Err(stop),
            }
        }
        Call::Fault { file, asked } => {
            if !is_size(asked.size) {
                return Err(Stop::Usage(ODD_SIZE));
            }
            match report_faults(alloc, file, asked, files) {
                Ok(said) => say(said, out),
                Err(stop) => Err(stop),
            }
        }
        Call::Show { word, json } => say(show(alloc, word, json)?, out),
    }
}

/// Writes a stop on standard error, and returns its status.
fn tell_stop<E: Sink>(stop: &Stop<'_>, err: &mut E) -> u8
    ensures { result ≡ status_of stop.now }
{
    let (name, text) = match stop {
        Stop::Usage(text) => ("", text.as_bytes()),
        Stop::Read(name) => (*name, b": the file can't be read\n".as_slice()),
        Stop::Write => ("", b"".as_slice()),
        Stop::Fault(text) => ("", text.as_slice()),
        Stop::TooLong(name) => (*name, TOO_LONG.as_bytes()),
        Stop::Memory => ("", b"out of memory\n".as_slice()),
    };
    if put_all(err, name.as_bytes()).is_ok() {
        let _ = put_all(err, text);
    }
    stop.status()
}

/// Does what a call asks for, and returns the exit status of the program. Status 0 says what `IsRight` does, status 1 what
/// `IsWrong` does, and status 5 what `IsFaulty` does.
pub fn respond<F: Files, O: Sink, E: Sink>(
    alloc: Global,
    call: Call<'_>,
    files: &mut F,
    out: &mut O,
    err: &mut E,
) -> u8
    ensures right { result ≡ 0 → IsRight (F.told files.old) call.entry }
    ensures wrong { result ≡ 1 → IsWrong (F.told files.old) call.entry }
    ensures faulty { result ≡ 5 → IsFaulty (F.told files.old) call.entry }
{
    match answer(alloc, call, files, out) {
        Ok(status) => status,
        Err(stop) => tell_stop(&stop, err),
    }
}
