//! The top call: shows what the words select, and returns the status.
ghost use Rattle.std.specs.Prelude.{◌≡◌, ◌≤◌, ◌↔◌, IfErr, IfOk, IfSome, None, Some, map, string_bytes};
ghost use Rattle.std.specs.IoError.{error_kind};
ghost use Rattle.std.specs.Option.{option_map};
ghost use Rattle.y86_base.specs.Image.{IsSize};
ghost use Rattle.cli_plans.specs.PlanFollowing.{OnCall, OnFilesAndSink, OnSink};
ghost use Rattle.cli_plans.specs.Calls.{WroteError, words_behind};
ghost use Rattle.cli_plans.specs.Stops.{status_of};
ghost use Rattle.y86_words.specs.Forms.{form_of};
ghost use Rattle.y86_words.specs.Views.{command_in};
ghost use Rattle.y86_words.specs.Wording.{IsInRange};
ghost use Rattle.y86_stages.specs.ShowContract.{ShowContract, ShowOutcome, request_in};
ghost use Rattle.y86_stages.specs.ShowContract as spec;
ghost use Rattle.y86_stages.specs.ScannedWords.{read_in, read_of};
ghost use Rattle.y86_stages.specs.ScannedWords as reading;

use crate::reading::{ScannedArguments, read_words};
use crate::request::{RunRequest, ShowRequest};
use crate::running::show;
use cli_plans::{Status, StopReason, report_stop, unreadable, words_behind};
use hcl_types::Datapath;
use pipe_stage_text::CycleRange;
use std::alloc::Global;
use std::env::Args;
use std::io;
use std::io::ErrorKind;
use wb_io::{Files, Sink, put_all};
use y86_words::{Cmd, Usage, words};

/// The cycles that are shown: all, unless the options limit them.
fn window_of(r: &ScannedArguments) -> CycleRange
    ensures { result ≡ reading.window_of (read_in r.now) }
{
    CycleRange {
        from: r.from.unwrap_or(1),
        to: r.to.unwrap_or(u64::MAX),
        diagram: r.diagram,
    }
}

/// The run of a command of `psim`, if it asks for no trace and no check.
fn request_of<'a>(command: Cmd<'a>) -> Option<RunRequest<'a>>
    requires { IsInRange (command_in command) }
    ensures request { option_map request_in result ≡ spec.request_of (Some (command_in command.entry)) }
    ensures legal { IfSome result (λ r. IsSize r.memory × (r.limit ≤ 100000000)) }
{
    match command {
        Cmd::Psim {
            hcl,
            obj,
            mem,
            limit,
            trace,
            checked,
            variant,
        } => {
            if trace || checked {
                return None;
            }
            Some(RunRequest {
                hcl,
                object: obj,
                memory: mem,
                limit,
                variant,
            })
        }
        _ => None,
    }
}

/// Shows the run that the words of `psim` name.
#[tactic(auto, unfolding(crate::specs::ShowContract::ShowOutcome))]
fn show_words<'a, F: Files, O: Sink>(
    alloc: Global,
    processor: Datapath,
    psim_words: &'a [String],
    window: &CycleRange,
    files: &mut F,
    out: &mut O,
) -> Result<Status, StopReason<'a>>
    ensures { OnFilesAndSink F.told F.faults O.taken O.faults (ShowOutcome processor (spec.request_of (form_of (map string_bytes psim_words.now))) window.now)
        files.old files.new out.old out.new result }
{
    let command = match words(psim_words) {
        Ok(command) => command,
        Err(Usage) => return Err(StopReason::Usage),
    };
    match request_of(command) {
        None => Err(StopReason::Usage),
        Some(run) => {
            let request = ShowRequest {
                processor,
                run,
                window: *window,
            };
            show(alloc, request, files, out)
        }
    }
}

/// Reports a stop on standard error, and returns its status.
#[tactic(auto, using(cli_plans::proofs::Told::told_whole, cli_plans::proofs::Told::told_part))]
fn tell_stop<E: Sink>(stop: &StopReason<'_>, err: &mut E) -> Status
    ensures status { result ≡ status_of stop.now }
    ensures line { OnSink E.taken E.faults WroteError err.old err.new (spec.stop_line stop.now) }
    ensures nothing_for_a_write { status_of stop.now ≡ 4 → err.new ≡ err.old }
{
    match stop {
        StopReason::Usage => {
            match put_all(
                err,
                b"usage: y86-stages HCL OBJ [--seq|--seqplus] [--full] [--mem N] [--limit N] [--from N] [--to N] [--diagram]\n",
            ) {
                Ok(()) => {}
                Err(_) => {}
            }
            2
        }
        _ => report_stop(stop, err),
    }
}

/// The program: shows what the words after its own name select, over any files and sinks, and returns its exit status.
#[tactic(auto, using(crate::proofs::Ended::called_usage, crate::proofs::Ended::called_memory, crate::proofs::Ended::called_done, crate::proofs::Ended::called_stopped))]
pub fn run<F: Files, O: Sink, E: Sink>(
    alloc: Global,
    own_words: &[String],
    files: &mut F,
    out: &mut O,
    err: &mut E,
) -> Status
    ensures { OnCall F.told F.faults O.taken O.faults E.taken E.faults (ShowContract (read_of (map string_bytes own_words.now)))
        files.old files.new out.old out.new err.old err.new result }
{
    let reading = match read_words(alloc, own_words) {
        Ok(Some(reading)) => reading,
        Ok(None) => return tell_stop(&StopReason::Usage, err),
        Err(_) => return tell_stop(&StopReason::Memory, err),
    };
    let window = window_of(&reading);
    match show_words(
        alloc,
        reading.processor,
        reading.words.as_slice(),
        &window,
        files,
        out,
    ) {
        Ok(status) => status,
        Err(stop) => tell_stop(&stop, err),
    }
}

/// The same on the words as the system passes them, the program's own name first. Words that can't be read aren't
/// valid.
#[tactic(auto, using(crate::proofs::Ended::called_usage, crate::proofs::Ended::called_memory))]
pub fn call<F: Files, O: Sink, E: Sink>(
    alloc: Global,
    args: io::Result<Args>,
    files: &mut F,
    out: &mut O,
    err: &mut E,
) -> Status
    ensures called { IfOk args (λ given. OnCall F.told F.faults O.taken O.faults E.taken E.faults (ShowContract (read_of (words_behind given)))
        files.old files.new out.old out.new err.old err.new result) }
    ensures unread { IfErr args (λ error. OnCall F.told F.faults O.taken O.faults E.taken E.faults (ShowContract None)
        files.old files.new out.old out.new err.old err.new result) }
    ensures unread_memory { IfErr args (λ error. (result ≡ 6) ↔ (error_kind error ≡ ErrorKind.OutOfMemory)) }
{
    let args = match args {
        Ok(args) => args,
        Err(error) => return tell_stop(&unreadable(&error), err),
    };
    match words_behind(alloc, args) {
        Ok(words) => run(alloc, words.as_slice(), files, out, err),
        Err(_) => tell_stop(&StopReason::Memory, err),
    }
}
