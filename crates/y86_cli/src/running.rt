//! Does the command that the arguments form, and returns the status.
ghost use Rattle.std.specs.Prelude.{◌≡◌, None, map, string_bytes};
ghost use Rattle.cli_plans.specs.PlanFollowing.{FollowsPlanOver, OnCall, OnFilesAndSink};
ghost use Rattle.y86_cli.specs.Answers.{plan_of};
ghost use Rattle.y86_cli.specs.CallContract.{CommandOutcome, CallContract};
ghost use Rattle.y86_words.specs.Forms.{form_of};
ghost use Rattle.y86_words.specs.Views.{command_in};
ghost use Rattle.y86_words.specs.Wording.{IsInRange};

use cli_checks::{check_pipe_file, check_seq_file};
use cli_obligations::{
    SampleRequest, aig_file, aigrun_file, certify_pipe_file, recheck_certificate, sample_file,
};
use cli_plans::{Status, StopReason, report_stop};
use cli_runs::{
    PipeRequest, RunRequest, big_file, hcl_file, psim_file, ssim_file, yas_file, yis_file,
};
use hcl_types::SequentialDatapath;
use std::alloc::Global;
use wb_io::{Files, Sink};
use y86_words::{Cmd, Usage, words};

/// Does a command, up to the first stop.
fn execute<'a, F: Files, O: Sink>(
    alloc: Global,
    command: Cmd<'a>,
    files: &mut F,
    out: &mut O,
) -> Result<Status, StopReason<'a>>
    requires { IsInRange (command_in command) }
    ensures { FollowsPlanOver F.told F.faults O.taken O.faults (plan_of (command_in command.entry))
        files.old files.new out.old out.new result }
{
    match command {
        Cmd::Yas { asm, mem, variant } => yas_file(alloc, asm, mem, variant, files, out),
        Cmd::Yis {
            obj: object,
            mem: memory,
            limit,
            variant,
        } => {
            let request = RunRequest {
                object,
                memory,
                limit,
                variant,
            };
            yis_file(alloc, request, files, out)
        }
        Cmd::Hcl { hcl } => hcl_file(alloc, hcl, files, out),
        Cmd::Ssim {
            hcl,
            obj: object,
            mem: memory,
            limit,
            variant,
        } => {
            let request = RunRequest {
                object,
                memory,
                limit,
                variant,
            };
            ssim_file(alloc, SequentialDatapath::Seq, hcl, request, files, out)
        }
        Cmd::Ssimp {
            hcl,
            obj: object,
            mem: memory,
            limit,
            variant,
        } => {
            let request = RunRequest {
                object,
                memory,
                limit,
                variant,
            };
            ssim_file(alloc, SequentialDatapath::SeqPlus, hcl, request, files, out)
        }
        Cmd::Psim {
            hcl,
            obj: object,
            mem: memory,
            limit,
            trace,
            checked,
            variant,
        } => {
            let run = RunRequest {
                object,
                memory,
                limit,
                variant,
            };
            let request = PipeRequest {
                hcl,
                run,
                trace,
                checked,
            };
            psim_file(alloc, request, files, out)
        }
        Cmd::CheckSeq { hcl, variant } => {
            check_seq_file(alloc, SequentialDatapath::Seq, hcl, variant, files, out)
        }
        Cmd::CheckPlus { hcl, variant } => {
            check_seq_file(alloc, SequentialDatapath::SeqPlus, hcl, variant, files, out)
        }
        Cmd::CheckPipe { hcl, variant } => check_pipe_file(alloc, hcl, variant, files, out),
        Cmd::CertifyPipe { hcl, variant } => certify_pipe_file(alloc, hcl, variant, files, out),
        Cmd::Recheck { hcl, cert, variant } => recheck_certificate(
            alloc, hcl, cert, variant, files, out,
        ),
        Cmd::Sample {
            hcl,
            seed,
            count,
            variant,
        } => {
            let request = SampleRequest {
                hcl,
                seed,
                count,
                variant,
            };
            sample_file(alloc, request, files, out)
        }
        Cmd::Aig { hcl, variant } => aig_file(alloc, hcl, variant, files, out),
        Cmd::Aigrun { aag, seed } => aigrun_file(alloc, aag, seed, files, out),
        Cmd::Big {
            number,
            hcl,
            variant,
        } => big_file(alloc, number, hcl, variant, files, out),
    }
}

/// Does what the words say, up to the first stop.
#[tactic(auto, using(crate::proofs::Ran::no_command, crate::proofs::Ran::command_ended))]
fn outcome<'a, F: Files, O: Sink>(
    alloc: Global,
    command_words: &'a [String],
    files: &mut F,
    out: &mut O,
) -> Result<Status, StopReason<'a>>
    ensures { OnFilesAndSink F.told F.faults O.taken O.faults (CommandOutcome (form_of (map string_bytes command_words.now)))
        files.old files.new out.old out.new result }
{
    match words(command_words) {
        Err(Usage) => Err(StopReason::Usage),
        Ok(command) => execute(alloc, command, files, out),
    }
}

/// The program: does the command that the words after the program's name form, over any files and sinks, and returns
/// the status that the program ends with.
#[tactic(auto, using(crate::proofs::Ran::ran_done, crate::proofs::Ran::ran_stopped, crate::proofs::Ran::usage_where, crate::proofs::Ran::usage_done))]
pub fn run<F: Files, O: Sink, E: Sink>(
    alloc: Global,
    words: &[String],
    files: &mut F,
    out: &mut O,
    err: &mut E,
) -> Status
    ensures ran { OnCall F.told F.faults O.taken O.faults E.taken E.faults (CallContract (form_of (map string_bytes words.now)))
        files.old files.new out.old out.new err.old err.new result }
    // The status is 2 whenever the words form no command.
    ensures usage { form_of (map string_bytes words.now) ≡ None → result ≡ 2 }
{
    match outcome(alloc, words, files, out) {
        Ok(status) => status,
        Err(stop) => report_stop(&stop, err),
    }
}
