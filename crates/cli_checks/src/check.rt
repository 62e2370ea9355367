//! `check seq`, `check seqplus` and `check pipe`: the verdict on the design of an HCL file.
ghost use Rattle.std.specs.Prelude.{◌≡◌, List, ℕ};
ghost use Rattle.dp_signals.specs.PipeTable.{pipe_rows};
ghost use Rattle.hcl_types.specs.Tables.{IsBoundDesign};
ghost use Rattle.cli_checks.specs.Answers.{check_pipe_plan, check_seq_plan};
ghost use Rattle.cli_checks.specs.Checks.{PipeChecks, SeqChecks};
ghost use Rattle.seq_plus.specs.Datapaths.{rows_of};
ghost use Rattle.cli_plans.specs.PlanFollowing.{FollowsPlanOver, WritesAnswerOn};

use crate::sequential::{decided, seq_text};
use cli_plans::{StopReason, pipe_file, seq_file, write_answer};
use cli_verdicts::{PipeVerdictText, control_stop, pipe_verdict};
use ctl_verdicts::CheckFault;
use hcl_types::{BoundDesign, SequentialDatapath};
use std::alloc::Global;
use wb_io::{Files, Sink};
use y86_base::Variant;

/// Decides a design for a sequential datapath, and writes the verdict.
#[tactic(auto, using(crate::proofs::Checks::said_yes, crate::proofs::Checks::said_no, crate::proofs::Checks::said_refusal))]
fn say_seq<'a, O: Sink>(
    alloc: Global,
    which: SequentialDatapath,
    name: &'a str,
    variant: Variant,
    bound: &BoundDesign,
    out: &mut O,
) -> Result<u8, StopReason<'a>>
    requires { IsBoundDesign (rows_of which) bound.now }
    ensures { WritesAnswerOn O.taken O.faults (SeqChecks which name.now variant bound.now.ordered.design.terms) out.old out.new result }
{
    match decided(alloc, which, variant, bound) {
        Ok(None) => write_answer(0, b"yes\n", out),
        Ok(Some(denial)) => match seq_text(alloc, which, bound, &denial) {
            Ok(text) => write_answer(1, text.as_slice(), out),
            Err(stop) => Err(stop),
        },
        Err(CheckFault::Ctl(fault)) => Err(control_stop(alloc, name, bound, fault)),
        Err(CheckFault::Memory) => Err(StopReason::Memory),
    }
}

/// `check seq` and `check seqplus`: decides whether an HCL file meets the obligations of SEQ or SEQ+. After a `yes` the
/// datapath under it does what the instructions mean, for every program.
pub fn check_seq_file<'a, F: Files, O: Sink>(
    alloc: Global,
    which: SequentialDatapath,
    name: &'a str,
    variant: Variant,
    files: &mut F,
    out: &mut O,
) -> Result<u8, StopReason<'a>>
    ensures { FollowsPlanOver F.told F.faults O.taken O.faults (check_seq_plan which name.now variant)
        files.old files.new out.old out.new result }
{
    let bound = match seq_file(alloc, which, name, files) {
        Ok(bound) => bound,
        Err(stop) => return Err(stop),
    };
    say_seq(alloc, which, name, variant, &bound, out)
}

/// Decides a design for PIPE, and writes the verdict.
#[tactic(auto, using(crate::proofs::Checks::said_pipe_yes, crate::proofs::Checks::said_pipe_no, crate::proofs::Checks::said_pipe_refusal))]
fn say_pipe<'a, O: Sink>(
    alloc: Global,
    name: &'a str,
    variant: Variant,
    bound: &BoundDesign,
    out: &mut O,
) -> Result<u8, StopReason<'a>>
    requires { IsBoundDesign pipe_rows bound.now }
    ensures { WritesAnswerOn O.taken O.faults (PipeChecks name.now variant bound.now.ordered.design.terms) out.old out.new result }
{
    match pipe_verdict(alloc, name, variant, bound) {
        Ok(PipeVerdictText::Yes(text)) => write_answer(0, text.as_slice(), out),
        Ok(PipeVerdictText::No(text)) => write_answer(1, text.as_slice(), out),
        Err(stop) => Err(stop),
    }
}

/// `check pipe`: decides whether an HCL file meets the obligations of PIPE. After a `yes` PIPE under it does what the
/// instructions mean, for every program that doesn't store over one of the next three instructions.
pub fn check_pipe_file<'a, F: Files, O: Sink>(
    alloc: Global,
    name: &'a str,
    variant: Variant,
    files: &mut F,
    out: &mut O,
) -> Result<u8, StopReason<'a>>
    ensures { FollowsPlanOver F.told F.faults O.taken O.faults (check_pipe_plan name.now variant)
        files.old files.new out.old out.new result }
{
    let bound = match pipe_file(alloc, name, files) {
        Ok(bound) => bound,
        Err(stop) => return Err(stop),
    };
    say_pipe(alloc, name, variant, &bound, out)
}
