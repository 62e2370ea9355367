//! `check pipe` with `--cert`: the verdict on the design of an HCL file, with a certificate if it is accepted.
ghost use Rattle.std.specs.Prelude.{◌≡◌, IfErr, IfOk, List, ℕ};
ghost use Rattle.dp_signals.specs.PipeTable.{pipe_rows};
ghost use Rattle.hcl_types.specs.Tables.{IsBoundDesign};
ghost use Rattle.cli_obligations.specs.Answers.{certify_pipe_plan};
ghost use Rattle.cli_obligations.specs.Certified.{IsCertificateOrNo, PipeCertifies};
ghost use Rattle.cli_verdicts.specs.Verdicts.{RefusesControl};
ghost use Rattle.cli_plans.specs.PlanFollowing.{FollowsPlanOver, RefusesWith, WritesAnswerOn};

use cert_log::certify;
use cli_plans::{StopReason, pipe_file, write_answer};
use cli_verdicts::{PipeDecision, PipeVerdictText, pipe_decision};
use hcl_types::BoundDesign;
use std::alloc::Global;
use wb_io::{Files, Sink};
use y86_base::Variant;

/// Decides a design for PIPE, and returns a certificate that it is accepted, or the text of a `no`.
#[tactic(auto, using(crate::proofs::Certified::meets, crate::proofs::Certified::certified))]
fn certificate<'a>(
    alloc: Global,
    name: &'a str,
    variant: Variant,
    bound: &BoundDesign,
) -> Result<PipeVerdictText, StopReason<'a>>
    requires { IsBoundDesign pipe_rows bound.now }
    ensures text { IfOk result (IsCertificateOrNo variant bound.now.ordered.design.terms) }
    ensures refused { IfErr result (RefusesWith (RefusesControl name.now pipe_rows bound.now.ordered.design.terms)) }
{
    match pipe_decision(alloc, name, variant, bound) {
        Ok(PipeDecision::Yes(settings)) => {
            match certify(alloc, variant, &bound.ordered, settings) {
                Ok(text) => Ok(PipeVerdictText::Yes(text)),
                Err(_) => Err(StopReason::Memory),
            }
        }
        Ok(PipeDecision::No(text)) => Ok(PipeVerdictText::No(text)),
        Err(stop) => Err(stop),
    }
}

/// Decides a design for PIPE, and writes a certificate that it is accepted, or a `no`.
#[tactic(auto, using(crate::proofs::Certified::said_certificate, crate::proofs::Certified::said_no, crate::proofs::Certified::said_refusal))]
fn say_certificate<'a, O: Sink>(
    alloc: Global,
    name: &'a str,
    variant: Variant,
    bound: &BoundDesign,
    out: &mut O,
) -> Result<u8, StopReason<'a>>
    requires { IsBoundDesign pipe_rows bound.now }
    ensures { WritesAnswerOn O.taken O.faults (PipeCertifies name.now variant bound.now.ordered.design.terms) out.old out.new result }
{
    match certificate(alloc, name, variant, bound) {
        Ok(PipeVerdictText::Yes(text)) => write_answer(0, text.as_slice(), out),
        Ok(PipeVerdictText::No(text)) => write_answer(1, text.as_slice(), out),
        Err(stop) => Err(stop),
    }
}

/// `check pipe` with `--cert`: decides whether an HCL file meets the obligations of PIPE, and if it does writes a
/// certificate. What a `yes` says holds then, too.
pub fn certify_pipe_file<'a, F: Files, O: Sink>(
    alloc: Global,
    name: &'a str,
    variant: Variant,
    files: &mut F,
    out: &mut O,
) -> Result<u8, StopReason<'a>>
    ensures { FollowsPlanOver F.told F.faults O.taken O.faults (certify_pipe_plan name.now variant)
        files.old files.new out.old out.new result }
{
    let bound = match pipe_file(alloc, name, files) {
        Ok(bound) => bound,
        Err(stop) => return Err(stop),
    };
    say_certificate(alloc, name, variant, &bound, out)
}
