//! `aig`: the obligations of an HCL file for PIPE as an AIGER text.
ghost use Rattle.std.specs.Prelude.{◌≡◌, IfErr, IfOk, List, ℕ};
ghost use Rattle.dp_signals.specs.PipeTable.{pipe_rows};
ghost use Rattle.hcl_types.specs.Tables.{IsBoundDesign};
ghost use Rattle.cli_obligations.specs.AigerTexts.{AigAnswers, IsAigOfDesign};
ghost use Rattle.cli_obligations.specs.Answers.{aig_plan};
ghost use Rattle.cli_verdicts.specs.Verdicts.{RefusesControl};
ghost use Rattle.cli_plans.specs.PlanFollowing.{FollowsPlanOver, RefusesWith, WritesAnswerOn};

use aiger_out::write;
use cli_plans::{StopReason, pipe_file, write_answer};
use cli_verdicts::control_stop;
use control_check::file_rules;
use ctl_verdicts::CheckFault;
use hcl_types::BoundDesign;
use std::alloc::Global;
use wb_io::{Files, Sink};
use y86_base::{Memory, Variant};

/// The obligations of a design as a text.
#[tactic(auto, using(crate::proofs::AigerTexts::tells))]
fn obligation_text<'a>(
    alloc: Global,
    name: &'a str,
    variant: Variant,
    bound: &BoundDesign,
) -> Result<Vec<u8>, StopReason<'a>>
    requires { IsBoundDesign pipe_rows bound.now }
    ensures text { IfOk result (λ text. IsAigOfDesign variant bound.now.ordered.design.terms text.items) }
    ensures refused { IfErr result (RefusesWith (RefusesControl name.now pipe_rows bound.now.ordered.design.terms)) }
{
    match file_rules(alloc, variant, &bound.ordered) {
        Ok(rules) => match write(alloc, &rules) {
            Ok(text) => Ok(text),
            Err(Memory) => Err(StopReason::Memory),
        },
        Err(CheckFault::Ctl(fault)) => Err(control_stop(alloc, name, bound, fault)),
        Err(CheckFault::Memory) => Err(StopReason::Memory),
    }
}

/// Writes the obligations of a design.
#[tactic(auto, using(crate::proofs::AigerTexts::said_obligations, crate::proofs::AigerTexts::said_refusal))]
fn say_obligations<'a, O: Sink>(
    alloc: Global,
    name: &'a str,
    variant: Variant,
    bound: &BoundDesign,
    out: &mut O,
) -> Result<u8, StopReason<'a>>
    requires { IsBoundDesign pipe_rows bound.now }
    ensures { WritesAnswerOn O.taken O.faults (AigAnswers name.now variant bound.now.ordered.design.terms) out.old out.new result }
{
    match obligation_text(alloc, name, variant, bound) {
        Ok(text) => write_answer(0, text.as_slice(), out),
        Err(stop) => Err(stop),
    }
}

/// `aig`: writes the obligations of an HCL file for PIPE at its settings, each as an output that is 1 where the
/// obligation is false.
pub fn aig_file<'a, F: Files, O: Sink>(
    alloc: Global,
    name: &'a str,
    variant: Variant,
    files: &mut F,
    out: &mut O,
) -> Result<u8, StopReason<'a>>
    ensures { FollowsPlanOver F.told F.faults O.taken O.faults (aig_plan name.now variant)
        files.old files.new out.old out.new result }
{
    let bound = match pipe_file(alloc, name, files) {
        Ok(bound) => bound,
        Err(stop) => return Err(stop),
    };
    say_obligations(alloc, name, variant, &bound, out)
}
