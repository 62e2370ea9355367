//! Verdicts on PIPE as texts, and the stop at a design without control values.
ghost use Rattle.std.specs.Prelude.{◌≡◌, ◌≢◌, ◌≤◌, Err, IfErr, IfOk, List, OnErr, ℕ, length};
ghost use Rattle.ctl_atoms.specs.Atoms.{IsCtlFault};
ghost use Rattle.ctl_atoms.specs.declared.fault.CtlFault.TheVariants as cause;
ghost use Rattle.dp_signals.specs.PipeTable.{pipe_rows};
ghost use Rattle.hcl_types.specs.Tables.{IsBoundDesign, row_names};
ghost use Rattle.hcl_types.specs.declared.term.Term.{Term};
ghost use Rattle.verdict_text.specs.PipeLines.{pipe_no};
ghost use Rattle.cli_verdicts.specs.Verdicts.{IsPipeDecision, RefusesControl, IsPipeVerdictText};
ghost use Rattle.cli_plans.specs.PlanFollowing.{RefusesWith};
ghost use Rattle.cli_plans.specs.declared.stop_reason.StopReason.TheVariants.{Memory as WantOfMemory};

use cli_plans::{InputFault, StopReason, all_names};
use control_check::{CheckFault, Verdict, check_pipe};
use ctl_atoms::{Atom, CtlFault};
use hcl_types::BoundDesign;
use nets::Valuation;
use pipe_motion::Settings;
use std::alloc::Global;
use verdict_text::{pipe_acceptance, pipe_refusal};
use y86_base::Variant;

/// The stop at a design without control values.
#[tactic(auto, using(crate::proofs::Verdicts::mixed, crate::proofs::Verdicts::over))]
pub fn control_stop<'a>(
    alloc: Global,
    name: &'a str,
    bound: &BoundDesign,
    fault: CtlFault,
) -> StopReason<'a>
    requires { fault ≢ cause.Memory }
    ensures { (terms : List Term) → IsCtlFault bound.now.table.rows terms fault →
        RefusesWith (RefusesControl name.now bound.now.table.rows terms) result }
{
    match fault {
        CtlFault::Mixed(id) => match all_names(alloc, bound.table.rows.items(), &[id]) {
            Ok(names) => StopReason::Refused(
                name,
                InputFault::OfNames {
                    why: b"Mixed",
                    names,
                },
            ),
            Err(_) => StopReason::Memory,
        },
        CtlFault::AtomsOver64 => StopReason::Refused(
            name,
            InputFault::OfNames {
                why: b"AtomsOver64",
                names: Vec::new(alloc),
            },
        ),
        CtlFault::Memory => StopReason::Memory,
    }
}

/// A verdict on PIPE: the settings of an accepted design, or the text of a `no`.
#[derive(Debug, Drop)]
pub enum PipeDecision {
    Yes(Settings),
    No(Vec<u8>),
}

/// The text of a verdict on PIPE.
#[derive(Debug, Drop)]
pub enum PipeVerdictText {
    Yes(Vec<u8>),
    No(Vec<u8>),
}

/// The text of a `no` for PIPE, with the design's atoms.
fn pipe_no_text<'a>(
    alloc: Global,
    bound: &BoundDesign,
    rule: u32,
    valuation: &Valuation,
    list: &[Atom],
) -> Result<Vec<u8>, StopReason<'a>>
    requires ordered { IsBoundDesign pipe_rows bound.now }
    requires few { length list.now ≤ 64 }
    ensures text { IfOk result (λ text. text.items ≡ pipe_no (row_names pipe_rows) rule valuation.now.bits list.now) }
    ensures memory { OnErr result (result ≡ Err WantOfMemory) }
{
    match pipe_refusal(alloc, bound.table.rows.items(), rule, valuation, list) {
        Ok(text) => Ok(text),
        Err(_) => Err(StopReason::Memory),
    }
}

/// Decides a design for PIPE.
#[tactic(auto, using(crate::proofs::Verdicts::tells_no))]
pub fn pipe_decision<'a>(
    alloc: Global,
    name: &'a str,
    variant: Variant,
    bound: &BoundDesign,
) -> Result<PipeDecision, StopReason<'a>>
    requires { IsBoundDesign pipe_rows bound.now }
    ensures verdict { IfOk result (IsPipeDecision variant bound.now.ordered.design.terms) }
    ensures refused { IfErr result (RefusesWith (RefusesControl name.now pipe_rows bound.now.ordered.design.terms)) }
{
    match check_pipe(alloc, variant, &bound.ordered) {
        Ok(Verdict::Yes(settings)) => Ok(PipeDecision::Yes(settings)),
        Ok(
            Verdict::No {
                rule,
                valuation,
                atoms,
            },
        ) => match pipe_no_text(alloc, bound, rule, &valuation, atoms.items()) {
            Ok(text) => Ok(PipeDecision::No(text)),
            Err(stop) => Err(stop),
        },
        Err(CheckFault::Ctl(fault)) => Err(control_stop(alloc, name, bound, fault)),
        Err(CheckFault::Memory) => Err(StopReason::Memory),
    }
}

/// Decides a design for PIPE, and returns the text of the verdict.
#[tactic(auto, using(crate::proofs::Verdicts::tells_yes))]
pub fn pipe_verdict<'a>(
    alloc: Global,
    name: &'a str,
    variant: Variant,
    bound: &BoundDesign,
) -> Result<PipeVerdictText, StopReason<'a>>
    requires { IsBoundDesign pipe_rows bound.now }
    ensures verdict { IfOk result (IsPipeVerdictText variant bound.now.ordered.design.terms) }
    ensures refused { IfErr result (RefusesWith (RefusesControl name.now pipe_rows bound.now.ordered.design.terms)) }
{
    match pipe_decision(alloc, name, variant, bound) {
        Ok(PipeDecision::Yes(settings)) => match pipe_acceptance(alloc, &settings) {
            Ok(text) => Ok(PipeVerdictText::Yes(text)),
            Err(_) => Err(StopReason::Memory),
        },
        Ok(PipeDecision::No(text)) => Ok(PipeVerdictText::No(text)),
        Err(stop) => Err(stop),
    }
}
