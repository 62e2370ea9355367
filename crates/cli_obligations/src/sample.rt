//! `sample`: tries drawn control valuations against the obligations of an HCL file for PIPE.
ghost use Rattle.std.specs.Prelude.{◌≡◌, ◌≤◌, IfErr, IfOk, List, ℕ};
ghost use Rattle.dp_signals.specs.PipeTable.{pipe_rows};
ghost use Rattle.hcl_types.specs.Tables.{IsBoundDesign};
ghost use Rattle.cli_obligations.specs.Answers.{sample_plan};
ghost use Rattle.cli_verdicts.specs.Verdicts.{RefusesControl};
ghost use Rattle.cli_plans.specs.PlanFollowing.{FollowsPlanOver, RefusesWith, WritesAnswerOn};
ghost use Rattle.cli_plans.specs.Plan.{done};
ghost use Rattle.cli_obligations.specs.Samples.{IsSampled, SampleAnswers, found_line, none_line};

use cli_plans::{StopReason, pipe_file};
use cli_verdicts::control_stop;
use control_check::{CheckFault, file_rules};
use hcl_types::BoundDesign;
use lane_eval::{Found, first_false};
use std::alloc::Global;
use wb_io::{Files, Sink, put_pieces};
use y86_base::{Memory, Numeral, Variant};

/// The parameters of `sample`.
#[derive(Clone, Copy, Debug)]
pub struct SampleRequest<'a> {
    /// The name of the HCL file.
    pub hcl: &'a str,
    /// The seed that the valuations are drawn from.
    pub seed: u64,
    /// The most valuations that are drawn.
    pub count: u64,
    /// The instruction set.
    pub variant: Variant,
}

/// The first drawn valuation at which an obligation of a design is false.
fn sampled<'a>(
    alloc: Global,
    request: SampleRequest<'a>,
    bound: &BoundDesign,
) -> Result<Option<Found>, StopReason<'a>>
    requires { IsBoundDesign pipe_rows bound.now }
    ensures found { IfOk result (IsSampled request.entry.variant bound.now.ordered.design.terms request.entry.seed request.entry.count) }
    ensures refused { IfErr result (RefusesWith (RefusesControl request.entry.hcl.now pipe_rows bound.now.ordered.design.terms)) }
{
    match file_rules(alloc, request.variant, &bound.ordered) {
        Ok(rules) => match first_false(alloc, &rules, request.seed, request.count) {
            Ok(found) => Ok(found),
            Err(Memory) => Err(StopReason::Memory),
        },
        Err(CheckFault::Ctl(fault)) => Err(control_stop(alloc, request.hcl, bound, fault)),
        Err(CheckFault::Memory) => Err(StopReason::Memory),
    }
}

/// Writes that no obligation is false at this number of valuations.
#[tactic(auto, unfolding(crate::specs::Samples::none_line))]
fn say_none<'a, O: Sink>(count: u64, out: &mut O) -> Result<u8, StopReason<'a>>
    ensures { WritesAnswerOn O.taken O.faults (λ a. a ≡ done 0 (none_line count)) out.old out.new result }
{
    let number = Numeral::decimal(count);
    match put_pieces(out, &[b"none in ", number.as_bytes(), b"\n"]) {
        Ok(()) => Ok(0),
        Err(_) => Err(StopReason::Write),
    }
}

/// Writes which obligation is false at which valuation.
#[tactic(auto, unfolding(crate::specs::Samples::found_line))]
fn say_found<'a, O: Sink>(found: Found, out: &mut O) -> Result<u8, StopReason<'a>>
    ensures { WritesAnswerOn O.taken O.faults (λ a. a ≡ done 1 (found_line found.index found.rule)) out.old out.new result }
{
    let index = Numeral::decimal(found.index);
    let rule = Numeral::decimal(u64::from(found.rule));
    match put_pieces(
        out,
        &[b"found ", index.as_bytes(), b" O", rule.as_bytes(), b"\n"],
    ) {
        Ok(()) => Ok(1),
        Err(_) => Err(StopReason::Write),
    }
}

/// Samples a design, and writes the result.
#[tactic(auto, using(crate::proofs::Samples::said_none, crate::proofs::Samples::said_found, crate::proofs::Samples::said_sample_refusal))]
fn say_sample<'a, O: Sink>(
    alloc: Global,
    request: SampleRequest<'a>,
    bound: &BoundDesign,
    out: &mut O,
) -> Result<u8, StopReason<'a>>
    requires { IsBoundDesign pipe_rows bound.now }
    ensures { WritesAnswerOn O.taken O.faults (SampleAnswers request.entry.hcl.now request.entry.variant bound.now.ordered.design.terms request.entry.seed request.entry.count)
        out.old out.new result }
{
    match sampled(alloc, request, bound) {
        Ok(None) => say_none(request.count, out),
        Ok(Some(found)) => say_found(found, out),
        Err(stop) => Err(stop),
    }
}

/// `sample`: tries drawn valuations against the obligations of an HCL file for PIPE, at its settings.
pub fn sample_file<'a, F: Files, O: Sink>(
    alloc: Global,
    request: SampleRequest<'a>,
    files: &mut F,
    out: &mut O,
) -> Result<u8, StopReason<'a>>
    ensures { FollowsPlanOver F.told F.faults O.taken O.faults (sample_plan request.entry.hcl.now request.entry.seed request.entry.count request.entry.variant)
        files.old files.new out.old out.new result }
{
    let bound = match pipe_file(alloc, request.hcl, files) {
        Ok(bound) => bound,
        Err(stop) => return Err(stop),
    };
    say_sample(alloc, request, &bound, out)
}
