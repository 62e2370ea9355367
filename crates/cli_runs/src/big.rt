//! `big`: runs a generated program by the instructions and on PIPE under an HCL file, and compares the reports.
ghost use Rattle.std.specs.Prelude.{◌≡◌, ◌≤◌};
ghost use Rattle.dp_signals.specs.PipeTable.{pipe_rows};
ghost use Rattle.hcl_types.specs.Tables.{IsBoundDesign};
ghost use Rattle.wb_io.specs.Causes.{CountsFaults};
ghost use Rattle.wb_io.specs.Sinks.{AppendsText};
ghost use Rattle.cli_runs.specs.Answers.{big_plan};
ghost use Rattle.cli_runs.specs.Big.{BigAnswers, big_line, big_status};
ghost use Rattle.cli_plans.specs.PlanFollowing.{FollowsPlanOver, WritesAnswerOn};

use cli_plans::{StopReason, pipe_file};
use hcl_types::BoundDesign;
use prog_cosim::{CosimResult, cosimulate};
use std::alloc::Global;
use wb_io::{Failed, Files, Sink, put_pieces};
use y86_base::{Numeral, Variant};
use yis_run::flag;

/// Writes the line of program `n`.
#[tactic(auto, unfolding(crate::specs::Big::big_line))]
fn put_big<O: Sink>(n: u64, both: &CosimResult, out: &mut O) -> Result<(), Failed>
    ensures puts { AppendsText (O.taken out.old) (O.taken out.new) result (big_line n both.now) }
    ensures counts { CountsFaults (O.faults out.old) (O.faults out.new) result }
{
    let number = Numeral::decimal(n);
    let steps = Numeral::decimal(both.steps);
    let cycles = Numeral::decimal(both.cycles);
    put_pieces(
        out,
        &[
            b"big ",
            number.as_bytes(),
            b" steps ",
            steps.as_bytes(),
            b" cycles ",
            cycles.as_bytes(),
            b" same ",
            flag(both.same),
            b"\n",
        ],
    )
}

/// The exit status for both runs.
fn status_of_both(both: &CosimResult) -> u8
    ensures status { result ≡ big_status both.now }
    ensures low { result ≤ 1 }
{
    if both.same && both.halted { 0 } else { 1 }
}

/// Runs program `n` both ways under a design, and writes the line.
#[tactic(auto, using(crate::proofs::Bigs::said_whole, crate::proofs::Bigs::said_part))]
fn say_big<'a, O: Sink>(
    alloc: Global,
    n: u64,
    variant: Variant,
    bound: BoundDesign,
    out: &mut O,
) -> Result<u8, StopReason<'a>>
    requires least { 1 ≤ n }
    requires most { n ≤ 100000 }
    requires ordered { IsBoundDesign pipe_rows bound }
    ensures { WritesAnswerOn O.taken O.faults (BigAnswers variant bound.ordered.design.terms n) out.old out.new result }
{
    let BoundDesign { ordered, .. } = bound;
    let both = match cosimulate(alloc, variant, ordered, n) {
        Ok(both) => both,
        Err(_) => return Err(StopReason::Memory),
    };
    match put_big(n, &both, out) {
        Ok(()) => Ok(status_of_both(&both)),
        Err(_) => Err(StopReason::Write),
    }
}

/// `big`: runs program `n` by the instructions and on PIPE under an HCL file, and compares the reports. The file isn't checked first.
pub fn big_file<'a, F: Files, O: Sink>(
    alloc: Global,
    n: u64,
    name: &'a str,
    variant: Variant,
    files: &mut F,
    out: &mut O,
) -> Result<u8, StopReason<'a>>
    requires least { 1 ≤ n }
    requires most { n ≤ 100000 }
    ensures { FollowsPlanOver F.told F.faults O.taken O.faults (big_plan n name.now variant)
        files.old files.new out.old out.new result }
{
    let bound = match pipe_file(alloc, name, files) {
        Ok(bound) => bound,
        Err(stop) => return Err(stop),
    };
    say_big(alloc, n, variant, bound, out)
}
