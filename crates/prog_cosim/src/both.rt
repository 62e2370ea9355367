//! A generated program, run by the instructions and on PIPE under a design.
ghost use Rattle.std.specs.Prelude.{◌≡◌, ◌↔◌, ◌≤◌, true, IfOk};
ghost use Rattle.dp_signals.specs.PipeTable.{pipe_rows};
ghost use Rattle.hcl_types.specs.Tables.{IsBound, IsOrderOf};
ghost use Rattle.prog_cosim.specs.Cosimulation.{IsCosimulation};

use crate::reports::same_reports;
use dp_signals::constant_words;
use hcl_compile::compile;
use hcl_types::OrderedDesign;
use pipe_path::Pipe;
use prog_gen::program;
use retire_trace::drive;
use std::alloc::Global;
use wb_io::MemSink;
use y86_base::{Memory, Stat, Variant};
use y86_isa::Machine;
use yis_run::{End, run};

/// The outcome of the two runs of a generated program.
#[derive(Clone, Copy, Debug, PartialEq, Eq)]
pub struct CosimResult {
    /// How many instructions the run of instructions executed.
    pub steps: u64,
    /// How many cycles the pipeline ran.
    pub cycles: u64,
    /// Whether both reports are the same bytes.
    pub same: bool,
    /// Whether both runs ended with HLT.
    pub halted: bool,
}

/// Whether two runs both ended with a halt.
fn are_halts(one: Stat, other: Stat) -> bool
    ensures { (result ≡ true) ↔ ((one ≡ Stat.Hlt) × (other ≡ Stat.Hlt)) }
{
    matches!(one, Stat::Hlt) && matches!(other, Stat::Hlt)
}

/// Runs program `n` by the instructions and on PIPE under a design, each for at most 10n + 100 steps or cycles, and
/// compares the reports. Their steps are the instructions and the retired records. All memory of the runs is
/// allocated before the first step, that of the reports after the last.
pub fn cosimulate(
    alloc: Global,
    variant: Variant,
    ordered: OrderedDesign,
    n: u64,
) -> Result<CosimResult, Memory>
    requires least { 1 ≤ n }
    requires most { n ≤ 100000 }
    requires bound { IsBound pipe_rows ordered.design.terms }
    requires order { IsOrderOf pipe_rows ordered.design.terms ordered.order.ids }
    ensures { IfOk result (λ b. IsCosimulation variant ordered.design.terms n b) }
{
    let limit = 10 * n + 100;
    let Ok(first) = program(alloc, n) else {
        return Err(Memory);
    };
    let Ok(image) = first.copy(alloc) else {
        return Err(Memory);
    };
    let Ok(other_image) = first.copy(alloc) else {
        return Err(Memory);
    };
    let Ok(compiled) = compile(alloc, &ordered, &constant_words()) else {
        return Err(Memory);
    };
    let mut machine = Machine::start(image);
    let ran = run(variant, &mut machine, limit);
    let mut pipe = Pipe::new(variant, ordered, compiled, other_image);
    let mut no_trace = MemSink::new(alloc, Vec::new(alloc));
    let Ok(drove) = drive(&mut pipe, limit, false, &mut no_trace) else {
        return Err(Memory);
    };
    let one = End::of(&machine);
    let other = pipe.end();
    match same_reports(alloc, &first, &one, ran.steps, &other, drove.retired) {
        Ok(same) => Ok(CosimResult {
            steps: ran.steps,
            cycles: drove.cycles,
            same,
            halted: are_halts(one.stat, drove.end),
        }),
        Err(Memory) => Err(Memory),
    }
}
