//! An order of a net's variables.
ghost use Rattle.std.specs.Prelude.{◌<◌, IfOk};
ghost use Rattle.std.specs.List.{range_with_len};
ghost use Rattle.std.specs.List.Sorted.{IsPermutation};

use crate::rank::{large_part_rank, registers_last_rank, stages_rank};
use nets::all_variables;
use pipe_fields::places;
use std::alloc::Global;
use y86_base::Memory;

/// How many register fields are interleaved, bit by bit: all first bits, then all second ones, and so on.
#[derive(Clone, Copy, Debug, PartialEq, Eq)]
pub enum Weave {
    /// None: the fields follow one another.
    Apart,
    /// Four, in the order of their variables: those of D and the destinations of E, and so on.
    Fours,
    /// Eight: those of D, E and M, and then those of W.
    Eights,
    /// All.
    Whole,
}

impl Weave {
    /// The number of interleaved fields.
    pub(crate) fn width(self) -> usize
        ensures { 0 < result }
    {
        match self {
            Weave::Apart => 1,
            Weave::Fours => 4,
            Weave::Eights => 8,
            Weave::Whole => places::REGISTER_COUNT,
        }
    }
}

/// How the variables are arranged.
#[derive(Clone, Copy, Debug, PartialEq, Eq)]
pub enum Layout {
    /// Stage by stage, the registers of each stage after its other fields.
    Stages,
    /// The icode in E first, and the registers of all stages last, four of their fields interleaved. This is for a
    /// part of the valuations that is split again by the first variables, because its diagrams are large. On the
    /// changed files with the largest diagrams, the icode in E was the best of the three in D, E and M.
    LargePart,
    /// The registers of all stages last. If registers of one stage are compared with each other or with constants,
    /// their fields are best one after another. If a file compares registers of several stages, that order doubles
    /// the diagrams with each bit between the compared ones, and the bits of the compared registers are best
    /// interleaved.
    RegistersLast(Weave),
}

fn rank(layout: Layout, variable: u32) -> usize {
    match layout {
        Layout::Stages => stages_rank(variable),
        Layout::LargePart => large_part_rank(variable),
        Layout::RegistersLast(weave) => registers_last_rank(weave.width(), variable),
    }
}

/// Each variable once: by rank, and within a rank by number.
pub fn order_for(alloc: Global, layout: Layout, vars: u32) -> Result<Vec<u32>, Memory>
    ensures { IfOk result (λ order. IsPermutation (range_with_len 0 vars) order.items) }
{
    let mut order = all_variables(alloc, vars)?;
    match order.sort_by_key(|variable| rank(layout, *variable)) {
        Ok(()) => Ok(order),
        Err(_) => Err(Memory),
    }
}
