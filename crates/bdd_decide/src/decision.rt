//! The first gate that is false at some valuation.
ghost use Rattle.std.specs.Prelude.{◌≡◌, ◌<◌, ◌≤◌, IfOk, length};
ghost use Rattle.bdd_decide.specs.Decisions.{AreGatesOfNet, IsGateDecision};
ghost use Rattle.bdd_decide.specs.Splitting.{AreTrueTo};

use crate::least::least_in;
use crate::pass::{PassResult, pass_in_order};
use crate::search::{SplittingPass, SubproblemPass, UnboundedPass, search};
use crate::subproblems::{CaseSplit, Part, split_of};
use nets::{Net, Valuation, all_variables};
use std::alloc::Global;
use y86_base::Memory;

/// A gate that is false at some valuation: its place in the list, and the least such valuation.
#[derive(Debug, PartialEq, Drop)]
pub struct Counterexample {
    pub place: usize,
    pub valuation: Valuation,
}

/// Orders of the variables for the diagrams. They serve speed alone: none of them changes the decision. An order that
/// lacks a variable isn't used.
#[derive(Clone, Copy, Debug)]
pub struct VariableOrders<'a> {
    /// For a pass over the whole net.
    pub whole: &'a [u32],
    /// For a part of the valuations.
    pub part: &'a [u32],
    /// For a part whose diagrams exceed their bounds: it is split again by the first four variables of this order.
    pub again: &'a [u32],
}

/// How the valuations are split at first (for the pipeline, by the kinds of its stages).
const FIRST: CaseSplit = CaseSplit { bits: 6, parts: 64 };

/// The maximal number of steps for all diagrams of a whole net together.
const STEPS: u64 = 1_400_000;

/// The maximal number of their nodes.
pub(crate) const NODES: u64 = 500_000;

/// Decides gates part by part.
#[tactic(auto, using(crate::proofs::Searching::all_true, crate::proofs::Searching::first_found, crate::proofs::Searching::not_none))]
pub fn decide_in_parts<P: SubproblemPass>(
    alloc: Global,
    net: &Net,
    gates: &[u64],
    how: &P,
) -> Result<Option<Counterexample>, Memory>
    requires gates { AreGatesOfNet net.now gates.now }
    ensures { IfOk result (IsGateDecision net.now gates.now) }
{
    let cut = split_of(FIRST, net.vars());
    let found = search(alloc, net, gates, cut, how)?;
    if found.place == gates.len() {
        return Ok(None);
    }
    let part = Part {
        bits: cut.bits,
        number: found.part,
    };
    match least_in(alloc, net, gates[found.place], part)? {
        Some(valuation) => Ok(Some(Counterexample {
            place: found.place,
            valuation,
        })),
        None => unreachable!(),
    }
}

/// Decides gates when those before a place are known to be true.
#[tactic(auto, using(crate::proofs::Deciding::later_gates, crate::proofs::Deciding::later_true, crate::proofs::Deciding::later_first))]
fn decide_from<P: SubproblemPass>(
    alloc: Global,
    net: &Net,
    gates: &[u64],
    from: usize,
    how: &P,
) -> Result<Option<Counterexample>, Memory>
    requires gates { AreGatesOfNet net.now gates.now }
    requires from { from ≤ length gates.now }
    requires earlier { AreTrueTo net.now gates.now from }
    ensures { IfOk result (IsGateDecision net.now gates.now) }
{
    match decide_in_parts(alloc, net, &gates[from..], how)? {
        Some(counter) => Ok(Some(Counterexample {
            place: from + counter.place,
            valuation: counter.valuation,
        })),
        None => Ok(None),
    }
}

/// Decides gates by a pass over the whole net, with its variables in the given order, and if that doesn't decide them,
/// part by part.
#[tactic(auto, using(crate::proofs::Deciding::alone_gates, crate::proofs::Deciding::alone_first, crate::proofs::Deciding::alone_not))]
fn decide_by<P: SubproblemPass>(
    alloc: Global,
    net: &Net,
    gates: &[u64],
    order: &[u32],
    how: &P,
) -> Result<Option<Counterexample>, Memory>
    requires gates { AreGatesOfNet net.now gates.now }
    ensures { IfOk result (IsGateDecision net.now gates.now) }
{
    match pass_in_order(alloc, net, gates, order, STEPS, NODES)? {
        PassResult::True => Ok(None),
        PassResult::False(k) => match decide_in_parts(alloc, net, &[gates[k]], how)? {
            Some(counter) => Ok(Some(Counterexample {
                place: k,
                valuation: counter.valuation,
            })),
            None => unreachable!(),
        },
        PassResult::Stopped(k) => decide_from(alloc, net, gates, k, how),
    }
}

/// The place of the first gate that is false at some valuation, with the least such valuation (variables by their
/// numbers, 0 before 1), or `None` if every gate is true at every valuation. The diagrams use the given orders.
pub fn decide_in_order(
    alloc: Global,
    net: &Net,
    gates: &[u64],
    orders: VariableOrders,
) -> Result<Option<Counterexample>, Memory>
    requires gates { AreGatesOfNet net.now gates.now }
    ensures { IfOk result (IsGateDecision net.now gates.now) }
{
    decide_by(
        alloc,
        net,
        gates,
        orders.whole,
        &SplittingPass {
            part: orders.part,
            again: orders.again,
        },
    )
}

/// Like `decide_in_order`, with the variables in the order of their numbers; no part is split again.
pub fn decide(alloc: Global, net: &Net, gates: &[u64]) -> Result<Option<Counterexample>, Memory>
    requires gates { AreGatesOfNet net.now gates.now }
    ensures { IfOk result (IsGateDecision net.now gates.now) }
{
    let order = all_variables(alloc, net.vars())?;
    decide_by(alloc, net, gates, order.as_slice(), &UnboundedPass)
}
