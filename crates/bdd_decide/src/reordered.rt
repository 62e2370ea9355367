//! A net with its variables in another order, in which its diagrams may be far smaller.
ghost use Rattle.std.specs.Prelude.{◌≡◌, IfOk, length};
ghost use Rattle.bdd_decide.specs.Decisions.{AreGatesOfNet};
ghost use Rattle.bdd_decide.specs.Splitting.{IsSubproblemOf};

use crate::subproblems::{Part, Subproblem, chosen, subproblem_of};
use nets::{Net, cofactor};
use std::alloc::Global;
use y86_base::Memory;

/// Some gates of a net, in a copy whose variables are in the given order. If that order lacks one of them, the copy
/// keeps the net's order.
#[tactic(auto, using(crate::proofs::Mirrors::part_stands))]
pub fn reordered(
    alloc: Global,
    net: &Net,
    gates: &[u64],
    order: &[u32],
) -> Result<Subproblem, Memory>
    requires gates { AreGatesOfNet net.now gates.now }
    ensures { IfOk result (IsSubproblemOf net.now gates.now (length gates.now) 0 0) }
{
    if order.len() as u64 == net.vars() as u64 {
        if let Some(copy) = cofactor(alloc, net, &[], order)? {
            let chosen = chosen(alloc, copy.gates.items(), gates, gates.len())?;
            return Ok(Subproblem {
                net: copy.net,
                gates: chosen,
            });
        }
    }
    let whole = Part { bits: 0, number: 0 };
    subproblem_of(alloc, net, gates, gates.len(), whole)
}
