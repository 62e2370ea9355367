//! The search through the parts of the valuations.
ghost use Rattle.std.specs.Prelude.{◌≡◌, ◌+◌, ◌<◌, ◌≤◌, ◌^◌, IfOk};
ghost use Rattle.bdd_decide.specs.Decisions.{AreGatesOfNet};
ghost use Rattle.bdd_decide.specs.Splitting.{IsPass, IsSearched};

use crate::pass::{PassResult, pass_in_order, run_pass};
use crate::reordered::reordered;
use crate::subproblems::{CaseSplit, Part, Subproblem, forced_subproblem, split_of};
use nets::Net;
use std::alloc::Global;
use y86_base::Memory;

/// The place of the first gate that is false, and the first part in which it is false: the result of the search after
/// all parts. If no gate is false, the place is the number of gates.
#[derive(Clone, Copy, Debug)]
pub struct FalseGate {
    pub place: usize,
    pub part: u64,
}

/// A way to pass over the gates of a part.
pub trait SubproblemPass {
    fn pass(&self, alloc: Global, part: &Subproblem) -> Result<PassResult, Memory>
        requires { AreGatesOfNet part.now.net part.now.gates }
        ensures { IfOk result (IsPass part.now.net part.now.gates) };
}

/// The pass in which the diagrams may use as many steps and nodes as they need.
#[derive(Clone, Copy, Debug)]
pub struct UnboundedPass;

impl SubproblemPass for UnboundedPass {
    fn pass(&self, alloc: Global, part: &Subproblem) -> Result<PassResult, Memory> {
        run_pass(alloc, &part.net, part.gates.items(), u64::MAX, u64::MAX)
    }
}

/// The pass in which a part whose diagrams exceed their bounds is split again.
#[derive(Clone, Copy, Debug)]
pub struct SplittingPass<'a> {
    /// The order of the variables for the diagrams of a part.
    pub part: &'a [u32],
    /// The order of the variables for a second split: by the first four of them.
    pub again: &'a [u32],
}

/// The maximal number of steps for the diagrams of a part before it is split again.
const PART_STEPS: u64 = 30_000;

/// How a part is split again.
const AGAIN: CaseSplit = CaseSplit { bits: 4, parts: 16 };

impl<'a> SubproblemPass for SplittingPass<'a> {
    fn pass(&self, alloc: Global, part: &Subproblem) -> Result<PassResult, Memory> {
        let gates = part.gates.items();
        match pass_in_order(alloc, &part.net, gates, self.part, PART_STEPS, u64::MAX)? {
            PassResult::Stopped(_) => pass_parts(alloc, &part.net, gates, self.again),
            pass => Ok(pass),
        }
    }
}

/// A pass over gates, part by part, by the first four variables of an order.
fn pass_parts(alloc: Global, net: &Net, gates: &[u64], order: &[u32]) -> Result<PassResult, Memory>
    requires gates { AreGatesOfNet net.now gates.now }
    ensures { IfOk result (IsPass net.now gates.now) }
{
    let copy = reordered(alloc, net, gates, order)?;
    let cut = split_of(AGAIN, copy.net.vars());
    let found = search(alloc, &copy.net, copy.gates.items(), cut, &UnboundedPass)?;
    if found.place == copy.gates.items().len() {
        Ok(PassResult::True)
    } else {
        Ok(PassResult::False(found.place))
    }
}

/// Searches another part, for the gates before the false one found so far.
#[tactic(auto, using(crate::proofs::Searching::search_zero, crate::proofs::Searching::search_none, crate::proofs::Searching::search_some))]
fn search_part<P: SubproblemPass>(
    alloc: Global,
    net: &Net,
    gates: &[u64],
    part: Part,
    so_far: FalseGate,
    how: &P,
) -> Result<FalseGate, Memory>
    requires gates { AreGatesOfNet net.now gates.now }
    requires bits { part.bits ≤ net.now.vars }
    requires part { part.number < 2 ^ part.bits }
    requires so_far { IsSearched net.now gates.now part.bits part.number so_far.place so_far.part }
    ensures { IfOk result (λ x. IsSearched net.now gates.now part.bits (part.number + 1) x.place x.part) }
{
    if so_far.place == 0 {
        return Ok(so_far);
    }
    let copy = forced_subproblem(alloc, net, gates, so_far.place, part)?;
    match how.pass(alloc, &copy)? {
        PassResult::True => Ok(so_far),
        PassResult::False(place) => Ok(FalseGate {
            place,
            part: part.number,
        }),
        PassResult::Stopped(_) => Err(Memory),
    }
}

/// Searches the parts in their order, in each only the gates before the first that is known to be false.
#[tactic(auto, using(crate::proofs::Searching::search_start))]
pub fn search<P: SubproblemPass>(
    alloc: Global,
    net: &Net,
    gates: &[u64],
    cut: CaseSplit,
    how: &P,
) -> Result<FalseGate, Memory>
    requires gates { AreGatesOfNet net.now gates.now }
    requires bits { cut.bits ≤ net.now.vars }
    requires parts { cut.parts ≡ 2 ^ cut.bits }
    ensures { IfOk result (λ x. IsSearched net.now gates.now cut.bits cut.parts x.place x.part) }
{
    let mut so_far = FalseGate {
        place: gates.len(),
        part: 0,
    };
    for p in 0..cut.parts {
        let part = Part {
            bits: cut.bits,
            number: p,
        };
        so_far = search_part(alloc, net, gates, part, so_far, how)?;
    }
    Ok(so_far)
}
