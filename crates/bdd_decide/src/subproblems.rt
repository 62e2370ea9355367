//! The parts of the valuations by their first bits.
ghost use Rattle.std.specs.Prelude.{◌≡◌, ℕ, List, ◌<◌, ◌≤◌, ◌^◌, false, get_or, IfOk, length};
ghost use Rattle.nets.specs.Nets.{Gates};
ghost use Rattle.net_fields.specs.Spelling.{spell};
ghost use Rattle.bdd_decide.specs.Decisions.{AreGatesOfNet};
ghost use Rattle.bdd_decide.specs.Splitting.{AreChosen, AreSourcesIn, IsSubproblemOf};

use nets::{Net, Replacement, forced, substitute};
use std::alloc::Global;
use y86_base::{Items, Memory};

/// The number of first bits by which the valuations are split, and the number of parts.
#[derive(Clone, Copy, Debug)]
pub struct CaseSplit {
    pub bits: u32,
    pub parts: u64,
}

/// A part of the valuations: those whose first bits spell its number.
#[derive(Clone, Copy, Debug)]
pub struct Part {
    pub bits: u32,
    pub number: u64,
}

/// The split for `vars` variables. If there are fewer variables than bits, the valuations aren't split.
pub fn split_of(cut: CaseSplit, vars: u32) -> CaseSplit
    requires { cut.parts ≡ 2 ^ cut.bits }
    ensures parts { result.parts ≡ 2 ^ result.bits }
    ensures bits { result.bits ≤ vars }
{
    if vars < cut.bits {
        CaseSplit { bits: 0, parts: 1 }
    } else {
        cut
    }
}

/// One of the bits of a part, the most significant one first.
#[tactic(auto, using(crate::proofs::Bits::bit_before, crate::proofs::Bits::bit_last))]
fn bit_of(part: u64, bits: u32, i: u32) -> bool
    requires { i < bits }
    ensures { result ≡ get_or (spell bits part) i false }
{
    let mut rest = part;
    let mut left = bits;
    while left > i + 1 {
        rest /= 2;
        left -= 1;
    }
    rest % 2 == 1
}

/// The replacements of the variables in the copy for a part.
pub fn sources_in(alloc: Global, part: Part, vars: u32) -> Result<Vec<Replacement>, Memory>
    ensures { IfOk result (λ to. AreSourcesIn part.bits part.number vars to.items) }
{
    let mut to: Vec<Replacement> = Vec::new(alloc);
    for i in 0..vars {
        let source = if i < part.bits {
            Replacement::Const(bit_of(part.number, part.bits, i))
        } else {
            Replacement::Var(i)
        };
        if to.push(source).is_err() {
            return Err(Memory);
        }
    }
    Ok(to)
}

/// A copy of a net, and gates of it.
#[derive(Drop)]
pub struct Subproblem {
    pub net: Net,
    pub gates: Items<u64>,
}

/// The first `count` of some gates, in a copy of their net.
pub fn chosen(
    alloc: Global,
    made: &[u64],
    gates: &[u64],
    count: usize,
) -> Result<Items<u64>, Memory>
    requires within { count ≤ length gates.now }
    requires gates { (j : ℕ) → j < length gates.now → get_or gates.now j 0 < length made.now }
    ensures { IfOk result (AreChosen made.now gates.now count) }
{
    let mut chosen: Vec<u64> = Vec::new(alloc);
    for j in 0..count {
        if chosen.push(made[gates[j] as usize]).is_err() {
            return Err(Memory);
        }
    }
    Ok(Items::of(chosen))
}

/// The first `count` of some gates, in the copy of their net for a part.
#[tactic(auto, using(crate::proofs::Sources::are_sources, crate::proofs::Sources::gates_made))]
pub fn subproblem_of(
    alloc: Global,
    net: &Net,
    gates: &[u64],
    count: usize,
    part: Part,
) -> Result<Subproblem, Memory>
    requires gates { AreGatesOfNet net.now gates.now }
    requires within { count ≤ length gates.now }
    requires bits { part.bits ≤ net.now.vars }
    requires part { part.number < 2 ^ part.bits }
    ensures { IfOk result (IsSubproblemOf net.now gates.now count part.bits part.number) }
{
    let to = sources_in(alloc, part, net.vars())?;
    let copy = substitute(alloc, net, net.vars(), to.as_slice())?;
    let gates = chosen(alloc, copy.gates.items(), gates, count)?;
    Ok(Subproblem {
        net: copy.net,
        gates,
    })
}

/// Whether a bit replaces some variable.
fn has_bit(to: &[Replacement]) -> bool {
    for source in to {
        match source {
            Replacement::Const(_) => return true,
            Replacement::Var(_) => {}
        }
    }
    false
}

/// The same gates, in a copy in which variables seen to have one value wherever one of the gates is false are replaced
/// by it.
#[tactic(auto, using(crate::proofs::Forced::gates_inside))]
fn with_forced(alloc: Global, part: Subproblem) -> Result<Subproblem, Memory>
    requires { AreGatesOfNet part.net part.gates }
    ensures { IfOk result (λ new. (n : Gates) (gates : List ℕ) (count k p : ℕ) → IsSubproblemOf n gates count k p part → IsSubproblemOf n gates count k p new) }
{
    let to = forced(alloc, &part.net, part.gates.items())?;
    if !has_bit(to.as_slice()) {
        return Ok(part);
    }
    let copy = substitute(alloc, &part.net, part.net.vars(), to.as_slice())?;
    let count = part.gates.items().len();
    let gates = chosen(alloc, copy.gates.items(), part.gates.items(), count)?;
    Ok(Subproblem {
        net: copy.net,
        gates,
    })
}

/// Like `subproblem_of`, with the bits put in that the gates force.
pub fn forced_subproblem(
    alloc: Global,
    net: &Net,
    gates: &[u64],
    count: usize,
    part: Part,
) -> Result<Subproblem, Memory>
    requires gates { AreGatesOfNet net.now gates.now }
    requires within { count ≤ length gates.now }
    requires bits { part.bits ≤ net.now.vars }
    requires part { part.number < 2 ^ part.bits }
    ensures { IfOk result (IsSubproblemOf net.now gates.now count part.bits part.number) }
{
    let whole = subproblem_of(alloc, net, gates, count, part)?;
    with_forced(alloc, whole)
}
