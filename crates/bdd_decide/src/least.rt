//! The least valuation of a part at which a gate is false.
ghost use Rattle.std.specs.Prelude.{◌≡◌, ◌<◌, ◌≤◌, ◌^◌, IfOk, MatchOption, false, length};
ghost use Rattle.nets.specs.Nets.{truth};
ghost use Rattle.nets.specs.Substitution.{behind, source_truth};
ghost use Rattle.bdd_decide.specs.Decisions.{IsAlwaysTrue, IsLeastOf};
ghost use Rattle.bdd_decide.specs.Splitting.{AreForcedBits, IsLeastIn, IsTrueWhere, own};

use crate::subproblems::{Part, sources_in};
use bdd_core::Store;
use nets::{Net, Replacement, Valuation, forced, substitute};
use std::alloc::Global;
use y86_base::{Items, Memory};

/// The truth of a variable's replacement, at a valuation of the copy.
fn source_bit(source: Replacement, u: &Valuation) -> bool
    ensures { result ≡ source_truth u.now.bits source }
{
    match source {
        Replacement::Const(bit) => bit,
        Replacement::Var(x) => u.bits.items().get(x as usize).copied().unwrap_or(false),
    }
}

/// The valuation of the net for a valuation of the copy.
fn carried(alloc: Global, to: &[Replacement], u: &Valuation) -> Result<Valuation, Memory>
    ensures { IfOk result (λ w. w.bits ≡ behind to.now u.now.bits) }
{
    let mut bits: Vec<bool> = Vec::new(alloc);
    for i in 0..to.len() {
        if bits.push(source_bit(to[i], u)).is_err() {
            return Err(Memory);
        }
    }
    Ok(Valuation {
        bits: Items::of(bits),
    })
}

/// Keeps a bit as it is, and puts any variable back in its own place.
fn own_source(source: Replacement, i: u32) -> Replacement
    ensures { result ≡ own source i }
{
    match source {
        Replacement::Const(bit) => Replacement::Const(bit),
        Replacement::Var(_) => Replacement::Var(i),
    }
}

/// The bits that variables have wherever a gate is false; each other variable replaces itself.
#[tactic(auto, using(crate::proofs::Deciding::one_gate))]
fn forced_bits(alloc: Global, net: &Net, gate: u64) -> Result<Vec<Replacement>, Memory>
    requires { gate < length net.now.gates }
    ensures { IfOk result (λ to. AreForcedBits net.now gate to.items) }
{
    let found = forced(alloc, net, &[gate])?;
    let mut to: Vec<Replacement> = Vec::new(alloc);
    for i in 0..net.vars() {
        if to.push(own_source(found[i as usize], i)).is_err() {
            return Err(Memory);
        }
    }
    Ok(to)
}

/// The least valuation at which a gate is false, or `None` if there is none. The bits that a false gate forces are put
/// into a copy, whose diagrams are smaller.
#[tactic(auto, using(crate::proofs::Overlaid::forced_sources))]
fn least_false(alloc: Global, net: &Net, gate: u64) -> Result<Option<Valuation>, Memory>
    requires { gate < length net.now.gates }
    ensures { IfOk result (λ o. MatchOption o (IsAlwaysTrue net.now gate) (λ w. IsLeastOf net.now.vars (λ u. truth net.now gate u ≡ false) w.bits)) }
{
    let to = forced_bits(alloc, net, gate)?;
    let copy = substitute(alloc, net, net.vars(), to.as_slice())?;
    let mut store = Store::new(alloc, copy.net.vars());
    let diagram = store.build(&copy.net, copy.gates.items()[gate as usize])?;
    match store.least_false(diagram)? {
        Some(u) => {
            let w = carried(alloc, to.as_slice(), &u)?;
            Ok(Some(w))
        }
        None => Ok(None),
    }
}

/// The least valuation of a part at which a gate is false, or `None` if there is none.
#[tactic(auto, using(crate::proofs::Sources::are_sources))]
pub fn least_in(
    alloc: Global,
    net: &Net,
    gate: u64,
    part: Part,
) -> Result<Option<Valuation>, Memory>
    requires gate { gate < length net.now.gates }
    requires bits { part.bits ≤ net.now.vars }
    requires part { part.number < 2 ^ part.bits }
    ensures { IfOk result (λ o. MatchOption o (IsTrueWhere net.now gate part.bits part.number) (λ w. IsLeastIn net.now gate part.bits part.number w.bits)) }
{
    let to = sources_in(alloc, part, net.vars())?;
    let copy = substitute(alloc, net, net.vars(), to.as_slice())?;
    match least_false(alloc, &copy.net, copy.gates.items()[gate as usize])? {
        Some(u) => {
            let w = carried(alloc, to.as_slice(), &u)?;
            Ok(Some(w))
        }
        None => Ok(None),
    }
}
