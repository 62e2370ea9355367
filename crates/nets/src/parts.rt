//! Parts of a net: the valuations that begin with given bits, with the other variables in a new order.
ghost use Rattle.std.specs.Prelude.{◌≡◌, ◌<◌, ◌≤◌, ◌^◌, length, IfOk, IfSome, None};
ghost use Rattle.nets.specs.Parts.{AreSourcesOf, IsCofactorNet, IsSourceOf, Lacks, NotIn};

use crate::copies::{Replacement, SubstitutedNet, substitute};
use crate::net::Net;
use std::alloc::Global;
use y86_base::Memory;

/// What replaces variable `i`: its bit, or its place in the order.
fn source_of(fixed: &[bool], order: &[u32], i: u32) -> Option<Replacement>
    requires few { length order.now < 2 ^ 32 }
    ensures found { IfSome result (IsSourceOf fixed.now order.now i) }
    ensures lost { result ≡ None → NotIn fixed.now order.now i }
{
    if (i as usize) < fixed.len() {
        return Some(Replacement::Const(fixed[i as usize]));
    }
    match order.iter().position(|&v| v == i) {
        Some(x) => Some(Replacement::Var(x as u32)),
        None => None,
    }
}

/// What replaces each variable.
#[tactic(auto, using(crate::proofs::Sources::sources_none, crate::proofs::Sources::sources_more))]
fn sources(alloc: Global, fixed: &[bool], order: &[u32]) -> Result<Option<Vec<Replacement>>, Memory>
    requires few { length order.now < 2 ^ 32 }
    ensures found { IfOk result (λ o. IfSome o (λ to. AreSourcesOf fixed.now order.now to.items)) }
    ensures whole { IfOk result (λ o. IfSome o (λ to. length to.items ≡ length order.now)) }
    ensures lost { IfOk result (λ o. o ≡ None → Lacks fixed.now order.now) }
{
    let mut to: Vec<Replacement> = Vec::new(alloc);
    let mut i = 0;
    while i < order.len() {
        match source_of(fixed, order, i as u32) {
            Some(source) => {
                if to.push(source).is_err() {
                    return Err(Memory);
                }
            }
            None => return Ok(None),
        }
        i += 1;
    }
    Ok(Some(to))
}

/// The part of a net whose valuations begin with the bits `fixed`. In the copy the other variables are in a new order:
/// variable `order[x]` of the net is variable x of the copy. `None` if the order lacks one of them.
#[tactic(auto, using(crate::proofs::Sources::are_sources, crate::proofs::Sources::is_part))]
pub fn cofactor(
    alloc: Global,
    n: &Net,
    fixed: &[bool],
    order: &[u32],
) -> Result<Option<SubstitutedNet>, Memory>
    requires whole { length order.now ≡ n.now.vars }
    requires fixed { length fixed.now ≤ n.now.vars }
    ensures found { IfOk result (λ o. IfSome o (IsCofactorNet n.now fixed.now)) }
    ensures lost { IfOk result (λ o. o ≡ None → Lacks fixed.now order.now) }
{
    let vars = n.vars();
    let to = match sources(alloc, fixed, order)? {
        Some(to) => to,
        None => return Ok(None),
    };
    let copy = substitute(alloc, n, vars, to.as_slice())?;
    Ok(Some(copy))
}
