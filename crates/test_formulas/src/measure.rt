//! Builds the diagrams of samples, and counts their paths.
ghost use Rattle.std.specs.Prelude.{IfSome};
ghost use Rattle.bdd_core.specs.Meaning.{IsDia};

use crate::formulas::Formula;
use bdd_core::{Dia, Node, Store};
use std::alloc::Global;

/// A store with the diagrams of a formula and of the further variable, if there is memory.
pub fn built(alloc: Global, formula: &Formula) -> Option<(Store, Dia, Dia)>
    ensures formula { IfSome result (λ r. IsDia r.0 r.1) }
    ensures other { IfSome result (λ r. IsDia r.0 r.2) }
{
    let len = formula.net.len();
    if formula.gate >= len || formula.other >= len {
        return None;
    }
    let mut store = Store::new(alloc, formula.net.vars());
    let root = match store.build(&formula.net, formula.gate) {
        Ok(root) => root,
        Err(_) => return None,
    };
    match store.build(&formula.net, formula.other) {
        Ok(other) => Some((store, root, other)),
        Err(_) => None,
    }
}

/// The number of paths of at most `depth` steps from a diagram to truth.
pub fn paths(store: &Store, d: Dia, depth: u32) -> u64
    requires { IsDia store.now d }
{
    match store.node(d) {
        Node::False => 0,
        Node::True => 1,
        Node::Choice { low, high, .. } => {
            if depth == 0 {
                0
            } else {
                paths(store, low, depth - 1).wrapping_add(paths(store, high, depth - 1))
            }
        }
    }
}
