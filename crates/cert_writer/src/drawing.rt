//! The diagrams of the gates of a net.
ghost use Rattle.std.specs.Prelude.{◌≡◌, length, map, IfOk};
ghost use Rattle.nets.specs.declared.copies.Replacement.TheVariants as source;
ghost use Rattle.cert_writer.specs.Nodes.{IsDrawn, IsVariableOrder};

use bdd_core::{Dia, GateDiagrams, Store};
use nets::{Net, Replacement, substitute};
use std::alloc::Global;
use y86_base::{Memory, push};

/// The diagrams of the gates of a net, and the store in which they are.
#[derive(Drop)]
pub struct DrawnNet {
    pub store: Store,
    pub dias: Vec<Dia>,
}

/// The variables that replace those of the net in the copy that is drawn.
#[tactic(auto, using(crate::proofs::DrawnGates::sources_none, crate::proofs::DrawnGates::sources_more, crate::proofs::DrawnGates::sources_all))]
fn sources(alloc: Global, ranks: &[u32]) -> Result<Vec<Replacement>, Memory>
    ensures { IfOk result (λ to. to.items ≡ map source.Var ranks.now) }
{
    let mut to: Vec<Replacement> = Vec::new(alloc);
    for i in 0..ranks.len() {
        if to.push(Replacement::Var(ranks[i])).is_err() {
            return Err(Memory);
        }
    }
    Ok(to)
}

/// The diagrams of the gates of a net, with variable `order[x]` of the net as variable x.
///
/// Errors: `Memory`, also if it takes more operations or nodes than the limits allow.
#[tactic(auto, using(crate::proofs::DrawnGates::are_sources, crate::proofs::DrawnGates::whole, crate::proofs::DrawnGates::drawn_none, crate::proofs::DrawnGates::drawn_more, crate::proofs::DrawnGates::drawn_all, crate::proofs::DrawnGates::gate_within))]
pub fn draw(
    alloc: Global,
    n: &Net,
    order: &[u32],
    ranks: &[u32],
    steps: u64,
    nodes: u64,
) -> Result<DrawnNet, Memory>
    requires vars { length order.now ≡ n.now.vars }
    requires order { IsVariableOrder order.now ranks.now }
    ensures { IfOk result (λ d. IsDrawn n.now order.now d.store d.dias.items) }
{
    let _ = order.len(); // its length is a u64
    let vars = n.vars();
    let to = sources(alloc, ranks)?;
    let copy = substitute(alloc, n, vars, to.as_slice())?;
    let mut store = Store::bounded(alloc, vars, steps, nodes);
    let mut built = GateDiagrams::new(alloc, &copy.net)?;
    let mut dias: Vec<Dia> = Vec::new(alloc);
    for i in 0..n.len() {
        let gate = copy.gates.items()[i as usize];
        let d = store.build_on(&copy.net, &mut built, gate)?;
        push(&mut dias, d)?;
    }
    Ok(DrawnNet { store, dias })
}
