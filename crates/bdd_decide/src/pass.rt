//! A pass over gates, with bounded diagrams.
ghost use Rattle.std.specs.Prelude.{◌≡◌, ◌<◌, IfOk, IfSome, length};
ghost use Rattle.bdd_core.specs.Building.{AreKnown};
ghost use Rattle.bdd_decide.specs.Decisions.{AreGatesOfNet, IsDecided};
ghost use Rattle.bdd_decide.specs.Splitting.{IsPass};

use crate::reordered::reordered;
use bdd_core::{GateDiagrams, Store};
use nets::Net;
use std::alloc::Global;
use y86_base::Memory;

/// How far a pass over gates gets: all are true, the first false one is at a place, or it stopped at a place, where the
/// diagrams exceeded their bounds.
#[derive(Clone, Copy, Debug)]
pub enum PassResult {
    True,
    False(usize),
    Stopped(usize),
}

/// Whether a gate is true at every valuation. `None` if its diagrams exceeded their bounds.
pub fn always_true(
    store: &mut Store,
    built: &mut GateDiagrams,
    net: &Net,
    gate: u64,
) -> Option<bool>
    requires gate { gate < length net.now.gates }
    requires vars { store.old.vars ≡ net.now.vars }
    requires known { AreKnown store.old net.now built.old }
    ensures vars { store.new.vars ≡ store.old.vars }
    ensures known { AreKnown store.new net.now built.new }
    ensures decided { IfSome result (IsDecided net.now gate) }
{
    match store.build_on(net, built, gate) {
        Ok(diagram) => Some(store.valid(diagram)),
        Err(Memory) => None,
    }
}

/// A pass over gates, with diagrams of at most `steps` steps and `nodes` nodes.
#[tactic(auto, using(crate::proofs::Deciding::false_decided, crate::proofs::Deciding::true_decided))]
pub fn run_pass(
    alloc: Global,
    net: &Net,
    gates: &[u64],
    steps: u64,
    nodes: u64,
) -> Result<PassResult, Memory>
    requires gates { AreGatesOfNet net.now gates.now }
    ensures { IfOk result (IsPass net.now gates.now) }
{
    let mut store = Store::bounded(alloc, net.vars(), steps, nodes);
    let mut built = GateDiagrams::new(alloc, net)?;
    for k in 0..gates.len() {
        match always_true(&mut store, &mut built, net, gates[k]) {
            Some(true) => {}
            Some(false) => return Ok(PassResult::False(k)),
            None => return Ok(PassResult::Stopped(k)),
        }
    }
    Ok(PassResult::True)
}

/// Like `run_pass`, with the variables in the given order.
#[tactic(auto, using(crate::proofs::Mirrors::pass_mirrored))]
pub fn pass_in_order(
    alloc: Global,
    net: &Net,
    gates: &[u64],
    order: &[u32],
    steps: u64,
    nodes: u64,
) -> Result<PassResult, Memory>
    requires gates { AreGatesOfNet net.now gates.now }
    ensures { IfOk result (IsPass net.now gates.now) }
{
    let copy = reordered(alloc, net, gates, order)?;
    run_pass(alloc, &copy.net, copy.gates.items(), steps, nodes)
}
