//! Which of several gates are true at every valuation.
ghost use Rattle.std.specs.Prelude.{◌≡◌, ◌<◌, IfOk, IfSome, length};
ghost use Rattle.bdd_decide.specs.Decisions.{AreDecided, AreGatesOfNet, IsDecided};
ghost use Rattle.bdd_decide.specs.Splitting.{AreDiagramsOf};

use crate::decision::{NODES, VariableOrders, decide_in_parts};
use crate::pass::always_true;
use crate::reordered::reordered;
use crate::search::SplittingPass;
use bdd_core::{GateDiagrams, Store};
use nets::Net;
use std::alloc::Global;
use y86_base::Memory;

/// The maximal number of steps for the diagrams of several gates together.
const STEPS: u64 = 250_000;

/// Whether a gate is true at every valuation: the answer of its diagrams, or, if these exceeded their bounds, the
/// decision part by part.
#[tactic(auto, using(crate::proofs::Deciding::one_gate, crate::proofs::Deciding::one_true, crate::proofs::Deciding::one_false))]
fn told_or_decided(
    alloc: Global,
    told: Option<bool>,
    net: &Net,
    gate: u64,
    how: &SplittingPass,
) -> Result<bool, Memory>
    requires gate { gate < length net.now.gates }
    requires told { IfSome told (IsDecided net.now gate) }
    ensures decided { IfOk result (IsDecided net.now gate) }
{
    if let Some(truth) = told {
        return Ok(truth);
    }
    match decide_in_parts(alloc, net, &[gate], how)? {
        Some(_) => Ok(false),
        None => Ok(true),
    }
}

/// The diagrams of a net's gates.
#[derive(Drop)]
pub struct NetDiagrams {
    store: Store,
    built: GateDiagrams,
    /// Whether they have decided no gate yet.
    is_new: bool,
}

impl NetDiagrams {
    /// No diagrams yet.
    fn new(alloc: Global, net: &Net) -> Result<NetDiagrams, Memory>
        ensures { IfOk result (AreDiagramsOf net.now) }
    {
        let built = GateDiagrams::new(alloc, net)?;
        let store = Store::bounded(alloc, net.vars(), STEPS, NODES);
        Ok(NetDiagrams {
            store,
            built,
            is_new: true,
        })
    }

    /// Whether a gate is true at every valuation. `None` if its diagrams exceed their bounds.
    fn truth_of(&mut self, net: &Net, gate: u64) -> Option<bool>
        requires gate { gate < length net.now.gates }
        requires diagrams { AreDiagramsOf net.now self.old }
        ensures diagrams { AreDiagramsOf net.now self.new }
        ensures decided { IfSome result (IsDecided net.now gate) }
    {
        let found = always_true(&mut self.store, &mut self.built, net, gate);
        self.is_new &= found.is_none();
        found
    }

    /// Like `truth_of`, but if the diagrams of other gates have left too few steps or nodes, it tries again with new
    /// diagrams.
    fn truth_anew(&mut self, alloc: Global, net: &Net, gate: u64) -> Result<Option<bool>, Memory>
        requires gate { gate < length net.now.gates }
        requires diagrams { AreDiagramsOf net.now self.old }
        ensures diagrams { AreDiagramsOf net.now self.new }
        ensures decided { IfOk result (λ o. IfSome o (IsDecided net.now gate)) }
    {
        let was_new = self.is_new;
        let found = self.truth_of(net, gate);
        if was_new || found.is_some() {
            return Ok(found);
        }
        *self = NetDiagrams::new(alloc, net)?;
        Ok(self.truth_of(net, gate))
    }
}

/// For each of the given gates, whether it is true at every valuation. The gates share their diagrams, which use the
/// given orders. If the diagrams exceed their bounds at a gate, this gate is decided part by part.
#[tactic(auto, using(crate::proofs::Mirrors::decided_more))]
pub fn each_true(
    alloc: Global,
    net: &Net,
    gates: &[u64],
    orders: VariableOrders,
) -> Result<Vec<bool>, Memory>
    requires gates { AreGatesOfNet net.now gates.now }
    ensures size { IfOk result (λ truths. length truths.items ≡ length gates.now) }
    ensures decided { IfOk result (λ truths. AreDecided net.now gates.now truths.items) }
{
    let how = SplittingPass {
        part: orders.part,
        again: orders.again,
    };
    let copy = reordered(alloc, net, gates, orders.whole)?;
    let mut diagrams = NetDiagrams::new(alloc, &copy.net)?;
    let mut truths: Vec<bool> = Vec::new(alloc);
    for k in 0..gates.len() {
        let told = diagrams.truth_anew(alloc, &copy.net, copy.gates.items()[k])?;
        let truth = told_or_decided(alloc, told, net, gates[k], &how)?;
        if truths.push(truth).is_err() {
            return Err(Memory);
        }
    }
    Ok(truths)
}
