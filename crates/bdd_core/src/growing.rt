//! The diagrams of formulas over one net, one after another: for each formula, only the gates on which its truth
//! depends.
ghost use Rattle.std.specs.Prelude.{◌≡◌, ℕ, ◌+◌, ◌<◌, false, get_or, IfOk, OnOk, length, slice_get, Some, true};
ghost use Rattle.nets.specs.Nets.{ReadsEarlier};
ghost use Rattle.nets.specs.declared.net.Gate.{Gate};
ghost use Rattle.bdd_core.specs.Building.{AreKnown, IsCone, KnowsAll, KnowsBefore, ReadsMarked};
ghost use Rattle.bdd_core.specs.Diagrams.{Diagrams, IsReduced, Keeps};
ghost use Rattle.bdd_core.specs.Meaning.{IsBuilt, Stay};

use crate::cone::cone;
use crate::store::{Dia, Store};
use nets::{Gate, Net};
use std::alloc::Global;
use std::marker::Model;
use y86_base::Memory;

/// The gates of a net that have diagrams, and these diagrams, so that the next formula over the net needn't build them
/// again.
#[derive(Drop)]
pub struct GateDiagrams {
    known: Vec<bool>,
    made: Vec<u32>,
}

impl Model for GateDiagrams {
    ghost use Rattle.bdd_core.specs.Building.{KnownGates};

    ghost Value = { KnownGates };

    ghost view = { λ b. record { known = b.known.items; made = b.made.items } };
}

impl GateDiagrams {
    /// No diagram yet.
    #[tactic(auto, using(crate::proofs::Knowing::none_known))]
    pub fn new(alloc: Global, n: &Net) -> Result<GateDiagrams, Memory>
        ensures { IfOk result (λ b. (s : Diagrams) → AreKnown s n.now b) }
    {
        let len = n.len() as usize;
        let known = match vec![in alloc; false; len] {
            Ok(known) => known,
            Err(_) => return Err(Memory),
        };
        match vec![in alloc; 0; len] {
            Ok(made) => Ok(GateDiagrams { known, made }),
            Err(_) => Err(Memory),
        }
    }
}

/// Whether the gates that a gate reads have diagrams.
fn reads_known(known: &[bool], n: &Net, i: u64) -> bool
    requires inside { i < length n.now.gates }
    requires size { length known.now ≡ length n.now.gates }
    ensures { result ≡ true → (g : Gate) → slice_get n.now.gates i ≡ Some g → ReadsMarked known.now g }
{
    match n.gate(i) {
        Gate::Not(a) => known[a as usize],
        Gate::And(a, b) => known[a as usize] && known[b as usize],
        _ => true,
    }
}

impl Store {
    /// Builds the diagram of a gate from those of the gates that it reads.
    #[tactic(auto, using(crate::proofs::Knowing::known_stays, crate::proofs::Knowing::are_made, crate::proofs::Truths::keeps_self))]
    fn add_to(&mut self, n: &Net, built: &mut GateDiagrams, i: u64) -> Result<(), Memory>
        requires vars { n.now.vars ≡ self.old.vars }
        requires inside { i < length n.now.gates }
        requires known { AreKnown self.old n.now built.old }
        requires reads { (g : Gate) → slice_get n.now.gates i ≡ Some g → ReadsEarlier n.now.vars i g → ReadsMarked built.old.known g }
        ensures kept { Keeps self.old self.new }
        ensures reduced_after { IsReduced self.new }
        ensures known { AreKnown self.new n.now built.new }
        ensures all { KnowsAll built.old built.new }
        ensures added { OnOk result (get_or built.new.known i false ≡ true) }
    {
        let _ = self.vars(); // brings the invariant of the store
        let d = self.add_gate(built.made.as_slice(), n.gate(i))?;
        built.made[i as usize] = d;
        built.known[i as usize] = true;
        Ok(())
    }

    /// Builds the diagram of gate `i`, if it is marked and has none.
    #[tactic(auto, using(crate::proofs::Knowing::reads_known, crate::proofs::Knowing::one_more, crate::proofs::Truths::keeps_self))]
    fn add_marked(
        &mut self,
        n: &Net,
        built: &mut GateDiagrams,
        needed: &[bool],
        i: u64,
    ) -> Result<(), Memory>
        requires vars { n.now.vars ≡ self.old.vars }
        requires inside { i < length n.now.gates }
        requires cone { IsCone n.now needed.now }
        requires known { AreKnown self.old n.now built.old }
        requires before { KnowsBefore needed.now built.old i }
        ensures kept { Keeps self.old self.new }
        ensures reduced_after { IsReduced self.new }
        ensures known { AreKnown self.new n.now built.new }
        ensures all { KnowsAll built.old built.new }
        ensures before { OnOk result (KnowsBefore needed.now built.new (i + 1)) }
    {
        let _ = self.vars(); // brings the invariant of the store
        if !needed[i as usize] || built.known[i as usize] {
            return Ok(());
        }
        self.add_to(n, built, i)
    }

    /// Builds the diagrams of the gates on which the truth of a gate depends.
    #[tactic(auto, using(crate::proofs::Truths::keeps_self, crate::proofs::Truths::keeps_more))]
    fn add_cone(&mut self, n: &Net, built: &mut GateDiagrams, gate: u64) -> Result<(), Memory>
        requires vars { n.now.vars ≡ self.old.vars }
        requires gate { gate < length n.now.gates }
        requires known { AreKnown self.old n.now built.old }
        ensures kept { Keeps self.old self.new }
        ensures reduced_after { IsReduced self.new }
        ensures known { AreKnown self.new n.now built.new }
        ensures all { KnowsAll built.old built.new }
        ensures added { OnOk result (get_or built.new.known gate false ≡ true) }
    {
        let _ = self.vars(); // brings the invariant of the store
        let needed = cone(self.allocator(), n, gate)?;
        let mut i = 0;
        while i <= gate {
            self.add_marked(n, built, needed.as_slice(), i)?;
            i += 1;
        }
        Ok(())
    }

    /// Builds the diagram of a gate, if it has none.
    #[tactic(auto, using(crate::proofs::Truths::keeps_self))]
    fn add_for(&mut self, n: &Net, built: &mut GateDiagrams, gate: u64) -> Result<(), Memory>
        requires vars { n.now.vars ≡ self.old.vars }
        requires gate { gate < length n.now.gates }
        requires known { AreKnown self.old n.now built.old }
        ensures kept { Keeps self.old self.new }
        ensures reduced_after { IsReduced self.new }
        ensures known { AreKnown self.new n.now built.new }
        ensures all { KnowsAll built.old built.new }
        ensures added { OnOk result (get_or built.new.known gate false ≡ true) }
    {
        let _ = self.vars(); // brings the invariant of the store
        if built.known[gate as usize] {
            return Ok(());
        }
        if reads_known(built.known.as_slice(), n, gate) {
            return self.add_to(n, built, gate);
        }
        self.add_cone(n, built, gate)
    }

    /// The diagram of a gate of a net: its truth is the gate's at every valuation. Gates that have a diagram in `built`
    /// aren't built again. If memory runs out, the earlier diagrams stay.
    #[tactic(auto, using(crate::proofs::Gates::stays, crate::proofs::Knowing::known_stays, crate::proofs::Knowing::built_is))]
    pub fn build_on(&mut self, n: &Net, built: &mut GateDiagrams, gate: u64) -> Result<Dia, Memory>
        requires vars { n.now.vars ≡ self.old.vars }
        requires gate { gate < length n.now.gates }
        requires known { AreKnown self.old n.now built.old }
        ensures stay { Stay self.old self.new }
        ensures known { AreKnown self.new n.now built.new }
        ensures all { KnowsAll built.old built.new }
        ensures built { IfOk result (IsBuilt self.new n.now gate) }
        ensures added { IfOk result (λ d. get_or built.new.known gate false ≡ true) }
    {
        let _ = self.vars(); // brings the invariant of the store
        self.ready()?;
        self.add_for(n, built, gate)?;
        Ok(Dia {
            id: built.made[gate as usize] as u64,
        })
    }

    /// The diagram of a gate of a net, with no other built before.
    #[tactic(auto, using(crate::proofs::Gates::stays, crate::proofs::Truths::keeps_self))]
    pub fn build(&mut self, n: &Net, gate: u64) -> Result<Dia, Memory>
        requires vars { n.now.vars ≡ self.old.vars }
        requires gate { gate < length n.now.gates }
        ensures stay { Stay self.old self.new }
        ensures built { IfOk result (IsBuilt self.new n.now gate) }
    {
        let mut built = GateDiagrams::new(self.allocator(), n)?;
        self.build_on(n, &mut built, gate)
    }
}
