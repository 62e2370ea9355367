//! A store of decision diagrams, and the operations on one diagram.
ghost use Rattle.std.specs.Prelude.{◌≡◌, ℕ, ◌+◌, ◌^◌, ◌<◌, ◌≤◌, ◌↔◌, List, Bool, [], true, length, IfOk, IfSome, MatchOption, IsTrue};
ghost use Rattle.bdd_core.specs.Answers.{IsAnswer, IsKey, IsMade};
ghost use Rattle.bdd_core.specs.Diagrams.{IsReduced, Keeps, at, count};
ghost use Rattle.bdd_core.specs.Meaning.{Always, IsDia, IsLeastFalsifying, IsNode, Stay, truth_of};

use crate::nodes::{ChoiceNode, Nodes};
use crate::results::{CachedResult, FIRST_RESULTS, MOST_RESULTS, OpKey, blanks, known, remember};
use std::alloc::Global;
use std::marker::Model;
use y86_base::Memory;

/// A diagram of a store, by its number.
#[derive(Clone, Copy, Debug, PartialEq, Eq)]
pub struct Dia {
    pub id: u64,
}

/// The root of a diagram.
#[derive(Clone, Copy, Debug, PartialEq, Eq)]
pub enum Node {
    False,
    True,
    Choice { var: u32, low: Dia, high: Dia },
}

/// The diagrams of some formulas over the same variables. They share their nodes.
#[derive(Drop)]
pub struct Store {
    alloc: Global,
    nodes: Nodes,
    results: Vec<CachedResult>,
    steps: u64,
}

impl Model for Store {
    ghost use Rattle.bdd_core.specs.Diagrams.{Diagrams};
    ghost use Rattle.bdd_core.specs.Answers.{AreAnswers};

    ghost Value = { Diagrams };

    ghost view = { λ s. s.nodes };

    ghost invariant = { λ s. AreAnswers s.nodes s.results.items };
}

impl Store {
    /// A store for formulas over variables 0 to `vars - 1`, in this order.
    pub fn new(alloc: Global, vars: u32) -> Store
        ensures vars { result.vars ≡ vars }
        ensures none { result.nodes ≡ [] }
    {
        Store::bounded(alloc, vars, u64::MAX, u64::MAX)
    }

    /// A store in which at most `steps` operations and `nodes` nodes are made. After them it reports that memory ran
    /// out.
    pub fn bounded(alloc: Global, vars: u32, steps: u64, nodes: u64) -> Store
        ensures vars { result.vars ≡ vars }
        ensures none { result.nodes ≡ [] }
    {
        Store {
            alloc,
            nodes: Nodes::new(alloc, vars, nodes),
            results: Vec::new(alloc),
            steps,
        }
    }

    /// Takes one of the remaining steps, and first widens the table of results if it has become too small.
    pub(crate) fn take_step(&mut self) -> Result<(), Memory>
        ensures { self.new ≡ self.old }
    {
        if self.steps == 0 {
            return Err(Memory);
        }
        self.steps -= 1;
        self.widen();
        Ok(())
    }

    /// The allocator of the store.
    pub(crate) fn allocator(&self) -> Global {
        self.alloc
    }

    /// Allocates the places for results, if that isn't done yet.
    #[tactic(auto, using(crate::proofs::Applying::blank_answers, crate::proofs::Truths::keeps_self))]
    pub(crate) fn ready(&mut self) -> Result<(), Memory>
        ensures kept { Keeps self.old self.new }
        ensures reduced_after { IsReduced self.new }
    {
        let _ = self.nodes.vars(); // brings the invariant of the nodes
        if self.results.is_empty() {
            self.results = blanks(self.alloc, FIRST_RESULTS)?;
        }
        Ok(())
    }

    /// Allocates four times as many places for results, if there are more nodes than places. The cached results are
    /// forgotten. If memory runs out, the table stays as it is.
    #[tactic(auto, using(crate::proofs::Applying::blank_answers))]
    fn widen(&mut self)
        ensures { self.new ≡ self.old }
    {
        let size = self.results.len();
        let _ = self.nodes.vars(); // brings the invariant of the nodes
        if size < MOST_RESULTS && size < self.nodes.len() {
            if let Ok(results) = blanks(self.alloc, size * 4) {
                self.results = results;
            }
        }
    }

    /// The number of variables. The contract also gives what is true of the diagrams of every store.
    pub(crate) fn vars(&self) -> u32
        ensures vars { result ≡ self.now.vars }
        ensures reduced_after { IsReduced self.now }
        ensures few { count self.now < 2 ^ 32 }
    {
        self.nodes.vars()
    }

    /// The node of a diagram.
    pub(crate) fn node_of(&self, d: u32) -> ChoiceNode
        requires { d < count self.now }
        ensures node { result ≡ at self.now d }
        ensures reduced_after { IsReduced self.now }
    {
        let _ = self.nodes.vars(); // brings the invariant of the nodes
        self.nodes.node(d)
    }

    /// The diagram that decides a variable between two others.
    #[tactic(auto, using(crate::proofs::Applying::answers_kept))]
    pub(crate) fn make(&mut self, var: u32, low: u32, high: u32) -> Result<u32, Memory>
        requires var { var < self.old.vars }
        requires low { low < count self.old }
        requires high { high < count self.old }
        requires low_later { var < (at self.old low).var }
        requires high_later { var < (at self.old high).var }
        ensures kept { Keeps self.old self.new }
        ensures reduced_after { IsReduced self.new }
        ensures has_truth { IfOk result (IsMade self.new var low high) }
    {
        let _ = self.nodes.vars(); // brings the invariant of the nodes
        let d = self.nodes.make(var, low, high);
        let _ = self.nodes.vars(); // brings the invariant of the nodes
        d
    }

    /// The cached result of an operation, if there is one.
    #[tactic(auto, using(crate::proofs::Applying::recalled))]
    pub(crate) fn recall(&self, key: OpKey) -> Option<u32>
        ensures { IfSome result (IsAnswer self.now key) }
    {
        known(self.results.as_slice(), key)
    }

    /// Caches a result.
    #[tactic(auto, using(crate::proofs::Applying::remembered))]
    pub(crate) fn keep(&mut self, key: OpKey, answer: u32)
        requires { IsAnswer self.old key answer }
        ensures { self.new ≡ self.old }
    {
        remember(self.results.as_mut_slice(), key, answer);
    }
}
