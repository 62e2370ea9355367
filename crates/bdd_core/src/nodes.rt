//! The nodes of the diagrams of a store, each once.
ghost use Rattle.std.specs.Prelude.{◌≡◌, ℕ, ◌+◌, ◌^◌, ◌<◌, ◌≤◌, ◌++◌, ◌∷◌, [], length, IfOk, OnErr, Some, slice_get};
ghost use Rattle.bdd_core.specs.Answers.{IsMade};
ghost use Rattle.bdd_core.specs.Diagrams.{IsBranch, IsReduced, Keeps, at, count};
ghost use Rattle.bdd_core.specs.Tables.{IsNewIn, find_result};

use crate::table::{Lookup, put, search, with_room};
use std::alloc::Global;
use std::marker::Model;
use y86_base::Memory;

/// A node: the variable that it decides, and the diagrams where this variable is 0 and where it is 1.
#[derive(Clone, Copy, Debug)]
pub struct ChoiceNode {
    pub var: u32,
    pub low: u32,
    pub high: u32,
}

/// The shared nodes, each once, with a table that finds them.
#[derive(Drop)]
pub struct Nodes {
    alloc: Global,
    vars: u32,
    most: u64,
    list: Vec<ChoiceNode>,
    places: Vec<u32>,
}

impl Model for Nodes {
    ghost use Rattle.bdd_core.specs.Diagrams.{Diagrams};
    ghost use Rattle.bdd_core.specs.Tables.{AreNodes};

    ghost Value = { Diagrams };

    ghost view = { λ n. record { vars = n.vars; nodes = n.list.items } };

    ghost invariant = { λ n. AreNodes n.vars n.list.items n.places.items };
}

impl Nodes {
    /// The maximal number of nodes, so that each node's number fits in 32 bits.
    const MOST: usize = 4_000_000_000;

    /// No nodes, and later at most `most` of them.
    pub fn new(alloc: Global, vars: u32, most: u64) -> Nodes
        ensures vars { result.vars ≡ vars }
        ensures none { result.nodes ≡ [] }
    {
        Nodes {
            alloc,
            vars,
            most,
            list: Vec::new(alloc),
            places: Vec::new(alloc),
        }
    }

    /// The number of variables.
    pub fn vars(&self) -> u32
        ensures vars { result ≡ self.now.vars }
        ensures reduced_after { IsReduced self.now }
        ensures few { count self.now < 2 ^ 32 }
    {
        self.vars
    }

    /// The number of nodes, without the two ends.
    pub fn len(&self) -> usize
        ensures { result ≡ length self.now.nodes }
    {
        self.list.len()
    }

    /// The node of a diagram.
    pub fn node(&self, d: u32) -> ChoiceNode
        requires { d < count self.now }
        ensures { result ≡ at self.now d }
    {
        match d {
            0 | 1 => ChoiceNode {
                var: self.vars,
                low: d,
                high: d,
            },
            _ => self.list[(d - 2) as usize],
        }
    }

    /// The number of a node, if it exists already.
    fn find(&self, c: ChoiceNode) -> Option<u32>
        ensures { find_result self.now.nodes c result }
    {
        match search(self.list.as_slice(), c, self.places.as_slice()) {
            Lookup::Present(d) => Some(d),
            _ => None,
        }
    }

    /// Adds a node after the others.
    #[tactic(auto, using(crate::proofs::Making::unique_pushed, crate::proofs::Making::front, crate::proofs::Making::nodes_table, crate::proofs::Making::nodes_pushed))]
    fn add(&mut self, c: ChoiceNode) -> Result<u32, Memory>
        requires branch { IsBranch self.old c }
        requires absent { IsNewIn self.old.nodes c }
        ensures nodes { IfOk result (λ d. (d ≡ count self.old) × (self.new.nodes ≡ self.old.nodes ++ c ∷ [])) }
        ensures vars { self.new.vars ≡ self.old.vars }
        ensures err { OnErr result (self.new ≡ self.old) }
    {
        let at = self.list.len();
        if at >= Nodes::MOST || at as u64 >= self.most {
            return Err(Memory);
        }
        with_room(self.alloc, self.list.as_slice(), &mut self.places)?;
        if self.list.push(c).is_err() {
            return Err(Memory);
        }
        put(self.list.as_slice(), at, self.places.as_mut_slice());
        Ok((at + 2) as u32)
    }

    /// The diagram that decides `var` between two others. If they are the same, it is that one.
    #[tactic(auto, using(crate::proofs::Making::made_same, crate::proofs::Making::made_found, crate::proofs::Making::made_pushed, crate::proofs::Making::keeps_pushed, crate::proofs::Truths::keeps_self))]
    pub fn make(&mut self, var: u32, low: u32, high: u32) -> Result<u32, Memory>
        requires var { var < self.old.vars }
        requires low { low < count self.old }
        requires high { high < count self.old }
        requires low_later { var < (at self.old low).var }
        requires high_later { var < (at self.old high).var }
        ensures kept { Keeps self.old self.new }
        ensures has_truth { IfOk result (IsMade self.new var low high) }
    {
        if low == high {
            return Ok(low);
        }
        let c = ChoiceNode { var, low, high };
        match self.find(c) {
            Some(d) => Ok(d),
            None => self.add(c),
        }
    }
}
