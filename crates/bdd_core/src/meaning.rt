//! What the diagrams say about their truths.
ghost use Rattle.std.specs.Prelude.{◌≡◌, ◌↔◌, ℕ, List, Bool, IfOk, IsTrue, MatchOption, length, true};
ghost use Rattle.bdd_core.specs.Meaning.{Always, IsDia, IsLeastFalsifying, IsNode, truth_of};

use crate::store::{Dia, Node, Store};
use nets::Valuation;
use y86_base::{Items, Memory};

impl Store {
    /// The root of a diagram: `False` or `True` exactly if its truth is the same at every valuation, else the first
    /// variable on which it depends, and both parts. It allocates no memory.
    #[tactic(auto, using(crate::proofs::Exact::node_false, crate::proofs::Exact::node_true))]
    pub fn node(&self, d: Dia) -> Node
        requires { IsDia self.now d }
        ensures { IsNode self.now d result }
    {
        let _ = self.vars(); // brings the invariant of the store
        if d.id == 0 {
            return Node::False;
        }
        if d.id == 1 {
            return Node::True;
        }
        let node = self.node_of(d.id as u32);
        Node::Choice {
            var: node.var,
            low: Dia {
                id: node.low as u64,
            },
            high: Dia {
                id: node.high as u64,
            },
        }
    }

    /// Whether the truth of a diagram is true at every valuation.
    pub fn valid(&self, d: Dia) -> bool
        requires { IsDia self.now d }
        ensures { IsTrue result ↔ Always self.now d true }
    {
        let _ = self.vars(); // brings the invariant of the store
        d.id == 1
    }

    /// Whether two diagrams have the same truth at every valuation. It allocates no memory.
    pub fn same(&self, a: Dia, b: Dia) -> bool
        requires left { IsDia self.now a }
        requires right { IsDia self.now b }
        ensures { IsTrue result ↔ ((v : List Bool) → length v ≡ self.now.vars → truth_of self.now a v ≡ truth_of self.now b v) }
    {
        let _ = self.vars(); // brings the invariant of the store
        a.id == b.id
    }

    /// The least valuation at which a diagram is false, in the order of the variables and 0 before 1. `None` if it is
    /// valid.
    #[tactic(auto, using(crate::proofs::Exact::node_true, crate::proofs::Least::down_start))]
    pub fn least_false(&self, d: Dia) -> Result<Option<Valuation>, Memory>
        requires { IsDia self.now d }
        ensures { IfOk result (λ o. MatchOption o (Always self.now d true) (λ v. IsLeastFalsifying self.now d v.bits)) }
    {
        let vars = self.vars();
        if d.id == 1 {
            return Ok(None);
        }
        let mut bits = match vec![in self.allocator(); false; vars as usize] {
            Ok(bits) => bits,
            Err(_) => return Err(Memory),
        };
        let mut at = d.id as u32;
        while at >= 2 {
            let node = self.node_of(at);
            if node.low == 1 {
                bits[node.var as usize] = true;
                at = node.high;
            } else {
                at = node.low;
            }
        }
        Ok(Some(Valuation {
            bits: Items::of(bits),
        }))
    }
}
