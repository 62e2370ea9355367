//! A term for each node of some diagrams.
ghost use Rattle.std.specs.Prelude.{◌≡◌, true, cond, ◌^◌, ◌+◌, ◌<◌, ◌++◌, ◌∷◌, [], ℕ, length, IfOk, IfSome, get_or};
ghost use Rattle.bdd_core.specs.Meaning.{Depends, IsDia, IsNode};
ghost use Rattle.cert_writer.specs.Nodes.{ExtendsTerms, IsDrawn, IsVariableOrder, IsTermOf, IsTermTable};
ghost use Rattle.cert_checker.specs.Rules as spec;
ghost use Rattle.cert_writer.specs.Terms.{AreOrdered};
ghost use Rattle.cert_writer.specs.Writing.{AreGateTerms, IsGateTerm};

use bdd_core::{Dia, Node, Store};
use cert_checker::{TermDef, is_made, made_at};
use nets::{Gate, Net};
use std::alloc::Global;
use std::marker::Model;
use y86_base::{Memory, push};

/// The terms of some diagrams, over the variables of a net: variable `order[x]` of the net is variable x of the
/// diagrams.
#[derive(Drop)]
pub struct TermWriter<'a> {
    store: &'a Store,
    order: &'a [u32],
    ranks: &'a [u32],
    terms: Vec<TermDef>,
    found: Vec<u32>,
}

impl<'a> Model for TermWriter<'a> {
    ghost use Rattle.cert_writer.specs.Nodes.{IsTermTable, TermTable};

    ghost Value = { TermTable };

    ghost view = { λ t. record { store = t.store.now; order = t.order.now; ranks = t.ranks.now; terms = t.terms.items; found = t.found.items } };

    ghost invariant = { λ t. IsTermTable (record { store = t.store.now; order = t.order.now; ranks = t.ranks.now; terms = t.terms.items; found = t.found.items }) };
}

/// The most terms that there may be, so that each number fits in 32 bits.
const MOST: usize = 4_000_000_000;

/// The term of a constant.
fn constant(value: bool) -> u32
    ensures { result ≡ cond value 1 0 }
{
    if value { 1 } else { 0 }
}

/// The number of places in the cache of terms.
fn room(dias: &[Dia]) -> u64 {
    let mut most = 0;
    for i in 0..dias.len() {
        let id = dias[i].id;
        if most <= id && id < 1 << 32 {
            most = id + 1;
        }
    }
    most
}

impl<'a> TermWriter<'a> {
    /// A writer without terms.
    #[tactic(auto, using(crate::proofs::Nodes::written_none))]
    pub fn new(
        alloc: Global,
        store: &'a Store,
        order: &'a [u32],
        ranks: &'a [u32],
        dias: &[Dia],
    ) -> Result<TermWriter<'a>, Memory>
        requires vars { store.now.vars ≡ length order.now }
        requires small { length order.now < 2 ^ 32 }
        requires order { IsVariableOrder order.now ranks.now }
        ensures store { IfOk result (λ t. t.store ≡ store.now) }
        ensures order { IfOk result (λ t. t.order ≡ order.now) }
        ensures ranks { IfOk result (λ t. t.ranks ≡ ranks.now) }
    {
        let found = match vec![in alloc; 0u32; room(dias) as usize] {
            Ok(found) => found,
            Err(_) => return Err(Memory),
        };
        Ok(TermWriter {
            store,
            order,
            ranks,
            terms: Vec::new(alloc),
            found,
        })
    }

    /// The terms.
    pub fn made(&self) -> &[TermDef]
        ensures has_truth { result.now ≡ self.now.terms }
        ensures written { IsTermTable self.now }
    {
        self.terms.as_slice()
    }

    /// The ranks of the variables.
    pub fn ranks(&self) -> &[u32]
        ensures { result.now ≡ self.now.ranks }
    {
        self.ranks
    }

    /// The term of a diagram, if it has one.
    fn known(&self, d: Dia) -> Option<u32>
        requires { IsDia self.now.store d }
        ensures { IfSome result (IsTermOf self.now.store self.now.order self.now.terms d) }
    {
        let t = self
            .found
            .as_slice()
            .get(d.id as usize)
            .copied()
            .unwrap_or(0);
        if t < 2 {
            return None;
        }
        Some(t)
    }

    /// Caches the term of a diagram, if there is a place for it.
    #[tactic(auto, using(crate::proofs::Nodes::written_found))]
    fn remember(&mut self, d: Dia, t: u32)
        requires { IsTermOf self.old.store self.old.order self.old.terms d t }
        ensures terms_grow { ExtendsTerms self.old self.new }
        ensures same { self.new.terms ≡ self.old.terms }
    {
        if d.id < self.found.len() as u64 {
            self.found[d.id as usize] = t;
        }
    }

    /// The node at the root of a diagram; and the invariant of the terms.
    fn node(&self, d: Dia) -> Node
        requires { IsDia self.now.store d }
        ensures node { IsNode self.now.store d result }
        ensures written { IsTermTable self.now }
    {
        self.store.node(d)
    }

    /// The variable of the net for variable `x` of the diagrams.
    fn variable(&self, x: u32) -> u32
        requires { x < length self.now.order }
        ensures variable { result ≡ get_or self.now.order x 0 }
        ensures written { IsTermTable self.now }
    {
        self.order[x as usize]
    }

    /// Appends a term.
    #[tactic(auto, using(crate::proofs::Nodes::written_push, crate::proofs::Nodes::goes_self, crate::proofs::Nodes::made_goes))]
    fn push(&mut self, made: TermDef) -> Result<u32, Memory>
        requires { AreOrdered self.old.ranks (self.old.terms ++ made ∷ []) }
        ensures terms_grow { ExtendsTerms self.old self.new }
        ensures term { IfOk result (λ t. (t ≡ length self.old.terms + 2) × (self.new.terms ≡ self.old.terms ++ made ∷ [])) }
    {
        let t = self.terms.len();
        if t >= MOST {
            return Err(Memory);
        }
        match self.terms.push(made) {
            Ok(()) => Ok(t as u32 + 2),
            Err(_) => Err(Memory),
        }
    }

    /// The term of a diagram that depends on no variable before `least`.
    #[tactic(auto, using(crate::proofs::Nodes::next_fits, crate::proofs::Nodes::term_stays, crate::proofs::Nodes::goes_more, crate::proofs::Nodes::goes_self))]
    pub fn term(&mut self, d: Dia, least: u32) -> Result<u32, Memory>
        requires dia { IsDia self.old.store d }
        requires least { (y : ℕ) → y < least → Depends self.old.store d y → ⊥ }
        ensures terms_grow { ExtendsTerms self.old self.new }
        ensures term { IfOk result (IsTermOf self.new.store self.new.order self.new.terms d) }
    {
        match self.node(d) {
            Node::False => Ok(0),
            Node::True => Ok(1),
            Node::Choice { var, low, high } => {
                if let Some(t) = self.known(d) {
                    return Ok(t);
                }
                let l = self.term(low, var + 1)?;
                let h = self.term(high, var + 1)?;
                let made = TermDef {
                    var: self.variable(var),
                    low: l,
                    high: h,
                };
                let t = self.push(made)?;
                self.remember(d, t);
                Ok(t)
            }
        }
    }

    /// The invariant of the terms.
    fn holds(&self)
        ensures { IsTermTable self.now }
    {
        let _ = self.terms.len(); // brings the invariant of the terms
    }

    /// Whether a term is that of a variable.
    fn is_variable(&self, t: u32, v: u32) -> bool
        ensures { result ≡ spec.is_made (spec.made_at self.now.terms t) v 0 1 }
    {
        is_made(made_at(self.terms.as_slice(), t as u64), v, 0, 1)
    }

    /// The term of a variable, which may be that of a diagram.
    #[tactic(auto, using(crate::proofs::Gates::variable_push, crate::proofs::Gates::variable_pushed, crate::proofs::Nodes::goes_more, crate::proofs::Nodes::goes_self))]
    fn variable_term(&mut self, v: u32, d: Dia) -> Result<u32, Memory>
        requires var { v < length self.old.order }
        requires dia { IsDia self.old.store d }
        ensures terms_grow { ExtendsTerms self.old self.new }
        ensures within { IfOk result (λ t. t < length self.new.terms + 2) }
        ensures has_truth { IfOk result (λ t. spec.is_made (spec.made_at self.new.terms t) v 0 1 ≡ true) }
    {
        self.holds();
        let t = self.term(d, 0)?;
        if self.is_variable(t, v) {
            return Ok(t);
        }
        self.holds();
        self.push(TermDef {
            var: v,
            low: 0,
            high: 1,
        })
    }

    /// The term of a gate.
    #[tactic(auto, using(crate::proofs::Gates::constant_term, crate::proofs::Gates::variable_gate, crate::proofs::Gates::other_term, crate::proofs::Gates::no_least, crate::proofs::Nodes::goes_self))]
    fn gate_term(&mut self, n: &Net, dias: &[Dia], i: u64) -> Result<u32, Memory>
        requires inside { i < length n.now.gates }
        requires vars { length self.old.order ≡ n.now.vars }
        requires drawn { IsDrawn n.now self.old.order self.old.store dias.now }
        ensures terms_grow { ExtendsTerms self.old self.new }
        ensures term { IfOk result (IsGateTerm n.now (length self.new.order) self.new.terms i) }
    {
        self.holds();
        let d = dias[i as usize];
        match n.gate(i) {
            Gate::Const(b) => Ok(constant(b)),
            Gate::Var(v) => {
                let t = self.variable_term(v, d)?;
                self.holds();
                Ok(t)
            }
            Gate::Not(_) | Gate::And(..) => self.term(d, 0),
        }
    }

    /// The terms of the gates of a net.
    #[tactic(auto, using(crate::proofs::Gates::gates_none, crate::proofs::Gates::gates_more, crate::proofs::Gates::drawn_stays, crate::proofs::Nodes::goes_self, crate::proofs::Nodes::goes_more))]
    pub fn gate_terms(&mut self, alloc: Global, n: &Net, dias: &[Dia]) -> Result<Vec<u32>, Memory>
        requires vars { length self.old.order ≡ n.now.vars }
        requires drawn { IsDrawn n.now self.old.order self.old.store dias.now }
        ensures terms_grow { ExtendsTerms self.old self.new }
        ensures terms { IfOk result (λ ts. AreGateTerms n.now (length self.new.order) self.new.terms ts.items (length n.now.gates)) }
    {
        let mut terms: Vec<u32> = Vec::new(alloc);
        for i in 0..n.len() {
            let t = self.gate_term(n, dias, i)?;
            push(&mut terms, t)?;
        }
        Ok(terms)
    }
}
