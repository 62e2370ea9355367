//! The evaluator: walks decision nodes.
ghost use Rattle.std.specs.Prelude.{◌≡◌, ◌<◌, ℕ, length};
ghost use Rattle.hcl_types.specs.Terms.{at};
ghost use Rattle.hcl_compile.specs.Walks.{AreRoots, Ends, HasAnswer, answer, code_answer, yes_or_no};

use crate::node::{Ask, Compiled, Node, ROWS};
use hcl_types::{SignalEval, Term, value_of};

#[inline(always)]
fn to_code(word: u64) -> u64
    ensures value { result ≡ code_answer word }
    ensures small { result < 17 }
{
    if word < 16 { word } else { 16 }
}

#[inline(always)]
fn to_answer(holds: bool) -> u64
    ensures value { result ≡ yes_or_no holds }
    ensures small { result < 17 }
{
    if holds { 0 } else { 1 }
}

/// The answer to a node's question.
#[inline(always)]
fn answer_to(ask: Ask, terms: &[Term], vals: &[u64]) -> u64
    requires { HasAnswer (length vals.now) terms.now ask }
    ensures value { result ≡ answer (at vals.now) terms.now ask }
    ensures small { result < 17 }
{
    match ask {
        Ask::Code(name) => to_code(vals[name as usize]),
        Ask::Same(left, right) => to_answer(vals[left as usize] == vals[right as usize]),
        Ask::Holds(k) => to_answer(value_of(&terms[k as usize], vals) != 0),
        Ask::Value(_) => 0,
    }
}

/// The word with which the walk from a target ends, whatever its nodes ask.
#[cold]
#[inline(never)]
fn walk_on(nodes: &[Node], terms: &[Term], vals: &[u64], target: u32) -> u64
    requires ends { (word : ℕ) × Ends (at vals.now) (length vals.now) terms.now nodes.now target word }
    ensures { (word : ℕ) → Ends (at vals.now) (length vals.now) terms.now nodes.now target word → result ≡ word }
{
    let mut place = target;
    while place < ROWS {
        let node = &nodes[place as usize];
        if let Ask::Value(k) = node.ask {
            return value_of(&terms[k as usize], vals);
        }
        place = node.next[answer_to(node.ask, terms, vals) as usize];
    }
    vals[(place - ROWS) as usize]
}

/// The word with which the walk from a target ends. Most nodes ask about codes and equal rows; if one asks for a term,
/// `walk_on` goes on from it.
#[inline(always)]
fn walk(nodes: &[Node], terms: &[Term], vals: &[u64], target: u32) -> u64
    requires ends { (word : ℕ) × Ends (at vals.now) (length vals.now) terms.now nodes.now target word }
    ensures { (word : ℕ) → Ends (at vals.now) (length vals.now) terms.now nodes.now target word → result ≡ word }
{
    let mut place = target;
    while place < ROWS {
        let node = &nodes[place as usize];
        match node.ask {
            Ask::Holds(_) | Ask::Value(_) => return walk_on(nodes, terms, vals, place),
            _ => {}
        }
        place = node.next[answer_to(node.ask, terms, vals) as usize];
    }
    vals[(place - ROWS) as usize]
}

impl SignalEval for Compiled {
    ghost evaluates = { λ compiled terms. AreRoots compiled.constants compiled.terms compiled.nodes terms compiled.roots };

    ghost assumes = { λ compiled. compiled.constants };

    fn fits(&self, constants: &[u64]) -> bool {
        self.constants.items() == constants
    }

    #[inline(always)]
    fn eval(&mut self, def: u32, vals: &[u64]) -> u64 {
        let root = self.roots.items()[def as usize];
        walk(self.nodes.items(), self.terms.items(), vals, root)
    }
}
