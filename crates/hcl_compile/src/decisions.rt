//! Appends decision nodes to those made so far.
ghost use Rattle.std.specs.Prelude.{◌≡◌, ◌<◌, ◌++◌, nat_eq, IfOk, List, ℕ, [], ◌∷◌, length};
ghost use Rattle.hcl_compile.specs.declared.node.TheConstants.{ROWS};
ghost use Rattle.hcl_compile.specs.Making.{Comes, Decides, IsAdded, IsTest, IsValue};
ghost use Rattle.hcl_compile.specs.Walks.{code_answer};

use crate::copies::copy_term;
use crate::node::{Ask, Node, ROWS};
use crate::targets::Targets;
use hcl_types::{NameId, Term};
use std::alloc::Global;
use y86_base::Memory;

/// Nodes, and the terms that they evaluate as a whole.
#[derive(Debug, Drop)]
pub struct Decisions {
    pub nodes: Vec<Node>,
    pub terms: Vec<Term>,
}

/// Appends a node, and returns its place. If no place below `ROWS` is left, it reports that memory is out.
fn put(node: Node, d: &mut Decisions) -> Result<u32, Memory>
    ensures { IfOk result (IsAdded node d.old d.new) }
{
    let place = d.nodes.len();
    if place >= ROWS as usize || d.nodes.push(node).is_err() {
        return Err(Memory);
    }
    Ok(place as u32)
}

/// Appends a node that leads to one target if the answer to its question is yes, and otherwise to another.
fn put_question(ask: Ask, to: Targets, d: &mut Decisions) -> Result<u32, Memory>
    ensures { IfOk result (λ place. (next : List ℕ) × IsAdded (record { ask = ask; next = to.hit ∷ to.miss ∷ next }) d.old d.new place) }
{
    put(
        Node {
            ask,
            next: [to.hit, to.miss, 0, 0, 0, 0, 0, 0, 0, 0, 0, 0, 0, 0, 0, 0, 0],
        },
        d,
    )
}

/// Where the walk from a target goes on if the answer to the code in a row is known: past a node that asks for the same
/// code.
fn past(target: u32, name: NameId, answer: u64, d: &Decisions) -> u32
    requires { answer < 17 }
    ensures { (env : ℕ → ℕ) (rows word : ℕ) → code_answer (env name) ≡ answer → Comes env rows d.now target word → Comes env rows d.now result word }
{
    if target >= ROWS {
        return target;
    }
    let Some(node) = d.nodes.as_slice().get(target as usize) else {
        return target;
    };
    match node.ask {
        Ask::Code(other) => {
            if other == name {
                node.next[answer as usize]
            } else {
                target
            }
        }
        _ => target,
    }
}

/// Decides whether the code in a row is this one.
pub fn put_code(name: NameId, code: u64, to: Targets, d: &mut Decisions) -> Result<u32, Memory>
    requires { code < 16 }
    ensures { (constants : List ℕ) → IfOk result (Decides constants (name ∷ []) (λ env. nat_eq (env name) code) d.old d.new to) }
{
    let mut next = [0; 17];
    for answer in 0..17 {
        let target = to.chosen(answer == code);
        next[answer as usize] = past(target, name, answer, d);
    }
    let node = Node {
        ask: Ask::Code(name),
        next,
    };
    put(node, d)
}

/// Decides whether two rows have the same value.
pub fn put_same(left: NameId, right: NameId, to: Targets, d: &mut Decisions) -> Result<u32, Memory>
    ensures { (constants : List ℕ) → IfOk result (Decides constants (left ∷ right ∷ []) (λ env. nat_eq (env left) (env right)) d.old d.new to) }
{
    put_question(Ask::Same(left, right), to, d)
}

/// Adds a term that a node evaluates as a whole, and returns its place.
fn add_term(alloc: Global, t: &Term, d: &mut Decisions) -> Result<u32, Memory>
    ensures { IfOk result (λ k. (k ≡ length d.old.terms.items) × (d.new.terms.items ≡ d.old.terms.items ++ t.now ∷ []) × (d.new.nodes.items ≡ d.old.nodes.items)) }
{
    let copy = copy_term(alloc, t)?;
    let k = d.terms.len();
    if k >= ROWS as usize || d.terms.push(copy).is_err() {
        return Err(Memory);
    }
    Ok(k as u32)
}

/// Decides whether a term holds, by a node that evaluates the whole term.
pub fn put_term(alloc: Global, t: &Term, to: Targets, d: &mut Decisions) -> Result<u32, Memory>
    ensures { (constants : List ℕ) → IfOk result (IsTest constants t.now d.old d.new to) }
{
    let k = add_term(alloc, t, d)?;
    put_question(Ask::Holds(k), to, d)
}

/// Leads to the value of a term, by a node that evaluates the whole term.
pub fn put_term_value(alloc: Global, t: &Term, d: &mut Decisions) -> Result<u32, Memory>
    ensures { (constants : List ℕ) → IfOk result (IsValue constants t.now d.old d.new) }
{
    let k = add_term(alloc, t, d)?;
    let node = Node {
        ask: Ask::Value(k),
        next: [0; 17],
    };
    put(node, d)
}
