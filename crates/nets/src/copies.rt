//! Copies of nets with a constant or another variable in place of each variable.
ghost use Rattle.std.specs.Prelude.{◌≡◌, ◌<◌, ℕ, length, IfOk};
ghost use Rattle.nets.specs.Nets.{ExtendsNet, IsGate, ReadsEarlier, gate_value, truths};
ghost use Rattle.nets.specs.declared.copies.Replacement.TheVariants.{Var};
ghost use Rattle.nets.specs.Substitution.{AreCopies, AreSources, behind, source_truth};

use crate::builder::NetBuilder;
use crate::net::{Gate, Net};
use std::alloc::Global;
use y86_base::{Items, Memory};

/// What replaces a variable: a constant, or a variable of the copy by its number.
#[derive(Clone, Copy, Debug, PartialEq, Eq)]
pub enum Replacement {
    Const(bool),
    Var(u32),
}

/// A copy of a net, and for each gate of the net the number of the copy's gate with its truth.
#[derive(Drop)]
pub struct SubstitutedNet {
    pub net: Net,
    pub gates: Items<u64>,
}

/// The gate for what replaces a variable.
fn source_gate(b: &mut NetBuilder, source: Replacement) -> Result<u64, Memory>
    requires { (x : ℕ) → source ≡ Var x → x < b.old.vars }
    ensures extends { ExtendsNet b.old b.new }
    ensures has_truth { IfOk result (λ g. IsGate b.new g (λ u. source_truth u source)) }
{
    match source {
        Replacement::Const(value) => b.constant(value),
        Replacement::Var(x) => b.variable(x),
    }
}

/// The gate of the copy for a gate of the net, from those for the gates that it reads.
#[tactic(auto, using(crate::proofs::Gates::read_at, crate::proofs::Gates::variable_made, crate::proofs::Gates::not_made, crate::proofs::Gates::and_made))]
fn copy_gate(
    b: &mut NetBuilder,
    n: &Net,
    to: &[Replacement],
    made: &[u64],
    gate: Gate,
) -> Result<u64, Memory>
    requires sources { AreSources b.old.vars to.now }
    requires whole { length to.now ≡ n.now.vars }
    requires copies { AreCopies n.now b.old to.now made.now }
    requires reads { ReadsEarlier n.now.vars (length made.now) gate }
    ensures extends { ExtendsNet b.old b.new }
    ensures has_truth { IfOk result (λ g. IsGate b.new g (λ u. gate_value (behind to.now u) (truths n.now (behind to.now u)) gate)) }
{
    match gate {
        Gate::Const(value) => b.constant(value),
        Gate::Var(x) => {
            let source = to[x as usize];
            source_gate(b, source)
        }
        Gate::Not(a) => {
            let arg = made[a as usize];
            b.not(arg)
        }
        Gate::And(x, y) => {
            let left = made[x as usize];
            let right = made[y as usize];
            b.and(left, right)
        }
    }
}

/// A copy of a net with `vars` variables, in which `to[i]` replaces variable i.
#[tactic(auto, using(crate::proofs::Gates::copies_none, crate::proofs::Gates::copies_more))]
pub fn substitute(
    alloc: Global,
    n: &Net,
    vars: u32,
    to: &[Replacement],
) -> Result<SubstitutedNet, Memory>
    requires sources { AreSources vars to.now }
    requires whole { length to.now ≡ n.now.vars }
    ensures vars { IfOk result (λ s. s.net.vars ≡ vars) }
    ensures size { IfOk result (λ s. length s.gates ≡ length n.now.gates) }
    ensures copies { IfOk result (λ s. AreCopies n.now s.net to.now s.gates) }
{
    let mut b = NetBuilder::new(alloc, vars);
    let mut made: Vec<u64> = Vec::new(alloc);
    let mut i = 0;
    while i < n.len() {
        let g = copy_gate(&mut b, n, to, made.as_slice(), n.gate(i))?;
        if made.push(g).is_err() {
            return Err(Memory);
        }
        i += 1;
    }
    Ok(SubstitutedNet {
        net: b.finish(),
        gates: Items::of(made),
    })
}
