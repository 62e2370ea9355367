//! The variables that have one value wherever a gate is false.
ghost use Rattle.std.specs.Prelude.{◌≡◌, ℕ, ◌<◌, List, Bool, false, get_or, IfOk, length, replicate, true};
ghost use Rattle.nets.specs.Nets.{truth};
ghost use Rattle.nets.specs.Substitution.{AreSources};
ghost use Rattle.nets.specs.Forcing.{AreCommon, AreImplied, AreMarkedTrue, IsForced, SubstituteAgrees};

use crate::copies::Replacement;
use crate::net::{Gate, Net};
use std::alloc::Global;
use y86_base::Memory;

/// `size` marks of one kind.
fn marks(alloc: Global, size: u64, mark: bool) -> Result<Vec<bool>, Memory>
    ensures { IfOk result (λ marks. marks.items ≡ replicate size mark) }
{
    match vec![in alloc; mark; size as usize] {
        Ok(marks) => Ok(marks),
        Err(_) => Err(Memory),
    }
}

/// If gate `i` is marked and is a conjunction, marks both its parts.
#[tactic(auto, using(crate::proofs::Forcing::both_true))]
fn mark_parts(n: &Net, i: u64, marked: &mut [bool])
    requires inside { i < length n.now.gates }
    requires size { length marked.old ≡ length n.now.gates }
    ensures { (u : List Bool) → AreMarkedTrue n.now marked.old u → AreMarkedTrue n.now marked.new u }
{
    if marked[i as usize] {
        match n.gate(i) {
            Gate::And(a, b) => {
                marked[a as usize] = true;
                marked[b as usize] = true;
            }
            Gate::Const(_) | Gate::Var(_) | Gate::Not(_) => {}
        }
    }
}

/// Marks conjuncts of a gate: gates that are true wherever it is true.
#[tactic(auto, using(crate::proofs::Forcing::one_true))]
fn conjuncts(alloc: Global, n: &Net, gate: u64) -> Result<Vec<bool>, Memory>
    requires { gate < length n.now.gates }
    ensures size { IfOk result (λ marked. length marked.items ≡ length n.now.gates) }
    ensures implied { IfOk result (λ marked. (u : List Bool) → truth n.now gate u ≡ true → AreMarkedTrue n.now marked.items u) }
{
    let mut marked = marks(alloc, n.len(), false)?;
    marked[gate as usize] = true;
    let mut i = gate + 1;
    while i > 0 {
        i -= 1;
        mark_parts(n, i, marked.as_mut_slice());
    }
    Ok(marked)
}

/// Marks gates that are true wherever a gate is false.
#[tactic(auto, using(crate::proofs::Forcing::never_false, crate::proofs::Forcing::none_marked, crate::proofs::Forcing::negated))]
fn implied(alloc: Global, n: &Net, gate: u64) -> Result<Vec<bool>, Memory>
    requires { gate < length n.now.gates }
    ensures size { IfOk result (λ marked. length marked.items ≡ length n.now.gates) }
    ensures implied { IfOk result (λ marked. (u : List Bool) → truth n.now gate u ≡ false → AreMarkedTrue n.now marked.items u) }
{
    match n.gate(gate) {
        Gate::Const(true) => marks(alloc, n.len(), true),
        Gate::Not(a) => conjuncts(alloc, n, a),
        Gate::Const(false) | Gate::Var(_) | Gate::And(..) => marks(alloc, n.len(), false),
    }
}

/// Removes the marks that aren't in both lists.
#[tactic(auto, using(crate::proofs::Forcing::common_none, crate::proofs::Forcing::common_more, crate::proofs::Forcing::common_less, crate::proofs::Forcing::common_all))]
fn keep_common(marked: &mut [bool], others: &[bool])
    requires { length marked.old ≡ length others.now }
    ensures { AreCommon marked.old others.now marked.new }
{
    for i in 0..others.len() {
        if !others[i] {
            marked[i] = false;
        }
    }
}

/// Marks gates that are true wherever any of the given gates is false.
#[tactic(auto, using(crate::proofs::Forcing::implied_none, crate::proofs::Forcing::implied_more))]
fn implied_by_all(alloc: Global, n: &Net, gates: &[u64]) -> Result<Vec<bool>, Memory>
    requires { (k : ℕ) → k < length gates.now → get_or gates.now k 0 < length n.now.gates }
    ensures { IfOk result (λ marked. AreImplied n.now gates.now (length gates.now) marked.items) }
{
    let mut marked = marks(alloc, n.len(), true)?;
    for k in 0..gates.len() {
        let others = implied(alloc, n, gates[k])?;
        keep_common(marked.as_mut_slice(), others.as_slice());
    }
    Ok(marked)
}

/// If a gate is a variable or the negation of one, puts the bit that makes the gate true in the variable's place.
#[tactic(auto, using(crate::proofs::Forcing::settle_one, crate::proofs::Forcing::sources_one, crate::proofs::Forcing::variable_bit, crate::proofs::Forcing::negated_bit))]
fn settle(n: &Net, gate: u64, to: &mut [Replacement])
    requires inside { gate < length n.now.gates }
    requires size { length to.old ≡ n.now.vars }
    ensures sources { (vars : ℕ) → AreSources vars to.old → AreSources vars to.new }
    ensures settle { (u : List Bool) → truth n.now gate u ≡ true → SubstituteAgrees to.old u → SubstituteAgrees to.new u }
{
    match n.gate(gate) {
        Gate::Var(x) => to[x as usize] = Replacement::Const(true),
        Gate::Not(a) => match n.gate(a) {
            Gate::Var(x) => to[x as usize] = Replacement::Const(false),
            Gate::Const(_) | Gate::Not(_) | Gate::And(..) => {}
        },
        Gate::Const(_) | Gate::And(..) => {}
    }
}

/// Each of `vars` variables in its own place.
#[tactic(auto, using(crate::proofs::Forcing::settle_more, crate::proofs::Forcing::settle_none, crate::proofs::Forcing::sources_more))]
fn themselves(alloc: Global, vars: u32) -> Result<Vec<Replacement>, Memory>
    ensures size { IfOk result (λ to. length to.items ≡ vars) }
    ensures sources { IfOk result (λ to. AreSources vars to.items) }
    ensures settle { IfOk result (λ to. (u : List Bool) → SubstituteAgrees to.items u) }
{
    let mut to: Vec<Replacement> = Vec::new(alloc);
    for i in 0..vars {
        if to.push(Replacement::Var(i)).is_err() {
            return Err(Memory);
        }
    }
    Ok(to)
}

/// A replacement for each variable that is right wherever any of the given gates is false: a bit if the variable is
/// seen to have one there, else the variable itself.
#[tactic(auto, using(crate::proofs::Forcing::is_forced))]
pub fn forced(alloc: Global, n: &Net, gates: &[u64]) -> Result<Vec<Replacement>, Memory>
    requires { (k : ℕ) → k < length gates.now → get_or gates.now k 0 < length n.now.gates }
    ensures size { IfOk result (λ to. length to.items ≡ n.now.vars) }
    ensures forced { IfOk result (λ to. IsForced n.now gates.now to.items) }
{
    let marked = implied_by_all(alloc, n, gates)?;
    let mut to = themselves(alloc, n.vars())?;
    for i in 0..n.len() {
        if marked[i as usize] {
            settle(n, i, to.as_mut_slice());
        }
    }
    Ok(to)
}
