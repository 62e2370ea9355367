//! The first rule that is false at some valuation.
ghost use Rattle.std.specs.Prelude.{◌<◌, IfOk, IfSome, length, List, ℕ};
ghost use Rattle.bdd_decide.specs.Decisions.{IsGateDecision as IsDecisionOf};
ghost use Rattle.nets.specs.Nets.{Gates};
ghost use Rattle.ctl_verdicts.specs.Decisions.{HaveGatesOfNet, AreTheirGates, IsRuleDecision};

use bdd_decide::{Counterexample, VariableOrders};
use ctl_rules::Rule;
use nets::{Net, Valuation};
use std::alloc::Global;
use y86_base::Memory;

/// A rule that is false at some valuation: its number, and the least such valuation.
#[derive(Debug, PartialEq, Drop)]
pub struct FailedRule {
    pub rule: u32,
    pub valuation: Valuation,
}

fn gates_of(alloc: Global, list: &[Rule]) -> Result<Vec<u64>, Memory>
    ensures { IfOk result (λ gates. AreTheirGates list.now gates.items) }
{
    let mut gates: Vec<u64> = Vec::new(alloc);
    for k in 0..list.len() {
        if gates.push(list[k].gate).is_err() {
            return Err(Memory);
        }
    }
    Ok(gates)
}

/// The decision on rules, from the decision on their gates.
#[tactic(auto, using(crate::proofs::Decided::none_failed))]
fn failure_of(list: &[Rule], counter: Option<Counterexample>) -> Option<FailedRule>
    requires { IfSome counter (λ c. c.place < length list.now) }
    ensures { (n : Gates) (gates : List ℕ) → AreTheirGates list.now gates → IsDecisionOf n gates counter → IsRuleDecision n list.now result }
{
    match counter {
        Some(c) => Some(FailedRule {
            rule: list[c.place].number,
            valuation: c.valuation,
        }),
        None => None,
    }
}

/// The first rule of a list that is false at some valuation, with the least such valuation, the variables in their
/// order and 0 before 1. `None` if every rule is true at every valuation. The diagrams use the given orders, which
/// affect speed alone.
#[tactic(auto, using(crate::proofs::Decided::their_gates, crate::proofs::Decided::place_within))]
pub fn decide_in_order(
    alloc: Global,
    net: &Net,
    list: &[Rule],
    orders: VariableOrders,
) -> Result<Option<FailedRule>, Memory>
    requires { HaveGatesOfNet net.now list.now }
    ensures { IfOk result (IsRuleDecision net.now list.now) }
{
    let gates = gates_of(alloc, list)?;
    let counter = bdd_decide::decide_in_order(alloc, net, gates.as_slice(), orders)?;
    Ok(failure_of(list, counter))
}

/// Like `decide_in_order`, with the variables in their own order.
#[tactic(auto, using(crate::proofs::Decided::their_gates, crate::proofs::Decided::place_within))]
pub fn decide(alloc: Global, net: &Net, list: &[Rule]) -> Result<Option<FailedRule>, Memory>
    requires { HaveGatesOfNet net.now list.now }
    ensures { IfOk result (IsRuleDecision net.now list.now) }
{
    let gates = gates_of(alloc, list)?;
    let counter = bdd_decide::decide(alloc, net, gates.as_slice())?;
    Ok(failure_of(list, counter))
}
