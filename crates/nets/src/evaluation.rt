//! Valuations of the variables, and the truth of a gate under one.
ghost use Rattle.std.specs.Prelude.{◌≡◌, ◌<◌, length, get_or, false, IfOk};
ghost use Rattle.nets.specs.Nets.{gate_value, truth};

use crate::net::{Gate, Net};
use std::alloc::Global;
use y86_base::{Items, Memory};

/// A truth for each variable of a net, variable 0 first.
#[derive(Debug, PartialEq, Drop)]
pub struct Valuation {
    pub bits: Items<bool>,
}

/// An entry of a list of truths, by its number; `false` past the end.
fn truth_at(truths: &[bool], i: u64) -> bool
    ensures { result ≡ get_or truths.now i false }
{
    truths.get(i as usize).copied().unwrap_or(false)
}

/// The truth of a gate under a valuation, given the truths of the gates before it.
fn gate_truth(gate: Gate, v: &[bool], earlier: &[bool]) -> bool
    ensures { result ≡ gate_value v.now earlier.now gate }
{
    match gate {
        Gate::Const(value) => value,
        Gate::Var(x) => truth_at(v, x as u64),
        Gate::Not(a) => !truth_at(earlier, a),
        Gate::And(a, b) => truth_at(earlier, a) && truth_at(earlier, b),
    }
}

/// The truth of gate `gate` of a net under a valuation, which has a bit for each variable.
#[tactic(auto, using(crate::proofs::Truths::values_none, crate::proofs::Truths::values_more, crate::proofs::Truths::truth_last))]
pub fn eval(alloc: Global, n: &Net, gate: u64, v: &Valuation) -> Result<bool, Memory>
    requires gate { gate < length n.now.gates }
    requires bits { length v.now.bits ≡ n.now.vars }
    ensures { IfOk result (λ b. b ≡ truth n.now gate v.now.bits) }
{
    let bits = v.bits.items();
    let mut truths: Vec<bool> = Vec::new(alloc);
    let mut i = 0;
    while i < gate {
        let truth = gate_truth(n.gate(i), bits, truths.as_slice());
        if truths.push(truth).is_err() {
            return Err(Memory);
        }
        i += 1;
    }
    Ok(gate_truth(n.gate(gate), bits, truths.as_slice()))
}
