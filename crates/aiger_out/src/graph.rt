//! A net as an and-inverter graph: a literal for each gate, and an AND for each conjunction.
ghost use Rattle.std.specs.Prelude.{◌≡◌, ◌<◌, ◌≤◌, ◌/◌, ℕ, Bool, not, length, IfOk};
ghost use Rattle.aiger_out.specs.Values.{literal_value};
ghost use Rattle.aiger_out.specs.Graphs.{doubled, IsLiteralOf, IsGraphOf};
ghost use Rattle.nets.specs.Nets.{ReadsEarlier};

use nets::{Gate, Net};
use std::alloc::Global;
use y86_base::Memory;

/// The operands of an AND, as literals.
#[derive(Clone, Copy)]
pub struct And {
    pub first: u64,
    pub second: u64,
}

/// A literal for each gate, and the ANDs that these literals need.
#[derive(Drop)]
pub struct Graph {
    pub literals: Vec<u64>,
    pub ands: Vec<And>,
}

/// The negation of a literal.
pub(crate) fn negated(x: u64) -> u64
    ensures value { (env : ℕ → Bool) → literal_value env result ≡ not (literal_value env x) }
    ensures variable { result / 2 ≡ x / 2 }
{
    if x % 2 == 1 { x - 1 } else { x + 1 }
}

/// The literal of a variable, counted from 0; out of memory if it doesn't fit in 64 bits.
pub(crate) fn literal_of(variable: u64) -> Result<u64, Memory>
    ensures { IfOk result (λ x. x ≡ doubled variable) }
{
    match variable.checked_mul(2) {
        Some(x) => Ok(x),
        None => Err(Memory),
    }
}

/// The literal of a gate after the earlier ones. Appends its AND if it needs one.
fn gate_literal(vars: u64, gate: Gate, literals: &[u64], ands: &mut Vec<And>) -> Result<u64, Memory>
    requires vars { vars < 4294967296 }
    requires earlier { ReadsEarlier vars (length literals.now) gate }
    ensures literal { IfOk result (λ x. IsLiteralOf vars gate literals.now ands.old.items ands.new.items x) }
{
    match gate {
        Gate::Const(true) => Ok(1),
        Gate::Const(false) => Ok(0),
        Gate::Var(v) => literal_of(v as u64 + 1),
        Gate::Not(a) => Ok(negated(literals[a as usize])),
        Gate::And(a, b) => {
            let first = literals[a as usize];
            let second = literals[b as usize];
            if ands.push(And { first, second }).is_err() {
                return Err(Memory);
            }
            match vars.checked_add(ands.len() as u64) {
                Some(variable) => literal_of(variable),
                None => Err(Memory),
            }
        }
    }
}

/// A net as an and-inverter graph.
pub fn graph_of(alloc: Global, n: &Net) -> Result<Graph, Memory>
    ensures { IfOk result (λ r. IsGraphOf n.now.vars n.now.gates r.literals.items r.ands.items) }
{
    let vars = n.vars() as u64;
    let mut literals: Vec<u64> = Vec::new(alloc);
    let mut ands: Vec<And> = Vec::new(alloc);
    let mut i = 0;
    while i < n.len() {
        match gate_literal(vars, n.gate(i), literals.as_slice(), &mut ands) {
            Ok(x) => {
                if literals.push(x).is_err() {
                    return Err(Memory);
                }
            }
            Err(Memory) => return Err(Memory),
        }
        i += 1;
    }
    Ok(Graph { literals, ands })
}
