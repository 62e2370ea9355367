//! Gates, and nets of them.
ghost use Rattle.std.specs.Prelude.{◌≡◌, ℕ, ◌<◌, List, Bool, length, slice_get, IfOk, IfSome};
ghost use Rattle.nets.specs.Nets.{ExtendsNet, IsAdded, IsGate, ReadsEarlier, gate_value, truth, truths};

use std::alloc::Global;
use std::collections::HashMap;
use std::marker::Model;
use y86_base::Memory;

/// A gate: a constant, a variable by its number, the negation of an earlier gate, or the conjunction of two.
#[derive(Clone, Copy, Debug, PartialEq, Eq, Hash)]
pub enum Gate {
    Const(bool),
    Var(u32),
    Not(u64),
    And(u64, u64),
}

/// The number of an equal gate, if the table has it. The two gates are compared, so the answer is right whatever the
/// table says.
fn find(gates: &[Gate], numbers: &HashMap<Gate, u64>, gate: Gate) -> Option<u64>
    ensures { IfSome result (λ i. slice_get gates.now i ≡ Some gate) }
{
    let number = *numbers.get(&gate)?;
    match gates.get(number as usize) {
        Some(found) if *found == gate => Some(number),
        _ => None,
    }
}

/// Finds an equal gate or adds the gate after the others, and returns its number.
fn place(gates: &mut Vec<Gate>, numbers: &mut HashMap<Gate, u64>, gate: Gate) -> Result<u64, Memory>
    ensures grows { IsAdded gates.old.items gates.new.items gate }
    ensures found { IfOk result (λ i. slice_get gates.new.items i ≡ Some gate) }
{
    if let Some(number) = find(gates.as_slice(), numbers, gate) {
        return Ok(number);
    }
    let number = gates.len() as u64;
    if numbers.insert(gate, number).is_err() || gates.push(gate).is_err() {
        return Err(Memory);
    }
    Ok(number)
}

/// Formulas that share their parts, seen as a number of variables and a list of gates, each over earlier ones.
#[derive(Drop)]
pub struct Net {
    vars: u32,
    gates: Vec<Gate>,
    /// The number of each gate, so that an equal one is found.
    numbers: HashMap<Gate, u64>,
}

impl Model for Net {
    ghost use Rattle.nets.specs.Nets.{Gates, IsNet};

    ghost Value = { Gates };

    ghost view = { λ n. record { vars = n.vars; gates = n.gates.items } };

    ghost invariant = { λ n. IsNet (record { vars = n.vars; gates = n.gates.items }) };
}

impl Net {
    /// A net without gates.
    pub(crate) fn new(alloc: Global, vars: u32) -> Net
        ensures vars { result.vars ≡ vars }
        ensures none { length result.gates ≡ 0 }
    {
        Net {
            vars,
            gates: Vec::new(alloc),
            numbers: HashMap::new(alloc),
        }
    }

    /// The number of variables. They are numbered from 0 on.
    pub fn vars(&self) -> u32
        ensures { result ≡ self.now.vars }
    {
        self.vars
    }

    /// The number of gates.
    pub fn len(&self) -> u64
        ensures { result ≡ length self.now.gates }
    {
        self.gates.len() as u64
    }

    /// A gate by its number. It reads only earlier gates, and its truth comes from theirs and from the valuation.
    pub fn gate(&self, i: u64) -> Gate
        requires { i < length self.now.gates }
        ensures is { slice_get self.now.gates i ≡ Some result }
        ensures earlier { ReadsEarlier self.now.vars i result }
        ensures meaning { (w : List Bool) → truth self.now i w ≡ gate_value w (truths self.now w) result }
    {
        self.gates[i as usize]
    }

    /// Adds a gate after the others, or finds an equal one.
    #[tactic(auto, using(crate::proofs::Added::added_net, crate::proofs::Added::added_begins))]
    pub(crate) fn add(&mut self, gate: Gate) -> Result<u64, Memory>
        requires { ReadsEarlier self.old.vars (length self.old.gates) gate }
        ensures extends { ExtendsNet self.old self.new }
        ensures added { IfOk result (λ i. slice_get self.new.gates i ≡ Some gate) }
        ensures meaning { IfOk result (λ i. IsGate self.new i (λ w. gate_value w (truths self.new w) gate)) }
    {
        place(&mut self.gates, &mut self.numbers, gate)
    }
}
