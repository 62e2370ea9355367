//! Vectors of 512 bits as the truths of gates: each operation of a gate in all places at once, and a whole net in one pass.
ghost use Rattle.std.specs.Prelude.{◌≡◌, ◌<◌, ◌≤◌, ◌&&◌, not, ℕ, [], length, take, get_or, IfOk};
ghost use Rattle.nets.specs.Nets.{ReadsEarlier, gate_value, truth, truths, values};
ghost use Rattle.lane_eval.specs.Lanes.{across, lane_bit};

use nets::{Gate, Net};
use std::alloc::Global;
use std::marker::Model;
use std::simd::u64x8;
use y86_base::Memory;

/// The same truth in all places.
#[tactic(auto, using(crate::proofs::Bits::place_all, crate::proofs::Bits::place_none))]
fn every(truth: bool) -> u64x8
    ensures { (p : ℕ) → p < 512 → lane_bit p result ≡ truth }
{
    if truth {
        u64x8::splat(u64::MAX)
    } else {
        u64x8::splat(0)
    }
}

/// The other truth in each place.
fn inverted(a: u64x8) -> u64x8
    ensures { (p : ℕ) → p < 512 → lane_bit p result ≡ not (lane_bit p a) }
{
    !a
}

/// Whether both are true, in each place.
fn both(a: u64x8, b: u64x8) -> u64x8
    ensures { (p : ℕ) → p < 512 → lane_bit p result ≡ (lane_bit p a && lane_bit p b) }
{
    a & b
}

/// The truths of a gate in 512 places, given those of the variables and of the gates before it.
fn gate_lanes(gate: Gate, lanes: &[u64x8], earlier: &[u64x8]) -> u64x8
    requires { ReadsEarlier (length lanes.now) (length earlier.now) gate }
    ensures { (p : ℕ) → p < 512 → lane_bit p result ≡ gate_value (across p lanes.now) (across p earlier.now) gate }
{
    match gate {
        Gate::Const(truth) => return every(truth),
        Gate::Var(x) => return lanes[x as usize],
        Gate::Not(a) => return inverted(earlier[a as usize]),
        Gate::And(a, b) => return both(earlier[a as usize], earlier[b as usize]),
    }
}

/// Puts the truths of the first gates of a net, in 512 places.
fn fill(n: &Net, count: u64, lanes: &[u64x8], truths: &mut [u64x8])
    requires count { count ≤ length n.now.gates }
    requires room { count ≤ length truths.old }
    requires variables { length lanes.now ≡ n.now.vars }
    ensures { (p : ℕ) → p < 512 → across p (take count truths.new) ≡ values (across p lanes.now) [] (take count n.now.gates) }
{
    let mut i = 0;
    while i < count {
        let at = i as usize;
        let truth = gate_lanes(n.gate(i), lanes, &truths[..at]);
        truths[at] = truth;
        i += 1;
    }
}

/// Memory for the truths of a net's gates in 512 places: a vector of 64 bytes for each gate.
#[derive(Drop)]
pub struct Scratch {
    truths: Vec<u64x8>,
}

impl Model for Scratch {
    ghost use Rattle.std.specs.Prelude.{List, ℕ};

    ghost Value = { List (List ℕ) };

    ghost view = { λ s. s.truths.items };
}

impl Scratch {
    /// Memory for a net.
    pub fn new(alloc: Global, n: &Net) -> Result<Scratch, Memory>
        ensures { IfOk result (λ s. length s ≡ length n.now.gates) }
    {
        let mut truths: Vec<u64x8> = Vec::new(alloc);
        let mut i = 0;
        while i < n.len() {
            if truths.push(u64x8::splat(0)).is_err() {
                return Err(Memory);
            }
            i += 1;
        }
        Ok(Scratch { truths })
    }

    /// Evaluates all gates of a net, given the truths of the variables in 512 places.
    pub fn run(&mut self, n: &Net, lanes: &[u64x8])
        requires has_truth { length self.old ≡ length n.now.gates }
        requires variables { length lanes.now ≡ n.now.vars }
        ensures has_truth { length self.new ≡ length n.now.gates }
        ensures truths { (p : ℕ) → p < 512 → across p self.new ≡ truths n.now (across p lanes.now) }
    {
        fill(n, n.len(), lanes, self.truths.as_mut_slice());
    }

    /// The truths of a gate in 512 places.
    pub fn at(&self, gate: u64) -> u64x8
        requires { gate < length self.now }
        ensures { result ≡ get_or self.now gate [] }
    {
        self.truths[gate as usize]
    }
}

/// The truths of gate `gate` at 512 valuations. Bit p % 64 of word p / 64 is its truth at the valuation whose bits
/// are in place p of the entries of `lanes`, which has one entry for each variable. It allocates no memory.
pub fn eval512(n: &Net, gate: u64, lanes: &[u64x8], s: &mut Scratch) -> u64x8
    requires gate { gate < length n.now.gates }
    requires variables { length lanes.now ≡ n.now.vars }
    requires has_truth { length s.old ≡ length n.now.gates }
    ensures has_truth { length s.new ≡ length n.now.gates }
    ensures truth { (p : ℕ) → p < 512 → lane_bit p result ≡ truth n.now gate (across p lanes.now) }
{
    fill(n, gate, lanes, s.truths.as_mut_slice());
    gate_lanes(n.gate(gate), lanes, &s.truths.as_slice()[..gate as usize])
}
