//! Counts the vectors at which an output is 1.
ghost use Rattle.std.specs.Prelude.{◌≡◌, ◌<◌, ◌≤◌, ◌+◌, ℕ, [], IfOk, get_or, length};
ghost use Rattle.aiger_run.specs.Counts.{AreCounted, AreCounts, AreCountsAt, count_below};
ghost use Rattle.lane_eval.specs.Lanes.{bit_test, lane_bit};

use crate::inputs::vectors;
use aiger_out::Aig;
use lane_eval::Scratch;
use std::alloc::Global;
use std::simd::u64x8;
use y86_base::Memory;

/// Whether a bit of a word is 1.
fn is_set(word: u64, k: u64) -> bool
    requires { k < 64 }
    ensures { result ≡ bit_test word k }
{
    word >> k & 1 == 1
}

/// Whether a vector is true in a place.
#[tactic(auto, unfolding(lane_eval::specs::Lanes::lane_bit))]
fn is_true(words: &[u64; 8], p: u64) -> bool
    requires { p < 512 }
    ensures { result ≡ lane_bit p words.now }
{
    is_set(words[(p / 64) as usize], p % 64)
}

/// In how many places a vector is true.
#[tactic(auto, using(crate::proofs::Places::count_none, crate::proofs::Places::count_yes, crate::proofs::Places::count_no, crate::proofs::Places::count_within))]
fn count_true(vector: u64x8) -> u64
    ensures { result ≡ count_below (λ p. lane_bit p vector) 512 }
{
    let words = vector.to_array();
    let mut count: u64 = 0;
    for p in 0..512 {
        if is_true(&words, p) {
            count += 1;
        }
    }
    count
}

/// The counts of some gates.
fn count_gates(alloc: Global, s: &Scratch, gates: &[u64]) -> Result<Vec<u64>, Memory>
    requires { (i : ℕ) → i < length gates.now → get_or gates.now i 0 < length s.now }
    ensures { IfOk result (λ counts. AreCounted s.now gates.now (length gates.now) counts.items) }
{
    let mut counts: Vec<u64> = Vec::new(alloc);
    for i in 0..gates.len() {
        let count = count_true(s.at(gates[i]));
        if counts.push(count).is_err() {
            return Err(Memory);
        }
    }
    Ok(counts)
}

/// The counts of all outputs at the vectors in `lanes`. All gates are evaluated once, for all outputs.
fn count_all(alloc: Global, aig: &Aig, lanes: &[u64x8], s: &mut Scratch) -> Result<Vec<u64>, Memory>
    requires has_truth { length s.old ≡ length aig.now.net.gates }
    requires variables { length lanes.now ≡ aig.now.net.vars }
    requires gates { (i : ℕ) → i < length aig.now.outs → get_or aig.now.outs i 0 < length aig.now.net.gates }
    ensures { IfOk result (λ counts. AreCountsAt aig.now.net aig.now.outs lanes.now counts.items) }
{
    s.run(&aig.net, lanes);
    count_gates(alloc, s, aig.outs.items())
}

/// At how many of the vectors 0 to 511 of a seed each output is 1.
#[tactic(auto, using(crate::proofs::Places::counts_of_vectors))]
pub fn counts(alloc: Global, aig: &Aig, seed: u64) -> Result<Vec<u64>, Memory>
    requires { (i : ℕ) → i < length aig.now.outs → get_or aig.now.outs i 0 < length aig.now.net.gates }
    ensures { IfOk result (λ counts. AreCounts aig.now.net aig.now.outs seed counts.items) }
{
    let lanes = vectors(alloc, seed, aig.net.vars())?;
    let mut scratch = Scratch::new(alloc, &aig.net)?;
    count_all(alloc, aig, lanes.as_slice(), &mut scratch)
}
