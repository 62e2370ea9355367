//! The vectors of inputs, one in each place of 512.
ghost use Rattle.std.specs.Prelude.{◌≡◌, ◌+◌, ◌-◌, ◌%◌, ◌^◌, ◌<◌, ◌≤◌, ℕ, IfOk, length};
ghost use Rattle.aiger_run.specs.Vectors.{bit_behind, vector, word_behind};
ghost use Rattle.lane_eval.specs.Lanes.{across};

use lane_eval::{copies, put_place};
use prog_gen::Draws;
use std::alloc::Global;
use std::simd::u64x8;
use y86_base::Memory;

/// Input `k` of vector `i`. From the tenth on, each input takes a draw.
#[tactic(auto, using(crate::proofs::Vectors::drawn_none, crate::proofs::Vectors::drawn_more))]
fn next_input(i: u64, k: usize, draws: &mut Draws) -> bool
    requires { i < 512 }
    ensures bit { (word : ℕ) → draws.old ≡ word_behind word (k - 9) → result ≡ bit_behind word i k }
    ensures behind { (word : ℕ) → draws.old ≡ word_behind word (k - 9) → draws.new ≡ word_behind word (k + 1 - 9) }
{
    if k < 9 {
        return (i >> k) % 2 == 1;
    }
    draws.draw() % 2 == 1
}

/// Puts the inputs of a vector.
#[tactic(auto, using(crate::proofs::Vectors::vector_none, crate::proofs::Vectors::vector_more, crate::proofs::Vectors::vector_all))]
fn put_vector(seed: u64, i: u64, bits: &mut [bool])
    requires { i < 512 }
    ensures { bits.new ≡ vector seed i (length bits.old) }
{
    let mut draws = Draws::from(seed.wrapping_add(i));
    for k in 0..bits.len() {
        let bit = next_input(i, k, &mut draws);
        bits[k] = bit;
    }
}

/// Puts 512 vectors, each in its place.
fn put_vectors(seed: u64, bits: &mut [bool], lanes: &mut [u64x8])
    requires { length bits.old ≡ length lanes.old }
    ensures { (p : ℕ) → p < 512 → across p lanes.new ≡ vector seed p (length lanes.old) }
{
    for p in 0..512 {
        put_vector(seed, p, bits);
        put_place(lanes, p, bits);
    }
}

/// The vectors 0 to 511, each with `inputs` inputs.
pub(crate) fn vectors(alloc: Global, seed: u64, inputs: u32) -> Result<Vec<u64x8>, Memory>
    ensures size { IfOk result (λ lanes. length lanes.items ≡ inputs) }
    ensures places { IfOk result (λ lanes. (p : ℕ) → p < 512 → across p lanes.items ≡ vector seed p inputs) }
{
    let mut lanes = copies(alloc, u64x8::splat(0), inputs)?;
    let mut bits = copies(alloc, false, inputs)?;
    put_vectors(seed, bits.as_mut_slice(), lanes.as_mut_slice());
    Ok(lanes)
}
