//! One place of vectors: it is written in each of several vectors, and the first place in which a vector is false is
//! found.
ghost use Rattle.std.specs.Prelude.{◌≡◌, ◌≢◌, ◌<◌, ◌≤◌, ◌==◌, ℕ, true, false, length, if◌then◌else◌};
ghost use Rattle.lane_eval.specs.Lanes.{across, bit_test, lane_bit};

use std::simd::u64x8;

/// A word with one of its bits set or cleared.
pub(crate) fn with_bit(word: u64, k: u64, bit: bool) -> u64
    requires { k < 64 }
    ensures { (j : ℕ) → j < 64 → bit_test result j ≡ (if j == k then bit else bit_test word j) }
{
    if bit { word | 1 << k } else { word & !(1 << k) }
}

/// A vector with a truth written in one of its places.
fn with_truth(vector: u64x8, p: u64, truth: bool) -> u64x8
    requires { p < 512 }
    ensures { (q : ℕ) → q < 512 → lane_bit q result ≡ (if q == p then truth else lane_bit q vector) }
{
    let mut words = vector.to_array();
    let l = (p / 64) as usize;
    words[l] = with_bit(words[l], p % 64, truth);
    u64x8::from_array(words)
}

/// Puts a truth into one place of each vector. The other places stay.
pub fn put_place(lanes: &mut [u64x8], p: u64, truths: &[bool])
    requires place { p < 512 }
    requires size { length truths.now ≡ length lanes.old }
    ensures put { across p lanes.new ≡ truths.now }
    ensures others { (q : ℕ) → q < 512 → q ≢ p → across q lanes.new ≡ across q lanes.old }
{
    for i in 0..lanes.len() {
        lanes[i] = with_truth(lanes[i], p, truths[i]);
    }
}

/// The first place in which a vector is false; 512 if there is none.
pub fn first_false_place(vector: u64x8) -> u64
    ensures within { result ≤ 512 }
    ensures before { (p : ℕ) → p < result → lane_bit p vector ≡ true }
    ensures there { result < 512 → lane_bit result vector ≡ false }
{
    let words = vector.to_array();
    for l in 0..8 {
        let word = words[l];
        if word != u64::MAX {
            return 64 * l as u64 + u64::from(word.trailing_ones());
        }
    }
    512
}
