//! Words of 64 places, one for each vector: truths are shifted in place after place, and words are put into vectors.
ghost use Rattle.std.specs.Prelude.{◌≡◌, ◌≢◌, ◌<◌, ◌+◌, ◌/◌, ◌%◌, ◌==◌, ℕ, length, if◌then◌else◌};
ghost use Rattle.lane_eval.specs.Lanes.{across, along, bit_test, lane_bit};

use crate::places::with_bit;
use std::simd::u64x8;

/// A word shifted down by one place, with a truth in its last place.
fn shifted(word: u64, truth: bool) -> u64
    ensures last { bit_test result 63 ≡ truth }
    ensures others { (j : ℕ) → j < 63 → bit_test result j ≡ bit_test word (j + 1) }
{
    with_bit(word >> 1, 63, truth)
}

/// Shifts each word down by one place, and puts a truth into its last place.
pub(crate) fn shift_in(words: &mut [u64], truths: &[bool])
    requires size { length truths.now ≡ length words.old }
    ensures last { along 63 words.new ≡ truths.now }
    ensures others { (j : ℕ) → j < 63 → along j words.new ≡ along (j + 1) words.old }
{
    for i in 0..words.len() {
        words[i] = shifted(words[i], truths[i]);
    }
}

/// A vector with one of its words replaced.
fn with_word(vector: u64x8, l: u64, word: u64) -> u64x8
    requires { l < 8 }
    ensures { (q : ℕ) → q < 512 → lane_bit q result ≡ (if q / 64 == l then bit_test word (q % 64) else lane_bit q vector) }
{
    let mut words = vector.to_array();
    words[l as usize] = word;
    u64x8::from_array(words)
}

/// Puts a word into each vector: the truths of 64 places. The other places stay.
pub(crate) fn put_words(lanes: &mut [u64x8], l: u64, words: &[u64])
    requires word { l < 8 }
    requires size { length words.now ≡ length lanes.old }
    ensures put { (q : ℕ) → q < 512 → q / 64 ≡ l → across q lanes.new ≡ along (q % 64) words.now }
    ensures others { (q : ℕ) → q < 512 → q / 64 ≢ l → across q lanes.new ≡ across q lanes.old }
{
    for i in 0..lanes.len() {
        lanes[i] = with_word(lanes[i], l, words[i]);
    }
}
