//! Numbers as they are written in a file: a sign and a magnitude, so that each use can check its own range.
ghost use Rattle.std.specs.Prelude.{◌≡◌, MatchOption, None, Some};
ghost use Rattle.y86_base.specs.Number as spec;

use crate::text::{after_byte, is_decimal, number_in_base, split_decimal};

/// A number as it is written. A magnitude of None means 2^64 or more.
#[derive(Clone, Copy, Debug, PartialEq, Eq)]
pub struct Number {
    pub negative: bool,
    pub magnitude: Option<u64>,
}

impl Number {
    /// The number as a word, if it is between -`below` and `above`; a negative one counts modulo 2^64.
    #[tactic(auto, unfolding(crate::specs::Number::word_within))]
    pub fn word_within(self, below: u64, above: u64) -> Option<u64>
        ensures { result ≡ spec.word_within below above self }
    {
        let n = self.magnitude?;
        if self.negative {
            if n <= below {
                Some(n.wrapping_neg())
            } else {
                None
            }
        } else if n <= above {
            Some(n)
        } else {
            None
        }
    }
}

/// A decimal number whose sign was read.
fn unsigned_at(negative: bool, bytes: &[u8]) -> Option<(Number, &[u8])>
    ensures { MatchOption result (spec.unsigned_at negative bytes.now ≡ None)
        (λ x. spec.unsigned_at negative bytes.now ≡ Some (x.0, x.1.now)) }
{
    if !is_decimal(*bytes.first()?) {
        return None;
    }
    let (digits, behind) = split_decimal(bytes);
    let magnitude = number_in_base(10, digits);
    Some((
        Number {
            negative,
            magnitude,
        },
        behind,
    ))
}

/// The decimal number in front, with an optional `-` directly before its digits, and the bytes after it.
#[tactic(auto, unfolding(crate::specs::Number::decimal_at))]
pub fn decimal_at(bytes: &[u8]) -> Option<(Number, &[u8])>
    ensures { MatchOption result (spec.decimal_at bytes.now ≡ None)
        (λ x. spec.decimal_at bytes.now ≡ Some (x.0, x.1.now)) }
{
    match after_byte(bytes, b'-') {
        Some(digits) => unsigned_at(true, digits),
        None => unsigned_at(false, bytes),
    }
}
