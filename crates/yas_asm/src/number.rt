//! Numbers of a source, decimal and in hex.
ghost use Rattle.std.specs.Prelude.{MatchOption, None, Some, length, IsTrue, ◌≡◌, ◌≤◌};
ghost use Rattle.yas_asm.specs.Tokens as tokens;

use y86_base::{Number, decimal_at, is_hex, number_in_base, split_hex};

fn is_hex_number(bytes: &[u8]) -> bool
    ensures value { result ≡ tokens.is_hex_number bytes.now }
    ensures prefix { IsTrue result → 2 ≤ length bytes.now }
{
    match bytes.strip_prefix(b"0x") {
        None => false,
        Some(digits) => match digits.first() {
            None => false,
            Some(byte) => is_hex(*byte),
        },
    }
}

/// The number at the start of a text without leading blanks, and the bytes after it.
pub fn number_at(bytes: &[u8]) -> Option<(Number, &[u8])>
    ensures { MatchOption result (tokens.number_at bytes.now ≡ None)
        (λ x. tokens.number_at bytes.now ≡ Some (x.0, x.1.now)) }
{
    if !is_hex_number(bytes) {
        return decimal_at(bytes);
    }
    let (digits, behind) = split_hex(bytes.split_at(2).1);
    let magnitude = number_in_base(16, digits);
    Some((
        Number {
            negative: false,
            magnitude,
        },
        behind,
    ))
}
