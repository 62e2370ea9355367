//! Prints numbers, in decimal and hex.
ghost use Rattle.std.specs.Prelude.{◌≡◌, ◌≤◌, ◌<◌, ◌+◌, ◌++◌, OnOk, false, length, take, drop};
ghost use Rattle.std.specs.Fmt.{digit_glyph, digits};
ghost use Rattle.std.specs.Str.Parse.{digits_value};
ghost use Rattle.y86_base.specs.Numeral.{numeral, signed_decimal};

use crate::parts::Memory;
use crate::text::put;
use std::marker::Model;

/// The text of a number, in a buffer of its own, so that it allocates nothing. Contracts see the bytes of the text.
#[derive(Debug, Drop)]
pub struct Numeral {
    bytes: [u8; 64],
    start: usize,
}

impl Model for Numeral {
    ghost use Rattle.std.specs.Prelude.{List, ℕ, ◌≤◌, drop};

    ghost Value = { List ℕ };

    ghost view = { λ numeral. drop numeral.start numeral.bytes };

    ghost invariant = { λ numeral. numeral.start ≤ 64 };
}

/// The digit of a value below 16.
fn digit(value: u64) -> u8
    requires { value < 16 }
    ensures { result ≡ digit_glyph false value }
{
    if value < 10 {
        b'0' + value as u8
    } else {
        b'a' + (value - 10) as u8
    }
}

/// Writes the digits of `n` so that they end where the buffer ends, and returns where they begin.
fn write_digits(base: u64, n: u64, bytes: &mut [u8; 64]) -> usize
    requires least_base { 2 ≤ base }
    requires most_base { base ≤ 16 }
    ensures within { result ≤ 64 }
    ensures written { drop result bytes.new ≡ digits base false n }
    ensures before { take result bytes.new ≡ take result bytes.old }
{
    let mut at = 64;
    let mut left = n;
    while at > 0 {
        at -= 1;
        bytes[at] = digit(left % base);
        left /= base;
        if left == 0 {
            break;
        }
    }
    at
}

impl Numeral {
    /// The digits of `n` in a base from 2 to 16, padded with `0` to `least` digits.
    fn in_base(base: u64, least: usize, n: u64) -> Numeral
        requires least_base { 2 ≤ base }
        requires most_base { base ≤ 16 }
        requires room { least ≤ 64 }
        ensures { result ≡ numeral base least n }
    {
        let mut bytes = [b'0'; 64];
        let at = write_digits(base, n, &mut bytes);
        let start = at.min(64 - least);
        Numeral { bytes, start }
    }

    /// The decimal digits of `n`, without leading zeros.
    pub fn decimal(n: u64) -> Numeral
        ensures text { result ≡ numeral 10 1 n }
        ensures value { digits_value 10 result ≡ n }
    {
        Numeral::in_base(10, 1, n)
    }

    /// The lower-case hex digits of `n`, padded with `0` to `least` digits.
    pub fn hex(least: usize, n: u64) -> Numeral
        requires { least ≤ 64 }
        ensures text { result ≡ numeral 16 least n }
        ensures value { digits_value 16 result ≡ n }
        ensures width { least ≤ length result }
    {
        Numeral::in_base(16, least, n)
    }

    /// The bytes of the text.
    pub fn as_bytes(&self) -> &[u8]
        ensures { result.now ≡ self.now }
    {
        &self.bytes[self.start..]
    }
}

/// Appends a number in decimal, without leading zeros.
pub fn put_decimal(out: &mut Vec<u8>, n: u64) -> Result<(), Memory>
    ensures { OnOk result (out.new.items ≡ out.old.items ++ numeral 10 1 n) }
{
    put(out, Numeral::decimal(n).as_bytes())
}

/// Appends a word as a signed decimal number.
#[tactic(auto, unfolding(crate::specs::Numeral::signed_decimal))]
pub fn put_signed(out: &mut Vec<u8>, n: u64) -> Result<(), Memory>
    ensures { OnOk result (out.new.items ≡ out.old.items ++ signed_decimal n) }
{
    if n < 1 << 63 {
        put_decimal(out, n)
    } else {
        put(out, b"-")?;
        put_decimal(out, n.wrapping_neg())
    }
}
