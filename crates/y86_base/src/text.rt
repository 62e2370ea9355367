//! What all file formats share: tests of bytes, and functions that split blanks, digits, names and lines off the front.
ghost use Rattle.std.specs.Prelude.{◌≡◌, ◌<◌, ◌≤◌, ◌+◌, ◌*◌, ℕ, ◌∷◌, [], length, take_while, true, MatchOption, IfSome, ◌++◌, OnOk};
ghost use Rattle.std.specs.Char.{digit_value};
ghost use Rattle.std.specs.List.{position_or_len, prefix_len};
ghost use Rattle.std.specs.Option.{option_copied};
ghost use Rattle.std.specs.Str.Parse.{digits_value};
ghost use Rattle.y86_base.specs.Text as text;

use crate::parts::Memory;

/// Appends bytes to the output.
pub fn put(out: &mut Vec<u8>, bytes: &[u8]) -> Result<(), Memory>
    ensures { OnOk result (out.new.items ≡ out.old.items ++ bytes.now) }
{
    match out.extend_from_slice(bytes) {
        Ok(()) => Ok(()),
        Err(_) => Err(Memory),
    }
}

/// A space, a tab or a carriage return.
pub fn is_blank(byte: u8) -> bool
    ensures { result ≡ text.is_blank byte }
{
    byte == b' ' || byte == b'\t' || byte == b'\r'
}

/// A decimal digit.
pub fn is_decimal(byte: u8) -> bool
    ensures { result ≡ text.is_decimal byte }
{
    byte.is_ascii_digit()
}

/// A hex digit of either case.
pub fn is_hex(byte: u8) -> bool
    ensures { result ≡ text.is_hex byte }
{
    byte.is_ascii_hexdigit()
}

/// An ASCII letter.
pub fn is_letter(byte: u8) -> bool
    ensures { result ≡ text.is_letter byte }
{
    byte.is_ascii_alphabetic()
}

/// A byte of a name: a letter, a digit or `_`.
pub fn is_name_byte(byte: u8) -> bool
    ensures { result ≡ text.is_name_byte byte }
{
    is_letter(byte) || byte == b'_' || is_decimal(byte)
}

/// What follows a byte, if the text begins with it.
pub fn after_byte(bytes: &[u8], byte: u8) -> Option<&[u8]>
    ensures { option_copied result ≡ text.after_byte byte bytes.now }
{
    let (first, rest) = bytes.split_first()?;
    if *first == byte { Some(rest) } else { None }
}

/// The value of a hex digit of either case, and 0 for any other byte.
pub fn hex_value(byte: u8) -> u8
    ensures value { result ≡ text.hex_value byte }
    ensures digit { result < 16 }
    ensures in_numerals { text.is_hex byte ≡ true → result ≡ digit_value byte }
{
    if b'0' <= byte && byte <= b'9' {
        byte - b'0'
    } else if b'a' <= byte && byte <= b'f' {
        byte - b'a' + 10
    } else if b'A' <= byte && byte <= b'F' {
        byte - b'A' + 10
    } else {
        0
    }
}

/// The value of a digit or letter in the largest base, and 36 for any other byte.
fn value_of_digit(byte: u8) -> u64
    ensures { result ≡ digit_value byte }
{
    match char::from(byte).to_digit(36) {
        Some(value) => u64::from(value),
        None => 36,
    }
}

/// A number with one more digit after it, if it is below 2^64.
fn with_digit(value: Option<u64>, base: u64, digit: u64) -> Option<u64>
    requires { 1 ≤ base }
    ensures { (n : ℕ) → value ≡ text.below_word n → result ≡ text.below_word (n * base + digit) }
{
    value?.checked_mul(base)?.checked_add(digit)
}

/// The number that digits write in a base, the highest digit first; None for 2^64 or more.
pub fn number_in_base(base: u64, digits: &[u8]) -> Option<u64>
    requires { 1 ≤ base }
    ensures { result ≡ text.below_word (digits_value base digits.now) }
{
    let mut value = Some(0);
    for digit in digits {
        value = with_digit(value, base, value_of_digit(*digit));
    }
    value
}

/// How many blanks there are at the front.
fn blank_count(bytes: &[u8]) -> usize
    ensures count { result ≡ prefix_len text.is_blank bytes.now }
    ensures within { result ≤ length bytes.now }
{
    bytes.iter().take_while(|byte| is_blank(**byte)).count()
}

/// What follows the blanks at the front.
pub fn after_blanks(bytes: &[u8]) -> &[u8]
    ensures { result.now ≡ text.behind text.is_blank bytes.now }
{
    bytes.split_at(blank_count(bytes)).1
}

/// How many hex digits there are at the front.
fn hex_count(bytes: &[u8]) -> usize
    ensures count { result ≡ prefix_len text.is_hex bytes.now }
    ensures within { result ≤ length bytes.now }
{
    bytes.iter().take_while(|byte| is_hex(**byte)).count()
}

/// The hex digits at the front, and what follows them.
pub fn split_hex(bytes: &[u8]) -> (&[u8], &[u8])
    ensures digits { result.0.now ≡ take_while text.is_hex bytes.now }
    ensures rest { result.1.now ≡ text.behind text.is_hex bytes.now }
{
    bytes.split_at(hex_count(bytes))
}

/// How many decimal digits there are at the front.
fn decimal_count(bytes: &[u8]) -> usize
    ensures count { result ≡ prefix_len text.is_decimal bytes.now }
    ensures within { result ≤ length bytes.now }
{
    bytes.iter().take_while(|byte| is_decimal(**byte)).count()
}

/// The decimal digits at the front, and what follows them.
pub fn split_decimal(bytes: &[u8]) -> (&[u8], &[u8])
    ensures front { result.0.now ≡ take_while text.is_decimal bytes.now }
    ensures rest { result.1.now ≡ text.behind text.is_decimal bytes.now }
{
    bytes.split_at(decimal_count(bytes))
}

/// How many bytes of a name there are at the front.
fn name_count(bytes: &[u8]) -> usize
    ensures count { result ≡ prefix_len text.is_name_byte bytes.now }
    ensures within { result ≤ length bytes.now }
{
    bytes.iter().take_while(|byte| is_name_byte(**byte)).count()
}

/// The bytes of a name at the front, and what follows them.
pub fn split_name(bytes: &[u8]) -> (&[u8], &[u8])
    ensures front { result.0.now ≡ take_while text.is_name_byte bytes.now }
    ensures rest { result.1.now ≡ text.behind text.is_name_byte bytes.now }
{
    bytes.split_at(name_count(bytes))
}

/// The length of the first line in bytes, without its line feed.
fn line_length(bytes: &[u8]) -> usize
    ensures place { result ≡ position_or_len text.is_line_feed bytes.now }
    ensures within { result ≤ length bytes.now }
{
    bytes.iter().take_while(|byte| **byte != b'\n').count()
}

/// The first line of a text, without its line feed, and what follows it; None for an empty text.
#[tactic(auto, using(crate::proofs::Lines::lines_of_first, crate::proofs::Lines::lines_of_last))]
pub fn first_line(bytes: &[u8]) -> Option<(&[u8], &[u8])>
    ensures lines { MatchOption result (bytes.now ≡ [])
        (λ x. text.lines bytes.now ≡ x.0.now ∷ text.lines x.1.now) }
    ensures shorter { IfSome result (λ x. length x.1.now < length bytes.now) }
{
    if bytes.is_empty() {
        return None;
    }
    let length = line_length(bytes);
    let (line, rest) = bytes.split_at(length);
    match rest.split_first() {
        None => Some((line, rest)),
        Some((_, behind)) => Some((line, behind)),
    }
}
