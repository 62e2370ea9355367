//! Reads one line of object text, and stores its bytes.
ghost use Rattle.std.specs.Prelude.{◌≡◌, ◌<◌, ◌≤◌, ◌+◌, ◌∷◌, [], IfSome, MatchOption, length};
ghost use Rattle.std.specs.Option.{option_copied, option_map};
ghost use Rattle.y86_base.specs.Image.{with_bytes};
ghost use Rattle.yo_object.specs.Grammar.{digits_in_line};
ghost use Rattle.yo_object.specs.Loads.{LeavesMemory};
ghost use Rattle.yo_object.specs.Lines.{digits_in};
ghost use Rattle.yo_object.specs.ObjectText as definition;

use crate::object::YoWhy;
use y86_base::{Image, after_blanks, after_byte, hex_value, number_in_base, split_hex};

/// The digits of a line: those of its address, and those of its bytes.
#[derive(Clone, Copy, Debug)]
pub struct LineDigits<'a> {
    pub address: &'a [u8],
    pub bytes: &'a [u8],
}

/// What follows `0x`, if the text begins with it.
fn after_prefix(text: &[u8]) -> Option<&[u8]>
    ensures { option_copied result ≡ definition.after_prefix text.now }
{
    let rest = after_byte(text, b'0')?;
    after_byte(rest, b'x')
}

/// The end of the line, or `|` with anything after it.
fn is_line_end(text: &[u8]) -> bool
    ensures { result ≡ definition.is_line_end text.now }
{
    match text.split_first() {
        None => true,
        Some((first, _)) => *first == b'|',
    }
}

/// The digits of a well-formed line, from the text after its `0x`.
#[tactic(auto, unfolding(crate::specs::ObjectText::digits_of))]
fn digits_behind(text: &[u8]) -> Option<LineDigits<'_>>
    ensures { option_map digits_in result ≡ definition.digits_of text.now }
{
    let (address, rest) = split_hex(text);
    let Some(data) = after_byte(rest, b':') else {
        return None;
    };
    let (bytes, rest) = split_hex(after_blanks(data));
    if !address.is_empty() && is_line_end(after_blanks(rest)) {
        Some(LineDigits { address, bytes })
    } else {
        None
    }
}

/// The digits of a line, if it is well-formed.
pub fn line_digits(line: &[u8]) -> Option<LineDigits<'_>>
    ensures { option_map digits_in result ≡ digits_in_line line.now }
{
    let Some(text) = after_prefix(after_blanks(line)) else {
        return None;
    };
    digits_behind(text)
}

/// The byte that the first two hex digits write, and the digits after them.
fn first_pair(digits: &[u8]) -> Option<(u8, &[u8])>
    ensures pair { MatchOption result (definition.bytes_of_pairs digits.now ≡ [])
        (λ x. definition.bytes_of_pairs digits.now ≡ x.0 ∷ definition.bytes_of_pairs x.1.now) }
    ensures shorter { IfSome result (λ x. length x.1.now < length digits.now) }
{
    let (high, behind) = digits.split_first()?;
    let (low, rest) = behind.split_first()?;
    Some((16 * hex_value(*high) + hex_value(*low), rest))
}

/// Stores the bytes that pairs of digits write.
fn put_bytes(image: &mut Image, address: u64, digits: &[u8])
    requires { address + length (definition.bytes_of_pairs digits.now) ≤ length image.old }
    ensures { image.new ≡ with_bytes image.old address (definition.bytes_of_pairs digits.now) }
{
    let size = image.size();
    let mut at = address;
    let mut rest = digits;
    'pairs: while let Some((byte, behind)) = first_pair(rest) {
        image.put_byte(at, byte);
        if at < size {
            at += 1;
        }
        rest = behind;
    }
}

/// Stores the bytes of a well-formed line, or returns the first of its faults.
#[tactic(auto, using(crate::proofs::Bytes::put_nothing, crate::proofs::Bytes::pairs_length, crate::proofs::Bytes::not_a_word), unfolding(crate::specs::ObjectText::put_digits))]
fn put_digits(image: &mut Image, digits: &LineDigits<'_>) -> Result<(), YoWhy>
    ensures { LeavesMemory result image.new (definition.put_digits image.old (digits_in digits.now)) }
{
    if digits.address.len() > 16 {
        return Err(YoWhy::AddressTooWide);
    }
    if digits.bytes.len() % 2 == 1 {
        return Err(YoWhy::OddDigits);
    }
    let count = digits.bytes.len() as u64 / 2;
    if count == 0 {
        return Ok(());
    }
    let size = image.size();
    match number_in_base(16, digits.address) {
        Some(address) if address <= size && count <= size - address => {
            put_bytes(image, address, digits.bytes);
            Ok(())
        }
        _ => Err(YoWhy::OutsideMemory),
    }
}

/// Stores the bytes of a line, or returns its fault.
#[tactic(auto, unfolding(crate::specs::ObjectText::put_line))]
pub fn put_line(image: &mut Image, line: &[u8]) -> Result<(), YoWhy>
    ensures { LeavesMemory result image.new (definition.put_line image.old line.now) }
{
    let Some(text) = after_prefix(after_blanks(line)) else {
        return Ok(());
    };
    match digits_behind(text) {
        None => Err(YoWhy::Syntax),
        Some(digits) => put_digits(image, &digits),
    }
}
