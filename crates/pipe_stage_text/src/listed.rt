//! Reads from an object text what it lists at each address, for the diagram.
ghost use Rattle.std.specs.Prelude.{◌≡◌, ◌≤◌, ℕ, true, IfOk, OnOk, Some, if◌then◌else◌, length, nat_eq, reverse};
ghost use Rattle.std.specs.List.{prefix_len};
ghost use Rattle.std.specs.Option.{option_copied, option_or};
ghost use Rattle.y86_base.specs.Text.{is_blank};
ghost use Rattle.yo_object.specs.Lines.{digits_in};
ghost use Rattle.pipe_stage_text.specs.Listed as spec;

use indexmap::IndexMap;
use std::alloc::Global;
use y86_base::{Memory, after_blanks, after_byte, first_line, is_blank, number_in_base};
use yo_object::{LineDigits, line_digits};

/// The texts by their addresses.
pub(crate) type Listing = IndexMap<u64, Vec<u8>>;

/// The address that digits denote, if they write bytes there.
fn address_behind(digits: &LineDigits<'_>) -> Option<u64>
    ensures { result ≡ spec.address_behind (digits_in digits.now) }
{
    if digits.bytes.is_empty() {
        return None;
    }
    number_in_base(16, digits.address)
}

/// The address of a well-formed line with bytes.
#[tactic(auto, unfolding(crate::specs::Listed::address_of))]
fn address_of(line: &[u8]) -> Option<u64>
    ensures { result ≡ spec.address_of line.now }
{
    match line_digits(line) {
        None => None,
        Some(digits) => address_behind(&digits),
    }
}

fn is_before_bar(byte: u8) -> bool
    ensures { result ≡ spec.is_before_bar byte }
{
    byte != b'|'
}

/// The number of bytes before the first `|`.
fn bar_place(line: &[u8]) -> usize
    ensures place { result ≡ prefix_len spec.is_before_bar line.now }
    ensures within { result ≤ length line.now }
{
    line.iter().take_while(|byte| is_before_bar(**byte)).count()
}

/// What follows the first `|` of a line.
fn comment_of(line: &[u8]) -> &[u8]
    ensures { result.now ≡ spec.comment_of line.now }
{
    match after_byte(line.split_at(bar_place(line)).1, b'|') {
        Some(comment) => comment,
        None => &[],
    }
}

/// The number of blanks at the end.
fn blanks_at_end(text: &[u8]) -> usize
    ensures count { result ≡ prefix_len is_blank (reverse text.now) }
    ensures within { result ≤ length text.now }
{
    text.iter()
        .rev()
        .take_while(|byte| is_blank(**byte))
        .count()
}

/// A text without the blanks at its end.
fn without_end(text: &[u8]) -> &[u8]
    ensures { result.now ≡ spec.without_end text.now }
{
    text.split_at(text.len() - blanks_at_end(text)).0
}

/// The text of a line, without the blanks in front and at the end.
#[tactic(auto, unfolding(crate::specs::Listed::text_of))]
fn text_of(line: &[u8]) -> &[u8]
    ensures { result.now ≡ spec.text_of line.now }
{
    without_end(after_blanks(comment_of(line)))
}

/// A text that isn't empty.
fn some_text(text: &[u8]) -> Option<&[u8]>
    ensures { option_copied result ≡ spec.some_text text.now }
{
    match text.split_first() {
        None => None,
        Some(_) => Some(text),
    }
}

/// Stores a text at an address, and replaces one that is there.
fn put_text(alloc: Global, listing: &mut Listing, address: u64, text: &[u8]) -> Result<(), Memory>
    ensures { OnOk result ((place : ℕ) → spec.text_in listing.new.entries place ≡ (if nat_eq address place then Some text.now else spec.text_in listing.old.entries place)) }
{
    let Ok(copy) = Vec::from_slice(alloc, text) else {
        return Err(Memory);
    };
    match listing.insert(address, copy) {
        Ok(_) => Ok(()),
        Err(_) => Err(Memory),
    }
}

/// Stores the text that a line lists.
fn put_line(alloc: Global, listing: &mut Listing, line: &[u8]) -> Result<(), Memory>
    ensures { OnOk result ((place : ℕ) → spec.text_in listing.new.entries place ≡ option_or (spec.text_at place line.now) (spec.text_in listing.old.entries place)) }
{
    let Some(address) = address_of(line) else {
        return Ok(());
    };
    let Some(text) = some_text(text_of(line)) else {
        return Ok(());
    };
    put_text(alloc, listing, address, text)
}

/// The texts that an object text lists.
fn listing_of(alloc: Global, object: &[u8]) -> Result<Listing, Memory>
    ensures { IfOk result (λ listing. (place : ℕ) → spec.text_in listing.entries place ≡ spec.listed object.now place) }
{
    let mut listing = IndexMap::new(alloc);
    let mut rest = object;
    while let Some((line, behind)) = first_line(rest) {
        match put_line(alloc, &mut listing, line) {
            Ok(()) => {}
            Err(_) => return Err(Memory),
        }
        rest = behind;
    }
    Ok(listing)
}

/// What an object text lists at addresses, if the diagram is asked for. Only the diagram needs it; otherwise nothing is
/// listed.
pub(crate) fn listing_for(alloc: Global, object: &[u8], diagram: bool) -> Result<Listing, Memory>
    ensures { IfOk result (λ listing. diagram ≡ true → (place : ℕ) → spec.text_in listing.entries place ≡ spec.listed object.now place) }
{
    if diagram {
        return listing_of(alloc, object);
    }
    Ok(IndexMap::new(alloc))
}

/// The text at an address.
#[tactic(auto, unfolding(crate::specs::Listed::text_in))]
pub(crate) fn text_in(listing: &Listing, address: u64) -> Option<&[u8]>
    ensures { option_copied result ≡ spec.text_in listing.now.entries address }
{
    match listing.get(&address) {
        Some(text) => Some(text.as_slice()),
        None => None,
    }
}
