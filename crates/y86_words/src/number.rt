//! Numbers as they are written on the command line.
ghost use Rattle.std.specs.Prelude.{◌≡◌};
ghost use Rattle.std.specs.List.{list_all};
ghost use Rattle.y86_base.specs.Image.{is_image_size};
ghost use Rattle.y86_base.specs.Text.{is_decimal};
ghost use Rattle.y86_words.specs.Numbers as spec;

use y86_base::{is_decimal, is_image_size, number_in_base};

/// Whether all bytes are decimal digits.
fn is_decimal_text(text: &[u8]) -> bool
    ensures { result ≡ list_all is_decimal text.now }
{
    text.iter().all(|byte| is_decimal(*byte))
}

/// The number that a word denotes: 1 to 20 decimal digits with a value below 2^64.
fn number_of(word: &[u8]) -> Option<u64>
    ensures { result ≡ spec.number_of word.now }
{
    if word.is_empty() || word.len() > 20 || !is_decimal_text(word) {
        return None;
    }
    number_in_base(10, word)
}

/// The size of a memory in bytes that a word denotes, if an image can have this size.
pub fn image_size(word: &[u8]) -> Option<u64>
    ensures { result ≡ spec.number_that is_image_size word.now }
{
    let size = number_of(word)?;
    if is_image_size(size) {
        Some(size)
    } else {
        None
    }
}

/// The number from `least` to `most` that a word denotes.
pub fn number_within(word: &[u8], least: u64, most: u64) -> Option<u64>
    ensures { result ≡ spec.number_within least most word.now }
{
    let number = number_of(word)?;
    if least <= number && number <= most {
        Some(number)
    } else {
        None
    }
}
