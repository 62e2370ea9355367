//! Fills the places of a pattern with words: `~found~` is replaced by what was found, and so on.
ghost use Rattle.std.specs.Prelude.{◌≤◌, length};

use std::alloc::Global;
use y86_base::{Memory, put, put_decimal};

/// What replaces the places of a pattern.
#[derive(Clone, Copy, Debug)]
pub struct Words<'a> {
    /// The token or the name that a fault is about.
    pub found: &'a [u8],
    /// The token before it.
    pub before: &'a [u8],
    /// The innermost open bracket, and what closes it.
    pub open: &'a [u8],
    pub close: &'a [u8],
    /// What would open the bracket that was found.
    pub opener: &'a [u8],
    /// The datapath, the mnemonic or the kind in question.
    pub name: &'a [u8],
    /// How the operands of a mnemonic are written.
    pub usage: &'a [u8],
    /// A list of what could stand at the place.
    pub wanted: &'a [u8],
    pub line: u64,
    pub before_line: u64,
    pub open_line: u64,
    pub number: u64,
}

/// No words.
pub fn no_words() -> Words<'static> {
    Words {
        found: b"",
        before: b"",
        open: b"",
        close: b"",
        opener: b"",
        name: b"",
        usage: b"",
        wanted: b"",
        line: 0,
        before_line: 0,
        open_line: 0,
        number: 0,
    }
}

/// Words about a name: the name that was found, another name, what is wanted, a line and a number.
pub fn words_about<'a>(
    found: &'a [u8],
    name: &'a [u8],
    wanted: &'a [u8],
    before_line: u64,
    number: u64,
) -> Words<'a> {
    Words {
        found,
        before: b"",
        open: b"",
        close: b"",
        opener: b"",
        name,
        usage: b"",
        wanted,
        line: 0,
        before_line,
        open_line: 0,
        number,
    }
}

/// Adds what replaces a place of a pattern.
fn put_word(out: &mut Vec<u8>, words: &Words, place: &[u8]) -> Result<(), Memory> {
    if place == b"found".as_slice() {
        return put(out, words.found);
    }
    if place == b"before".as_slice() {
        return put(out, words.before);
    }
    if place == b"open".as_slice() {
        return put(out, words.open);
    }
    if place == b"close".as_slice() {
        return put(out, words.close);
    }
    if place == b"opener".as_slice() {
        return put(out, words.opener);
    }
    if place == b"name".as_slice() {
        return put(out, words.name);
    }
    if place == b"usage".as_slice() {
        return put(out, words.usage);
    }
    if place == b"wanted".as_slice() {
        return put(out, words.wanted);
    }
    put_number(out, words, place)
}

/// Adds the number that replaces a place of a pattern.
fn put_number(out: &mut Vec<u8>, words: &Words, place: &[u8]) -> Result<(), Memory> {
    if place == b"line".as_slice() {
        return put_decimal(out, words.line);
    }
    if place == b"before_line".as_slice() {
        return put_decimal(out, words.before_line);
    }
    if place == b"open_line".as_slice() {
        return put_decimal(out, words.open_line);
    }
    if place == b"number".as_slice() {
        return put_decimal(out, words.number);
    }
    Ok(())
}

/// The number of bytes before the first `~`.
fn before_mark(bytes: &[u8]) -> usize
    ensures { result ≤ length bytes.now }
{
    bytes.iter().take_while(|byte| **byte != b'~').count()
}

/// Adds a pattern with its places filled in.
fn put_filled(out: &mut Vec<u8>, pattern: &[u8], words: &Words) -> Result<(), Memory> {
    let mut rest = pattern;
    let mut is_place = false;
    'parts: loop {
        let (front, behind) = rest.split_at(before_mark(rest));
        let added = if is_place {
            put_word(out, words, front)
        } else {
            put(out, front)
        };
        match added {
            Err(memory) => return Err(memory),
            Ok(()) => {}
        }
        match behind.split_first() {
            None => return Ok(()),
            Some((_, others)) => {
                rest = others;
                is_place = !is_place;
            }
        }
    }
}

/// The sentence of a pattern.
pub fn filled(alloc: Global, pattern: &[u8], words: &Words) -> Result<Vec<u8>, Memory> {
    let mut out = Vec::new(alloc);
    match put_filled(&mut out, pattern, words) {
        Ok(()) => Ok(out),
        Err(memory) => Err(memory),
    }
}
