//! Prints a listing as object text.
ghost use Rattle.std.specs.Prelude.{◌≡◌, ◌≤◌, ◌++◌, IfOk, OnOk, replicate};
ghost use Rattle.y86_base.specs.Numeral.{numeral};
ghost use Rattle.yo_object.specs.Printed as definition;

use std::alloc::Global;
use y86_base::{Memory, Numeral, put};
use yas_asm::{Line, Listing};

/// The blanks that precede a line without an address.
const BLANKS: [u8; 27] = [b' '; 27];

/// Appends blanks to a text.
fn put_blanks(text: &mut Vec<u8>, count: usize) -> Result<(), Memory>
    requires { count ≤ 27 }
    ensures { OnOk result (text.new.items ≡ text.old.items ++ replicate count 32) }
{
    put(text, &BLANKS[..count])
}

/// Appends bytes as hex digits to a text.
fn put_hex_bytes(text: &mut Vec<u8>, bytes: &[u8]) -> Result<(), Memory>
    ensures { OnOk result (text.new.items ≡ text.old.items ++ definition.hex_bytes bytes.now) }
{
    for byte in bytes {
        let digits = Numeral::hex(2, u64::from(*byte));
        match put(text, digits.as_bytes()) {
            Ok(()) => {}
            Err(memory) => return Err(memory),
        }
    }
    Ok(())
}

/// The text of a line in its source.
fn text_of(source: &[u8], from: u64, to: u64) -> &[u8]
    ensures { result.now ≡ definition.text_of source.now from to }
{
    let length = source.len();
    let first = (from as usize).min(length);
    let end = (to as usize).min(length);
    if first < end {
        &source[first..end]
    } else {
        &[]
    }
}

/// Appends what precedes a line: its address and bytes, or blanks.
#[tactic(auto, unfolding(crate::specs::Printed::front))]
fn put_front(text: &mut Vec<u8>, address: Option<u64>, bytes: &[u8]) -> Result<(), Memory>
    ensures { OnOk result (text.new.items ≡ text.old.items ++ definition.front address bytes.now) }
{
    let Some(address) = address else {
        return put_blanks(text, 27);
    };
    let digits = Numeral::hex(3, address);
    put(text, b"0x")?;
    put(text, digits.as_bytes())?;
    put(text, b": ")?;
    let start = text.len();
    put_hex_bytes(text, bytes)?;
    put_blanks(text, 20usize.saturating_sub(text.len() - start))
}

/// Appends a line of a listing to a text.
#[tactic(auto, unfolding(crate::specs::Printed::printed_line))]
fn put_line(text: &mut Vec<u8>, source: &[u8], line: &Line) -> Result<(), Memory>
    ensures { OnOk result (text.new.items ≡ text.old.items ++ definition.printed_line source.now line.now) }
{
    put_front(text, line.addr, line.bytes.as_slice())?;
    put(text, b" | ")?;
    put(text, text_of(source, line.from, line.to))?;
    put(text, b"\n")
}

/// The object text of a listing, which `load` reads back: a line for each line of the source.
#[tactic(auto, unfolding(crate::specs::Printed::printed))]
pub fn print(alloc: Global, l: &Listing) -> Result<Vec<u8>, Memory>
    ensures { IfOk result (λ text. text.items ≡ definition.printed l.now) }
{
    let source = l.source();
    let mut text = Vec::new(alloc);
    for line in l.lines() {
        match put_line(&mut text, source, line) {
            Ok(()) => {}
            Err(memory) => return Err(memory),
        }
    }
    Ok(text)
}
