//! The faults of object text, as sentences.
ghost use Rattle.std.specs.Prelude.{◌≡◌, ◌↔◌, [], true, IfOk};
ghost use Rattle.y86_base.specs.Image.{IsSize};
ghost use Rattle.yo_object.specs.ObjectText.{object_of};
ghost use Rattle.fault_report.specs.ObjectBytes as bytes;
ghost use Rattle.fault_report.specs.Told.{IsTold, ReportsObject};

use crate::binding_faults::{NOTHING_SAID, Saying};
use crate::facts::{Fault, Report, has_line, part};
use crate::fill::{filled, no_words};
use hcl_tree::Text;
use std::alloc::Global;
use y86_base::{Items, Memory, Variant, first_line, push};
use yas_asm::{Statement, read_line};
use yo_object::{YoFault, YoWhy, line_digits, load};

/// The sentences on object text, in the order of `Said`.
static OBJECT_SAYINGS: [Saying; 7] = [
    Saying {
        code: b"yo.line",
        reason: b"Syntax",
        pattern: b"A line of an object file is `0xADDRESS: BYTES`, both in hex digits, and then its end or `|` and a comment.",
    },
    Saying {
        code: b"yo.digits",
        reason: b"OddDigits",
        pattern: b"The bytes have a hex digit too few: each byte has two.",
    },
    Saying {
        code: b"yo.outside",
        reason: b"OutsideMemory",
        pattern: b"A byte of this line is past the end of the memory, which has ~number~ bytes (`--mem`).",
    },
    Saying {
        code: b"yo.address",
        reason: b"AddressTooWide",
        pattern: b"The address has more than 16 hex digits.",
    },
    Saying {
        code: b"yo.memory",
        reason: b"Memory",
        pattern: b"Out of memory.",
    },
    Saying {
        code: b"yo.source",
        reason: b"NoBytes",
        pattern: b"This is a source and no object file: assemble it by `yas` first. As an object file it puts no byte anywhere.",
    },
    Saying {
        code: b"yo.empty",
        reason: b"NoBytes",
        pattern: b"No line puts a byte anywhere. If `yas` refused the source, mend it and assemble it again.",
    },
];

/// The sentences, in the order of the table.
#[derive(Clone, Copy)]
enum Said {
    Line,
    Digits,
    Outside,
    Address,
    Memory,
    Source,
    Empty,
}

/// The sentences on object text.
pub fn object_sayings() -> &'static [Saying] {
    &OBJECT_SAYINGS
}

/// A sentence of the table.
fn saying_at(said: Said) -> Saying {
    match object_sayings().get(said as usize) {
        Some(saying) => *saying,
        None => NOTHING_SAID,
    }
}

/// The sentence for a reason.
fn said_of(why: YoWhy) -> Said {
    match why {
        YoWhy::Syntax => Said::Line,
        YoWhy::OddDigits => Said::Digits,
        YoWhy::OutsideMemory => Said::Outside,
        YoWhy::AddressTooWide => Said::Address,
        YoWhy::Memory => Said::Memory,
    }
}

/// A fault of a line, or at line 0 a fault of the whole text.
fn told(alloc: Global, line: u64, size: u64, said: Said) -> Result<Fault, Memory>
    ensures { IfOk result (λ fault. fault.line ≡ line) }
{
    let saying = saying_at(said);
    let mut words = no_words();
    words.number = size;
    let sentence = filled(alloc, saying.pattern, &words)?;
    Ok(Fault {
        line,
        column: 0,
        code: saying.code,
        reason: saying.reason,
        sentence: Text::of(alloc, sentence.as_slice())?,
        found: Text::empty(alloc),
        expected: Items::of(Vec::new(alloc)),
        related: Items::of(Vec::new(alloc)),
    })
}

/// What follows the first lines of a text.
fn behind_lines(text: &[u8], count: u64) -> &[u8] {
    let mut left = count;
    let mut rest = text;
    'lines: while left > 0 {
        match first_line(rest) {
            None => return rest,
            Some((_, behind)) => {
                left -= 1;
                rest = behind;
            }
        }
    }
    rest
}

/// Reports each line with a fault: the first, then the first after it, and so on, because no line's fault depends on
/// another line.
fn put_faults(alloc: Global, text: &[u8], size: u64, out: &mut Vec<Fault>) -> Result<(), Memory>
    requires { IsSize size }
{
    let mut rest = text;
    let mut passed: u64 = 0;
    'faults: for _round in 0..text.len() {
        match load(alloc, rest, size) {
            Ok(_) => return Ok(()),
            Err(YoFault { line, why }) => {
                if why == YoWhy::Memory {
                    return Err(Memory);
                }
                let number = passed.saturating_add(line);
                match told(alloc, number, size, said_of(why)) {
                    Err(memory) => return Err(memory),
                    Ok(fault) => match push(out, fault) {
                        Err(memory) => return Err(memory),
                        Ok(()) => {}
                    },
                }
                rest = behind_lines(rest, line);
                passed = number;
            }
        }
    }
    Ok(())
}

/// The faults of a text that is refused: each line with a fault, among them the first.
#[tactic(auto, using(crate::proofs::Telling::told_last))]
fn refused_lines(
    alloc: Global,
    text: &[u8],
    size: u64,
    first: YoFault,
) -> Result<Vec<Fault>, Memory>
    requires { IsSize size }
    ensures { IfOk result (λ faults. IsTold first.line faults.items) }
{
    let mut out = Vec::new(alloc);
    put_faults(alloc, text, size, &mut out)?;
    if !has_line(out.as_slice(), first.line) {
        push(&mut out, told(alloc, first.line, size, said_of(first.why))?)?;
    }
    Ok(out)
}

/// The fault of a text that is accepted, but puts no byte anywhere; none if it puts one.
fn empty_text(alloc: Global, text: &[u8], size: u64) -> Result<Vec<Fault>, Memory>
    ensures { IfOk result (λ faults. (faults.items ≡ []) ↔ (bytes.puts_bytes text.now ≡ true)) }
{
    let mut out = Vec::new(alloc);
    if !has_bytes(text) {
        let line = statement_line(text);
        let said = if line > 0 { Said::Source } else { Said::Empty };
        push(&mut out, told(alloc, line, size, said)?)?;
    }
    Ok(out)
}

/// Whether a line puts a byte.
fn puts_byte(line: &[u8]) -> bool
    ensures { result ≡ bytes.puts_byte line.now }
{
    match line_digits(line) {
        Some(digits) => !digits.bytes.is_empty(),
        None => false,
    }
}

/// Whether any line puts a byte.
pub fn has_bytes(text: &[u8]) -> bool
    ensures { result ≡ bytes.puts_bytes text.now }
{
    let mut rest = text;
    'lines: while let Some((line, behind)) = first_line(rest) {
        if puts_byte(line) {
            return true;
        }
        rest = behind;
    }
    false
}

/// The number of the first line that is a statement of assembly; 0 if there is none.
fn statement_line(text: &[u8]) -> u64 {
    let mut number: u64 = 1;
    let mut rest = text;
    'lines: while let Some((line, behind)) = first_line(rest) {
        if let Ok(parsed) = read_line(Variant::Full, line) {
            match parsed.statement {
                Statement::Nothing => {}
                _ => return number,
            }
        }
        number = number.saturating_add(1);
        rest = behind;
    }
    0
}

/// The faults of an object text for a memory of a size: each faulty line, or that no line puts a byte, at the first
/// statement if the text is a source. Without faults it is accepted, and puts at least one byte.
pub fn object_report(alloc: Global, text: &[u8], size: u64) -> Result<Report, Memory>
    requires { IsSize size }
    ensures { IfOk result (λ report. ReportsObject text.now (object_of text.now size) report.faults) }
{
    let faults = match load(alloc, text, size) {
        Ok(_) => empty_text(alloc, text, size)?,
        Err(first) => {
            if first.why == YoWhy::Memory {
                return Err(Memory);
            }
            refused_lines(alloc, text, size, first)?
        }
    };
    Ok(Report {
        datapath: None,
        faults: Items::of(faults),
    })
}
