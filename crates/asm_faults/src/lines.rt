//! Finds all lines of a source that are faulty by themselves: the assembler reports only the first fault.
ghost use Rattle.std.specs.Prelude.{◌≡◌, ◌++◌, [], IfOk, OnOk};
ghost use Rattle.yas_asm.specs.Grammar.{read_line};
ghost use Rattle.y86_base.specs.Text.{lines};
ghost use Rattle.asm_faults.specs.Faulty as spec;

use std::alloc::Global;
use y86_base::{Memory, Variant, first_line, push};
use yas_asm::{AsmWhy, read_line};

/// A line, counted from 1, with the reason why it is refused by itself.
#[derive(Clone, Copy, Debug, PartialEq, Eq)]
pub struct LineFault {
    pub line: u64,
    pub why: AsmWhy,
}

/// Appends the fault of a line, if it is faulty by itself.
fn note_line(
    list: &mut Vec<LineFault>,
    variant: Variant,
    number: u64,
    line: &[u8],
) -> Result<(), Memory>
    ensures { OnOk result (list.new.items ≡ list.old.items ++ spec.with_fault number (read_line variant line.now) []) }
{
    match read_line(variant, line) {
        Ok(_) => Ok(()),
        Err(why) => push(list, LineFault { line: number, why }),
    }
}

/// All lines of a source that are faulty by themselves: just those that `read_line` refuses, in text order.
pub fn faulty_lines(
    alloc: Global,
    variant: Variant,
    source: &[u8],
) -> Result<Vec<LineFault>, Memory>
    ensures { IfOk result (λ list. list.items ≡ spec.faulty variant 1 (lines source.now)) }
{
    let mut list = Vec::new(alloc);
    let mut number = 1;
    let mut rest = source;
    'lines: loop {
        match first_line(rest) {
            None => return Ok(list),
            Some((line, behind)) => match note_line(&mut list, variant, number, line) {
                Err(memory) => return Err(memory),
                Ok(()) => {
                    number += 1;
                    rest = behind;
                }
            },
        }
    }
}
