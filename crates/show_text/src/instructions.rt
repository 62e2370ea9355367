//! The instructions: the mnemonics of the assembler with their rows of the instruction table.
use std::alloc::{AllocError, Global};
use y86_base::Variant;
use y86_isa::{Row, icode_count, row};
use yas_asm::{Shape, mnemonics};

/// An instruction: its mnemonic, its operands as they are written, its first byte, and its row.
#[derive(Clone, Copy, Debug)]
pub struct Instruction {
    pub name: &'static str,
    pub usage: &'static str,
    pub icode: u64,
    pub ifun: u64,
    /// Whether it exists only with `--full`.
    pub is_full: bool,
    pub row: Row,
}

/// How operands are written.
fn usage_of(shape: Shape) -> &'static str {
    match shape {
        Shape::Alone => "",
        Shape::Registers => "rA, rB",
        Shape::Immediate => "V, rB",
        Shape::Store => "rA, D(rB)",
        Shape::Load => "D(rB), rA",
        Shape::Target => "V",
        Shape::Single => "rA",
    }
}

/// Adds the instructions with this code, in the order of their functions.
fn put_instructions(out: &mut Vec<Instruction>, icode: u64, ifun: u64) -> Result<(), AllocError> {
    for keyword in mnemonics(Variant::Full) {
        let operation = keyword.meaning;
        if u64::from(operation.icode) == icode && u64::from(operation.ifun) == ifun {
            out.push(Instruction {
                name: std::str::from_utf8(keyword.text).unwrap_or(""),
                usage: usage_of(operation.shape),
                icode,
                ifun,
                is_full: icode >= icode_count(Variant::Base),
                row: row(Variant::Full, icode),
            })?;
        }
    }
    Ok(())
}

/// All instructions, by their first bytes.
pub fn instructions(alloc: Global) -> Result<Vec<Instruction>, AllocError> {
    let mut out: Vec<Instruction> = Vec::new(alloc);
    for icode in 0..16_u64 {
        for ifun in 0..16_u64 {
            put_instructions(&mut out, icode, ifun)?;
        }
    }
    Ok(out)
}
