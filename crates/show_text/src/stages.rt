//! What each stage does for an instruction, as in CS:APP 3e, figures 4.18 to 4.21: from its row of the instruction table.
use crate::instructions::Instruction;
use std::alloc::{AllocError, Global};
use y86_isa::{AluAColumn, AluBColumn, MemoryColumn, NextPcColumn, RegisterColumn, Row};

/// A stage.
#[derive(Clone, Copy, Debug)]
pub enum Stage {
    Fetch,
    Decode,
    Execute,
    Memory,
    WriteBack,
    PcUpdate,
}

/// The stages in their order.
pub static STAGES: &[Stage] = &[
    Stage::Fetch,
    Stage::Decode,
    Stage::Execute,
    Stage::Memory,
    Stage::WriteBack,
    Stage::PcUpdate,
];

/// The name of a stage.
pub fn stage_name(stage: Stage) -> &'static str {
    match stage {
        Stage::Fetch => "fetch",
        Stage::Decode => "decode",
        Stage::Execute => "execute",
        Stage::Memory => "memory",
        Stage::WriteBack => "write-back",
        Stage::PcUpdate => "PC update",
    }
}

/// The register that a column names.
pub fn field_name(field: RegisterColumn) -> Option<&'static str> {
    match field {
        RegisterColumn::Dash => None,
        RegisterColumn::FieldA => Some("rA"),
        RegisterColumn::FieldB => Some("rB"),
        RegisterColumn::Stack => Some("%rsp"),
    }
}

/// Adds a step.
fn put(out: &mut Vec<String>, step: String) -> Result<(), AllocError> {
    out.push(step)?;
    Ok(())
}

/// Adds a step that is the same for all instructions that have it.
fn put_fixed(alloc: Global, out: &mut Vec<String>, step: &str) -> Result<(), AllocError> {
    put(out, String::from_str(alloc, step)?)
}

fn fetch(alloc: Global, out: &mut Vec<String>, row: &Row) -> Result<(), AllocError> {
    put_fixed(alloc, out, "icode:ifun <- M1[PC]")?;
    if row.has_byte {
        put_fixed(alloc, out, "rA:rB <- M1[PC + 1]")?;
    }
    if row.has_const {
        put_fixed(
            alloc,
            out,
            if row.has_byte {
                "valC <- M8[PC + 2]"
            } else {
                "valC <- M8[PC + 1]"
            },
        )?;
    }
    let length = row.length;
    let mut step = String::new(alloc);
    write!(step, "valP <- PC + {length}")?;
    put(out, step)
}

/// Adds a read of a register.
fn put_read(
    alloc: Global,
    out: &mut Vec<String>,
    word: &str,
    field: RegisterColumn,
) -> Result<(), AllocError> {
    match field_name(field) {
        Some(name) => {
            let mut step = String::new(alloc);
            write!(step, "{word} <- R[{name}]")?;
            put(out, step)
        }
        None => Ok(()),
    }
}

/// Adds a write of a register.
fn put_write(
    alloc: Global,
    out: &mut Vec<String>,
    before: &str,
    field: RegisterColumn,
    word: &str,
) -> Result<(), AllocError> {
    match field_name(field) {
        Some(name) => {
            let mut step = String::new(alloc);
            write!(step, "{before}R[{name}] <- {word}")?;
            put(out, step)
        }
        None => Ok(()),
    }
}

/// The ALU's first operand in a sum.
fn first_operand(term: AluAColumn) -> Option<&'static str> {
    match term {
        AluAColumn::NoA => None,
        AluAColumn::ValA => Some("valA"),
        AluAColumn::ValC => Some("valC"),
        AluAColumn::Minus8 => Some("(-8)"),
        AluAColumn::Plus8 => Some("8"),
    }
}

/// The ALU's second operand.
fn second_operand(term: AluBColumn) -> &'static str {
    match term {
        AluBColumn::NoB => "",
        AluBColumn::Zero => "0",
        AluBColumn::ValB => "valB",
    }
}

fn execute(
    alloc: Global,
    out: &mut Vec<String>,
    row: &Row,
    has_condition: bool,
) -> Result<(), AllocError> {
    if let Some(first) = first_operand(row.alu_a) {
        let second = second_operand(row.alu_b);
        let operation = if row.selects { "OP" } else { "+" };
        let mut step = String::new(alloc);
        write!(step, "valE <- {second} {operation} {first}")?;
        put(out, step)?;
    }
    if row.sets_flags {
        put_fixed(alloc, out, "Set CC")?;
    }
    if has_condition {
        put_fixed(alloc, out, "Cnd <- Cond(CC, ifun)")?;
    }
    Ok(())
}

fn memory(alloc: Global, out: &mut Vec<String>, row: &Row) -> Result<(), AllocError> {
    match row.memory {
        MemoryColumn::NoMem => Ok(()),
        MemoryColumn::StoreA => put_fixed(alloc, out, "M8[valE] <- valA"),
        MemoryColumn::StoreP => put_fixed(alloc, out, "M8[valE] <- valP"),
        MemoryColumn::LoadE => put_fixed(alloc, out, "valM <- M8[valE]"),
        MemoryColumn::LoadA => put_fixed(alloc, out, "valM <- M8[valA]"),
    }
}

fn update_pc(
    alloc: Global,
    out: &mut Vec<String>,
    row: &Row,
    has_condition: bool,
) -> Result<(), AllocError> {
    put_fixed(
        alloc,
        out,
        match row.next {
            NextPcColumn::Itself => "the machine stops with status HLT",
            NextPcColumn::Fall => "PC <- valP",
            NextPcColumn::Branch if has_condition => "PC <- Cnd ? valC : valP",
            NextPcColumn::Branch | NextPcColumn::Target => "PC <- valC",
            NextPcColumn::Loaded => "PC <- valM",
        },
    )
}

/// Whether the instruction does what its condition says: a conditional move, or a jump other than `jmp`.
fn has_condition(instruction: &Instruction) -> bool {
    let row = &instruction.row;
    instruction.ifun != 0 && (row.conditional || row.next == NextPcColumn::Branch)
}

/// The steps of a stage for an instruction.
pub fn steps_of(
    alloc: Global,
    instruction: &Instruction,
    stage: Stage,
) -> Result<Vec<String>, AllocError> {
    let row = &instruction.row;
    let has_condition = has_condition(instruction);
    let mut out: Vec<String> = Vec::new(alloc);
    match stage {
        Stage::Fetch => fetch(alloc, &mut out, row)?,
        Stage::Decode => {
            put_read(alloc, &mut out, "valA", row.src_a)?;
            put_read(alloc, &mut out, "valB", row.src_b)?;
        }
        Stage::Execute => execute(alloc, &mut out, row, has_condition)?,
        Stage::Memory => memory(alloc, &mut out, row)?,
        Stage::WriteBack => {
            let is_move = has_condition && row.conditional;
            let before = if is_move { "if (Cnd) " } else { "" };
            put_write(alloc, &mut out, before, row.dst_e, "valE")?;
            put_write(alloc, &mut out, "", row.dst_m, "valM")?;
        }
        Stage::PcUpdate => update_pc(alloc, &mut out, row, has_condition)?,
    }
    Ok(out)
}

/// Writes the bytes of an instruction as in CS:APP 3e, figure 4.2: the first byte, the register byte, and the constant.
pub fn put_layout(out: &mut String, instruction: &Instruction) -> Result<(), AllocError> {
    let row = &instruction.row;
    let icode = instruction.icode;
    let ifun = instruction.ifun;
    write!(out, "{icode:x}{ifun:x}")?;
    if row.has_byte {
        out.push_str(if row.uses_a { " rA" } else { " F" })?;
        out.push_str(if row.uses_b { ":rB" } else { ":F" })?;
    }
    if row.has_const {
        let is_address = row.memory == MemoryColumn::StoreA || row.memory == MemoryColumn::LoadE;
        out.push_str(if is_address { " D" } else { " V" })?;
    }
    Ok(())
}
