//! The answer of `show` as JSON, with stable names.
use crate::found::{Demanded, Kind, ShowMatches, group_of};
use crate::instructions::Instruction;
use crate::pages::{LANGUAGES, sentences};
use crate::stages::{STAGES, field_name, put_layout, stage_name, steps_of};
use explanations::Staged;
use fault_report::Tables;
use finding_text::{Out, put_number, put_text, put_truth, value_name};
use hcl_types::{Datapath, Table};
use std::alloc::{AllocError, Global};
use y86_isa::{AluAColumn, AluBColumn, MemoryColumn, NextPcColumn, RegisterColumn};

/// Writes an array of the words of a text.
fn put_words(out: &mut Out, name: &str, words: &str) -> Result<(), AllocError> {
    out.key(name)?;
    out.begin_array()?;
    for word in words.split(' ') {
        out.string(word)?;
    }
    out.end_array()
}

/// Writes a member that is a text, or null.
fn put_some(out: &mut Out, name: &str, text: Option<&str>) -> Result<(), AllocError> {
    out.key(name)?;
    match text {
        Some(text) => out.string(text),
        None => out.null(),
    }
}

fn put_obligation(out: &mut Out, it: &Demanded) -> Result<(), AllocError> {
    let o = it.obligation;
    out.begin_object()?;
    put_text(out, "label", o.label)?;
    put_words(
        out,
        "datapaths",
        match it.path {
            Datapath::Pipe => "pipe",
            Datapath::SeqPlus => "seqplus",
            Datapath::Seq => {
                if o.label == "S16" {
                    "seq"
                } else {
                    "seq seqplus"
                }
            }
        },
    )?;
    put_text(out, "group", o.group)?;
    put_text(out, "brief", o.brief)?;
    put_words(out, "signals", o.signals)?;
    put_text(out, "demand", o.demand)?;
    put_text(out, "reason", o.reason)?;
    put_text(out, "book", o.book)?;
    out.end_object()
}

/// Writes the registers that an instruction reads and writes.
fn put_registers(out: &mut Out, it: &Instruction) -> Result<(), AllocError> {
    let put = |out: &mut Out, name: &str, field: RegisterColumn| put_some(
        out,
        name,
        field_name(field),
    );
    put(out, "srcA", it.row.src_a)?;
    put(out, "srcB", it.row.src_b)?;
    put(out, "dstE", it.row.dst_e)?;
    put(out, "dstM", it.row.dst_m)?;
    put_truth(out, "conditional", it.row.conditional)
}

/// Writes the operands and the function of the ALU, and whether it sets the flags.
fn put_alu(out: &mut Out, it: &Instruction) -> Result<(), AllocError> {
    out.key("aluA")?;
    match it.row.alu_a {
        AluAColumn::NoA => out.null()?,
        AluAColumn::ValA => out.string("valA")?,
        AluAColumn::ValC => out.string("valC")?,
        AluAColumn::Minus8 => out.i64(-8)?,
        AluAColumn::Plus8 => out.i64(8)?,
    }
    out.key("aluB")?;
    match it.row.alu_b {
        AluBColumn::NoB => out.null()?,
        AluBColumn::Zero => out.u64(0)?,
        AluBColumn::ValB => out.string("valB")?,
    }
    out.key("alufun")?;
    if it.row.alu_a == AluAColumn::NoA {
        out.null()?;
    } else {
        out.string(if it.row.selects { "ifun" } else { "ALUADD" })?;
    }
    put_truth(out, "sets_flags", it.row.sets_flags)
}

/// Writes what an instruction does at memory, and where the next instruction is.
fn put_memory(out: &mut Out, it: &Instruction) -> Result<(), AllocError> {
    let (reads, writes, address, data) = match it.row.memory {
        MemoryColumn::NoMem => (false, false, None, None),
        MemoryColumn::StoreA => (false, true, Some("valE"), Some("valA")),
        MemoryColumn::StoreP => (false, true, Some("valE"), Some("valP")),
        MemoryColumn::LoadE => (true, false, Some("valE"), None),
        MemoryColumn::LoadA => (true, false, Some("valA"), None),
    };
    put_truth(out, "mem_read", reads)?;
    put_truth(out, "mem_write", writes)?;
    put_some(out, "mem_addr", address)?;
    put_some(out, "mem_data", data)?;
    put_some(
        out,
        "next",
        match it.row.next {
            NextPcColumn::Itself => None,
            NextPcColumn::Fall => Some("valP"),
            NextPcColumn::Branch => Some("branch"),
            NextPcColumn::Target => Some("valC"),
            NextPcColumn::Loaded => Some("valM"),
        },
    )
}

/// Writes what each stage does.
fn put_stages(alloc: Global, out: &mut Out, it: &Instruction) -> Result<(), AllocError> {
    out.key("stages")?;
    out.begin_array()?;
    for stage in STAGES {
        out.begin_object()?;
        put_text(out, "stage", stage_name(*stage))?;
        out.key("does")?;
        out.begin_array()?;
        let steps = steps_of(alloc, it, *stage)?;
        for step in steps.as_slice() {
            out.string(step.as_str())?;
        }
        out.end_array()?;
        out.end_object()?;
    }
    out.end_array()
}

/// Writes the code of an instruction, and its bytes.
fn put_code(alloc: Global, out: &mut Out, it: &Instruction) -> Result<(), AllocError> {
    put_number(out, "icode", it.icode)?;
    put_number(out, "ifun", it.ifun)?;
    put_some(out, "constant", value_name("icode", it.icode))?;
    put_text(out, "group", group_of(it))?;
    put_truth(out, "full", it.is_full)?;
    put_number(out, "length", it.row.length)?;
    let mut layout = String::new(alloc);
    put_layout(&mut layout, it)?;
    put_text(out, "bytes", layout.as_str())?;
    put_truth(out, "has_register_byte", it.row.has_byte)?;
    put_truth(out, "has_constant", it.row.has_const)?;
    put_truth(out, "uses_rA", it.row.uses_a)?;
    put_truth(out, "uses_rB", it.row.uses_b)?;
    put_number(out, "ifun_top", it.row.ifun_top)
}

fn put_instruction(alloc: Global, out: &mut Out, it: &Instruction) -> Result<(), AllocError> {
    out.begin_object()?;
    put_text(out, "name", it.name)?;
    put_text(out, "usage", it.usage)?;
    put_text(
        out,
        "meaning",
        explanations::instruction_meaning(it.icode, it.ifun),
    )?;
    put_code(alloc, out, it)?;
    put_registers(out, it)?;
    put_alu(out, it)?;
    put_memory(out, it)?;
    put_stages(alloc, out, it)?;
    out.end_object()
}

/// Whether a table has this name.
fn has_name(table: &Table, name: &str) -> bool {
    for row in table.rows.items() {
        if row.name.bytes() == name.as_bytes() {
            return true;
        }
    }
    false
}

fn put_signal(out: &mut Out, tables: &Tables, it: &Staged) -> Result<(), AllocError> {
    let name = it.signal.name;
    out.begin_object()?;
    put_text(out, "name", name)?;
    out.key("datapaths")?;
    out.begin_array()?;
    if has_name(&tables.seq, name) {
        out.string("seq")?;
    }
    if has_name(&tables.seq_plus, name) {
        out.string("seqplus")?;
    }
    if has_name(&tables.pipe, name) {
        out.string("pipe")?;
    }
    out.end_array()?;
    put_text(out, "stage", it.stage)?;
    put_text(out, "meaning", it.signal.meaning)?;
    out.end_object()
}

fn put_fault(alloc: Global, out: &mut Out, it: &Kind) -> Result<(), AllocError> {
    out.begin_object()?;
    put_text(out, "code", it.kind.code)?;
    put_text(
        out,
        "language",
        LANGUAGES.get(it.language).copied().unwrap_or(""),
    )?;
    put_text(out, "meaning", it.kind.meaning)?;
    put_text(out, "example", it.kind.example)?;
    put_text(out, "mend", it.kind.mend)?;
    out.key("sentences")?;
    out.begin_array()?;
    let said = sentences(alloc, it.kind.code)?;
    for sentence in said.as_slice() {
        out.string(std::str::from_utf8(*sentence).unwrap_or(""))?;
    }
    out.end_array()?;
    out.end_object()
}

/// Writes what was found, by kinds.
pub fn put_found_json(
    alloc: Global,
    out: &mut Out,
    tables: &Tables,
    found: &ShowMatches,
) -> Result<(), AllocError> {
    out.begin_object()?;
    out.key("obligations")?;
    out.begin_array()?;
    for it in found.obligations.as_slice() {
        put_obligation(out, it)?;
    }
    out.end_array()?;
    out.key("instructions")?;
    out.begin_array()?;
    for it in found.instructions.as_slice() {
        put_instruction(alloc, out, it)?;
    }
    out.end_array()?;
    out.key("signals")?;
    out.begin_array()?;
    for it in found.signals.as_slice() {
        put_signal(out, tables, it)?;
    }
    out.end_array()?;
    out.key("faults")?;
    out.begin_array()?;
    for it in found.faults.as_slice() {
        put_fault(alloc, out, it)?;
    }
    out.end_array()?;
    out.end_object()
}
