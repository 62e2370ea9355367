//! What an instruction does, in words: its text, the registers and memory that it writes, its flags and its status.
use cosimulation::Part;
use pipe_stage_text::{StageContent, put_address, put_instruction, put_number_pair, put_word_pair};
use std::alloc::Global;
use y86_base::{Flags, Image, Memory, Regs, Stat, Variant, push, put};
use y86_isa::{Rec, Store, split};
use yis_run::flag;

const NO_REGISTER: u64 = 15;

/// The icode of an invalid instruction.
const INVALID_ICODE: u64 = 15;

/// Whether two records are those of one instruction.
pub fn same_instruction(one: &Rec, other: &Rec) -> bool {
    one.pc == other.pc && one.icode == other.icode && one.ifun == other.ifun
}

/// Writes an instruction: its text, from the bytes in memory, if they are its own; otherwise its icode and ifun. It
/// is invalid by its icode, whatever its status is.
pub fn put_text(out: &mut Vec<u8>, memory: &Image, r: &Rec) -> Result<(), Memory> {
    if r.icode == INVALID_ICODE && r.ifun == 0 {
        return put(out, b"an invalid instruction");
    }
    let fetched = split(Variant::Full, memory, r.pc);
    if fetched.error {
        return put(out, b"a fetch outside the memory");
    }
    if fetched.icode != r.icode || fetched.ifun != r.ifun {
        put_number_pair(out, b"icode ", r.icode)?;
        return put_number_pair(out, b", ifun ", r.ifun);
    }
    put_instruction(
        out,
        &StageContent {
            row: 0,
            live: true,
            failed: false,
            addr: r.pc,
            icode: r.icode,
            ifun: r.ifun,
            r_a: fetched.r_a,
            r_b: fetched.r_b,
            val_c: fetched.val_c,
        },
    )
}

/// Writes an instruction with its address.
pub fn put_place(out: &mut Vec<u8>, memory: &Image, r: &Rec) -> Result<(), Memory> {
    put_address(out, r.pc)?;
    put(out, b": ")?;
    put_text(out, memory, r)
}

/// Writes flags.
fn put_flags(out: &mut Vec<u8>, flags: Flags) -> Result<(), Memory> {
    put(out, b"Z=")?;
    put(out, flag(flags.zf))?;
    put(out, b" S=")?;
    put(out, flag(flags.sf))?;
    put(out, b" O=")?;
    put(out, flag(flags.of))
}

/// Writes a register with its new word, or a dash.
fn put_register(out: &mut Vec<u8>, number: u64, word: u64) -> Result<(), Memory> {
    if number >= NO_REGISTER {
        return put(out, b"-");
    }
    put(out, Regs::name(number))?;
    put_word_pair(out, b" = ", word)
}

/// Writes the word of memory that is stored, or a dash.
fn put_stored(out: &mut Vec<u8>, store: Option<Store>) -> Result<(), Memory> {
    match store {
        None => put(out, b"-"),
        Some(it) => {
            put_address(out, it.addr)?;
            put_word_pair(out, b" = ", it.word)
        }
    }
}

/// A thing that can differ: its name, what the pipeline has, and what the instructions have. A dash is what one of them
/// lacks.
#[derive(Drop)]
pub struct Line {
    pub name: Vec<u8>,
    pub is: Vec<u8>,
    pub wanted: Vec<u8>,
    pub is_right: bool,
}

/// A line with a name and no texts yet.
fn line_named(alloc: Global, name: &[u8], is_right: bool) -> Result<Line, Memory> {
    let mut named = Vec::new(alloc);
    put(&mut named, name)?;
    Ok(Line {
        name: named,
        is: Vec::new(alloc),
        wanted: Vec::new(alloc),
        is_right,
    })
}

/// Adds the line of a register that at least one of two instructions writes.
fn add_register(
    alloc: Global,
    lines: &mut Vec<Line>,
    name: &[u8],
    one: (u64, u64),
    other: (u64, u64),
) -> Result<(), Memory> {
    if one.0 >= NO_REGISTER && other.0 >= NO_REGISTER {
        return Ok(());
    }
    let mut line = line_named(alloc, name, one.0 == other.0 && one.1 == other.1)?;
    put_register(&mut line.is, one.0, one.1)?;
    put_register(&mut line.wanted, other.0, other.1)?;
    push(lines, line)
}

/// Adds the line of a store that at least one of two instructions does.
fn add_store(
    alloc: Global,
    lines: &mut Vec<Line>,
    one: Option<Store>,
    other: Option<Store>,
) -> Result<(), Memory> {
    if one.is_none() && other.is_none() {
        return Ok(());
    }
    let mut line = line_named(alloc, b"memory", one == other)?;
    put_stored(&mut line.is, one)?;
    put_stored(&mut line.wanted, other)?;
    push(lines, line)
}

/// Adds the line of the flags.
fn add_flags(alloc: Global, lines: &mut Vec<Line>, one: Flags, other: Flags) -> Result<(), Memory> {
    let mut line = line_named(alloc, b"flags", one == other)?;
    put_flags(&mut line.is, one)?;
    put_flags(&mut line.wanted, other)?;
    push(lines, line)
}

/// Adds the line of the status.
fn add_status(alloc: Global, lines: &mut Vec<Line>, one: Stat, other: Stat) -> Result<(), Memory> {
    let mut line = line_named(alloc, b"status", one == other)?;
    put(&mut line.is, one.name())?;
    put(&mut line.wanted, other.name())?;
    push(lines, line)
}

/// What two instructions do, a line each.
pub fn lines_of(alloc: Global, one: &Rec, other: &Rec) -> Result<Vec<Line>, Memory> {
    let mut lines = Vec::new(alloc);
    add_register(
        alloc,
        &mut lines,
        b"valE",
        (one.dst_e, one.val_e),
        (other.dst_e, other.val_e),
    )?;
    add_register(
        alloc,
        &mut lines,
        b"valM",
        (one.dst_m, one.val_m),
        (other.dst_m, other.val_m),
    )?;
    add_store(alloc, &mut lines, one.store, other.store)?;
    add_flags(alloc, &mut lines, one.flags, other.flags)?;
    add_status(alloc, &mut lines, one.stat, other.stat)?;
    Ok(lines)
}

/// Adds the line of words that differ.
fn add_words(
    alloc: Global,
    lines: &mut Vec<Line>,
    name: &[u8],
    one: u64,
    other: u64,
) -> Result<(), Memory> {
    let mut line = line_named(alloc, name, one == other)?;
    put_word_pair(&mut line.is, b"", one)?;
    put_word_pair(&mut line.wanted, b"", other)?;
    push(lines, line)
}

/// The line of a part in which two final states differ.
pub fn lines_of_part(alloc: Global, part: Part) -> Result<Vec<Line>, Memory> {
    let mut lines = Vec::new(alloc);
    match part {
        Part::Stat(one, other) => add_status(alloc, &mut lines, one, other)?,
        Part::Flags(one, other) => add_flags(alloc, &mut lines, one, other)?,
        Part::Pc(one, other) => add_words(alloc, &mut lines, b"PC", one, other)?,
        Part::Register(n, one, other) => {
            add_words(alloc, &mut lines, Regs::name(n), one, other)?
        }
        Part::Memory(n, one, other) => {
            let mut name = Vec::new(alloc);
            put_address(&mut name, n.wrapping_mul(8))?;
            add_words(alloc, &mut lines, name.as_slice(), one, other)?
        }
    }
    Ok(lines)
}
