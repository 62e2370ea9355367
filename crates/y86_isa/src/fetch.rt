//! Reading an instruction at a PC, and its fields.
ghost use Rattle.std.specs.Prelude.{◌≡◌, ◌+◌, ◌/◌, ◌%◌, nat_le, nat_lt, length};
ghost use Rattle.y86_isa.specs.Blocks as blocks;
ghost use Rattle.y86_isa.specs.Table as table;

use crate::columns::Row;
use crate::table::{INOP, INVALID_ICODE, NO_REGISTER, icode_count, row};
use y86_base::{Image, Variant};

/// How the bytes at a PC are read.
///
/// `error` means that a byte of the instruction is outside the memory; the icode is then 1 and the ifun 0. An
/// invalid instruction has icode 15 and ifun 0.
#[derive(Clone, Copy, Debug, PartialEq, Eq)]
pub struct Reading {
    pub error: bool,
    pub icode: u64,
    pub ifun: u64,
}

/// An instruction as it is fetched (CS:APP 3e, figure 4.27).
///
/// `error` means that a byte is outside the memory. The icode is then 1, and it is 15 for an invalid
/// instruction; in both cases the register fields are 15, `val_c` is 0 and `val_p` is the PC plus 1.
#[derive(Clone, Copy, Debug, PartialEq, Eq)]
pub struct Fetched {
    pub error: bool,
    pub icode: u64,
    pub ifun: u64,
    pub r_a: u64,
    pub r_b: u64,
    pub val_c: u64,
    pub val_p: u64,
}

fn byte_at(memory: &Image, address: u64) -> u8
    ensures { result ≡ blocks.byte_at memory.now address }
{
    memory.byte(address).unwrap_or(0)
}

/// The fields `rA` and `rB` after the first byte if there is a register byte, and 15 if there is none.
#[inline(always)]
#[tactic(auto, unfolding(crate::specs::Blocks::field_a, crate::specs::Blocks::field_b))]
pub fn register_fields(memory: &Image, pc: u64, need_regids: bool) -> (u64, u64)
    ensures a { result.0 ≡ blocks.field_a memory.now pc need_regids }
    ensures b { result.1 ≡ blocks.field_b memory.now pc need_regids }
{
    if !need_regids {
        return (NO_REGISTER, NO_REGISTER);
    }
    let byte = u64::from(byte_at(memory, pc.wrapping_add(1)));
    (byte / 16, byte % 16)
}

/// The 8 bytes from an address on, little-endian, of which some may be outside the memory.
#[cold]
#[inline(never)]
#[tactic(auto, unfolding(crate::specs::Blocks::word_from))]
fn word_by_bytes(memory: &Image, at: u64) -> u64
    ensures { result ≡ blocks.word_from memory.now at }
{
    u64::from_le_bytes([
        byte_at(memory, at),
        byte_at(memory, at.wrapping_add(1)),
        byte_at(memory, at.wrapping_add(2)),
        byte_at(memory, at.wrapping_add(3)),
        byte_at(memory, at.wrapping_add(4)),
        byte_at(memory, at.wrapping_add(5)),
        byte_at(memory, at.wrapping_add(6)),
        byte_at(memory, at.wrapping_add(7)),
    ])
}

/// The 8 bytes from an address on, little-endian. A byte outside the memory counts as 0.
#[inline(always)]
#[tactic(auto, using(crate::proofs::Fetching::word_read))]
fn word_from(memory: &Image, at: u64) -> u64
    ensures { result ≡ blocks.word_from memory.now at }
{
    // (brings what holds of every image: its size is bounded)
    let _size = memory.size();
    match memory.word(at) {
        Some(word) => word,
        None => word_by_bytes(memory, at),
    }
}

/// The constant after the first byte and the register byte, little-endian; 0 if there is none. A byte outside the
/// memory counts as 0.
#[inline(always)]
#[tactic(auto, using(crate::proofs::Fetching::word_wrapped), unfolding(crate::specs::Blocks::constant_at))]
pub fn constant_at(memory: &Image, pc: u64, need_regids: bool, need_const: bool) -> u64
    ensures { result ≡ blocks.constant_at memory.now pc need_regids need_const }
{
    if !need_const {
        return 0;
    }
    word_from(memory, pc.wrapping_add(if need_regids { 2 } else { 1 }))
}

/// The address after an instruction at `pc`.
#[inline(always)]
#[tactic(auto, unfolding(crate::specs::Blocks::behind))]
pub fn behind(pc: u64, need_regids: bool, need_const: bool) -> u64
    ensures { result ≡ blocks.behind pc need_regids need_const }
{
    let first = pc.wrapping_add(1);
    let fields = first.wrapping_add(if need_regids { 1 } else { 0 });
    fields.wrapping_add(if need_const { 8 } else { 0 })
}

#[inline(always)]
pub fn is_inside(memory: &Image, pc: u64, bytes: u64) -> bool
    ensures { result ≡ nat_le (pc + bytes) (length memory.now) }
{
    let size = memory.size();
    bytes <= size && pc <= size - bytes
}

/// Whether a register field that the instruction uses names no register.
#[inline(always)]
pub fn lacks_register(memory: &Image, pc: u64, row: &Row) -> bool
    ensures { result ≡ blocks.lacks_register memory.now pc row.now }
{
    let (r_a, r_b) = register_fields(memory, pc, row.has_byte);
    (row.uses_a && r_a == NO_REGISTER) || (row.uses_b && r_b == NO_REGISTER)
}

const OUTSIDE: Reading = Reading {
    error: true,
    icode: INOP,
    ifun: 0,
};

const INVALID: Reading = Reading {
    error: false,
    icode: INVALID_ICODE,
    ifun: 0,
};

/// Reads the instruction at `pc`. The first of these cases that applies decides: its first byte is outside;
/// its first byte begins no instruction; a later byte is outside; a register field that it uses is 15.
#[tactic(auto, unfolding(crate::specs::Blocks::reading))]
pub fn read(v: Variant, memory: &Image, pc: u64) -> Reading
    ensures { result ≡ blocks.reading v memory.now pc }
{
    let Some(first) = memory.byte(pc) else {
        return OUTSIDE;
    };
    let icode = u64::from(first / 16);
    let ifun = u64::from(first % 16);
    let row = row(v, icode);
    if icode >= icode_count(v) || ifun > row.ifun_top {
        return INVALID;
    }
    if !is_inside(memory, pc, row.length) {
        return OUTSIDE;
    }
    if lacks_register(memory, pc, &row) {
        return INVALID;
    }
    Reading {
        error: false,
        icode,
        ifun,
    }
}

/// Splits the instruction that was read at `pc` into its fields, by its row.
#[inline(always)]
pub fn split_by(memory: &Image, pc: u64, row: &Row, read: Reading) -> Fetched
    ensures { result ≡ blocks.fetched_by memory.now pc read row.now }
{
    let (r_a, r_b) = register_fields(memory, pc, row.has_byte);
    Fetched {
        error: read.error,
        icode: read.icode,
        ifun: read.ifun,
        r_a,
        r_b,
        val_c: constant_at(memory, pc, row.has_byte, row.has_const),
        val_p: behind(pc, row.has_byte, row.has_const),
    }
}

/// Fetches the instruction at `pc`: reads it, and splits it into its fields.
#[tactic(auto, unfolding(crate::specs::Blocks::fetched))]
pub fn split(v: Variant, memory: &Image, pc: u64) -> Fetched
    ensures { result ≡ blocks.fetched v memory.now pc }
{
    let read = read(v, memory, pc);
    split_by(memory, pc, &row(v, read.icode), read)
}
