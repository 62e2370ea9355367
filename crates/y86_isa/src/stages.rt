//! The stages of an instruction: decode, execute, memory, write back.
ghost use Rattle.std.specs.Prelude.{◌≡◌};
ghost use Rattle.y86_isa.specs.Blocks as blocks;
ghost use Rattle.y86_isa.specs.Work as spec;

use crate::columns::{AluAColumn, AluBColumn, MemoryColumn, RegisterColumn, Row};
use crate::fetch::Fetched;
use crate::machine::Store;
use crate::row_tests::{is_load, is_store};
use crate::table::{NO_REGISTER, STACK_POINTER};
use crate::unit::{alu, cond};
use y86_base::{Flags, Image, Regs};

/// The results of decode: the numbers of the sources and destinations, and the words of the sources.
#[derive(Clone, Copy)]
pub struct Decoded {
    pub src_a: u64,
    pub src_b: u64,
    pub raw_dst_e: u64,
    pub dst_m: u64,
    pub val_a: u64,
    pub val_b: u64,
}

/// The results of execute: the ALU's result, the flags after it, the condition and the destination.
#[derive(Clone, Copy)]
pub struct Executed {
    pub val_e: u64,
    pub flags: Flags,
    pub cnd: bool,
    pub dst_e: u64,
}

/// The results of the memory stage: the address of the data, whether the access is out of bounds, the word that is
/// read, and the store that takes place.
#[derive(Clone, Copy)]
pub struct Accessed {
    pub address: u64,
    pub fault: bool,
    pub val_m: u64,
    pub store: Option<Store>,
}

fn register_number(field: RegisterColumn, fetched: &Fetched) -> u64
    ensures { result ≡ blocks.register_number field fetched.now.r_a fetched.now.r_b }
{
    match field {
        RegisterColumn::Dash => NO_REGISTER,
        RegisterColumn::FieldA => fetched.r_a,
        RegisterColumn::FieldB => fetched.r_b,
        RegisterColumn::Stack => STACK_POINTER,
    }
}

fn operand_a(term: AluAColumn, val_a: u64, val_c: u64) -> u64
    ensures { result ≡ blocks.operand_a term val_a val_c }
{
    match term {
        AluAColumn::NoA => 0,
        AluAColumn::ValA => val_a,
        AluAColumn::ValC => val_c,
        AluAColumn::Minus8 => u64::MAX - 7,
        AluAColumn::Plus8 => 8,
    }
}

fn operand_b(term: AluBColumn, val_b: u64) -> u64
    ensures { result ≡ blocks.operand_b term val_b }
{
    match term {
        AluBColumn::NoB | AluBColumn::Zero => 0,
        AluBColumn::ValB => val_b,
    }
}

fn data_address(access: MemoryColumn, val_a: u64, val_e: u64) -> u64
    ensures { result ≡ blocks.data_address access val_a val_e }
{
    match access {
        MemoryColumn::NoMem => 0,
        MemoryColumn::LoadA => val_a,
        MemoryColumn::StoreA | MemoryColumn::StoreP | MemoryColumn::LoadE => val_e,
    }
}

fn data_word(access: MemoryColumn, val_a: u64, val_p: u64) -> u64
    ensures { result ≡ blocks.data_word access val_a val_p }
{
    match access {
        MemoryColumn::StoreA => val_a,
        MemoryColumn::StoreP => val_p,
        MemoryColumn::NoMem | MemoryColumn::LoadE | MemoryColumn::LoadA => 0,
    }
}

/// Whether a word is to be read or written at an address, and not all of it is inside the memory.
#[tactic(auto, unfolding(crate::specs::Blocks::data_error))]
pub fn data_error(memory: &Image, address: u64, reads: bool, writes: bool) -> bool
    ensures { result ≡ blocks.data_error memory.now address reads writes }
{
    (reads || writes) && memory.word(address).is_none()
}

/// The word that is read at an address; 0 if none is read or it isn't all inside the memory.
#[tactic(auto, unfolding(crate::specs::Blocks::data_read))]
pub fn data_read(memory: &Image, address: u64, reads: bool) -> u64
    ensures { result ≡ blocks.data_read memory.now address reads }
{
    if reads {
        memory.word(address).unwrap_or(0)
    } else {
        0
    }
}

/// The store that takes place, if there is one and the access isn't in error.
#[tactic(auto, unfolding(crate::specs::Blocks::data_store))]
pub fn data_store(address: u64, word: u64, writes: bool, error: bool) -> Option<Store>
    ensures { result ≡ blocks.data_store address word writes error }
{
    if writes && !error {
        Some(Store {
            addr: address,
            word,
        })
    } else {
        None
    }
}

/// Performs a store, if there is one.
#[tactic(auto, unfolding(crate::specs::Blocks::stored))]
pub fn put_store(memory: &mut Image, store: Option<Store>)
    ensures { memory.new ≡ blocks.stored memory.old store }
{
    if let Some(store) = store {
        let _ = memory.put(store.addr, store.word);
    }
}

/// Writes both destinations to the registers, the destination of valM last.
#[inline(always)]
pub fn write_back(regs: &mut Regs, dst_e: u64, val_e: u64, dst_m: u64, val_m: u64)
    ensures { regs.new ≡ blocks.written_back regs.old dst_e val_e dst_m val_m }
{
    regs.set(dst_e, val_e);
    regs.set(dst_m, val_m);
}

/// The decode stage.
#[inline(always)]
pub fn decode(regs: &Regs, row: &Row, fetched: &Fetched) -> Decoded
    ensures { result ≡ spec.decoded regs.now row.now fetched.now }
{
    let src_a = register_number(row.src_a, fetched);
    let src_b = register_number(row.src_b, fetched);
    Decoded {
        src_a,
        src_b,
        raw_dst_e: register_number(row.dst_e, fetched),
        dst_m: register_number(row.dst_m, fetched),
        val_a: regs.get(src_a),
        val_b: regs.get(src_b),
    }
}

/// The execute stage, with the flags from before the instruction.
#[inline(always)]
pub fn execute(before: Flags, row: &Row, fetched: &Fetched, decoded: &Decoded) -> Executed
    ensures { result ≡ spec.executed before row.now fetched.now decoded.now }
{
    let out = alu(
        if row.selects { fetched.ifun } else { 0 },
        operand_a(row.alu_a, decoded.val_a, fetched.val_c),
        operand_b(row.alu_b, decoded.val_b),
    );
    let cnd = cond(fetched.ifun, before);
    Executed {
        val_e: out.val,
        flags: if row.sets_flags { out.flags } else { before },
        cnd,
        dst_e: if row.conditional && !cnd {
            NO_REGISTER
        } else {
            decoded.raw_dst_e
        },
    }
}

/// The memory stage. Nothing is written yet.
#[inline(always)]
pub fn access(memory: &Image, row: &Row, fetched: &Fetched, val_a: u64, val_e: u64) -> Accessed
    ensures { result ≡ spec.accessed memory.now row.now fetched.now val_a val_e }
{
    let loads = is_load(row.memory);
    let stores = is_store(row.memory);
    let address = data_address(row.memory, val_a, val_e);
    let word = data_word(row.memory, val_a, fetched.val_p);
    let fault = data_error(memory, address, loads, stores);
    Accessed {
        address,
        fault,
        val_m: data_read(memory, address, loads),
        store: data_store(address, word, stores, fault),
    }
}
