//! One step of a machine, and the record that it leaves.
ghost use Rattle.std.specs.Prelude.{◌≡◌, ◌≢◌, ◌↔◌, ◌<◌, ◌/◌, IfNone, IsNone, Some, length, slice_get};
ghost use Rattle.y86_isa.specs.Blocks as blocks;
ghost use Rattle.y86_isa.specs.Step as spec;
ghost use Rattle.y86_isa.specs.Table as table;
ghost use Rattle.y86_isa.specs.Work as works;

use crate::columns::Row;
use crate::fetch::{Reading, is_inside, lacks_register, read, split_by};
use crate::machine::{Machine, Rec};
use crate::stages::{put_store, write_back};
use crate::table::{
    CALL, HALT, IADDQ, IRMOVQ, JXX, MRMOVQ, NOP, OPQ, POPQ, PUSHQ, RET, RMMOVQ, RRMOVQ,
    icode_count, row,
};
use crate::work::Work;
use y86_base::{Stat, Variant};

/// Ends an instruction: sets the status and, if that is AOK, the registers, flags, store and PC.
#[inline(always)]
fn finish(m: &mut Machine, work: &Work)
    ensures { m.new ≡ spec.machine_after m.old work.now }
{
    m.stat = work.stat;
    if !matches!(work.stat, Stat::Aok) {
        return;
    }
    write_back(&mut m.regs, work.dst_e, work.val_e, work.dst_m, work.val_m);
    m.flags = work.flags;
    m.pc = work.next_pc;
    put_store(&mut m.mem, work.store);
}

/// Executes an instruction that was read, given its row.
#[inline(always)]
#[tactic(auto, unfolding(crate::specs::Work::work, crate::specs::Blocks::fetched))]
fn advance_by(v: Variant, m: &mut Machine, row: &Row, read: Reading)
    requires read { read ≡ blocks.reading v m.old.mem m.old.pc }
    requires row { row.now ≡ table.row v read.icode }
    ensures { m.new ≡ spec.machine_after m.old (works.work v m.old) }
{
    let fetched = split_by(&m.mem, m.pc, row, read);
    let work = Work::after_fetch(m, row, &fetched);
    finish(m, &work);
}

/// Executes the instruction at the PC, whichever it is.
#[cold]
#[inline(never)]
fn advance_any(v: Variant, m: &mut Machine)
    ensures { m.new ≡ spec.machine_after m.old (works.work v m.old) }
{
    let read = read(v, &m.mem, m.pc);
    advance_by(v, m, &row(v, read.icode), read)
}

/// Executes the instruction at the PC, given its first byte and its row. The row is a constant at each call.
#[inline(always)]
#[tactic(auto, unfolding(crate::specs::Blocks::reading))]
fn advance_first(v: Variant, m: &mut Machine, first: u8, row: &Row)
    requires first { slice_get m.old.mem m.old.pc ≡ Some first }
    requires there { first / 16 < length (table.rows v) }
    requires row { row.now ≡ table.row v (first / 16) }
    ensures { m.new ≡ spec.machine_after m.old (works.work v m.old) }
{
    let icode = u64::from(first / 16);
    let ifun = u64::from(first % 16);
    if ifun > row.ifun_top
        || !is_inside(&m.mem, m.pc, row.length)
        || lacks_register(&m.mem, m.pc, row)
    {
        return advance_any(v, m);
    }
    advance_by(
        v,
        m,
        row,
        Reading {
            error: false,
            icode,
            ifun,
        },
    )
}

/// Executes the instruction at the PC, given its first byte.
#[inline(always)]
#[tactic(auto, unfolding(crate::specs::Table::row))]
fn advance_at(v: Variant, m: &mut Machine, first: u8)
    requires first { slice_get m.old.mem m.old.pc ≡ Some first }
    requires there { first / 16 < length (table.rows v) }
    ensures { m.new ≡ spec.machine_after m.old (works.work v m.old) }
{
    match first / 16 {
        0 => advance_first(v, m, first, &HALT),
        1 => advance_first(v, m, first, &NOP),
        2 => advance_first(v, m, first, &RRMOVQ),
        3 => advance_first(v, m, first, &IRMOVQ),
        4 => advance_first(v, m, first, &RMMOVQ),
        5 => advance_first(v, m, first, &MRMOVQ),
        6 => advance_first(v, m, first, &OPQ),
        7 => advance_first(v, m, first, &JXX),
        8 => advance_first(v, m, first, &CALL),
        9 => advance_first(v, m, first, &RET),
        10 => advance_first(v, m, first, &PUSHQ),
        11 => advance_first(v, m, first, &POPQ),
        12 => advance_first(v, m, first, &IADDQ),
        _ => advance_any(v, m),
    }
}

/// One step of a machine whose status is AOK, without its record.
#[inline(always)]
#[tactic(auto, unfolding(crate::specs::Step::advance))]
pub fn do_step(v: Variant, m: &mut Machine)
    requires aok { m.old.stat ≡ Stat.Aok }
    ensures { m.new ≡ spec.advance v m.old }
{
    match m.mem.byte(m.pc) {
        Some(first) => {
            if u64::from(first / 16) < icode_count(v) {
                advance_at(v, m, first)
            } else {
                advance_any(v, m)
            }
        }
        None => advance_any(v, m),
    }
}

/// The record of an instruction, after which the machine is `m`.
fn record(pc: u64, work: &Work, m: &Machine) -> Rec
    ensures { result ≡ spec.record_from pc work.now m.now.flags }
{
    let rec = Rec {
        pc,
        icode: work.icode,
        ifun: work.ifun,
        dst_e: work.dst_e,
        val_e: work.val_e,
        dst_m: work.dst_m,
        val_m: work.val_m,
        store: work.store,
        flags: m.flags,
        stat: work.stat,
    };
    rec.normal()
}

/// One step: executes the instruction at the PC, and returns its record. A machine whose status isn't AOK has
/// stopped: nothing changes, and there is no record.
///
/// It allocates nothing, and touches only the bytes of the instruction and its data.
#[tactic(auto, unfolding(crate::specs::Step::advance, crate::specs::Step::retired))]
pub fn step(v: Variant, m: &mut Machine) -> Option<Rec>
    ensures stopped { IsNone result ↔ (m.old.stat ≢ Stat.Aok) }
    ensures record { result ≡ spec.retired v m.old }
    ensures machine { m.new ≡ spec.advance v m.old }
    ensures unchanged { IfNone result (m.new ≡ m.old) }
{
    match m.stat {
        Stat::Aok => {}
        _ => return None,
    }
    let pc = m.pc;
    let work = Work::of(v, m);
    finish(m, &work);
    Some(record(pc, &work, m))
}
