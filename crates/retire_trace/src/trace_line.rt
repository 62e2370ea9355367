//! The trace line of a record.
ghost use Rattle.std.specs.Prelude.{◌≤◌};
ghost use Rattle.wb_io.specs.Causes.{CountsFaults};
ghost use Rattle.wb_io.specs.Sinks.{AppendsText};
ghost use Rattle.retire_trace.specs.TraceLine as text;

use wb_io::{Failed, Sink, put_pieces};
use y86_base::{Flags, Numeral, Regs, Stat};
use y86_isa::{Rec, Store};
use yis_run::flag;

const NO_REGISTER: u64 = 15;

#[tactic(auto, unfolding(crate::specs::TraceLine::head, crate::specs::TraceLine::digit))]
fn put_head<S: Sink>(pc: u64, icode: u64, ifun: u64, out: &mut S) -> Result<(), Failed>
    ensures puts { AppendsText (S.taken out.old) (S.taken out.new) result (text.head pc icode ifun) }
    ensures counts { CountsFaults (S.faults out.old) (S.faults out.new) result }
{
    let pc = Numeral::hex(3, pc);
    let icode_digit = Numeral::hex(1, icode);
    let ifun_digit = Numeral::hex(1, ifun);
    let first = if icode < 16 {
        icode_digit.as_bytes()
    } else {
        b"?"
    };
    let second = if ifun < 16 {
        ifun_digit.as_bytes()
    } else {
        b"?"
    };
    put_pieces(out, &[b"0x", pc.as_bytes(), b" ", first, second])
}

#[tactic(auto, unfolding(crate::specs::TraceLine::written))]
fn put_written<S: Sink>(number: u64, word: u64, out: &mut S) -> Result<(), Failed>
    ensures puts { AppendsText (S.taken out.old) (S.taken out.new) result (text.written number word) }
    ensures counts { CountsFaults (S.faults out.old) (S.faults out.new) result }
{
    if number == NO_REGISTER {
        return Ok(());
    }
    let word = Numeral::hex(16, word);
    put_pieces(out, &[b" ", Regs::name(number), b"=0x", word.as_bytes()])
}

#[tactic(auto, unfolding(crate::specs::TraceLine::stored))]
fn put_stored<S: Sink>(store: Option<Store>, out: &mut S) -> Result<(), Failed>
    ensures puts { AppendsText (S.taken out.old) (S.taken out.new) result (text.stored store) }
    ensures counts { CountsFaults (S.faults out.old) (S.faults out.new) result }
{
    match store {
        None => Ok(()),
        Some(store) => {
            let addr = Numeral::hex(4, store.addr);
            let word = Numeral::hex(16, store.word);
            put_pieces(out, &[b" [0x", addr.as_bytes(), b"]=0x", word.as_bytes()])
        }
    }
}

#[tactic(auto, unfolding(crate::specs::TraceLine::tail))]
fn put_tail<S: Sink>(flags: Flags, stat: Stat, out: &mut S) -> Result<(), Failed>
    ensures puts { AppendsText (S.taken out.old) (S.taken out.new) result (text.tail flags stat) }
    ensures counts { CountsFaults (S.faults out.old) (S.faults out.new) result }
{
    let zero = flag(flags.zf);
    let sign = flag(flags.sf);
    let overflow = flag(flags.of);
    put_pieces(out, &[b" ", zero, sign, overflow, b" ", stat.name(), b"\n"])
}

/// Writes the trace line of a record. It allocates no memory. A failed write leaves a proper prefix of the line in the
/// sink.
pub fn line<S: Sink>(r: &Rec, out: &mut S) -> Result<(), Failed>
    requires e { r.now.dst_e ≤ 15 }
    requires m { r.now.dst_m ≤ 15 }
    ensures puts { AppendsText (S.taken out.old) (S.taken out.new) result (text.trace_line r.now) }
    ensures counts { CountsFaults (S.faults out.old) (S.faults out.new) result }
{
    put_head(r.pc, r.icode, r.ifun, out)?;
    put_written(r.dst_e, r.val_e, out)?;
    put_written(r.dst_m, r.val_m, out)?;
    put_stored(r.store, out)?;
    put_tail(r.flags, r.stat, out)
}
