//! The lines of a report.
ghost use Rattle.std.specs.Prelude.{◌≡◌, ◌*◌, ◌/◌, ◌<◌, ◌++◌, length};
ghost use Rattle.wb_io.specs.Causes.{CountsFaults};
ghost use Rattle.wb_io.specs.Sinks.{AppendsText};
ghost use Rattle.yis_run.specs.Report as text;

use wb_io::{Failed, Sink, put_all, put_pieces};
use y86_base::{Flags, Image, Numeral, Regs, Stat};

/// A flag as a digit, `0` or `1`.
pub fn flag(b: bool) -> &'static [u8]
    ensures { result.now ≡ text.flag b }
{
    if b { b"1" } else { b"0" }
}

/// Writes how a run stopped.
#[tactic(auto, unfolding(crate::specs::Report::stopped))]
pub fn put_stopped<S: Sink>(
    steps: u64,
    pc: u64,
    stat: Stat,
    flags: Flags,
    out: &mut S,
) -> Result<(), Failed>
    ensures puts { AppendsText (S.taken out.old) (S.taken out.new) result (text.stopped steps pc stat flags) }
    ensures counts { CountsFaults (S.faults out.old) (S.faults out.new) result }
{
    let steps = Numeral::decimal(steps);
    let pc = Numeral::hex(1, pc);
    let zero = flag(flags.zf);
    let sign = flag(flags.sf);
    let overflow = flag(flags.of);
    put_pieces(
        out,
        &[
            b"Stopped in ",
            steps.as_bytes(),
            b" steps at PC = 0x",
            pc.as_bytes(),
            b".  Status '",
            stat.name(),
            b"', CC Z=",
            zero,
            b" S=",
            sign,
            b" O=",
            overflow,
            b"\n",
        ],
    )
}

/// Writes the line of a change. The name of what changed is in two parts.
#[tactic(auto, unfolding(crate::specs::Report::change))]
fn put_change<S: Sink>(
    mark: &[u8],
    name: &[u8],
    old: u64,
    new: u64,
    out: &mut S,
) -> Result<(), Failed>
    ensures puts { AppendsText (S.taken out.old) (S.taken out.new) result (text.change (mark.now ++ name.now) old new) }
    ensures counts { CountsFaults (S.faults out.old) (S.faults out.new) result }
{
    let old = Numeral::hex(16, old);
    let new = Numeral::hex(16, new);
    put_pieces(
        out,
        &[
            mark,
            name,
            b":\t0x",
            old.as_bytes(),
            b"\t0x",
            new.as_bytes(),
            b"\n",
        ],
    )
}

/// Writes the line of a register, if it has one.
#[tactic(auto, unfolding(crate::specs::Report::register_line))]
fn put_register<S: Sink>(regs: &Regs, n: u64, out: &mut S) -> Result<(), Failed>
    ensures puts { AppendsText (S.taken out.old) (S.taken out.new) result (text.register_line regs.now n) }
    ensures counts { CountsFaults (S.faults out.old) (S.faults out.new) result }
{
    let word = regs.get(n);
    if word == 0 {
        return Ok(());
    }
    put_change(b"", Regs::name(n), 0, word, out)
}

/// Writes the lines of the registers.
pub fn put_registers<S: Sink>(regs: &Regs, out: &mut S) -> Result<(), Failed>
    ensures puts { AppendsText (S.taken out.old) (S.taken out.new) result (text.each_below 15 (text.register_line regs.now)) }
    ensures counts { CountsFaults (S.faults out.old) (S.faults out.new) result }
{
    for n in 0..15 {
        match put_register(regs, n, out) {
            Ok(()) => {}
            Err(failed) => return Err(failed),
        }
    }
    Ok(())
}

/// Writes the line of an aligned word of memory, if it has one.
#[tactic(auto, unfolding(crate::specs::Report::memory_line))]
fn put_word<S: Sink>(first: &Image, memory: &Image, n: u64, out: &mut S) -> Result<(), Failed>
    requires { 8 * n < length first.now }
    ensures puts { AppendsText (S.taken out.old) (S.taken out.new) result (text.memory_line first.now memory.now n) }
    ensures counts { CountsFaults (S.faults out.old) (S.faults out.new) result }
{
    // (brings what holds of every image: its size is bounded)
    let _size = first.size();
    let address = 8 * n;
    let old = first.word(address).unwrap_or(0);
    let new = memory.word(address).unwrap_or(0);
    if old == new {
        return Ok(());
    }
    let place = Numeral::hex(4, address);
    put_change(b"0x", place.as_bytes(), old, new, out)
}

/// Writes the lines of the words of memory.
pub fn put_memory<S: Sink>(first: &Image, memory: &Image, out: &mut S) -> Result<(), Failed>
    ensures puts { AppendsText (S.taken out.old) (S.taken out.new) result
        (text.each_below (length first.now / 8) (text.memory_line first.now memory.now)) }
    ensures counts { CountsFaults (S.faults out.old) (S.faults out.new) result }
{
    let words = first.size() / 8;
    for n in 0..words {
        match put_word(first, memory, n, out) {
            Ok(()) => {}
            Err(failed) => return Err(failed),
        }
    }
    Ok(())
}
