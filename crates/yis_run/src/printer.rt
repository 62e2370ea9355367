//! The report of a run.
ghost use Rattle.std.specs.Prelude.{◌≡◌, length};
ghost use Rattle.wb_io.specs.Causes.{CountsFaults};
ghost use Rattle.wb_io.specs.Sinks.{AppendsText};
ghost use Rattle.yis_run.specs.Report as text;

use crate::lines::{put_memory, put_registers, put_stopped};
use crate::outcome::End;
use wb_io::{Failed, Sink, put_all};
use y86_base::Image;

/// Writes the report of a run that began on the memory `first`. It allocates nothing.
///
/// A register was 0 at the start, so each register that isn't 0 has changed. A failed write leaves a proper
/// prefix of the report in the sink.
pub fn report<S: Sink>(first: &Image, end: &End<'_>, steps: u64, out: &mut S) -> Result<(), Failed>
    requires one_size { length first.now ≡ length end.now.mem.now }
    ensures puts { AppendsText (S.taken out.old) (S.taken out.new) result (text.report first.now (text.ended end.now) steps) }
    ensures counts { CountsFaults (S.faults out.old) (S.faults out.new) result }
{
    put_stopped(steps, end.pc, end.stat, end.flags, out)?;
    put_all(out, b"Changes to registers:\n")?;
    put_registers(end.regs, out)?;
    put_all(out, b"\nChanges to memory:\n")?;
    put_memory(first, end.mem, out)
}
