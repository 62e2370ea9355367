//! Drives: cycles until a machine stops, with a trace.
ghost use Rattle.std.specs.Prelude.{◌<◌, ◌≤◌, ◌+◌, ◌^◌, ℕ, List, OnErr, IfOk};
ghost use Rattle.wb_io.specs.Causes.{CountsFaults};
ghost use Rattle.wb_io.specs.Sinks.{Appended};
ghost use Rattle.retire_trace.specs.Drive as spec;

use crate::trace_line::line;
use dp_machines::is_aok_stat;
use hcl_types::SignalEval;
use pipe_path::{Pipe, record_of};
use wb_io::{Failed, Sink};
use y86_base::Stat;
use y86_isa::Rec;

/// What a drive did: its own cycles and records, and how the machine ended: AOK if it can go on.
#[derive(Clone, Copy, Debug, PartialEq, Eq)]
pub struct Drove {
    pub cycles: u64,
    pub retired: u64,
    pub end: Stat,
}

/// Does one cycle, and writes the line of the record that retired if a trace is requested. Returns the number of
/// records that retired.
#[inline(always)]
fn traced_cycle<C: SignalEval, S: Sink>(
    p: &mut Pipe<C>,
    trace: bool,
    out: &mut S,
) -> Result<u64, Failed>
    requires { p.old.cycles < 2 ^ 63 }
    ensures traced { spec.TracedCycle p.old p.new trace (S.taken out.old) (S.taken out.new) result }
    ensures few { IfOk result (λ retired. retired ≤ 1) }
    ensures counted { p.new.cycles ≤ p.old.cycles + 1 }
    ensures counts { CountsFaults (S.faults out.old) (S.faults out.new) result }
{
    if !trace {
        return Ok(p.pass());
    }
    match record_of(p.cycle()) {
        None => Ok(0),
        Some(record) => match line(&record, out) {
            Ok(()) => Ok(1),
            Err(failed) => Err(failed),
        },
    }
}

/// Does cycles until the limit, or until the machine has ended. If a trace is requested, it writes the line of each
/// record that retires. It allocates no memory. A failed write ends the drive: a proper prefix of that record's line
/// was written after the earlier lines, and the machine is in the state after the cycle that retired the record.
pub fn drive<C: SignalEval, S: Sink>(
    p: &mut Pipe<C>,
    limit: u64,
    trace: bool,
    out: &mut S,
) -> Result<Drove, Failed>
    requires { p.old.cycles + limit < 2 ^ 63 }
    ensures drove { IfOk result (λ d. (records : List Rec) × spec.IsDrive p.old limit p.new d records
        × Appended (S.taken out.old) (S.taken out.new) (spec.traced trace records)) }
    ensures failed { OnErr result ((k : ℕ) × (records : List Rec) × (last : Rec) × (n : ℕ)
        × spec.IsFailedDrive p.old limit trace p.new (S.taken out.old) (S.taken out.new) k records last n) }
    ensures counts { CountsFaults (S.faults out.old) (S.faults out.new) result }
{
    let mut retired = 0;
    for k in 0..limit {
        if !is_aok_stat(p.status()) {
            return Ok(Drove {
                cycles: k,
                retired,
                end: p.status(),
            });
        }
        match traced_cycle(p, trace, out) {
            Ok(more) => retired += more,
            Err(failed) => return Err(failed),
        }
    }
    Ok(Drove {
        cycles: limit,
        retired,
        end: p.status(),
    })
}
