//! Both runs in lockstep: each record that retires is compared with that of the next instruction.
ghost use Rattle.std.specs.Prelude.{◌<◌, ◌≤◌, ◌^◌, ◌+◌, IfOk, MatchResult};
ghost use Rattle.cosimulation.specs.Lockstep.{EndsAs, GoApart, GoBoth, IsCompared};
ghost use Rattle.dp_signals.specs.PipeTable.{pipe_rows};
ghost use Rattle.hcl_types.specs.Tables.{IsBound, IsOrderOf};
ghost use Rattle.pipe_path.specs.Pipe as path;
ghost use Rattle.y86_isa.specs.Machine.{start};

use crate::records::is_record;
use crate::states::{Part, difference};
use dp_machines::is_aok_stat;
use dp_signals::constant_words;
use hcl_compile::compile;
use hcl_types::{OrderedDesign, SignalEval};
use pipe_path::{Pipe, record_of};
use std::alloc::Global;
use y86_base::{Image, Memory, Variant};
use y86_isa::{Machine, Rec, step};
use yis_run::End;

/// A record that differs: how many records before it were alike, the cycle that retired it, and the record that the
/// run by instructions has in its place, if it has one.
#[derive(Clone, Copy, Debug)]
pub struct RecordDiffers {
    pub before: u64,
    pub cycle: u64,
    pub retired: Rec,
    pub wanted: Option<Rec>,
}

/// The outcome of the two runs.
#[derive(Clone, Copy, Debug)]
pub enum Compared {
    /// Both stopped after the same records, in the same state: the number of records, and of cycles.
    Same(u64, u64),
    /// The pipeline hasn't ended at the limit. This number of records retired, and all are alike.
    Open(u64),
    /// The first record that differs.
    Record(RecordDiffers),
    /// The pipeline ended after the same records, this number of them and of cycles, in a state that differs in this part.
    State(u64, u64, Part),
}

/// Runs one cycle, and the next instruction if a record retired. Returns how many retired, 0 or 1, or the two records
/// if they differ.
fn go_both<C: SignalEval>(
    v: Variant,
    m: &mut Machine,
    p: &mut Pipe<C>,
) -> Result<u64, (Rec, Option<Rec>)>
    requires { p.old.cycles < 2 ^ 63 }
    ensures both { MatchResult result (λ count. GoBoth v p.old m.old p.new m.new count) (λ d. GoApart v p.old m.old p.new d.0 d.1) }
    ensures counted { p.new.cycles ≤ p.old.cycles + 1 }
{
    match record_of(p.cycle()) {
        None => Ok(0),
        Some(record) => {
            let wanted = step(v, m);
            if is_record(wanted, &record) {
                Ok(1)
            } else {
                Err((record, wanted))
            }
        }
    }
}

/// The comparison of the final states.
fn ended<C: SignalEval>(m: &Machine, p: &Pipe<C>, steps: u64, cycles: u64) -> Compared
    ensures { EndsAs (path.end_of p.now) m.now steps cycles result }
{
    match difference(&p.end(), &End::of(m)) {
        None => Compared::Same(steps, cycles),
        Some(part) => Compared::State(steps, cycles, part),
    }
}

/// Runs both machines for at most `limit` cycles.
fn run_both<C: SignalEval>(v: Variant, m: &mut Machine, p: &mut Pipe<C>, limit: u64) -> Compared
    requires { p.old.cycles + limit < 2 ^ 63 }
    ensures { IsCompared v p.old m.old limit result }
{
    let mut steps = 0;
    for k in 0..limit {
        if !is_aok_stat(p.status()) {
            return ended(m, p, steps, k);
        }
        match go_both(v, m, p) {
            Ok(count) => steps += count,
            Err((retired, wanted)) => {
                return Compared::Record(RecordDiffers {
                    before: steps,
                    cycle: k + 1,
                    retired,
                    wanted,
                });
            }
        }
    }
    if is_aok_stat(p.status()) {
        return Compared::Open(steps);
    }
    ended(m, p, steps, limit)
}

/// Runs an image by its instructions and on PIPE under a design, side by side, for at most `limit` cycles. All memory
/// is allocated before the first cycle.
pub fn compare(
    alloc: Global,
    v: Variant,
    ordered: OrderedDesign,
    image: Image,
    limit: u64,
) -> Result<Compared, Memory>
    requires limit { limit < 2 ^ 63 }
    requires bound { IsBound pipe_rows ordered.design.terms }
    requires order { IsOrderOf pipe_rows ordered.design.terms ordered.order.ids }
    ensures { IfOk result (λ c. IsCompared v (path.started v ordered.design.terms ordered.order.ids image) (start image) limit c) }
{
    let Ok(other) = image.copy(alloc) else {
        return Err(Memory);
    };
    let Ok(compiled) = compile(alloc, &ordered, &constant_words()) else {
        return Err(Memory);
    };
    let mut machine = Machine::start(other);
    let mut pipe = Pipe::new(v, ordered, compiled, image);
    Ok(run_both(v, &mut machine, &mut pipe, limit))
}
