//! Runs a machine instruction by instruction.
ghost use Rattle.std.specs.Prelude.{◌≡◌, ◌≢◌, ◌<◌, ◌≤◌, length};
ghost use Rattle.y86_isa.specs.Run.{records_from, run_from};

use y86_base::{Stat, Variant};
use y86_isa::{Machine, do_step};

/// The result of a run, apart from the machine, which the run changes in place.
#[derive(Clone, Copy, Debug, PartialEq, Eq)]
pub struct Ran {
    /// How many instructions it executed.
    pub steps: u64,
}

/// Runs a machine until it stops, but for at most `limit` steps. It allocates nothing.
pub fn run(v: Variant, m: &mut Machine, limit: u64) -> Ran
    ensures machine { m.new ≡ run_from v m.old limit }
    ensures steps { result.steps ≡ length (records_from v m.old limit) }
    ensures within { result.steps ≤ limit }
    ensures fewer_only_where_stopped { result.steps < limit → m.new.stat ≢ Stat.Aok }
{
    let mut steps = 0;
    while steps < limit {
        match m.stat {
            Stat::Aok => {}
            _ => break,
        }
        do_step(v, m);
        steps += 1;
    }
    Ran { steps }
}
