//! Runs of machines up to a limit.
ghost use Rattle.std.specs.Prelude.{◌≡◌, ◌≢◌, ◌↔◌, ◌<◌, ◌≤◌, IsNone, List, None, Option, false, length};
ghost use Rattle.dp_signals.specs.After.{IsAfter};
ghost use Rattle.y86_base.specs.declared.parts.Stat.{Stat};
ghost use Rattle.y86_base.specs.declared.parts.Stat.TheVariants.{Aok};
ghost use Rattle.y86_isa.specs.Machine.{is_aok};
ghost use Rattle.y86_isa.specs.declared.machine.Rec.{Rec};

use y86_isa::Rec;
use yis_run::Ran;

/// A machine that does one clock cycle a call, until it stops.
pub trait ClockedMachine {
    /// What a call does: the machine before it, the record that it returns, and the machine after it.
    ghost step: { Self → Option Rec → Self → Type 0 };

    /// The status of a machine.
    ghost stat: { Self → Stat };

    /// Does one cycle, and returns its record. A machine whose status isn't AOK has stopped, and returns none.
    fn cycle(&mut self) -> Option<Rec>
        ensures step { step self.old result self.new }
        ensures stopped { IsNone result ↔ (stat self.old ≢ Aok) };

    /// A call on a machine that has stopped leaves it as it was.
    ghost stays: { (p q : Self) → is_aok (stat p) ≡ false → step p None q → q ≡ p };
}

/// Runs a machine until it stops, but for at most `limit` cycles, and counts the records. It allocates no memory.
pub fn run<M: ClockedMachine>(machine: &mut M, limit: u64) -> Ran
    ensures calls { (records : List Rec) × IsAfter M.step machine.old limit machine.new records × (length records ≡ result.steps) }
    ensures within { result.steps ≤ limit }
    ensures fewer_only_where_stopped { result.steps < limit → M.stat machine.new ≢ Aok }
{
    let mut steps = 0;
    while steps < limit {
        match machine.cycle() {
            Some(_) => steps += 1,
            None => break,
        }
    }
    Ran { steps }
}
