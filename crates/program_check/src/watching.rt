//! Watches the run of a program.
ghost use Rattle.std.specs.Prelude.{◌≡◌, not};
ghost use Rattle.program_check.specs.Near.{IsWatched};
ghost use Rattle.y86_isa.specs.Machine.{is_aok};

use crate::recent::{NearFetch, Recent, near_fetch};
use y86_base::{Image, Stat, Variant};
use y86_isa::{Machine, step};

/// The outcome of a watched run.
#[derive(Clone, Copy, Debug, PartialEq, Eq)]
pub enum Watched {
    /// In this number of steps no instruction fetched what one of the three before it stored; and whether the program
    /// has then stopped.
    Apart(u64, bool),
    /// The first instruction that fetched what one of the three before it stored.
    Meets(NearFetch),
}

/// Whether a machine with this status has stopped.
fn has_stopped(stat: Stat) -> bool
    ensures { result ≡ not (is_aok stat) }
{
    !matches!(stat, Stat::Aok)
}

/// Runs an image instruction by instruction, for at most `limit` steps, as long as no instruction fetches a byte that
/// one of the three before it stored. It allocates nothing.
pub fn watch(v: Variant, image: Image, limit: u64) -> Watched
    ensures { IsWatched v image limit result }
{
    let mut machine = Machine::start(image);
    let mut recent = Recent {
        last: None,
        second: None,
        third: None,
    };
    let mut steps = 0;
    while steps < limit {
        if has_stopped(machine.stat) {
            break;
        }
        if let Some(found) = near_fetch(v, &machine, &recent, steps) {
            return Watched::Meets(found);
        }
        let told = step(v, &mut machine);
        recent = Recent {
            last: told,
            second: recent.last,
            third: recent.second,
        };
        steps += 1;
    }
    Watched::Apart(steps, has_stopped(machine.stat))
}
