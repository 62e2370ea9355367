//! SEQ+ as a datapath whose cycles are shown.
ghost use Rattle.std.specs.Prelude.{◌≡◌, ◌++◌, OnOk};
ghost use Rattle.hcl_types.specs.Terms.{at};
ghost use Rattle.seq_text.specs.Observer as text;
ghost use Rattle.seq_text.specs.Signals.{sources_in};

use crate::lines::{put_choice, put_stages, put_state};
use crate::shown::ShownDatapath;
use crate::signals::{Sources, plus_sources, signals_at};
use dp_signals::at;
use hcl_types::{Design, Row};
use seq_plus::PlusState;
use seq_plus::row::PLUS;
use y86_base::Memory;

/// Puts the lines of a cycle.
#[tactic(auto, unfolding(crate::specs::Observer::plus_lines, crate::specs::Signals::plus_signals))]
fn put_cycle(
    out: &mut Vec<u8>,
    s: &PlusState,
    values: &[u64],
    sources: &Sources<'_>,
) -> Result<(), Memory>
    ensures { OnOk result (out.new.items ≡ out.old.items ++ text.plus_lines s.now (at values.now) (sources_in sources.now)) }
{
    let signals = signals_at(&PLUS, values);
    put_choice(out, s.previous, at(values, PLUS.pc), sources)?;
    put_stages(out, &signals, sources)?;
    put_state(out, s.flags, &signals)
}

impl ShownDatapath for PlusState {
    ghost use Rattle.seq_text.specs.Observer.{plus_cycle_text};

    ghost text = { plus_cycle_text };

    fn sources<'a>(rows: &'a [Row], design: &Design, values: &[u64]) -> Sources<'a> {
        plus_sources(rows, design, values)
    }

    fn put_lines(
        &self,
        out: &mut Vec<u8>,
        values: &[u64],
        sources: &Sources<'_>,
    ) -> Result<(), Memory> {
        put_cycle(out, self, values, sources)
    }
}
