//! SEQ as a datapath whose cycles are shown.
ghost use Rattle.std.specs.Prelude.{◌≡◌, ◌++◌, OnOk};
ghost use Rattle.hcl_types.specs.Terms.{at};
ghost use Rattle.seq_text.specs.Observer as text;
ghost use Rattle.seq_text.specs.Signals.{sources_in};

use crate::lines::{put_stages, put_state, put_update};
use crate::shown::ShownDatapath;
use crate::signals::{Sources, seq_sources, signals_at};
use dp_signals::{SEQ, SeqState, at, seq_row};
use hcl_types::{Design, Row};
use y86_base::Memory;

/// Puts the lines of a cycle.
#[tactic(auto, unfolding(crate::specs::Observer::seq_lines, crate::specs::Signals::seq_signals))]
fn put_cycle(
    out: &mut Vec<u8>,
    s: &SeqState,
    values: &[u64],
    sources: &Sources<'_>,
) -> Result<(), Memory>
    ensures { OnOk result (out.new.items ≡ out.old.items ++ text.seq_lines s.now (at values.now) (sources_in sources.now)) }
{
    let signals = signals_at(&SEQ, values);
    put_stages(out, &signals, sources)?;
    put_update(out, at(values, seq_row::NEW_PC), sources)?;
    put_state(out, s.flags, &signals)
}

impl ShownDatapath for SeqState {
    ghost use Rattle.seq_text.specs.Observer.{seq_cycle_text};

    ghost text = { seq_cycle_text };

    fn sources<'a>(rows: &'a [Row], design: &Design, values: &[u64]) -> Sources<'a> {
        seq_sources(rows, design, values)
    }

    fn put_lines(
        &self,
        out: &mut Vec<u8>,
        values: &[u64],
        sources: &Sources<'_>,
    ) -> Result<(), Memory> {
        put_cycle(out, self, values, sources)
    }
}
