//! What a datapath is whose cycles are shown, the head of a cycle's lines, and the end of a run.
ghost use Rattle.std.specs.Prelude.{◌≡◌, ◌++◌, IfOk, OnOk, codes};
ghost use Rattle.hcl_types.specs.Terms.{at};
ghost use Rattle.pipe_stage_text.specs.Cycle.{end_line};
ghost use Rattle.pipe_stage_text.specs.Numbers.{number_pair};
ghost use Rattle.seq_text.specs.Observer.{CycleText};
ghost use Rattle.seq_text.specs.Signals.{sources_in};

use crate::signals::Sources;
use dp_sequential::Sequential;
use hcl_types::{Design, Row};
use pipe_stage_text::{ObservedRun, put_end, put_number_pair};
use y86_base::{Memory, Stat, put};

/// A sequential datapath whose cycles are shown as text.
pub trait ShownDatapath: Sequential {
    /// The text of a cycle as contracts see it.
    ghost text: { CycleText Self };

    /// The sources of words in a cycle with these values.
    fn sources<'a>(rows: &'a [Row], design: &Design, values: &[u64]) -> Sources<'a>
        ensures { sources_in result ≡ text.sources rows.now design.now.terms (at values.now) };

    /// Puts the lines of a cycle that begins in this state.
    fn put_lines(
        &self,
        out: &mut Vec<u8>,
        values: &[u64],
        sources: &Sources<'_>,
    ) -> Result<(), Memory>
        ensures { OnOk result (out.new.items ≡ out.old.items ++ text.lines self.now (at values.now) (sources_in sources.now)) };
}

/// Puts the line of a cycle's number.
pub(crate) fn put_number(out: &mut Vec<u8>, number: u64) -> Result<(), Memory>
    ensures { OnOk result (out.new.items ≡ out.old.items ++ (number_pair (codes "cycle ") number ++ codes "\n")) }
{
    put_number_pair(out, b"cycle ", number)?;
    put(out, b"\n")
}

/// The output of a run of `cycles` cycles, with the line of its end.
pub(crate) fn finished(lines: Vec<u8>, end: Stat, cycles: u64) -> Result<ObservedRun, Memory>
    ensures text { IfOk result (λ w. w.text.items ≡ lines.items ++ end_line end cycles cycles) }
    ensures end { IfOk result (λ w. w.end ≡ end) }
{
    let mut text = lines;
    put_end(&mut text, end, cycles, cycles)?;
    Ok(ObservedRun { text, end })
}
