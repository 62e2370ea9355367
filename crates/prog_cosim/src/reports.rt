//! Whether the reports of two runs are the same bytes.
ghost use Rattle.std.specs.Prelude.{◌≡◌, ◌↔◌, true, length, IfOk};
ghost use Rattle.yis_run.specs.Report as text;

use std::alloc::Global;
use wb_io::MemSink;
use y86_base::{Image, Memory};
use yis_run::{End, report};

/// The most bytes that a report needs for a changed word of memory, and for everything else.
const WORD_LINE: u64 = 48;

const OTHER_LINES: u64 = 2048;

/// The report of a run that began with the memory `first`, in memory.
fn report_text(alloc: Global, first: &Image, end: &End<'_>, steps: u64) -> Result<MemSink, Memory>
    requires one_size { length first.now ≡ length end.now.mem.now }
    ensures { IfOk result (λ sink. sink.taken ≡ text.report first.now (text.ended end.now) steps) }
{
    let mut sink = MemSink::new(alloc, Vec::new(alloc));
    let words = first.size() / 8;
    match sink.reserve(WORD_LINE * words + OTHER_LINES) {
        Ok(()) => {}
        Err(_) => return Err(Memory),
    }
    match report(first, end, steps, &mut sink) {
        Ok(()) => Ok(sink),
        Err(_) => Err(Memory),
    }
}

/// Whether the reports of two runs that began with the memory `first` are the same bytes, each with its own count of
/// steps.
pub fn same_reports(
    alloc: Global,
    first: &Image,
    one: &End<'_>,
    one_steps: u64,
    other: &End<'_>,
    other_steps: u64,
) -> Result<bool, Memory>
    requires one_size { length first.now ≡ length one.now.mem.now }
    requires other_size { length first.now ≡ length other.now.mem.now }
    ensures { IfOk result (λ same. (same ≡ true)
        ↔ (text.report first.now (text.ended one.now) one_steps ≡ text.report first.now (text.ended other.now) other_steps)) }
{
    let Ok(one_text) = report_text(alloc, first, one, one_steps) else {
        return Err(Memory);
    };
    let Ok(other_text) = report_text(alloc, first, other, other_steps) else {
        return Err(Memory);
    };
    Ok(one_text.bytes() == other_text.bytes())
}
