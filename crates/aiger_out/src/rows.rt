//! The lines of a text up to its symbols, each read in the form that is required at its place.
ghost use Rattle.std.specs.Prelude.{◌≡◌, ℕ, ◌+◌, ◌≤◌, IfOk, None, length, drop, slice_get, get_or};
ghost use Rattle.std.specs.Option.{option_map_or};
ghost use Rattle.aiger_out.specs.Form.{IsBounded, header_fault, line_at, line_read, rest_from};
ghost use Rattle.aiger_out.specs.Lines.{ended, unended};
ghost use Rattle.aiger_out.specs.Rows.{AreRows, row};
ghost use Rattle.aiger_out.specs.declared.form.AagLine.TheVariants.{Other};

use crate::fault::AagWhy;
use crate::form::{AagLine, Header};
use crate::numbers::{ended_line, one_number, three_numbers};
use std::alloc::Global;
use y86_base::Memory;

/// The most variables that a text may have, and the most outputs.
const LIMIT: u64 = 1_000_000;

/// The fault of a header.
pub(crate) fn header_fault(h: Header) -> Option<AagWhy>
    ensures fault { result ≡ header_fault 1000000 h }
    ensures bounded { result ≡ None → IsBounded h }
{
    if h.latches != 0 {
        return Some(AagWhy::Latches);
    }
    if h.most > LIMIT || h.outputs > LIMIT || h.inputs > h.most || h.ands > h.most - h.inputs {
        return Some(AagWhy::TooMany);
    }
    None
}

/// The number of lines before the symbols.
pub(crate) fn rest_from(h: Header) -> u64
    requires { IsBounded h }
    ensures place { result ≡ rest_from h }
    ensures small { result ≤ 2000001 }
{
    1 + h.inputs + h.outputs + h.ands
}

/// The contents of a line at a place.
fn line_read(h: Header, j: u64, line: &[u8]) -> AagLine
    requires { IsBounded h }
    ensures { result ≡ line_read h j line.now }
{
    if j == 0 {
        return AagLine::Other;
    }
    if j < 1 + h.inputs {
        return match one_number(line) {
            Some(x) => AagLine::Input(x),
            None => AagLine::Other,
        };
    }
    if j < 1 + h.inputs + h.outputs {
        return match one_number(line) {
            Some(x) => AagLine::Output(x),
            None => AagLine::Other,
        };
    }
    if j < rest_from(h) {
        return match three_numbers(line) {
            Some(a) => AagLine::And(a),
            None => AagLine::Other,
        };
    }
    AagLine::Other
}

/// The contents of the first line of a text, as the line at a place, and the text after it.
fn next_line(h: Header, j: u64, text: &[u8]) -> (AagLine, &[u8])
    requires { IsBounded h }
    ensures line { result.0 ≡ option_map_or (line_read h j) (slice_get (ended text.now) 0) Other }
    ensures rest { ended result.1.now ≡ drop 1 (ended text.now) }
    ensures more { unended result.1.now ≡ unended text.now }
{
    match ended_line(text) {
        Some((line, behind)) => (line_read(h, j, line), behind),
        None => (AagLine::Other, text),
    }
}

/// The lines before the symbols, and the text after them. If a text ends early, the missing lines are `Other`.
#[tactic(auto, using(crate::proofs::RowSteps::rows_none, crate::proofs::RowSteps::rows_more))]
pub(crate) fn read_rows(
    alloc: Global,
    h: Header,
    text: &[u8],
) -> Result<(Vec<AagLine>, &[u8]), Memory>
    requires { IsBounded h }
    ensures { IfOk result (λ p. AreRows h text.now (rest_from h) p.0.items p.1.now) }
{
    let mut rows: Vec<AagLine> = Vec::new(alloc);
    let mut rest = text;
    for j in 0..rest_from(h) {
        let (line, behind) = next_line(h, j, rest);
        rest = behind;
        if rows.push(line).is_err() {
            return Err(Memory);
        }
    }
    Ok((rows, rest))
}

/// The line at a place; `Other` if there is none.
pub(crate) fn row_at(rows: &[AagLine], j: u64) -> AagLine
    ensures { result ≡ row rows.now j }
{
    match rows.get(j as usize) {
        Some(line) => *line,
        None => AagLine::Other,
    }
}
