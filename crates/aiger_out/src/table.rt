//! The lines of a text before its symbols, and which line first defines each variable.
ghost use Rattle.std.specs.Prelude.{◌≡◌, ℕ, ◌+◌, ◌/◌, ◌<◌, ◌≤◌, ◌==◌, ◌&&◌, if◌then◌else◌, MatchOption, IfOk, false, length, replicate};
ghost use Rattle.aiger_out.specs.Form as spec;
ghost use Rattle.aiger_out.specs.Rows.{AreFirsts, first_at, nowhere, row};
ghost use Rattle.aiger_out.specs.declared.form.AagLine.TheVariants.{Other};

use crate::form::{AagLine, Header};
use crate::rows::row_at;
use std::alloc::Global;
use y86_base::Memory;

/// The place that means: no line defines the variable.
const NOWHERE: u64 = u64::MAX;

/// The lines before the symbols by their places, and for each variable the place of the first line that defines it.
#[derive(Drop)]
pub(crate) struct Table {
    pub(crate) header: Header,
    pub(crate) rows: Vec<AagLine>,
    firsts: Vec<u64>,
    ghost bounded: { spec.IsBounded header },
    ghost size: { length rows.items ≡ spec.rest_from header },
    ghost defined: { AreFirsts header (row rows.items) (length rows.items) firsts.items },
}

/// A vector of `count` times the same number.
pub(crate) fn filled(alloc: Global, count: usize, x: u64) -> Result<Vec<u64>, Memory>
    ensures { IfOk result (λ v. v.items ≡ replicate count x) }
{
    match vec![in alloc; x; count] {
        Ok(v) => Ok(v),
        Err(_) => Err(Memory),
    }
}

/// A literal that may define a variable.
pub(crate) fn may_be_defined(h: Header, x: u64) -> bool
    requires { spec.IsBounded h }
    ensures { result ≡ spec.may_be_defined h x }
{
    x % 2 == 0 && 2 <= x && x <= 2 * h.most + 1
}

/// The literal by which a line may define a variable.
fn new_literal(line: AagLine) -> Option<u64>
    ensures { MatchOption result ((h : Header) (v : ℕ) → spec.defines h line v ≡ false) (λ x. (h : Header) (v : ℕ) → spec.defines h line v ≡ (spec.may_be_defined h x && x / 2 == v)) }
{
    match line {
        AagLine::Input(x) => Some(x),
        AagLine::And(a) => Some(a.lhs),
        AagLine::Output(_) | AagLine::Other => None,
    }
}

/// Records the place of a line for the variable that it defines, unless a place is recorded already.
fn mark(firsts: &mut [u64], h: Header, line: AagLine, j: u64)
    requires bounded { spec.IsBounded h }
    requires size { length firsts.old ≡ h.most + 1 }
    ensures { (v : ℕ) → first_at firsts.new v ≡ (if spec.defines h line v && first_at firsts.old v == nowhere then j else first_at firsts.old v) }
{
    let Some(x) = new_literal(line) else {
        return;
    };
    if may_be_defined(h, x) && firsts[(x / 2) as usize] == NOWHERE {
        firsts[(x / 2) as usize] = j;
    }
}

/// Records the places of all lines after the header.
#[tactic(auto, using(crate::proofs::Firsts::firsts_more))]
fn mark_all(firsts: &mut [u64], h: Header, rows: &[AagLine])
    requires bounded { spec.IsBounded h }
    requires size { length rows.now ≡ spec.rest_from h }
    requires start { AreFirsts h (row rows.now) 1 firsts.old }
    ensures { AreFirsts h (row rows.now) (length rows.now) firsts.new }
{
    for j in 1..rows.len() {
        let line = row_at(rows, j as u64);
        mark(firsts, h, line, j as u64);
    }
}

/// The place of the first line that defines each variable; for the constant, place 0.
#[tactic(auto, using(crate::proofs::Firsts::firsts_start, crate::proofs::Firsts::lent))]
fn read_firsts(alloc: Global, h: Header, rows: &[AagLine]) -> Result<Vec<u64>, Memory>
    requires bounded { spec.IsBounded h }
    requires size { length rows.now ≡ spec.rest_from h }
    requires header { row rows.now 0 ≡ Other }
    ensures { IfOk result (λ firsts. AreFirsts h (row rows.now) (length rows.now) firsts.items) }
{
    let Ok(mut firsts) = filled(alloc, h.most as usize + 1, NOWHERE) else {
        return Err(Memory);
    };
    firsts[0] = 0;
    mark_all(firsts.as_mut_slice(), h, rows);
    Ok(firsts)
}

impl Table {
    /// A table of lines.
    pub(crate) fn new(alloc: Global, header: Header, rows: Vec<AagLine>) -> Result<Table, Memory>
        requires bounded { spec.IsBounded header }
        requires size { length rows.items ≡ spec.rest_from header }
        requires header { row rows.items 0 ≡ Other }
        ensures { IfOk result (λ t. (t.header ≡ header) × (t.rows.items ≡ rows.items)) }
    {
        match read_firsts(alloc, header, rows.as_slice()) {
            Ok(firsts) => Ok(Table {
                header,
                rows,
                firsts,
            }),
            Err(Memory) => Err(Memory),
        }
    }

    /// A line before a place defines a variable.
    pub(crate) fn is_defined(&self, j: u64, v: u64) -> bool
        requires from { 1 ≤ j }
        requires to { j ≤ spec.rest_from self.now.header }
        ensures { result ≡ spec.is_defined self.now.header (row self.now.rows.items) j v }
    {
        self.firsts.get(v as usize).copied().unwrap_or(NOWHERE) < j
    }
}
