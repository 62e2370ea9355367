//! The first line before the symbols that has a fault.
ghost use Rattle.std.specs.Prelude.{◌≡◌, ℕ, ◌+◌, ◌-◌, ◌<◌, ◌≤◌, MatchOption, None, Some, nat_lt, length};
ghost use Rattle.aiger_out.specs.Form as spec;
ghost use Rattle.aiger_out.specs.Rows.{IsFine, IsFirstFault, row};
ghost use Rattle.aiger_out.specs.declared.form.AagLine.TheVariants.{And, Input, Output};

use crate::fault::{AagFault, AagWhy};
use crate::form::{AagLine, AndLine, Header};
use crate::rows::{rest_from, row_at};
use crate::table::{Table, may_be_defined};

/// A literal that is over the greatest one.
fn is_over(h: Header, x: u64) -> bool
    requires { spec.IsBounded h }
    ensures { result ≡ nat_lt (spec.greatest_literal h) x }
{
    2 * h.most + 1 < x
}

/// The fault of an AND line at a place.
fn and_fault(t: &Table, j: u64, a: AndLine) -> Option<AagWhy>
    requires from { 1 ≤ j }
    requires to { j < spec.rest_from t.now.header }
    ensures { result ≡ spec.line_fault t.now.header (row t.now.rows.items) j (And a) }
{
    if !may_be_defined(t.header, a.lhs) || is_over(t.header, a.rhs0) || is_over(t.header, a.rhs1) {
        return Some(AagWhy::Literal);
    }
    if t.is_defined(j, a.lhs / 2) {
        return Some(AagWhy::Twice);
    }
    if !t.is_defined(j, a.rhs0 / 2) || !t.is_defined(j, a.rhs1 / 2) {
        return Some(AagWhy::Undefined);
    }
    None
}

/// The fault of an input line at a place.
fn input_fault(t: &Table, j: u64, x: u64) -> Option<AagWhy>
    requires from { 1 ≤ j }
    requires to { j < spec.rest_from t.now.header }
    ensures { result ≡ spec.line_fault t.now.header (row t.now.rows.items) j (Input x) }
{
    if !may_be_defined(t.header, x) {
        return Some(AagWhy::Literal);
    }
    if t.is_defined(j, x / 2) {
        return Some(AagWhy::Twice);
    }
    None
}

/// The fault of an output line. It may come before the line that defines its variable.
fn output_fault(t: &Table, j: u64, x: u64) -> Option<AagWhy>
    requires from { 1 ≤ j }
    requires to { j < spec.rest_from t.now.header }
    ensures { result ≡ spec.line_fault t.now.header (row t.now.rows.items) j (Output x) }
{
    if is_over(t.header, x) {
        return Some(AagWhy::Literal);
    }
    if !t.is_defined(rest_from(t.header), x / 2) {
        return Some(AagWhy::Undefined);
    }
    None
}

/// The fault of the line at a place.
fn line_fault(t: &Table, j: u64) -> Option<AagWhy>
    requires from { 1 ≤ j }
    requires to { j < spec.rest_from t.now.header }
    ensures { result ≡ spec.line_fault t.now.header (row t.now.rows.items) j (row t.now.rows.items j) }
{
    match row_at(t.rows.as_slice(), j) {
        AagLine::Input(x) => input_fault(t, j, x),
        AagLine::Output(x) => output_fault(t, j, x),
        AagLine::And(a) => and_fault(t, j, a),
        AagLine::Other => Some(AagWhy::Syntax),
    }
}

/// The first line after the header and before the symbols that has a fault, with its number.
pub(crate) fn first_fault(t: &Table) -> Option<AagFault>
    ensures { MatchOption result (IsFine t.now.header (row t.now.rows.items) (spec.rest_from t.now.header))
        (λ f. IsFirstFault t.now.header (row t.now.rows.items) f) }
{
    for j in 1..rest_from(t.header) {
        if let Some(why) = line_fault(t, j) {
            return Some(AagFault { line: j + 1, why });
        }
    }
    None
}
