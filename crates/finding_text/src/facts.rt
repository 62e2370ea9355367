//! Writes the findings of an obligation as JSON, with stable names.
ghost use Rattle.std.specs.Prelude.{◌≡◌, ◌++◌, OnOk};
ghost use Rattle.finding_text.specs.Facts as spec;

use crate::cases::{CasePlace, place_of};
use crate::told::names_read;
use crate::values::Values;
use crate::words::value_name;
use ctl_atoms::{AtomKind, Leaf};
use explanations::Obligation;
use findings::{Finding, Wanted};
use hcl_types::NameId;
use json::Writer;
use std::alloc::{AllocError, Global};

/// The writer of JSON.
pub type Out = Writer<Global>;

/// Writes a member that is a text.
pub fn put_text(out: &mut Out, name: &str, text: &str) -> Result<(), AllocError>
    ensures { OnOk result (out.new.tokens ≡ out.old.tokens ++ spec.text name.now text.now) }
{
    out.key(name)?;
    out.string(text)
}

/// Writes a member that is a number.
pub fn put_number(out: &mut Out, name: &str, n: u64) -> Result<(), AllocError>
    ensures { OnOk result (out.new.tokens ≡ out.old.tokens ++ spec.count name.now n) }
{
    out.key(name)?;
    out.u64(n)
}

/// Writes a member that is a truth.
pub fn put_truth(out: &mut Out, name: &str, truth: bool) -> Result<(), AllocError>
    ensures { OnOk result (out.new.tokens ≡ out.old.tokens ++ spec.truth name.now truth) }
{
    out.key(name)?;
    out.boolean(truth)
}

/// Writes a control value of a signal: `{"name": ..}`, or `{"number": .., "constant": ..}`.
fn put_leaf(out: &mut Out, values: &Values<'_>, id: NameId, leaf: Leaf) -> Result<(), AllocError> {
    out.begin_object()?;
    match leaf {
        Leaf::Name(name) => put_text(out, "name", values.name(name))?,
        Leaf::Number(n) => {
            put_number(out, "number", n)?;
            if let Some(constant) = value_name(values.name(id), n) {
                put_text(out, "constant", constant)?;
            }
        }
    }
    out.end_object()
}

fn put_wanted(
    out: &mut Out,
    values: &Values<'_>,
    id: NameId,
    wanted: Wanted,
) -> Result<(), AllocError> {
    out.key("wanted")?;
    match wanted {
        Wanted::Word(leaf) => put_leaf(out, values, id, leaf),
        Wanted::Truth(true) => put_leaf(out, values, id, Leaf::Number(1)),
        Wanted::Truth(false) => put_leaf(out, values, id, Leaf::Number(0)),
        Wanted::Nothing => out.null(),
    }
}

fn put_case(
    out: &mut Out,
    cases: &[CasePlace<'_>],
    signal: &str,
    case: Option<usize>,
) -> Result<(), AllocError> {
    out.key("case")?;
    let Some(number) = case else {
        return out.null();
    };
    out.begin_object()?;
    put_number(out, "number", usize::wrapping_add(number, 1) as u64)?;
    if let Some(place) = place_of(cases, signal, number) {
        put_number(out, "line", place.line)?;
        put_number(out, "column", place.column)?;
        put_text(out, "text", place.text)?;
    }
    out.end_object()
}

fn put_reads(
    alloc: Global,
    out: &mut Out,
    values: &Values<'_>,
    id: NameId,
) -> Result<(), AllocError> {
    out.key("reads")?;
    out.begin_array()?;
    let names = names_read(alloc, values, id)?;
    for name in names.as_slice() {
        out.begin_object()?;
        put_text(out, "signal", values.name(*name))?;
        out.key("value")?;
        put_leaf(out, values, *name, values.leaf(*name))?;
        out.end_object()?;
    }
    out.end_array()
}

fn put_finding(
    alloc: Global,
    out: &mut Out,
    values: &Values<'_>,
    cases: &[CasePlace<'_>],
    finding: &Finding,
) -> Result<(), AllocError> {
    let id = finding.requirement.signal;
    out.begin_object()?;
    put_text(out, "signal", values.name(id))?;
    put_truth(out, "right", finding.is_right)?;
    out.key("value")?;
    put_leaf(out, values, id, finding.picked)?;
    put_wanted(out, values, id, finding.requirement.wanted)?;
    put_case(out, cases, values.name(id), finding.taken_case)?;
    put_reads(alloc, out, values, id)?;
    out.end_object()
}

/// Writes the findings on the signals of an obligation: the member `signals`.
pub fn put_finding_facts(
    alloc: Global,
    out: &mut Out,
    values: &Values<'_>,
    cases: &[CasePlace<'_>],
    all: &[Finding],
) -> Result<(), AllocError> {
    out.key("signals")?;
    out.begin_array()?;
    for finding in all {
        put_finding(alloc, out, values, cases, finding)?;
    }
    out.end_array()
}

fn put_word(out: &mut Out, values: &Values<'_>, name: &str, leaf: Leaf) -> Result<(), AllocError> {
    match leaf {
        Leaf::Name(id) => put_text(out, name, values.name(id)),
        Leaf::Number(n) => put_number(out, name, n),
    }
}

/// Writes the comparisons of words that the file makes: the member `comparisons`.
pub fn put_comparison_facts(out: &mut Out, values: &Values<'_>) -> Result<(), AllocError> {
    out.key("comparisons")?;
    out.begin_array()?;
    let mut place = values.first;
    for atom in values.atoms {
        out.begin_object()?;
        put_word(out, values, "left", atom.left)?;
        put_text(
            out,
            "sign",
            match atom.kind {
                AtomKind::Lt => "<",
                AtomKind::Eq => "==",
            },
        )?;
        put_word(out, values, "right", atom.right)?;
        put_truth(
            out,
            "holds",
            values.bits.get(place).copied().unwrap_or(false),
        )?;
        place = usize::wrapping_add(place, 1);
        out.end_object()?;
    }
    out.end_array()
}

/// Writes what an obligation demands.
#[tactic(auto, unfolding(crate::specs::Facts::demand_facts))]
fn put_demand(out: &mut Out, o: &Obligation) -> Result<(), AllocError>
    ensures { OnOk result (out.new.tokens ≡ out.old.tokens ++ spec.demand_facts o.now) }
{
    put_text(out, "label", o.label)?;
    put_text(out, "demand", o.demand)
}

/// Writes why.
#[tactic(auto, unfolding(crate::specs::Facts::reason_facts))]
fn put_reason(out: &mut Out, o: &Obligation) -> Result<(), AllocError>
    ensures { OnOk result (out.new.tokens ≡ out.old.tokens ++ spec.reason_facts o.now) }
{
    put_text(out, "reason", o.reason)?;
    put_text(out, "book", o.book)
}

/// Writes an obligation as an object.
#[tactic(auto, unfolding(crate::specs::Facts::obligation))]
fn put_members(out: &mut Out, o: &Obligation) -> Result<(), AllocError>
    ensures { OnOk result (out.new.tokens ≡ out.old.tokens ++ spec.obligation o.now) }
{
    out.begin_object()?;
    put_demand(out, o)?;
    put_reason(out, o)?;
    out.end_object()
}

/// Writes an obligation: the member `obligation`, which is null if there is none.
pub fn put_obligation_facts(out: &mut Out, o: Option<&Obligation>) -> Result<(), AllocError> {
    out.key("obligation")?;
    match o {
        Some(o) => put_members(out, o),
        None => out.null(),
    }
}

/// Writes the label of the obligation to mend first: the member `mend_first`.
pub fn put_mend_first(out: &mut Out, o: Option<&Obligation>) -> Result<(), AllocError> {
    out.key("mend_first")?;
    match o {
        Some(o) => out.string(o.label),
        None => out.null(),
    }
}
