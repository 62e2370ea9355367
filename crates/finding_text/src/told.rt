//! Writes what each signal of an obligation picks, and what is required.
use crate::values::Values;
use crate::words::put_value;
use ctl_atoms::{AtomKind, Leaf};
use findings::{Finding, Wanted};
use hcl_types::{NameId, Role, put_names};
use std::alloc::{AllocError, Global};

/// Writes a control value of a signal.
pub fn put_leaf(
    out: &mut String,
    values: &Values<'_>,
    id: NameId,
    leaf: Leaf,
) -> Result<(), AllocError> {
    match leaf {
        Leaf::Name(name) => out.push_str(values.name(name)),
        Leaf::Number(n) => put_value(out, values.name(id), n),
    }
}

/// Writes what a signal picks and what is required, as a sentence.
pub fn put_finding(
    out: &mut String,
    values: &Values<'_>,
    finding: &Finding,
) -> Result<(), AllocError> {
    let id = finding.requirement.signal;
    out.push_str(values.name(id))?;
    out.push_str(" is ")?;
    put_leaf(out, values, id, finding.picked)?;
    if finding.is_right {
        return out.push_str(", as it has to be.");
    }
    match finding.requirement.wanted {
        Wanted::Word(leaf) => {
            out.push_str(". It has to be ")?;
            put_leaf(out, values, id, leaf)?;
            out.push_str(".")
        }
        Wanted::Truth(true) => out.push_str(". It has to be 1."),
        Wanted::Truth(false) => out.push_str(". It has to be 0."),
        Wanted::Nothing => out.push_str(
            ". No value is right here: E is still loading that register, so the instruction has to wait in D.",
        ),
    }
}

/// Writes the findings that aren't right, with a blank between two, and returns whether there are any.
pub fn put_wrong_findings(
    out: &mut String,
    values: &Values<'_>,
    findings: &[Finding],
) -> Result<bool, AllocError> {
    let mut is_first = true;
    for finding in findings {
        if !finding.is_right {
            out.push_str(if is_first { "" } else { " " })?;
            is_first = false;
            put_finding(out, values, finding)?;
        }
    }
    Ok(!is_first)
}

/// Whether the value of a name is worth printing. Constants aren't, nor words that stand for themselves.
fn is_told(values: &Values<'_>, id: NameId) -> bool {
    match values.rows.get(id as usize) {
        Some(row) => match &row.role {
            Role::Constant(_) => return false,
            _ => {}
        },
        None => return false,
    }
    match values.leaf(id) {
        Leaf::Name(name) => name != id,
        Leaf::Number(_) => true,
    }
}

/// The names in the definition of a signal whose values are worth printing, each once.
pub fn names_read(
    alloc: Global,
    values: &Values<'_>,
    id: NameId,
) -> Result<Vec<NameId>, AllocError> {
    let mut all: Vec<NameId> = Vec::new(alloc);
    if let Some(term) = values.term(id) {
        put_names(term, &mut all)?;
    }
    let mut once: Vec<NameId> = Vec::new(alloc);
    for name in all.as_slice() {
        if is_told(values, *name) && !once.as_slice().contains(name) {
            once.push(*name)?;
        }
    }
    Ok(once)
}

/// Writes the values of the names in the definition of a signal.
pub fn put_reads(
    alloc: Global,
    out: &mut String,
    values: &Values<'_>,
    id: NameId,
) -> Result<(), AllocError> {
    let names = names_read(alloc, values, id)?;
    let mut is_first = true;
    for name in names.as_slice() {
        out.push_str(if is_first { "" } else { ", " })?;
        is_first = false;
        out.push_str(values.name(*name))?;
        out.push_str(" = ")?;
        put_leaf(out, values, *name, values.leaf(*name))?;
    }
    Ok(())
}

/// Writes the comparisons of words that the file makes, with their truths.
pub fn put_comparisons(out: &mut String, values: &Values<'_>) -> Result<(), AllocError> {
    let mut place = values.first;
    for atom in values.atoms {
        let holds = values.bits.get(place).copied().unwrap_or(false);
        place = place.wrapping_add(1);
        out.push_str("    ")?;
        put_word(out, values, atom.left)?;
        out.push_str(match (atom.kind, holds) {
            (AtomKind::Lt, true) => " is below ",
            (AtomKind::Lt, false) => " isn't below ",
            (AtomKind::Eq, true) => " equals ",
            (AtomKind::Eq, false) => " doesn't equal ",
        })?;
        put_word(out, values, atom.right)?;
        out.push_str("\n")?;
    }
    Ok(())
}

/// Writes a word that is compared.
fn put_word(out: &mut String, values: &Values<'_>, leaf: Leaf) -> Result<(), AllocError> {
    match leaf {
        Leaf::Name(name) => out.push_str(values.name(name)),
        Leaf::Number(n) => write!(out, "{n}"),
    }
}
