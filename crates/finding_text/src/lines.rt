//! Writes the findings of an obligation, in lines.
use crate::cases::{CasePlace, place_of};
use crate::paragraph::put_paragraph;
use crate::told::{put_finding, put_reads};
use crate::values::Values;
use explanations::Obligation;
use findings::Finding;
use hcl_types::NameId;
use std::alloc::{AllocError, Global};

/// The indentation of the lines that follow a finding.
const INDENT: &str = "           ";

/// The same for the text of a case.
const DEEP_INDENT: &str = "               ";

/// Writes what an obligation demands, and why.
pub fn put_obligation(alloc: Global, out: &mut String, o: &Obligation) -> Result<(), AllocError> {
    out.push_str(o.label)?;
    put_paragraph(alloc, out, " demands: ", "", o.demand)?;
    put_paragraph(alloc, out, "Why: ", "", o.reason)?;
    put_paragraph(alloc, out, "See CS:APP 3e, ", "", o.book)
}

/// Writes which case the definition of a signal takes.
fn put_case(
    alloc: Global,
    out: &mut String,
    cases: &[CasePlace<'_>],
    signal: &str,
    case: Option<usize>,
) -> Result<(), AllocError> {
    let Some(number) = case else {
        return Ok(());
    };
    let count = usize::wrapping_add(number, 1);
    write!(out, "{INDENT}It takes case {count} of its definition")?;
    match place_of(cases, signal, number) {
        Some(place) => {
            let line = place.line;
            let column = place.column;
            write!(out, ", at line {line}, column {column}:\n")?;
            put_paragraph(alloc, out, DEEP_INDENT, DEEP_INDENT, place.text)
        }
        None => out.push_str(".\n"),
    }
}

/// Writes the values that the definition of a signal reads.
fn put_values(
    alloc: Global,
    out: &mut String,
    values: &Values<'_>,
    id: NameId,
) -> Result<(), AllocError> {
    let mut read = String::new(alloc);
    put_reads(alloc, &mut read, values, id)?;
    if read.as_str().is_empty() {
        return Ok(());
    }
    let mut said = String::from_str(alloc, "It reads ")?;
    said.push_str(read.as_str())?;
    said.push_str(".")?;
    put_paragraph(alloc, out, INDENT, INDENT, said.as_str())
}

/// Writes the findings on the signals of an obligation.
pub fn put_findings(
    alloc: Global,
    out: &mut String,
    values: &Values<'_>,
    cases: &[CasePlace<'_>],
    all: &[Finding],
) -> Result<(), AllocError> {
    out.push_str("\nThe signals there:\n\n")?;
    for finding in all {
        let id = finding.requirement.signal;
        out.push_str(if finding.is_right {
            "    right  "
        } else {
            "    WRONG  "
        })?;
        let mut said = String::new(alloc);
        put_finding(&mut said, values, finding)?;
        put_paragraph(alloc, out, "", INDENT, said.as_str())?;
        if !finding.is_right {
            put_case(alloc, out, cases, values.name(id), finding.taken_case)?;
            put_values(alloc, out, values, id)?;
        }
    }
    Ok(())
}
