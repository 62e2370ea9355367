//! The page of a refusal, in sentences.
use crate::instruction::put_instructions;
use crate::scene::{before, first_to_mend, obligation_of, values_of};
use finding_text::{
    ExplainedFile, Values, put_comparisons, put_findings, put_obligation, put_paragraph,
    put_wrong_findings,
};
use hcl_types::SequentialDatapath;
use seq_diagnosis::{Refusal, Refutation};
use seq_requirements::line_of;
use std::alloc::{AllocError, Global};

/// Writes, on one line, what is wrong at the counterexample of another obligation.
fn put_other(
    alloc: Global,
    page: &mut String,
    values: &Values<'_>,
    other: &Refutation,
) -> Result<(), AllocError> {
    let rule = other.rule;
    let mut said = String::new(alloc);
    let out = &mut said;
    write!(out, "S{rule}: ")?;
    put_wrong_findings(out, values, other.diagnosis.findings.items())?;
    put_paragraph(alloc, page, "    ", "         ", said.as_str())
}

/// Writes the other obligations that are false somewhere, and which to mend first.
fn put_others<'a>(
    alloc: Global,
    out: &mut String,
    which: SequentialDatapath,
    file: &ExplainedFile<'a>,
    refusal: &'a Refusal,
) -> Result<(), AllocError> {
    if refusal.others.items().is_empty() {
        return out.push_str("\nAll other obligations hold.\n");
    }
    out.push_str("\nAlso false somewhere, each in a situation of its own:\n\n")?;
    for other in refusal.others.items() {
        let values = values_of(which, file, refusal, other);
        put_other(alloc, out, &values, other)?;
    }
    let values = values_of(which, file, refusal, &refusal.first);
    let first = first_to_mend(alloc, &values, refusal)?;
    write!(
        out,
        "\nAll other obligations hold.\nMend S{first} first: its wrong signals don't depend on the wrong signals of another obligation.\n"
    )
}

/// Writes a refusal of a file for SEQ or SEQ+.
pub fn put_seq_refusal<'a>(
    alloc: Global,
    out: &mut String,
    which: SequentialDatapath,
    file: &ExplainedFile<'a>,
    refusal: &'a Refusal,
) -> Result<(), AllocError> {
    let rule = refusal.first.rule;
    let values = values_of(which, file, refusal, &refusal.first);
    write!(out, "no: S{rule} is false somewhere.\n\n")?;
    if let Some(o) = obligation_of(which, rule) {
        put_obligation(alloc, out, o)?;
    }
    out.push_str("\nThe smallest counterexample:\n\n")?;
    put_instructions(
        out,
        before(which, values.bits),
        &line_of(which, values.bits),
    )?;
    put_comparisons(out, &values)?;
    put_findings(
        alloc,
        out,
        &values,
        file.cases,
        refusal.first.diagnosis.findings.items(),
    )?;
    put_others(alloc, out, which, file, refusal)?;
    out.push_str(
        "\nA file that works may be refused, too: perhaps no program reaches this situation.\n",
    )
}
