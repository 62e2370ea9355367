//! A refusal as JSON: the same facts as its page, with the names that PIPE's JSON has.
use crate::scene::{first_to_mend, obligation_of, values_of};
use finding_text::{
    CasePlace, ExplainedFile, Out, Values, put_comparison_facts, put_finding_facts, put_mend_first,
    put_number, put_obligation_facts, put_text,
};
use hcl_types::SequentialDatapath;
use seq_diagnosis::{Refusal, Refutation};
use std::alloc::{AllocError, Global};
use verdict_text::{ShownField, plus_fields, previous_fields, seq_fields};

fn put_line(
    out: &mut Out,
    letter: &str,
    bits: &[bool],
    fields: &[ShownField],
) -> Result<(), AllocError> {
    out.key(letter)?;
    out.begin_object()?;
    for it in fields {
        put_number(out, it.label, it.number(bits))?;
    }
    out.end_object()
}

fn put_situation(
    out: &mut Out,
    which: SequentialDatapath,
    values: &Values<'_>,
) -> Result<(), AllocError> {
    out.key("counterexample")?;
    out.begin_object()?;
    match which {
        SequentialDatapath::Seq => put_line(out, "S", values.bits, seq_fields())?,
        SequentialDatapath::SeqPlus => {
            put_line(out, "P", values.bits, previous_fields())?;
            put_line(out, "S", values.bits, plus_fields())?;
        }
    }
    put_comparison_facts(out, values)?;
    out.end_object()
}

/// Writes an obligation that is false somewhere.
fn put_refutation(
    alloc: Global,
    out: &mut Out,
    which: SequentialDatapath,
    values: &Values<'_>,
    cases: &[CasePlace<'_>],
    refutation: &Refutation,
) -> Result<(), AllocError> {
    out.begin_object()?;
    put_obligation_facts(out, obligation_of(which, refutation.rule))?;
    put_situation(out, which, values)?;
    put_finding_facts(
        alloc,
        out,
        values,
        cases,
        refutation.diagnosis.findings.items(),
    )?;
    out.key("motion")?;
    out.null()?;
    out.end_object()
}

/// The JSON of a refusal of a file for SEQ or SEQ+.
pub fn put_seq_refusal_json<'a>(
    alloc: Global,
    out: &mut Out,
    which: SequentialDatapath,
    file: &ExplainedFile<'a>,
    refusal: &'a Refusal,
) -> Result<(), AllocError> {
    out.begin_object()?;
    put_text(out, "verdict", "no")?;
    out.key("refuted")?;
    out.begin_array()?;
    let values = values_of(which, file, refusal, &refusal.first);
    put_refutation(alloc, out, which, &values, file.cases, &refusal.first)?;
    for other in refusal.others.items() {
        let values = values_of(which, file, refusal, other);
        put_refutation(alloc, out, which, &values, file.cases, other)?;
    }
    out.end_array()?;
    let first = first_to_mend(alloc, &values, refusal)?;
    put_mend_first(out, obligation_of(which, first))?;
    out.end_object()
}
