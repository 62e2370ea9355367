//! `check seq` and `check seqplus`: the verdict on a design for SEQ or SEQ+, explained.
ghost use Rattle.std.specs.Prelude.{◌≡◌, ◌≤◌, ◌↔◌, IfErr, IfOk, false, true};
ghost use Rattle.ctl_verdicts.specs.ObligationSet.{IsFault};
ghost use Rattle.hcl_types.specs.Tables.{IsBoundDesign};
ghost use Rattle.seq_plus.specs.Datapaths.{rows_of};
ghost use Rattle.seq_check.specs.Verdicts.{Refines};
ghost use Rattle.seq_refusals.specs.Answered.{is_yes};
ghost use Rattle.tell_checks.specs.Accepted.{BreaksSequential};
ghost use Rattle.tell_checks.specs.Explained.{SeqAnswers};

use crate::yes::put_yes_facts;
use control_check::CheckFault;
use finding_text::{ExplainedFile, names_iaddq, put_unasked};
use hcl_types::{BoundDesign, SequentialDatapath};
use json::Writer;
use seq_diagnosis::Refusal;
use seq_refusal_text::{put_seq_refusal, put_seq_refusal_json, put_seq_yes};
use seq_refusals::{SeqAnswer, diagnose_seq};
use std::alloc::{AllocError, Global};
use tell_faults::{Said, json_text};
use tell_words::CheckQuestion;
use y86_base::Variant;

/// The verdict on a design, and the diagnosis of a refusal.
fn answer_sequential(
    alloc: Global,
    which: SequentialDatapath,
    variant: Variant,
    bound: &BoundDesign,
) -> Result<SeqAnswer, CheckFault>
    requires { IsBoundDesign (rows_of which) bound.now }
    ensures answer { IfOk result (SeqAnswers which variant bound.now.ordered.design.terms) }
    ensures undecided { IfErr result (IsFault (rows_of which) bound.now.ordered.design.terms) }
{
    diagnose_seq(alloc, which, variant, &bound.ordered)
}

/// The output for an accepted file.
fn yes_text(
    alloc: Global,
    which: SequentialDatapath,
    asked: CheckQuestion,
    file: &ExplainedFile<'_>,
) -> Result<Vec<u8>, AllocError> {
    let is_named = names_iaddq(alloc, file.rows, file.terms)?;
    if asked.json {
        let mut out = Writer::new(Vec::new(alloc));
        out.begin_object()?;
        put_yes_facts(&mut out, asked.variant, is_named)?;
        out.end_object()?;
        return json_text(out);
    }
    let mut out = String::new(alloc);
    put_seq_yes(&mut out, which)?;
    put_unasked(&mut out, asked.variant, is_named)?;
    Ok(out.into_bytes())
}

/// The output for a refusal.
fn no_text(
    alloc: Global,
    which: SequentialDatapath,
    asked: CheckQuestion,
    file: &ExplainedFile<'_>,
    refusal: &Refusal,
) -> Result<Vec<u8>, AllocError> {
    if asked.json {
        let mut out = Writer::new(Vec::new(alloc));
        put_seq_refusal_json(alloc, &mut out, which, file, refusal)?;
        return json_text(out);
    }
    let mut out = String::new(alloc);
    put_seq_refusal(alloc, &mut out, which, file, refusal)?;
    Ok(out.into_bytes())
}

/// The output for an answer.
fn answer_text(
    alloc: Global,
    which: SequentialDatapath,
    asked: CheckQuestion,
    file: &ExplainedFile<'_>,
    answer: &SeqAnswer,
) -> Result<Said, AllocError>
    ensures yes { IfOk result (λ said. (said.status ≡ 0) ↔ (is_yes answer.now ≡ true)) }
    ensures no { IfOk result (λ said. said.status ≡ 1 → is_yes answer.now ≡ false) }
    ensures low { IfOk result (λ said. said.status ≤ 1) }
{
    match answer {
        SeqAnswer::Yes => Ok(Said {
            status: 0,
            text: yes_text(alloc, which, asked, file)?,
        }),
        SeqAnswer::No(refusal) => Ok(Said {
            status: 1,
            text: no_text(alloc, which, asked, file, refusal)?,
        }),
    }
}

/// Explains the verdict on a design for SEQ or SEQ+. If the status is 0, its machine runs as the instructions do, on every
/// image. If it is 1, the design breaks an obligation.
#[tactic(auto, using(crate::proofs::Accepted::breaks_sequential))]
pub fn explain_sequential(
    alloc: Global,
    which: SequentialDatapath,
    asked: CheckQuestion,
    bound: &BoundDesign,
    file: &ExplainedFile<'_>,
) -> Result<Said, CheckFault>
    requires { IsBoundDesign (rows_of which) bound.now }
    ensures accepted { IfOk result (λ said. said.status ≡ 0 → Refines which asked.variant bound.now.ordered.design.terms) }
    ensures rejected { IfOk result (λ said. said.status ≡ 1 → BreaksSequential which asked.variant bound.now.ordered.design.terms) }
    ensures low { IfOk result (λ said. said.status ≤ 1) }
    ensures undecided { IfErr result (IsFault (rows_of which) bound.now.ordered.design.terms) }
{
    let answer = answer_sequential(alloc, which, asked.variant, bound)?;
    match answer_text(alloc, which, asked, file, &answer) {
        Ok(said) => Ok(said),
        Err(_) => Err(CheckFault::Memory),
    }
}
