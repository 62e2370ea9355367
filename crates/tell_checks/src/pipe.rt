//! `check pipe`: the verdict on a design for PIPE, explained.
ghost use Rattle.std.specs.Prelude.{◌≡◌, ◌≤◌, ◌↔◌, IfErr, IfOk, false, true};
ghost use Rattle.control_check.specs.PipeVerdicts.{RefinesPipe};
ghost use Rattle.dp_signals.specs.PipeTable.{pipe_rows};
ghost use Rattle.ctl_verdicts.specs.ObligationSet.{IsFault};
ghost use Rattle.hcl_types.specs.Tables.{IsBoundDesign};
ghost use Rattle.pipe_refusals.specs.Answered.{is_yes};
ghost use Rattle.tell_checks.specs.Accepted.{BreaksPipe};
ghost use Rattle.tell_checks.specs.Explained.{Answers};

use crate::yes::put_yes_facts;
use control_check::CheckFault;
use finding_text::{ExplainedFile, names_iaddq, put_unasked};
use hcl_types::BoundDesign;
use json::Writer;
use pipe_diagnosis::Refusal;
use pipe_motion::Settings;
use pipe_refusals::{PipeAnswer, diagnose_pipe};
use refusal_text::{put_refusal, put_refusal_json, put_settings, put_settings_json};
use std::alloc::{AllocError, Global};
use tell_faults::{Said, json_text};
use tell_words::CheckQuestion;
use y86_base::Variant;

/// The verdict on a design, and the diagnosis of a refusal.
fn answer_pipe(
    alloc: Global,
    variant: Variant,
    bound: &BoundDesign,
) -> Result<PipeAnswer, CheckFault>
    requires { IsBoundDesign pipe_rows bound.now }
    ensures answer { IfOk result (Answers variant bound.now.ordered.design.terms) }
    ensures undecided { IfErr result (IsFault pipe_rows bound.now.ordered.design.terms) }
{
    diagnose_pipe(alloc, variant, &bound.ordered)
}

/// The output for an accepted file.
fn yes_text(
    alloc: Global,
    asked: CheckQuestion,
    file: &ExplainedFile<'_>,
    settings: &Settings,
) -> Result<Vec<u8>, AllocError> {
    let is_named = names_iaddq(alloc, file.rows, file.terms)?;
    if asked.json {
        let mut out = Writer::new(Vec::new(alloc));
        out.begin_object()?;
        put_yes_facts(&mut out, asked.variant, is_named)?;
        out.key("settings")?;
        put_settings_json(&mut out, settings)?;
        out.end_object()?;
        return json_text(out);
    }
    let mut out = String::new(alloc);
    put_settings(&mut out, settings)?;
    put_unasked(&mut out, asked.variant, is_named)?;
    Ok(out.into_bytes())
}

/// The output for a refusal.
fn no_text(
    alloc: Global,
    asked: CheckQuestion,
    file: &ExplainedFile<'_>,
    refusal: &Refusal,
) -> Result<Vec<u8>, AllocError> {
    if asked.json {
        let mut out = Writer::new(Vec::new(alloc));
        put_refusal_json(alloc, &mut out, asked.variant, file, refusal)?;
        return json_text(out);
    }
    let mut out = String::new(alloc);
    put_refusal(alloc, &mut out, asked.variant, file, refusal)?;
    Ok(out.into_bytes())
}

/// The output for an answer.
fn answer_text(
    alloc: Global,
    asked: CheckQuestion,
    file: &ExplainedFile<'_>,
    answer: &PipeAnswer,
) -> Result<Said, AllocError>
    ensures yes { IfOk result (λ said. (said.status ≡ 0) ↔ (is_yes answer.now ≡ true)) }
    ensures no { IfOk result (λ said. said.status ≡ 1 → is_yes answer.now ≡ false) }
    ensures low { IfOk result (λ said. said.status ≤ 1) }
{
    match answer {
        PipeAnswer::Yes(settings) => Ok(Said {
            status: 0,
            text: yes_text(alloc, asked, file, settings)?,
        }),
        PipeAnswer::No(refusal) => Ok(Said {
            status: 1,
            text: no_text(alloc, asked, file, refusal)?,
        }),
    }
}

/// Explains the verdict on a design for PIPE. If the status is 0, its machine refines the run of instructions on every
/// image whose instructions fetch no byte that one of the three before them stored. If it is 1, the design breaks an
/// obligation.
#[tactic(auto, using(crate::proofs::Accepted::breaks_pipe))]
pub fn explain_pipe(
    alloc: Global,
    asked: CheckQuestion,
    bound: &BoundDesign,
    file: &ExplainedFile<'_>,
) -> Result<Said, CheckFault>
    requires { IsBoundDesign pipe_rows bound.now }
    ensures accepted { IfOk result (λ said. said.status ≡ 0 → RefinesPipe asked.variant bound.now.ordered.design.terms) }
    ensures rejected { IfOk result (λ said. said.status ≡ 1 → BreaksPipe asked.variant bound.now.ordered.design.terms) }
    ensures low { IfOk result (λ said. said.status ≤ 1) }
    ensures undecided { IfErr result (IsFault pipe_rows bound.now.ordered.design.terms) }
{
    let answer = answer_pipe(alloc, asked.variant, bound)?;
    match answer_text(alloc, asked, file, &answer) {
        Ok(said) => Ok(said),
        Err(_) => Err(CheckFault::Memory),
    }
}
