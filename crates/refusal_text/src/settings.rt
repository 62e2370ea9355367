//! The settings of an accepted file, in sentences and as JSON.
ghost use Rattle.std.specs.Prelude.{◌≡◌, ◌++◌, ◌∷◌, OnOk};
ghost use Rattle.json.specs.Token.{key};
ghost use Rattle.refusal_text.specs.Settings as spec;

use finding_text::{Out, put_lines, put_truth};
use pipe_motion::Settings;
use std::alloc::AllocError;

static JUMPS: [&'static str; 7] = ["jmp", "jle", "jl", "je", "jne", "jge", "jg"];

/// Writes the jumps that are predicted as taken.
fn put_jumps(out: &mut String, taken: &[bool]) -> Result<(), AllocError> {
    let mut is_first = true;
    for (k, name) in JUMPS.iter().enumerate() {
        if taken.get(k).copied().unwrap_or(false) {
            out.push_str(if is_first { "" } else { ", " })?;
            is_first = false;
            out.push_str(name)?;
        }
    }
    if is_first {
        out.push_str("none")?;
    }
    Ok(())
}

/// Writes a setting: the first text if it is on, the second if it is off.
fn put_choice(out: &mut String, is_on: bool, on: &str, off: &str) -> Result<(), AllocError> {
    out.push_str("    ")?;
    out.push_str(if is_on { on } else { off })?;
    out.push_str("\n")
}

/// Writes the output for an accepted file: its settings, a line each.
pub fn put_settings(out: &mut String, s: &Settings) -> Result<(), AllocError> {
    out.push_str("yes: all 27 obligations hold.\n\n")?;
    put_lines(
        out,
        "",
        "",
        "This pipeline does what the instructions mean, for every program in which no instruction overwrites one of the next three. Its settings:",
    )?;
    out.push_str("\n    Forward jumps that it predicts as taken: ")?;
    put_jumps(out, &s.pt)?;
    out.push_str(".\n    Backward jumps that it predicts as taken: ")?;
    put_jumps(out, &s.pb)?;
    out.push_str(".\n")?;
    put_choice(
        out,
        s.tv,
        "A jump carries its target through the ALU, so that M_valE is its target.",
        "A jump doesn't always carry its target through the ALU.",
    )?;
    put_choice(
        out,
        s.lf,
        "A word that is just loaded may be forwarded to a store or push after it, without a stall.",
        "A store or push waits for a word that is still being loaded, like any other instruction.",
    )?;
    put_choice(
        out,
        s.je,
        "A mispredicted jump may be repaired while it is in execute: it may then cost only one bubble.",
        "A mispredicted jump is repaired while it is in memory: it costs two bubbles.",
    )?;
    put_choice(
        out,
        s.rm,
        "A return may go on from memory: it may then cost only two bubbles.",
        "A return goes on from write-back: it costs three bubbles.",
    )
}

/// Writes truths as an array.
fn put_truths(out: &mut Out, name: &str, truths: &[bool]) -> Result<(), AllocError>
    ensures { OnOk result (out.new.tokens ≡ out.old.tokens ++ key name.now ∷ spec.truths truths.now) }
{
    out.key(name)?;
    out.begin_array()?;
    for truth in truths {
        out.boolean(*truth)?;
    }
    out.end_array()
}

/// Writes which jumps are predicted as taken, forward and backward.
#[tactic(auto, unfolding(crate::specs::Settings::jumps_facts))]
fn put_jump_facts(out: &mut Out, s: &Settings) -> Result<(), AllocError>
    ensures { OnOk result (out.new.tokens ≡ out.old.tokens ++ spec.jumps_facts s.now) }
{
    put_truths(out, "pt", &s.pt)?;
    put_truths(out, "pb", &s.pb)
}

/// Writes the other settings.
#[tactic(auto, unfolding(crate::specs::Settings::choices_facts))]
fn put_choice_facts(out: &mut Out, s: &Settings) -> Result<(), AllocError>
    ensures { OnOk result (out.new.tokens ≡ out.old.tokens ++ spec.choices_facts s.now) }
{
    put_truth(out, "tv", s.tv)?;
    put_truth(out, "lf", s.lf)?;
    put_truth(out, "je", s.je)?;
    put_truth(out, "rm", s.rm)
}

/// Writes the settings as an object.
#[tactic(auto, unfolding(crate::specs::Settings::settings_facts))]
pub fn put_settings_json(out: &mut Out, s: &Settings) -> Result<(), AllocError>
    ensures { OnOk result (out.new.tokens ≡ out.old.tokens ++ spec.settings_facts s.now) }
{
    out.begin_object()?;
    put_jump_facts(out, s)?;
    put_choice_facts(out, s)?;
    out.end_object()
}
