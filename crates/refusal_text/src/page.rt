//! The page of a refusal: all known facts about it, in sentences.
use crate::mending::first_to_mend;
use crate::motion::{Motion, fetch_sentence, motion_faults, motion_of, move_name, stage_flow_name};
use crate::scene::{Scene, scene_of};
use crate::stages::put_stages;
use dp_signals::pipe_row as name;
use explanations::obligation_at;
use finding_text::{
    ExplainedFile, put_comparisons, put_findings, put_leaf, put_obligation, put_paragraph,
    put_wrong_findings,
};
use hcl_types::{Datapath, NameId};
use motion_repairs::Repairs;
use pipe_diagnosis::{Refusal, Refutation};
use pipe_requirements::{FIRST_ON_MOTION, Wanted};
use std::alloc::{AllocError, Global};
use y86_base::Variant;

/// Writes `O10`.
fn put_label(out: &mut String, rule: u32) -> Result<(), AllocError> {
    write!(out, "O{rule}")
}

/// Writes what a register does and holds in the next cycle.
fn put_move(out: &mut String, stage: &str, what: &str, holds: &str) -> Result<(), AllocError> {
    out.push_str("    ")?;
    out.push_str(stage)?;
    out.push_str(" ")?;
    out.push_str(what)?;
    out.push_str(": it has ")?;
    out.push_str(holds)?;
    out.push_str(".\n")
}

/// Writes what `f_pc` picks.
fn put_pc(out: &mut String, scene: &Scene<'_>) -> Result<(), AllocError> {
    out.push_str("f_pc is ")?;
    put_leaf(out, &scene.values, name::F_PC, scene.leaf(name::F_PC))?;
    out.push_str(". ")
}

/// Writes where the fetch goes.
fn put_fetch(
    alloc: Global,
    out: &mut String,
    scene: &Scene<'_>,
    m: &Motion,
) -> Result<(), AllocError> {
    let mut said = String::new(alloc);
    put_pc(&mut said, scene)?;
    said.push_str(fetch_sentence(m))?;
    put_paragraph(alloc, out, "The fetch: ", "           ", said.as_str())
}

/// Writes how the registers move, and what is wrong with that.
fn put_motion(
    alloc: Global,
    out: &mut String,
    scene: &Scene<'_>,
    rule: u32,
    m: &Motion,
) -> Result<(), AllocError> {
    out.push_str("\n")?;
    put_fetch(alloc, out, scene, m)?;
    out.push_str("The next cycle:\n\n    F ")?;
    out.push_str(move_name(m.controls.f))?;
    out.push_str(".\n")?;
    put_move(
        out,
        "D",
        move_name(m.controls.d),
        stage_flow_name(&m.next.d),
    )?;
    put_move(
        out,
        "E",
        move_name(m.controls.e),
        stage_flow_name(&m.next.e),
    )?;
    put_move(
        out,
        "M",
        move_name(m.controls.m),
        stage_flow_name(&m.next.m),
    )?;
    put_move(
        out,
        "W",
        move_name(m.controls.w),
        stage_flow_name(&m.next.w),
    )?;
    let faults = motion_faults(alloc, scene, rule, m)?;
    if !faults.as_slice().is_empty() {
        out.push_str("\n")?;
    }
    for fault in faults.as_slice() {
        put_paragraph(alloc, out, "WRONG: ", "       ", fault)?;
    }
    Ok(())
}

/// Writes names, with `or` before the last.
fn put_choices(out: &mut String, scene: &Scene<'_>, ids: &[NameId]) -> Result<(), AllocError> {
    let mut place = 0;
    for id in ids {
        place = usize::wrapping_add(place, 1);
        if place > 1 {
            out.push_str(if place == ids.len() { " or " } else { ", " })?;
        }
        out.push_str(scene.name(*id))?;
    }
    Ok(())
}

/// Writes a name, and what comes before it.
fn put_change(
    out: &mut String,
    scene: &Scene<'_>,
    before: &str,
    id: NameId,
) -> Result<(), AllocError> {
    out.push_str(before)?;
    out.push_str(scene.name(id))
}

/// Writes the changes each of which by itself repairs the motion.
fn put_single_repairs(
    out: &mut String,
    scene: &Scene<'_>,
    repairs: &Repairs,
) -> Result<(), AllocError> {
    out.push_str(
        "\nA repair: each of these changes alone makes O10, O11 and O23 to O27 hold in this situation.\n",
    )?;
    if !repairs.invert.items().is_empty() {
        out.push_str("    Invert ")?;
        put_choices(out, scene, repairs.invert.items())?;
        out.push_str(".\n")?;
    }
    if !repairs.f_pc.items().is_empty() {
        out.push_str("    Let f_pc be ")?;
        put_choices(out, scene, repairs.f_pc.items())?;
        out.push_str(".\n")?;
    }
    Ok(())
}

/// Writes the pairs of changes that repair the motion together.
fn put_double_repairs(
    out: &mut String,
    scene: &Scene<'_>,
    repairs: &Repairs,
) -> Result<(), AllocError> {
    out.push_str(
        "\nA repair: no single change does it, but each of these pairs makes O10, O11 and O23 to O27 hold\nin this situation.\n",
    )?;
    for pair in repairs.invert_both.items() {
        put_change(out, scene, "    Invert ", pair.first)?;
        put_change(out, scene, " and ", pair.second)?;
        out.push_str(".\n")?;
    }
    for pair in repairs.invert_and_f_pc.items() {
        put_change(out, scene, "    Invert ", pair.first)?;
        put_change(out, scene, ", and let f_pc be ", pair.second)?;
        out.push_str(".\n")?;
    }
    Ok(())
}

/// Writes which changes would repair the motion.
fn put_repairs(out: &mut String, scene: &Scene<'_>) -> Result<(), AllocError> {
    let repairs = &scene.diagnosis.repairs;
    if !repairs.invert.items().is_empty() || !repairs.f_pc.items().is_empty() {
        put_single_repairs(out, scene, repairs)
    } else if !repairs.invert_both.items().is_empty()
        || !repairs.invert_and_f_pc.items().is_empty()
    {
        put_double_repairs(out, scene, repairs)
    } else {
        out.push_str(
            "\nNo single change of a stall, a bubble or f_pc makes O10, O11 and O23 to O27 hold in this\nsituation, and no pair of such changes does.\n",
        )
    }
}

/// Writes which inverted signals would repair the motion: one alone, or two together.
fn put_inverted(out: &mut String, scene: &Scene<'_>, repairs: &Repairs) -> Result<(), AllocError> {
    let single = repairs.invert.items();
    if !single.is_empty() {
        out.push_str("inverting ")?;
        put_choices(out, scene, single)?;
    }
    let mut before = "inverting ";
    for pair in repairs.invert_both.items() {
        put_change(out, scene, before, pair.first)?;
        put_change(out, scene, " and ", pair.second)?;
        before = " or ";
    }
    Ok(())
}

/// Writes which choices of `f_pc` would repair the motion: alone, or with an inverted signal.
fn put_chosen(out: &mut String, scene: &Scene<'_>, repairs: &Repairs) -> Result<(), AllocError> {
    let single = repairs.f_pc.items();
    if !single.is_empty() {
        out.push_str("letting f_pc be ")?;
        put_choices(out, scene, single)?;
    }
    let mut before = "inverting ";
    for pair in repairs.invert_and_f_pc.items() {
        put_change(out, scene, before, pair.first)?;
        put_change(out, scene, " and letting f_pc be ", pair.second)?;
        before = " or inverting ";
    }
    Ok(())
}

/// Writes what would repair the motion, if anything would.
fn put_other_repairs(
    alloc: Global,
    out: &mut String,
    scene: &Scene<'_>,
    repairs: &Repairs,
) -> Result<(), AllocError> {
    let mut inverted = String::new(alloc);
    put_inverted(&mut inverted, scene, repairs)?;
    let mut chosen = String::new(alloc);
    put_chosen(&mut chosen, scene, repairs)?;
    let one = inverted.as_str();
    let other = chosen.as_str();
    match (one.is_empty(), other.is_empty()) {
        (true, true) => Ok(()),
        (false, false) => write!(out, "; {one}, or {other}, would repair it"),
        _ => write!(out, "; {one}{other} would repair it"),
    }
}

/// Writes what would repair the motion at the counterexample of another obligation. If only a choice of `f_pc` does so
/// alone, `f_pc` is wrong.
fn put_other_motion(
    alloc: Global,
    out: &mut String,
    scene: &Scene<'_>,
    repairs: &Repairs,
) -> Result<(), AllocError> {
    let sources = repairs.f_pc.items();
    if repairs.invert.items().is_empty() && !sources.is_empty() {
        put_pc(out, scene)?;
        out.push_str("Letting it be ")?;
        put_choices(out, scene, sources)?;
        return out.push_str(" would repair it.");
    }
    out.push_str("it is about stalls and bubbles")?;
    put_other_repairs(alloc, out, scene, repairs)?;
    out.push_str(".")
}

/// Writes, on one line, what is wrong at the counterexample of another obligation.
fn put_other(
    alloc: Global,
    page: &mut String,
    scene: &Scene<'_>,
    other: &Refutation,
) -> Result<(), AllocError> {
    let mut said = String::new(alloc);
    let out = &mut said;
    put_label(out, other.rule)?;
    out.push_str(": ")?;
    if !put_wrong_findings(out, &scene.values, other.diagnosis.findings.items())? {
        put_other_motion(alloc, out, scene, &other.diagnosis.repairs)?;
    }
    put_paragraph(alloc, page, "    ", "         ", said.as_str())
}

/// Writes the other obligations that are false somewhere, and which to mend first.
fn put_others<'a>(
    alloc: Global,
    out: &mut String,
    variant: Variant,
    file: &ExplainedFile<'a>,
    refusal: &'a Refusal,
) -> Result<(), AllocError> {
    if refusal.others.items().is_empty() {
        return out.push_str("\nAll other obligations hold.\n");
    }
    out.push_str("\nAlso false somewhere, each in a situation of its own:\n\n")?;
    for other in refusal.others.items() {
        let scene = scene_of(variant, file, refusal, other);
        put_other(alloc, out, &scene, other)?;
    }
    let first = first_to_mend(alloc, variant, file, refusal)?;
    out.push_str("\nAll other obligations hold.\nMend ")?;
    put_label(out, first)?;
    out.push_str(
        " first: its wrong signals don't depend on the wrong signals of another obligation.\n",
    )
}

/// Whether stalls and bubbles are to blame: for O23 to O27, and if no value of some signal would be right.
fn moves_wrongly(rule: u32, refutation: &Refutation) -> bool {
    let mut waits = rule >= FIRST_ON_MOTION;
    for finding in refutation.diagnosis.findings.items() {
        if finding.requirement.wanted == Wanted::Nothing {
            waits = true;
        }
    }
    waits
}

/// Writes a refusal of a file for PIPE.
pub fn put_refusal<'a>(
    alloc: Global,
    out: &mut String,
    variant: Variant,
    file: &ExplainedFile<'a>,
    refusal: &'a Refusal,
) -> Result<(), AllocError> {
    let rule = refusal.first.rule;
    let scene = scene_of(variant, file, refusal, &refusal.first);
    let motion = motion_of(&scene);
    out.push_str("no: ")?;
    put_label(out, rule)?;
    out.push_str(" is false somewhere.\n\n")?;
    if let Some(o) = obligation_at(Datapath::Pipe, rule) {
        put_obligation(alloc, out, o)?;
    }
    out.push_str("\nThe smallest counterexample:\n\n")?;
    put_stages(out, &motion.lines, &motion.view)?;
    put_comparisons(out, &scene.values)?;
    if rule < FIRST_ON_MOTION {
        let findings = refusal.first.diagnosis.findings.items();
        put_findings(alloc, out, &scene.values, file.cases, findings)?;
    }
    if moves_wrongly(rule, &refusal.first) {
        put_motion(alloc, out, &scene, rule, &motion)?;
        put_repairs(out, &scene)?;
    }
    put_others(alloc, out, variant, file, refusal)?;
    out.push_str(
        "\nA file that works may be refused, too: perhaps no program reaches this situation.\n",
    )
}
