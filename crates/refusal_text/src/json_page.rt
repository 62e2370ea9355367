//! A refusal as JSON: the same facts as its page, with stable names.
use crate::mending::{first_to_mend, is_motion};
use crate::motion::{Motion, motion_faults, motion_of};
use crate::scene::{Scene, scene_of};
use crate::settings::put_settings_json;
use crate::stages::held_name;
use explanations::obligation_at;
use finding_text::{
    CasePlace, ExplainedFile, Out, put_comparison_facts, put_finding_facts, put_mend_first,
    put_number, put_obligation_facts, put_text, put_truth,
};
use hcl_types::{Datapath, NameId};
use pipe_diagnosis::{Refusal, Refutation};
use pipe_fields::StageLine;
use pipe_requirements::{FlowNow, RegisterControlNow, StageFlowNow};
use std::alloc::{AllocError, Global};
use verdict_text::line_fields;
use y86_base::Variant;

/// Writes the numbers of a line.
fn put_numbers(out: &mut Out, bits: &[bool], line: StageLine) -> Result<(), AllocError> {
    for it in line_fields(line) {
        put_number(out, it.label, it.number(bits))?;
    }
    Ok(())
}

/// Writes the line of a stage with this flow.
fn put_stage(
    out: &mut Out,
    letter: &str,
    stage: &StageFlowNow,
    bits: &[bool],
    line: StageLine,
) -> Result<(), AllocError> {
    out.key(letter)?;
    out.begin_object()?;
    put_text(out, "kind", held_name(stage))?;
    put_numbers(out, bits, line)?;
    out.end_object()
}

fn put_situation(out: &mut Out, scene: &Scene<'_>, y: &FlowNow) -> Result<(), AllocError> {
    let bits = scene.values.bits;
    out.key("counterexample")?;
    out.begin_object()?;
    out.key("F")?;
    out.begin_object()?;
    put_numbers(out, bits, StageLine::F)?;
    out.end_object()?;
    put_stage(out, "D", &y.d, bits, StageLine::D)?;
    put_stage(out, "E", &y.e, bits, StageLine::E)?;
    put_stage(out, "M", &y.m, bits, StageLine::M)?;
    put_stage(out, "W", &y.w, bits, StageLine::W)?;
    put_comparison_facts(out, &scene.values)?;
    out.end_object()
}

fn put_names(
    out: &mut Out,
    scene: &Scene<'_>,
    name: &str,
    ids: &[NameId],
) -> Result<(), AllocError> {
    out.key(name)?;
    out.begin_array()?;
    for id in ids {
        out.string(scene.name(*id))?;
    }
    out.end_array()
}

fn put_register_control(
    out: &mut Out,
    name: &str,
    control: RegisterControlNow,
    next: Option<&StageFlowNow>,
) -> Result<(), AllocError> {
    out.key(name)?;
    out.begin_object()?;
    put_truth(out, "stall", control.stall)?;
    put_truth(out, "bubble", control.bubble)?;
    if let Some(stage) = next {
        put_text(out, "next", held_name(stage))?;
    }
    out.end_object()
}

/// Writes the changes that repair the motion.
fn put_repairs(out: &mut Out, scene: &Scene<'_>) -> Result<(), AllocError> {
    let repairs = &scene.diagnosis.repairs;
    put_names(out, scene, "invert", repairs.invert.items())?;
    put_names(out, scene, "f_pc", repairs.f_pc.items())?;
    out.key("invert_both")?;
    out.begin_array()?;
    for pair in repairs.invert_both.items() {
        out.begin_array()?;
        out.string(scene.name(pair.first))?;
        out.string(scene.name(pair.second))?;
        out.end_array()?;
    }
    out.end_array()?;
    out.key("invert_and_f_pc")?;
    out.begin_array()?;
    for pair in repairs.invert_and_f_pc.items() {
        out.begin_object()?;
        put_text(out, "invert", scene.name(pair.first))?;
        put_text(out, "f_pc", scene.name(pair.second))?;
        out.end_object()?;
    }
    out.end_array()
}

fn put_motion(
    alloc: Global,
    out: &mut Out,
    scene: &Scene<'_>,
    rule: u32,
    m: &Motion,
) -> Result<(), AllocError> {
    out.key("motion")?;
    if !is_motion(rule) {
        return out.null();
    }
    out.begin_object()?;
    put_truth(out, "fetch_is_right", m.is_good)?;
    put_register_control(out, "F", m.controls.f, None)?;
    put_register_control(out, "D", m.controls.d, Some(&m.next.d))?;
    put_register_control(out, "E", m.controls.e, Some(&m.next.e))?;
    put_register_control(out, "M", m.controls.m, Some(&m.next.m))?;
    put_register_control(out, "W", m.controls.w, Some(&m.next.w))?;
    out.key("faults")?;
    out.begin_array()?;
    let faults = motion_faults(alloc, scene, rule, m)?;
    for fault in faults.as_slice() {
        out.string(fault)?;
    }
    out.end_array()?;
    put_repairs(out, scene)?;
    out.end_object()
}

/// Writes an obligation that is false somewhere.
fn put_refutation(
    alloc: Global,
    out: &mut Out,
    scene: &Scene<'_>,
    cases: &[CasePlace<'_>],
    refutation: &Refutation,
) -> Result<(), AllocError> {
    let motion = motion_of(scene);
    out.begin_object()?;
    put_obligation_facts(out, obligation_at(Datapath::Pipe, refutation.rule))?;
    put_situation(out, scene, &motion.view)?;
    put_finding_facts(
        alloc,
        out,
        &scene.values,
        cases,
        scene.diagnosis.findings.items(),
    )?;
    put_motion(alloc, out, scene, refutation.rule, &motion)?;
    out.end_object()
}

/// The JSON of a refusal of a file for PIPE.
pub fn put_refusal_json<'a>(
    alloc: Global,
    out: &mut Out,
    variant: Variant,
    file: &ExplainedFile<'a>,
    refusal: &'a Refusal,
) -> Result<(), AllocError> {
    out.begin_object()?;
    put_text(out, "verdict", "no")?;
    out.key("settings")?;
    put_settings_json(out, &refusal.settings)?;
    out.key("refuted")?;
    out.begin_array()?;
    let scene = scene_of(variant, file, refusal, &refusal.first);
    put_refutation(alloc, out, &scene, file.cases, &refusal.first)?;
    for other in refusal.others.items() {
        let scene = scene_of(variant, file, refusal, other);
        put_refutation(alloc, out, &scene, file.cases, other)?;
    }
    out.end_array()?;
    let first = first_to_mend(alloc, variant, file, refusal)?;
    put_mend_first(out, obligation_at(Datapath::Pipe, first))?;
    out.end_object()
}
