//! Which false obligation to mend first.
use crate::scene::scene_of;
use finding_text::{ExplainedFile, first_alone, put_once, put_wrong};
use hcl_types::NameId;
use pipe_diagnosis::{Refusal, Refutation};
use pipe_requirements::FIRST_ON_MOTION;
use std::alloc::{AllocError, Global};
use y86_base::Variant;

/// Whether an obligation depends on motion: O10, O11 and O23 to O27.
pub fn is_motion(rule: u32) -> bool {
    rule == 10 || rule == 11 || rule >= FIRST_ON_MOTION
}

/// The signals that are wrong at a counterexample: those of its findings and, for O23 to O27, those that repairs
/// invert. If O23 to O27 have neither, it is `f_pc`.
pub fn wrong_signals(alloc: Global, refutation: &Refutation) -> Result<Vec<NameId>, AllocError> {
    let mut out: Vec<NameId> = Vec::new(alloc);
    put_wrong(&mut out, refutation.diagnosis.findings.items())?;
    if refutation.rule >= FIRST_ON_MOTION {
        let repairs = &refutation.diagnosis.repairs;
        for signal in repairs.invert.items() {
            put_once(&mut out, *signal)?;
        }
        for pair in repairs.invert_both.items() {
            put_once(&mut out, pair.first)?;
            put_once(&mut out, pair.second)?;
        }
        for pair in repairs.invert_and_f_pc.items() {
            put_once(&mut out, pair.first)?;
        }
        if out.is_empty() {
            out.push(dp_signals::pipe_row::F_PC)?;
        }
    }
    Ok(out)
}

/// The obligation to mend first: the first whose wrong signals depend on no other's.
pub fn first_to_mend<'a>(
    alloc: Global,
    variant: Variant,
    file: &ExplainedFile<'a>,
    refusal: &'a Refusal,
) -> Result<u32, AllocError> {
    let scene = scene_of(variant, file, refusal, &refusal.first);
    let mut all: Vec<Vec<NameId>> = Vec::new(alloc);
    all.push(wrong_signals(alloc, &refusal.first)?)?;
    for other in refusal.others.items() {
        all.push(wrong_signals(alloc, other)?)?;
    }
    let place = first_alone(alloc, &scene.values, all.as_slice())?;
    match refusal.others.items().get(place.wrapping_sub(1)) {
        Some(other) => Ok(other.rule),
        None => Ok(refusal.first.rule),
    }
}
