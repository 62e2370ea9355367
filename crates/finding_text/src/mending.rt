//! Which obligation to mend first: one whose wrong signals depend on no other's wrong signals.
ghost use Rattle.std.specs.Prelude.{◌≡◌, OnOk};
ghost use Rattle.finding_text.specs.Mending as spec;

use crate::values::Values;
use findings::Finding;
use hcl_types::{NameId, put_names};
use std::alloc::{AllocError, Global};

/// Adds a name, unless it is listed already.
pub fn put_once(out: &mut Vec<NameId>, id: NameId) -> Result<(), AllocError>
    ensures { OnOk result (out.new.items ≡ spec.once out.old.items id) }
{
    if !out.as_slice().contains(&id) {
        out.push(id)?;
    }
    Ok(())
}

/// Adds the signals that aren't right.
pub fn put_wrong(out: &mut Vec<NameId>, findings: &[Finding]) -> Result<(), AllocError>
    ensures { OnOk result (out.new.items ≡ spec.with_wrong out.old.items findings.now) }
{
    for finding in findings {
        if !finding.is_right {
            put_once(out, finding.requirement.signal)?;
        }
    }
    Ok(())
}

/// All signals that the definition of a signal depends on, directly or indirectly.
fn dependencies(alloc: Global, values: &Values<'_>, id: NameId) -> Result<Vec<NameId>, AllocError> {
    let mut found: Vec<NameId> = Vec::new(alloc);
    if let Some(term) = values.term(id) {
        put_names(term, &mut found)?;
    }
    let mut place = 0;
    for _k in 0..values.rows.len() {
        let mut names: Vec<NameId> = Vec::new(alloc);
        for _n in 0..found.len() {
            if let Some(name) = found.get(place).copied() {
                place = place.wrapping_add(1);
                if let Some(term) = values.term(name) {
                    put_names(term, &mut names)?;
                }
            }
        }
        for name in names.as_slice() {
            put_once(&mut found, *name)?;
        }
    }
    Ok(found)
}

/// Whether one of the signals depends on one of the others that isn't among the signals itself.
fn depend(
    alloc: Global,
    values: &Values<'_>,
    signals: &[NameId],
    others: &[NameId],
) -> Result<bool, AllocError> {
    for signal in signals {
        let needed = dependencies(alloc, values, *signal)?;
        for other in others {
            if needed.as_slice().contains(other) && !signals.contains(other) {
                return Ok(true);
            }
        }
    }
    Ok(false)
}

/// Whether one of the signals depends on one in any list that isn't among the signals itself.
fn depend_on_any(
    alloc: Global,
    values: &Values<'_>,
    signals: &[NameId],
    all: &[Vec<NameId>],
) -> Result<bool, AllocError> {
    for others in all {
        if depend(alloc, values, signals, others.as_slice())? {
            return Ok(true);
        }
    }
    Ok(false)
}

/// The place of the first list of signals that depend on no other list's signals, and 0 if there is none.
pub fn first_alone(
    alloc: Global,
    values: &Values<'_>,
    all: &[Vec<NameId>],
) -> Result<usize, AllocError> {
    let mut place = 0;
    for signals in all {
        if !depend_on_any(alloc, values, signals.as_slice(), all)? {
            return Ok(place);
        }
        place = usize::wrapping_add(place, 1);
    }
    Ok(0)
}
