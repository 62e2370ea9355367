//! Whether a file names iaddq, which a check without `--full` doesn't cover.
use crate::values::name_of;
use hcl_types::{NameId, Row, Term, put_names};
use std::alloc::{AllocError, Global};
use y86_base::Variant;

/// Whether a definition names the code of iaddq.
pub fn names_iaddq(alloc: Global, rows: &[Row], terms: &[Term]) -> Result<bool, AllocError> {
    let mut names: Vec<NameId> = Vec::new(alloc);
    for term in terms {
        put_names(term, &mut names)?;
    }
    for id in names.as_slice() {
        if name_of(rows, *id) == "IIADDQ" {
            return Ok(true);
        }
    }
    Ok(false)
}

/// Writes that iaddq isn't covered, if the file names it and the check was without `--full`.
pub fn put_unasked(out: &mut String, variant: Variant, is_named: bool) -> Result<(), AllocError> {
    if is_named && variant == Variant::Base {
        out.push_str("\nThe file names IIADDQ, but iaddq wasn't checked. --full checks it too.\n")?;
    }
    Ok(())
}
