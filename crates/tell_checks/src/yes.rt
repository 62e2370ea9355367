//! What the JSON of an accepted file has for every datapath.
use json::Writer;
use std::alloc::{AllocError, Global};
use y86_base::Variant;

/// Writes the members for an accepted file: the verdict, whether the check covered iaddq, and whether the file names
/// it.
pub fn put_yes_facts(
    out: &mut Writer<Global>,
    variant: Variant,
    is_named: bool,
) -> Result<(), AllocError> {
    out.key("verdict")?;
    out.string("yes")?;
    out.key("full")?;
    out.boolean(variant == Variant::Full)?;
    out.key("names_iaddq")?;
    out.boolean(is_named)
}
