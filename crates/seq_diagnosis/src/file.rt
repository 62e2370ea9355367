//! A file for SEQ or SEQ+, with what its obligations depend on.
use hcl_types::{OrderedDesign, SequentialDatapath};
use y86_base::Variant;

/// A file for SEQ or SEQ+, and the instruction set for which it is checked.
#[derive(Clone, Copy)]
pub struct SeqFile<'a> {
    /// The datapath that the file is for.
    pub which: SequentialDatapath,
    /// The instruction set.
    pub variant: Variant,
    /// The definitions of the file, with an order of its signals.
    pub ordered: &'a OrderedDesign,
}
