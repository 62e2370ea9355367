//! The processor whose cycles are shown.
use hcl_types::{OrderedDesign, Row};
use y86_base::Variant;

/// The design of a processor: the signals of its datapath, and what an HCL file defines of them.
#[derive(Clone, Copy)]
pub struct ProcessorDesign<'a> {
    /// The instruction set.
    pub variant: Variant,
    /// The rows of the datapath's table of signals.
    pub rows: &'a [Row],
    /// The definitions of the HCL file, one for each row that a file must define, and an order of the signals in which
    /// each can be computed.
    pub ordered: &'a OrderedDesign,
}
