//! A file for PIPE, with all that its obligations depend on.
use hcl_types::OrderedDesign;
use pipe_motion::Settings;
use y86_base::Variant;

/// A file for PIPE, the instruction set that it has to implement, and the file's settings.
#[derive(Clone, Copy)]
pub struct PipeFile<'a> {
    /// The instruction set.
    pub variant: Variant,
    /// The definitions of the file, with an order of its signals.
    pub ordered: &'a OrderedDesign,
    /// Its settings, which the check finds: its obligations depend on them.
    pub settings: &'a Settings,
}
