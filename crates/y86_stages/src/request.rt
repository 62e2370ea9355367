//! The parameters of a call.
use hcl_types::Datapath;
use pipe_stage_text::CycleRange;
use y86_base::Variant;

/// A run of an object file under an HCL file.
#[derive(Clone, Copy, Debug)]
pub struct RunRequest<'a> {
    /// The name of the HCL file.
    pub hcl: &'a str,
    /// The name of the object file.
    pub object: &'a str,
    /// The size of the memory in bytes.
    pub memory: u64,
    /// The most cycles.
    pub limit: u64,
    /// The instruction set.
    pub variant: Variant,
}

/// A run, and what is shown of it.
#[derive(Clone, Copy, Debug)]
pub struct ShowRequest<'a> {
    /// The processor that runs the object file.
    pub processor: Datapath,
    /// The files, and how the object file is run.
    pub run: RunRequest<'a>,
    /// Which cycles are shown.
    pub window: CycleRange,
}
