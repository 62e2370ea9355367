//! The parameters of the calls that run an object file.
use y86_base::Variant;

/// A run of an object file.
#[derive(Clone, Copy, Debug)]
pub struct RunRequest<'a> {
    /// The name of the object file.
    pub object: &'a str,
    /// The size of the memory in bytes.
    pub memory: u64,
    /// The most steps that `yis` does, or the most cycles of a datapath.
    pub limit: u64,
    /// The instruction set.
    pub variant: Variant,
}

/// A run on PIPE under an HCL file: the parameters of `psim`.
#[derive(Clone, Copy, Debug)]
pub struct PipeRequest<'a> {
    /// The name of the HCL file.
    pub hcl: &'a str,
    pub run: RunRequest<'a>,
    /// Whether a line is printed for each instruction that retires.
    pub trace: bool,
    /// Whether the HCL file is checked first, and run only if it is accepted.
    pub checked: bool,
}
