//! What a call asks of its files, and which numbers it may give.
ghost use Rattle.std.specs.Prelude.{◌≡◌, ◌<◌, ◌^◌, true};
ghost use Rattle.y86_base.specs.Image.{IsSize};

use hcl_types::Datapath;
use y86_base::Variant;

/// The parameters of `check` apart from its file.
#[derive(Clone, Copy, Debug)]
pub struct CheckQuestion {
    /// The datapath that the file is for.
    pub path: Datapath,
    /// The instruction set.
    pub variant: Variant,
    /// Whether the answer is printed as JSON.
    pub json: bool,
}

/// The parameters of `fault` apart from its file.
#[derive(Clone, Copy, Debug)]
pub struct FaultQuestion {
    /// The datapath that an HCL file is for; without one, the datapath whose names fit best.
    pub path: Option<Datapath>,
    /// The instruction set that a source is assembled for.
    pub variant: Variant,
    /// The bytes of memory.
    pub size: u64,
    /// Whether the faults are printed as JSON.
    pub json: bool,
}

/// The parameters of `program` apart from its file.
#[derive(Clone, Copy, Debug)]
pub struct ProgramQuestion {
    /// The instruction set.
    pub variant: Variant,
    /// The bytes of memory.
    pub size: u64,
    /// The most instructions.
    pub limit: u64,
}

/// The parameters of `run` apart from its files.
#[derive(Clone, Copy, Debug)]
pub struct RunQuestion {
    /// The instruction set.
    pub variant: Variant,
    /// The bytes of memory.
    pub size: u64,
    /// The most cycles.
    pub limit: u64,
    /// Whether the outcome is printed as JSON.
    pub json: bool,
    /// Whether the check is run too.
    pub checked: bool,
}

/// Whether a memory may have this size: a multiple of 8 from 64 to 1,048,576.
pub fn is_size(size: u64) -> bool
    ensures { result ≡ true → IsSize size }
{
    size >= 64 && size <= 1_048_576 && size % 8 == 0
}

/// Whether a run may have this limit of cycles.
pub fn is_limit(limit: u64) -> bool
    ensures { result ≡ true → limit < 2 ^ 63 }
{
    limit >= 1 && limit <= 100_000_000
}
