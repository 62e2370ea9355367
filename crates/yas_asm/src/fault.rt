//! Why and where a source is refused.
use thiserror::Error;

/// Why a source is refused. If several reasons apply to a line, the assembler reports the first in this order.
#[derive(Clone, Copy, Debug, PartialEq, Eq, Error)]
pub enum AsmWhy {
    /// The line is not well-formed, and has no bad byte.
    #[error("Syntax")]
    Syntax,
    /// A byte that is not a blank and not 0x21 to 0x7e is outside a comment.
    #[error("BadByte")]
    BadByte,
    /// A number, written or a label's value, is out of the bounds of its place: -2^63 to 2^64-1, or
    /// -2^(8w-1) to 2^(8w)-1 in a directive of w bytes.
    #[error("NumberTooWide")]
    NumberTooWide,
    /// The line's label is defined on an earlier line.
    #[error("LabelTwice")]
    LabelTwice,
    /// The line names a label that is defined nowhere.
    #[error("LabelUnknown")]
    LabelUnknown,
    /// The line emits a byte at or past the size, or goes to an address past the size.
    #[error("OutsideMemory")]
    OutsideMemory,
    /// The line emits a byte at an address that already has one.
    #[error("Overlap")]
    Overlap,
    /// The line's label is the 65,536th different one.
    #[error("LabelLimit")]
    LabelLimit,
    /// An allocation was refused.
    #[error("Memory")]
    Memory,
}

/// The first line with a fault, counted from 1, and the reason. If memory runs out, the line is 0.
#[derive(Clone, Copy, Debug, PartialEq, Eq, Error)]
#[error("{line}: {why}")]
pub struct AsmFault {
    pub line: u64,
    pub why: AsmWhy,
}
