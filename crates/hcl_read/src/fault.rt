//! Why and where an HCL file is refused.
use thiserror::Error;
use y86_base::Memory;

/// Why a text is refused. If several reasons apply at one place, the reader reports the first of `BadByte`, `Syntax`,
/// `NumberTooWide`, `DepthOver64`, `NamesOver256`.
#[derive(Clone, Copy, Debug, PartialEq, Eq, Error)]
pub enum HclWhy {
    /// No file of the grammar has this token, or the end of the text, at the place.
    #[error("Syntax")]
    Syntax,
    /// A byte that is not a blank, not a line feed and not 0x21 to 0x7e is outside comments and quoted texts.
    #[error("BadByte")]
    BadByte,
    /// A number is below -2^63 or above 2^63-1.
    #[error("NumberTooWide")]
    NumberTooWide,
    /// Inside the bracket or `!` at the place, more than 64 of `(`, `[`, `{` and `!` would be open.
    #[error("DepthOver64")]
    DepthOver64,
    /// The name at the place is the 257th different name of the text.
    #[error("NamesOver256")]
    NamesOver256,
    /// An allocation was refused.
    #[error("Memory")]
    Memory,
}

impl From<Memory> for HclWhy {
    ghost use Rattle.std.specs.Prelude.{◌≡◌};
    ghost use Rattle.hcl_read.specs.declared.fault.HclWhy.TheVariants as whys;

    ghost from_gives = { λ _ why. why ≡ whys.Memory };

    fn from(_memory: Memory) -> HclWhy {
        HclWhy::Memory
    }
}

/// The first place where the text is no longer the beginning of a file, and the reason. The place is the first byte of
/// the token or the bad byte, or the end of the text. Its line and column count from 1, the column in bytes; both are 0
/// if memory runs out.
#[derive(Clone, Copy, Debug, PartialEq, Eq, Error)]
#[error("{line}:{col}: {why}")]
pub struct HclFault {
    pub line: u64,
    pub col: u64,
    pub why: HclWhy,
}
