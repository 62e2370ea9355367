//! The errors of an AIGER text.

/// Why a text doesn't have the form. If a line has several errors, the first one in this order is reported.
#[derive(Clone, Copy, Debug, PartialEq, Eq)]
pub enum AagWhy {
    /// A line doesn't have the form that is required at its place, or the text ends before it.
    Syntax,
    /// The header has latches.
    Latches,
    /// More variables or outputs than the limit, or more inputs and ANDs than variables.
    TooMany,
    /// A literal is over 2M+1, or can't define a variable: it is odd, or under 2.
    Literal,
    /// A variable is defined a second time.
    Twice,
    /// An operand isn't defined before its line, or an output isn't defined at all.
    Undefined,
}

/// The first line with a fault, counted from 1, and its first fault.
#[derive(Clone, Copy, Debug, PartialEq, Eq)]
pub struct AagFault {
    pub line: u64,
    pub why: AagWhy,
}

/// Why a text can't be read.
#[derive(Clone, Copy, Debug, PartialEq, Eq)]
pub enum AagError {
    Fault(AagFault),
    Memory,
}
