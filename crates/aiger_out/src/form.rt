//! The contents of the lines of an AIGER text.

/// The numbers of a header: the largest variable, and how many inputs, latches, outputs and ANDs there are.
#[derive(Clone, Copy)]
pub struct Header {
    pub most: u64,
    pub inputs: u64,
    pub latches: u64,
    pub outputs: u64,
    pub ands: u64,
}

/// The literals of an AND line: its variable, and the operands.
#[derive(Clone, Copy)]
pub struct AndLine {
    pub lhs: u64,
    pub rhs0: u64,
    pub rhs1: u64,
}

/// A line of a text. `Other` is any other line: one without the form that is required at its place, the header, or a
/// line after the ANDs.
#[derive(Clone, Copy)]
pub enum AagLine {
    Input(u64),
    Output(u64),
    And(AndLine),
    Other,
}
