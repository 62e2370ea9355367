//! What the lines of a certificate make: terms and claims.

/// The definition of a term: a variable, and the terms for its values 0 and 1.
#[derive(Clone, Copy, Debug, PartialEq, Eq)]
pub struct TermDef {
    pub var: u32,
    pub low: u32,
    pub high: u32,
}

/// A claim about terms: that one is the conjunction of two others, or that one is the negation of another.
#[derive(Clone, Copy, Debug, PartialEq, Eq)]
pub enum Claim {
    And { left: u32, right: u32, both: u32 },
    Not { of: u32, not: u32 },
}
