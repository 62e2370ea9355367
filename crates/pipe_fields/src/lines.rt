//! The five lines of a control valuation.

/// One of the five lines of a control valuation: what is fetched, and what each stage holds.
#[derive(Clone, Copy, Debug, PartialEq, Eq)]
pub enum StageLine {
    F,
    D,
    E,
    M,
    W,
}
