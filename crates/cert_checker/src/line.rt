//! The lines of a certificate between the first two and the last.

/// A line of a certificate, with its numbers as they are written: those of variables, of terms and of claims.
#[derive(Clone, Copy)]
pub enum CertLine {
    /// Makes the next term: `low` if the variable is 0, and `high` if it is 1.
    Term {
        var: u64,
        low: u64,
        high: u64,
    },
    /// Makes the next claim: `left` and `right` is `both`.
    And {
        left: u64,
        right: u64,
        both: u64,
    },
    /// The same, by claims on both cases of a variable.
    AndCases {
        left: u64,
        right: u64,
        both: u64,
        var: u64,
        low: u64,
        high: u64,
    },
    /// Makes the next claim: the negation of `of` is `not`.
    Not {
        of: u64,
        not: u64,
    },
    /// The same, by claims on both cases of a variable.
    NotCases {
        of: u64,
        not: u64,
        var: u64,
        low: u64,
        high: u64,
    },
    /// The next gate of the net has the value of a term.
    Gate {
        term: u64,
    },
    /// The same, by a claim.
    GateBy {
        term: u64,
        claim: u64,
    },
}

/// The kinds of lines. Each has a letter of its own.
#[derive(Clone, Copy, Debug, PartialEq, Eq)]
pub enum LineKind {
    Term,
    And,
    AndCases,
    Not,
    NotCases,
    Gate,
    GateBy,
}
