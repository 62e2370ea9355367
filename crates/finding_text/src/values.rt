//! The names of a table, their definitions, and their values at a counterexample.
use ctl_atoms::{Atom, Leaf};
use hcl_types::{NameId, Row, Term};

/// A file and the values of its names at a valuation.
#[derive(Clone, Copy)]
pub struct Values<'a> {
    pub rows: &'a [Row],
    /// The definitions of the rows from `defined` on.
    pub terms: &'a [Term],
    pub defined: NameId,
    /// The comparisons of words. Their truths are the bits from `first` on.
    pub atoms: &'a [Atom],
    pub first: usize,
    pub bits: &'a [bool],
    /// The control value of each row.
    pub leaves: &'a [Leaf],
}

/// The name of a row.
pub fn name_of<'a>(rows: &'a [Row], id: NameId) -> &'a str {
    match rows.get(id as usize) {
        Some(row) => std::str::from_utf8(row.name.bytes()).unwrap_or("?"),
        None => "?",
    }
}

impl<'a> Values<'a> {
    /// The name of a row.
    pub fn name(&self, id: NameId) -> &'a str {
        name_of(self.rows, id)
    }

    /// The control value of a row.
    pub fn leaf(&self, id: NameId) -> Leaf {
        match self.leaves.get(id as usize) {
            Some(leaf) => *leaf,
            None => Leaf::Number(0),
        }
    }

    /// The definition of a signal.
    pub fn term(&self, id: NameId) -> Option<&'a Term> {
        if id < self.defined {
            return None;
        }
        self.terms.get((id - self.defined) as usize)
    }
}
