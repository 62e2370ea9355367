//! Decision nodes, and definitions compiled to them.
use hcl_types::{NameId, Term};
use y86_base::Items;

/// A target from here on is a row of the values, counted from here; a smaller one is a node.
pub const ROWS: u32 = 134_217_728;

/// What a node asks of the values. The answer chooses the entry of its jump table.
#[derive(Clone, Copy, Debug, PartialEq, Eq)]
pub enum Ask {
    /// The code in a row: the answer is the code itself if it is below 16, and otherwise 16.
    Code(NameId),
    /// Whether two rows have one value: 0 is yes, 1 is no.
    Same(NameId, NameId),
    /// Whether a term holds: 0 is yes, 1 is no. The number is its place among the terms that nodes evaluate as a whole.
    Holds(u32),
    /// Nothing: the walk ends here with the value of a term, whose place is given in the same way.
    Value(u32),
}

/// A decision node: what it asks, and its jump table, the target to which each answer leads.
#[derive(Clone, Copy, Debug, PartialEq, Eq)]
pub struct Node {
    pub ask: Ask,
    pub next: [u32; 17],
}

/// The compiled definitions of a design. `roots` has the target where the walk of each begins, in table order.
#[derive(Debug, Drop)]
pub struct Compiled {
    /// The words of the first rows, which the nodes were made for.
    pub constants: Items<u64>,
    pub roots: Items<u32>,
    pub nodes: Items<Node>,
    /// The terms that nodes evaluate as a whole.
    pub terms: Items<Term>,
}
