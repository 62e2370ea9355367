//! Prints the tree of an HCL file: one item a line, with parentheses only where the grammar needs them.
#![tactic(auto)]

mod printer;

pub use printer::print;
