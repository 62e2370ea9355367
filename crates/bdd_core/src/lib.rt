//! Reduced ordered decision diagrams (Bryant, Graph-based algorithms for Boolean function manipulation, 1986): the
//! formulas of a net as diagrams. Two diagrams are the same exactly if their formulas have the same truths.
//!
//! An example: the diagram of `a && b`, where `a` is decided first, is a node of `a`. Its low diagram, where `a` is 0,
//! is false; its high one is a node of `b`, with false below it where `b` is 0, and true where `b` is 1.
#![tactic(auto)]

mod apply;
mod build;
mod cone;
mod growing;
mod meaning;
mod nodes;
mod results;
mod store;
mod table;

pub use growing::GateDiagrams;
pub use store::{Dia, Node, Store};
