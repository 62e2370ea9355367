//! The syntax tree of an HCL file (CS:APP 3e, section 4.2 and its HCL guide), without positions.
#![tactic(auto)]

mod text;
mod tree;

pub use text::Text;
pub use tree::{Branch, CmpOp, Expr, File, Item, Kind};
