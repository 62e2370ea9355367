//! Orders of the bits of PIPE's control valuations in which the diagrams of its formulas are small.
//!
//! An order affects only the time of a check and the length of a certificate: what is decided or certified holds in any
//! order.
#![tactic(auto)]

mod order;
mod rank;

pub use order::{Layout, Weave, order_for};
