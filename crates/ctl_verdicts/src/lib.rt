//! The verdict on a design: the first of its rules that is false at some valuation, with the least such valuation.
#![tactic(auto)]

mod decision;
mod fault;

pub use decision::{FailedRule, decide, decide_in_order};
pub use fault::{CheckFault, check_fault};
