//! Decisions on formulas: which of several gates of a net is the first that is false at some valuation, with the least
//! such valuation. First, a pass over the whole net with bounded diagrams decides nearly every list whose gates are all
//! true. If it doesn't, the valuations are searched part by part, by their first bits: the diagrams of the parts
//! together are far smaller than those of the whole. A part whose diagrams are still large is split again.
#![tactic(auto)]

mod decision;
mod least;
mod net_diagrams;
mod pass;
mod reordered;
mod search;
mod subproblems;

pub use decision::{Counterexample, VariableOrders, decide, decide_in_order};
pub use net_diagrams::each_true;
