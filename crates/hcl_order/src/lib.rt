//! An order in which the signals of a design can be computed, or a shortest cycle of names.
#![tactic(auto)]

mod arrange;
mod cycle;
mod fault;
mod layers;
mod needs;
mod ordering;
mod rows;

pub use fault::OrderFault;
pub use ordering::order;
