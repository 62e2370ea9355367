//! The outputs of an AIGER text at 512 vectors of its inputs, all at once.
#![tactic(auto)]

mod counting;
mod inputs;
mod printing;

pub use counting::counts;
pub use printing::count_outputs;
