//! The trace of the pipelined machine: a line for each record that retires, and the loop that drives a machine to its end.
#![tactic(auto)]

mod driving;
mod trace_line;

pub use driving::{Drove, drive};
pub use trace_line::line;
