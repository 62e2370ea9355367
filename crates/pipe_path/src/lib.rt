//! The pipelined datapath of CS:APP 3e, section 4.5, under the user's own HCL, one clock cycle at a time.
#![tactic(auto)]

mod laws;
mod pipe;

pub use laws::{law_of_calls, law_of_runs, law_of_solutions};
pub use pipe::{Cycled, Pipe, record_of};
