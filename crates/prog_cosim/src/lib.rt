//! Runs of PIPE to their end or to a limit, and a generated program run both ways: by the instructions and on PIPE.
#![tactic(auto)]

mod both;
mod laws;
mod reports;

pub use both::{CosimResult, cosimulate};
pub use laws::{law_of_cosimulation, law_of_ends};
pub use reports::same_reports;
