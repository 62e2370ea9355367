//! Runs at the level of instructions, and the report of a run.
#![tactic(auto)]

mod laws;
mod lines;
mod outcome;
mod printer;
mod stepping;

pub use laws::law_of_report;
pub use lines::flag;
pub use outcome::End;
pub use printer::report;
pub use stepping::{Ran, run};
