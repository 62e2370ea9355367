//! The verdict on a file for PIPE, with a diagnosis of a refusal.
#![tactic(auto)]

mod answer;

pub use answer::{PipeAnswer, diagnose_pipe};
