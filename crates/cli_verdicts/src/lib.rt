//! The verdict on a design for PIPE as a text, for all commands that print it, and the stop at a design without
//! control values.
#![tactic(auto)]

mod verdict;

pub use crate::verdict::{
    PipeDecision, PipeVerdictText, control_stop, pipe_decision, pipe_verdict,
};
