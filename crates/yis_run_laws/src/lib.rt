//! The run of an image at the level of instructions, one instruction after the other: laws by which the proofs of the
//! refinement theorems follow a run.
#![tactic(auto)]

mod laws;

pub use laws::{law_of_records_at, law_of_walks};
