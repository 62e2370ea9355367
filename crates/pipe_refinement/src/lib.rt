//! The pipeline refines the run of instructions: if a design meets the obligations, its pipelined machine computes
//! what the instructions compute, for every image whose instructions fetch nothing that one of the three before them
//! stored.
#![tactic(auto)]

mod laws;

pub use laws::{law_of_motion, law_of_refinement};
