//! PIPE's legal valuations, the 27 obligations and the settings of a file: what an HCL file for the pipeline has to do
//! (CS:APP 3e, sections 4.5.5 to 4.5.8).
#![tactic(auto)]

mod laws;

/// The number of obligations.
pub const RULE_COUNT: u32 = 27;

pub use laws::{law_of_legal_flows, law_of_the_start, law_of_undemanded};
