//! The obligations of SEQ+ and their gates, and the verdict on an HCL file for SEQ or SEQ+. By a theorem, the machine
//! of an accepted design runs as the instructions do.
#![tactic(auto)]

mod datapath;
mod fields;
mod laws;
mod rules;
mod verdict;

pub use datapath::{bit_count, first_defined, signals_of, spots_of};
pub use laws::law_of_refinement;
pub use verdict::{SeqVerdict, check_seq, rules_of};
