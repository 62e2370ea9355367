//! A diagnosis of one counterexample: an obligation of SEQ or SEQ+, and a valuation at which it is false.
//!
//! It says for each signal what the obligation requires and what the file picks. At least one signal is wrong.
#![tactic(auto)]

mod diagnosis;
mod file;
mod refusal;

pub use diagnosis::{Diagnosis, diagnose};
pub use file::SeqFile;
pub use refusal::{Refusal, Refutation};
