//! A diagnosis of one counterexample: an obligation of PIPE, and a valuation at which it is false.
//!
//! For obligations 1 to 22 it says, for each signal, what the obligation requires and what the file picks. At least one
//! signal is wrong. It also says which changes of stall and bubble signals and of `f_pc` meet obligations 10, 11 and 23 to
//! 27.
#![tactic(auto)]

mod diagnosis;
mod file;
mod refusal;

pub use diagnosis::{Diagnosis, diagnose, register_controls_at};
pub use file::PipeFile;
pub use findings::Finding;
pub use refusal::{Refusal, Refutation};
