//! The other commands on the obligations of a file: `check pipe` with `--cert`, `recheck`, `aig`, `aigrun` and `sample`.
#![tactic(auto)]

mod aig;
mod aigrun;
mod certify;
mod recheck;
mod sample;

pub use crate::aig::aig_file;
pub use crate::aigrun::aigrun_file;
pub use crate::certify::certify_pipe_file;
pub use crate::recheck::recheck_certificate;
pub use crate::sample::{SampleRequest, sample_file};
