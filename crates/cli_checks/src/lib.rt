//! The commands `check seq`, `check seqplus` and `check pipe`.
#![tactic(auto)]

mod check;
mod sequential;

pub use crate::check::{check_pipe_file, check_seq_file};
