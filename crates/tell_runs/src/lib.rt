//! The commands `run` and `program` of `y86-tell`: where a run on PIPE differs from the run by instructions, and whether
//! the theorem covers a program.
#![tactic(auto)]

mod programs;
mod running;

pub use programs::report_program;
pub use running::tell_run;
