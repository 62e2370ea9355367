//! `y86` over any files and sinks: does the command that the arguments name. Its contracts specify whole calls.
#![tactic(auto)]

mod calling;
mod running;

pub use crate::calling::call;
pub use crate::running::run;
