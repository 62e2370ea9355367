//! The command line of `y86-tell`: its commands, their options, and what a call asks for.
#![tactic(auto)]

mod arguments;
mod questions;

pub use arguments::{Call, call_of};
pub use questions::{
    CheckQuestion, FaultQuestion, ProgramQuestion, RunQuestion, is_limit, is_size,
};
