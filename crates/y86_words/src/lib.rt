//! The command line of `y86`: the forms of the commands, the places and options of each, and which words form which
//! command.
#![tactic(auto)]

mod argument;
mod cmd;
mod form;
mod laws;
mod number;
mod option;

pub use crate::cmd::{Cmd, Usage, words};
pub use crate::laws::law_of_words;
pub use crate::number::number_within;
