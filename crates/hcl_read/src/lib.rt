//! The reader of HCL, the language in which CS:APP 3e (section 4.2 and its HCL guide) describes control logic.
#![tactic(auto)]

mod fault;
mod frames;
mod laws;
mod names;
mod reading;
mod scan;
mod stack;
mod state;
mod steps;
mod tokens;

pub use fault::{HclFault, HclWhy};
pub use frames::{ExprState, Frame, Level, OperandSide};
pub use laws::{law_of_faults, law_of_files, law_of_tokens};
pub use reading::read;
pub use scan::{after_gap, token};
pub use stack::Stack;
pub use state::{ItemState, ReaderState, ended, start, step};
pub use tokens::Token;
