//! The assembly language of Y86-64, stated as a language: its tokens, a table of its statements, and the theorem that
//! the assembler reads exactly the lines of the language, each as the statement that it is.
#![tactic(auto)]

mod laws;

pub use laws::{law_of_language, law_of_line_faults};
