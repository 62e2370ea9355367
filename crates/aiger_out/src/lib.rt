//! AIGER in ASCII, without latches: writes the rules of a datapath as a text for other solvers, and reads such a text
//! as a net.
#![tactic(auto)]

mod build;
mod checks;
mod fault;
mod form;
mod graph;
mod laws;
mod lines_out;
mod numbers;
mod reader;
mod rows;
mod table;
mod tail;
mod writer;

pub use fault::{AagError, AagFault, AagWhy};
pub use laws::{law_of_form, law_of_reading_back, law_of_values};
pub use reader::{Aig, read};
pub use writer::write;
