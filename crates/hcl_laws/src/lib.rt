//! Theorems on designs: a printed file is read back; a design has an order if no name depends on itself; it has at
//! most one first cycle of names, and at most one list of atoms.
#![tactic(auto)]

mod laws;

pub use laws::{law_of_atoms, law_of_cycles, law_of_orders, law_of_printing};
