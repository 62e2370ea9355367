//! Formulas to measure and test diagrams, and the tests. `Wires` builds their nets, and checks that the number of each
//! gate exists.
#![tactic(auto)]

#[cfg(test)]
mod diagrams;
mod formulas;
mod measure;
mod wires;

pub use formulas::{Formula, Sample, formulas_of};
pub use measure::{built, paths};
pub use wires::Wires;
