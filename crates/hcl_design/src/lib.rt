//! The design of an HCL text over a table of signals, and why a text has none.
#![tactic(auto)]

mod design;

pub use design::{NoDesign, design_of, design_of_file};
