//! The faults of assembly as data: every faulty line, the place of its fault, and what the grammar requires there.
#![tactic(auto)]

mod lines;
mod parts;
mod reading;
mod stops;

pub use lines::{LineFault, faulty_lines};
pub use parts::{Part, parts_of_directive, parts_of_shape};
pub use stops::{law_of_stops, line_stop};
