//! The run by instructions and the run of PIPE under a design, side by side: up to the first retired record that
//! differs, or to the end.
#![tactic(auto)]

mod laws;
mod lockstep;
mod records;
mod states;

pub use laws::{law_of_agreement, law_of_equal_ends};
pub use lockstep::{Compared, RecordDiffers, compare};
pub use states::{Part, difference};
