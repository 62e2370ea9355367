//! What the obligations of SEQ and SEQ+ require of each signal at a valuation, as data.
//!
//! Each of the obligations 1 to 16 is met exactly if each of its requirements is (`law_of_requirements`).
//! For example obligation 6 requires `dstE` to be the register that the instruction writes, and none for a move whose condition fails.
#![tactic(auto)]

mod laws;
mod lines;
mod listing;

pub use laws::law_of_requirements;
pub use lines::{LineNow, PreviousNow, line_of, previous_of};
pub use listing::requirements_of;
