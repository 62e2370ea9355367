//! What `psim` and `yis` print under an accepted file, for a program that meets the premise by `watch` (`Apart`), or
//! that doesn't write its own code.
#![tactic(auto)]

mod laws;

pub use laws::{law_of_checked_programs, law_of_pure_programs};
