//! Theorems about generated programs and valuations: how a program runs, and that each drawn valuation is allowed.
#![tactic(auto)]

mod laws;

pub use laws::{law_of_draws, law_of_programs};
