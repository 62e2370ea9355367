//! Theorems about whole calls of `y86`: what all answers have in common, which answers are a function of the files'
//! contents, and what an accepted file means for runs.
#![tactic(auto)]

mod laws;

pub use laws::{law_of_accepted_files, law_of_answers, law_of_big, law_of_plans};
