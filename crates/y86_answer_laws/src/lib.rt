//! For given contents of its files, a command has at most one answer. Excepted are `recheck`, and the texts of `aig`
//! and `--cert`.
#![tactic(auto)]

mod laws;

pub use laws::{law_of_calls, law_of_one_answer, law_of_own_certificates};
