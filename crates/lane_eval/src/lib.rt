//! The gates of a net at 512 valuations at once, to search many drawn valuations for a false rule. A vector of 512 bits
//! holds the truths of one gate, or of one variable: bit p % 64 of word p / 64 is the truth in place p.
#![tactic(auto)]

mod lanes;
mod places;
mod search;
mod words;

pub use lanes::{Scratch, eval512};
pub use places::{first_false_place, put_place};
pub use search::{Found, copies, first_false};
