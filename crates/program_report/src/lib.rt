//! The report on a program, in sentences: whether the theorem about accepted HCL files covers it, from its object text.
#![tactic(auto)]

mod object;
mod sentences;

pub use object::watch_object;
pub use program_check::{NearFetch, Watched};
pub use sentences::{put_watched, watched_status};
