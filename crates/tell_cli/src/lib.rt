//! The program `y86-tell`, apart from its connection to the system: it explains, in sentences or as JSON, the answers
//! of `y86`.
//!
//! `show` is here. The other commands are in `tell_faults`, `tell_checks` and `tell_runs`, which are proved beside one
//! another.
#![tactic(auto)]

mod answering;
mod showing;

pub use answering::respond;
