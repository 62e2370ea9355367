//! What obligations require of signals, as data, and the findings on the signals at one valuation.
//!
//! A requirement names a signal and what it has to be. A finding says what the file picks for the signal, by which
//! case of its definition, and whether that is right.
//!
//! An example: D holds `addq %rax, %rbx`, so `d_dstE` has to be the number of `%rbx`. A finding says that the file
//! picks `D_rA`, that this is wrong, and that the second case of the definition was taken.
#![tactic(auto)]

mod columns;
mod finding;
mod requirement;

pub use columns::{alu_function, destination_e, fetched_status, register_number, set};
pub use finding::{Finding, findings_of, is_number, leaf_at};
pub use requirement::{Requirement, Wanted, put, put_number, put_some, put_truth, put_word};
