//! The output of verdicts. A `no` has the false obligation and the lines of its valuation; a `yes` has the settings.
#![tactic(auto)]

mod atoms;
mod numbers;
mod pipe;
mod seq;

pub use numbers::ShownField;
pub use pipe::{line_fields, pipe_acceptance, pipe_refusal};
pub use seq::{plus_fields, plus_refusal, previous_fields, seq_fields, seq_refusal};
