//! Compares a program's run on PIPE with its run by instructions: the first instruction that differs, and whether the
//! theorem on accepted files excludes any difference beforehand. The facts are proved; their sentences and their JSON
//! are tested.
#![tactic(auto)]

mod coverage;
mod json_page;
mod outcome;
mod page;
mod written;

pub use json_page::put_outcome_json;
pub use outcome::{
    Judged, Outcome, OutcomeRequest, is_covered, object_outcome, outcome_status, run_outcome,
};
pub use page::put_outcome;
