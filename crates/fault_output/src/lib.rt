//! Writes a report of faults as lines of text, and as JSON with stable names.
#![tactic(auto)]

mod json;
mod text;

pub use json::report_json;
pub use text::report_text;
