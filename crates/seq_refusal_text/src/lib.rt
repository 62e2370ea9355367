//! The verdict on a file for SEQ or SEQ+, in sentences and as JSON, with all known facts about a refusal.
//!
//! The facts come from `seq_refusals`: the counterexample, the findings, the false obligations. This crate writes them
//! down. That it writes the right ones is tested, not proved.
#![tactic(auto)]

mod instruction;
mod json_page;
mod page;
mod scene;
mod yes;

pub use json_page::put_seq_refusal_json;
pub use page::put_seq_refusal;
pub use yes::put_seq_yes;
