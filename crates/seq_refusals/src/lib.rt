//! The verdict on a file for SEQ or SEQ+, with a diagnosis of a refusal.
#![tactic(auto)]

mod answer;

pub use answer::{SeqAnswer, diagnose_seq};
