//! The gates of a term, given those of the signals that it names: the gate of a truth, or the picks of a word.
#![tactic(auto)]

mod entries;
mod scope;
mod terms;

pub use scope::Scope;
