//! The cycles of SEQ and SEQ+ as text: the signals of each stage, cycle by cycle, and what each cycle writes.
#![tactic(auto)]

mod laws;
mod lines;
mod plus;
mod seq;
mod shown;
mod signals;
mod watching;

pub use laws::{law_of_changes, law_of_sources, law_of_watching};
pub use shown::ShownDatapath;
pub use signals::{Signals, Sources};
pub use watching::watch_sequential;
