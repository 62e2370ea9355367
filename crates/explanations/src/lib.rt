//! What `y86-tell` prints about obligations, signals, instructions and kinds of faults, as data.
#![tactic(auto)]

mod faults;
mod instructions;
mod obligations;
mod signals;

pub use faults::{FaultKind, fault_kinds};
pub use instructions::instruction_meaning;
pub use obligations::{Obligation, obligation_at, obligation_count};
pub use signals::{GROUP_COUNT, Signal, Staged, signal_group, signal_named};
