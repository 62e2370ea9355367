//! Sequential datapaths (CS:APP 3e, sections 4.3 and 4.5.1): one instruction in each cycle, for any kind of state
//! between cycles. The crate has the values of their signals, the end of a cycle, and their machines.
#![tactic(auto)]

mod cycle;
mod machine;
mod path;
mod seq;
mod values;

pub use cycle::{AOK, record_of, update};
pub use machine::SequentialMachine;
pub use path::Sequential;
pub use values::{constants_in, solve_in};
