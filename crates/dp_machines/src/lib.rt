//! Clocked machines of any datapath, which do one clock cycle in each call, and their runs up to a limit.
#![tactic(auto)]

mod records;
mod running;

pub use records::{is_aok_stat, record_count};
pub use running::{ClockedMachine, run};
