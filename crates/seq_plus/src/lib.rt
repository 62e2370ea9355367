//! SEQ+, the sequential datapath that computes the PC as a cycle begins, from the values that the previous instruction
//! left (CS:APP 3e, section 4.5.1): its table of signals, its state, its machine and its runs. `seq_check` has
//! what an HCL file for SEQ+ has to meet.
#![tactic(auto)]

mod datapath;
mod laws;
pub mod row;
mod state;
mod table;
mod tables;

pub use datapath::{PLUS_ROWS, Plus};
pub use dp_machines::run;
pub use laws::{law_of_calls, law_of_plus_cycles, law_of_runs, law_of_solutions, law_of_table};
pub use state::{PlusState, PreviousInstruction};
pub use table::plus_table;
pub use tables::table_of;
