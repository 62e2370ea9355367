//! The sequential datapath of CS:APP 3e, section 4.3, under the user's own HCL, one clock cycle at a time.
#![tactic(auto)]

mod laws;

pub use dp_machines::run;
use dp_sequential::SequentialMachine;
use dp_signals::{SEQ_ROWS, SeqState};
pub use laws::{law_of_calls, law_of_equations, law_of_runs, law_of_seq_cycles, law_of_solutions};

/// A machine of SEQ.
pub type Seq<C> = SequentialMachine<SeqState, C, SEQ_ROWS>;
