//! The verdict on an HCL file for PIPE: whether a design meets every obligation at every control valuation. Those on
//! files for SEQ and SEQ+ are in `seq_check`.
#![tactic(auto)]

mod accepted;
mod laws;
mod pipe_verdict;
mod variable_orders;
mod verdict;

pub use accepted::{Accepted, accept_pipe};
pub use ctl_verdicts::{CheckFault, FailedRule, check_fault, decide};
pub use laws::law_of_settings;
pub use pipe_verdict::{
    FileRules, check_pipe, decide_pipe, file_rules, file_settings, rules_at_settings, rules_from,
    rules_true,
};
pub use verdict::Verdict;
