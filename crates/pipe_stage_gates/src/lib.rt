//! Gates of obligations 1 to 22: what is demanded of the signals of each stage (CS:APP 3e, sections 4.5.5 to 4.5.8),
//! and that jumps carry their target.
#![tactic(auto, using(nets::proofs::Truths::begins_more, nets::proofs::Truths::begins_self))]

mod execute;
mod front;
mod memory;
mod row_rules;
mod sources;

pub use execute::{
    demand_in_e, obligation_14, obligation_15, obligation_16, obligation_17, target_gate,
};
pub use front::{FrontRule, decode_rule_gate, fetch_rule_gate, obligation_1, obligation_5};
pub use memory::{obligation_18, obligation_19, obligation_20, obligation_21, obligation_22};
pub use row_rules::RowRule;
pub use sources::{obligation_10, obligation_11};
