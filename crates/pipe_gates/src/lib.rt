//! Gates that the rules of PIPE share: tests of its fields and of the rows of their icodes, the flow of its stages, and
//! the stall and bubble signals; and what the gates of an obligation are made from.
#![tactic(auto, using(nets::proofs::Truths::begins_more, nets::proofs::Truths::begins_self))]

mod columns;
mod fields;
mod inputs;
mod register_controls;
mod stages;

pub use columns::{RowTest, row_passes};
pub use fields::{listed, row_has};
pub use inputs::RuleInputs;
pub use register_controls::{none_leaves, register_controls_of};
pub use stages::{flow_gates, jump};
