//! What the obligations of a datapath demand of single signals, as gates, by the columns of the instruction table.
//!
//! An example: the row of `addq` says that input A of the ALU is valA. So one gate is true if E doesn't hold an `addq`,
//! or if `aluA` picks `E_valA`.
#![tactic(auto, using(nets::proofs::Truths::begins_more, ctl_picks::proofs::Inside::inside_more))]

mod by_row;
mod columns;
mod expected_leaf;
mod rules;

pub use by_row::{RowGates, by_icode};
pub use columns::{
    NextPcInputs, address_leaf, expected_register, function_is, next_is, operand_leaf_a,
    operand_leaf_b, register_is, status_is, word_leaf,
};
pub use expected_leaf::{ExpectedLeaf, is_truth, picks_leaf, picks_leaf_if, picks_some_leaf};
pub use rules::{Rule, Rules};
