//! Gates for control values: one gate for the truth of a Boolean signal, and picks for any other signal.
//!
//! A pick is a leaf, with the gate that is true exactly if the signal picks it. An example: `word aluA = [ c : E_valA;
//! 1 : E_valC; ];` has two picks, `E_valA` with the gate of `c`, and `E_valC` with the gate of `!c`. So the words
//! themselves stay unknown, and one net says for every situation which word each signal takes.
#![tactic(auto)]

mod controls;
mod laws;
mod picking;

pub use controls::{Controls, Entry, Pick};
pub use ctl_atoms::Leaf;
pub use laws::law_of_picks;
pub use picking::{add, add_all, copy_picks};
