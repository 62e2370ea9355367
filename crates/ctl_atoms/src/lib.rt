//! Control values of HCL signals, the static side: which leaves and constants a signal can pick, and which comparisons
//! of leaves its definition leaves open.
//!
//! An example: `word aluA = [ E_icode == IOPQ : E_valA; 1 : 8; ];` can pick two leaves, `E_valA` and 8. `bool F_stall =
//! E_valA == E_valB;` has one open comparison, an atom: the check knows no words, so the atom may be true or false in
//! any situation.
#![tactic(auto)]

mod fault;
mod laws;
mod leaf;
mod leaves;
mod listing;
mod mixing;
mod open_atoms;
mod rows;

pub use fault::CtlFault;
pub use laws::{law_of_atoms, law_of_leaves};
pub use leaf::{Atom, AtomKind, Leaf, atom_at, is_decided_below, position, same_atom, same_leaf};
pub use leaves::is_one;
pub use listing::atoms;
pub use rows::{definitions_before, leaves_by_name};
