//! Nets of gates: formulas over numbered variables that share their parts, and their truth under a valuation.
//!
//! A net is an and-inverter graph with constants (CS:APP 3e, section 4.2.2, combinational circuits): each gate comes
//! after the gates that it reads, so a net has no cycle.
//!
//! A net can be copied with constants or other variables in place of its variables: the diagrams of a copy may be far
//! smaller than those of the net, and each of its valuations gives one of the net.
//!
//! An example: `a && !b`, where `a` is variable 0 and `b` variable 1, is four gates: 0 is `Var(0)`, 1 is `Var(1)`, 2 is
//! `Not(1)`, and 3 is `And(0, 2)`.
#![tactic(auto, using(crate::proofs::Truths::begins_more, crate::proofs::Truths::begins_self))]

mod builder;
mod connectives;
mod copies;
mod evaluation;
mod implied;
mod net;
mod parts;
mod variables;

pub use builder::NetBuilder;
pub use connectives::{choose, excludes, implies, neither, without};
pub use copies::{Replacement, SubstitutedNet, substitute};
pub use evaluation::{Valuation, eval};
pub use implied::forced;
pub use net::{Gate, Net};
pub use parts::cofactor;
pub use variables::all_variables;
