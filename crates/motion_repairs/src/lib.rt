//! How PIPE's registers move at a valuation, the obligations on motion there, and the changes of stall and bubble
//! signals that meet them.
//!
//! Here the obligations on motion are all that depend on the stall and bubble signals: 10, 11 and 23 to 27.
//! A repair is a change that meets all seven at this valuation: an inverted signal, another choice of `f_pc`, or, if no
//! single change does, two changes together.
#![tactic(auto)]

mod changes;
mod fetch;
mod moves;
mod pairs;

pub use changes::{meets_motion, pc_repairs, signal_repairs, with_inverted};
pub use fetch::{fetched, is_fetch_good};
pub use moves::{next_flow, path, registers_move_well, youngest_stops};
pub use pairs::{Pair, Repairs, repairs_of};
