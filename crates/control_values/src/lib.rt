//! Computes the control values of a design at one valuation: what each signal picks there, and which case its
//! definition takes.
#![tactic(auto)]

mod filling;
mod scope;

pub use filling::{Situation, control_values, number_at};
pub use scope::{Scope, holds, taken_case};
