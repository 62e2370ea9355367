//! The equations of control values: what each signal of a design is where words stay names. The equations of a design
//! with an order have one solution, and it agrees with the values of a real cycle.
#![tactic(auto)]

mod laws;

pub use laws::{law_of_agreement, law_of_controls};
