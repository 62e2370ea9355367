//! Gates that say which valuations are legal, at which of these an obligation is demanded, what obligations 23 to 27
//! demand, and what the settings lf, je and rm are.
#![tactic(auto, using(nets::proofs::Truths::begins_more, nets::proofs::Truths::begins_self, crate::proofs::Inputs::variables_stay))]

mod fetch;
mod late;
mod late_settings;
mod legality;
mod motion;
mod premises;

pub use fetch::obligation_25;
pub use late_settings::{Late, late_gates};
pub use motion::{obligation_23, obligation_24, obligation_26, obligation_27};
pub use premises::{is_always_demanded, prediction_premise, premise_gate};
