//! The gates of all control values of a design, signal by signal along an order.
#![tactic(auto)]

mod filling;

pub use ctl_atoms::CtlFault;
pub use filling::translate;
