//! The gates of signals without a definition: constants, the state and the hardware, and where their numbers stand
//! among the variables.
#![tactic(auto)]

mod given;
mod places;

pub use given::given_entry;
pub use places::Place;
