//! Watches the run of a program: does it fetch a byte that one of the three instructions before had stored? The
//! pipeline's theorem covers only programs that don't.
#![tactic(auto)]

mod apart;
mod laws;
mod recent;
mod watching;

pub use laws::law_of_watching;
pub use recent::NearFetch;
pub use watching::{Watched, watch};
