//! Programs that fetch nothing that they stored, or nothing that they have just stored: which images are such programs,
//! and an example. The pipeline's theorem is about these programs.
#![tactic(auto)]

mod laws;

pub use laws::{law_of_call, law_of_near_purity, law_of_purity};
