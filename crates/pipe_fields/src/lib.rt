//! The fields of a control valuation of PIPE (CS:APP 3e, section 4.5): their bits, and which lines of numbers are
//! allowed, as definitions by the instruction table and as gates.
#![tactic(auto, using(nets::proofs::Truths::begins_more))]

mod bubbles;
mod laws;
mod lines;
pub mod places;
mod row_allowed;
mod table;
mod valuation;

pub use laws::{law_of_bubbles, law_of_patterns, law_of_places, law_of_the_start};
pub use lines::StageLine;
pub use places::BIT_COUNT;
pub use table::{D_FIRST, E_FIRST, F_FIRST, FIELD_COUNT, M_FIRST, W_FIRST, field_specs, place_of};
pub use valuation::{allowed, stage_line_allowed};
