//! Fields of a control valuation, as tables and as gates: a field is a number, and Boolean variables are its bits. Also
//! the numbers that the fields of an instruction can have, by the columns of the instruction table.
//!
//! An example: an icode has four bits. That it is 6 is a gate over these: `!b0 && b1 && b2 && !b3`, the most
//! significant bit first.
#![tactic(auto, using(nets::proofs::Truths::begins_more))]

mod allowed_numbers;
mod field_specs;
mod gates;
mod laws;

pub use allowed_numbers::{
    at_most, cnd_allowed, cnd_allowed_where, codes_allowed, destination_allowed, reading_allowed,
    register_allowed, register_field_allowed, shares_register, spells_if, stat_allowed,
    zero_unless,
};
pub use field_specs::{BitRange, FieldSpec, place_in};
pub use gates::{below, bit_is, here, same, spells};
pub use laws::{law_of_patterns, law_of_places};
