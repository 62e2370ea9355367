//! Object text: the lines of addresses and bytes that an assembler prints and a simulator loads.
#![tactic(auto)]

mod line;
mod object;
mod printer;

pub use line::{LineDigits, line_digits};
pub use object::{YoFault, YoWhy, load};
pub use printer::print;
