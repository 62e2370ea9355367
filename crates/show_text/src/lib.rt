//! What `y86-tell show` prints for an obligation, an instruction, a signal or a kind of fault, in sentences and as
//! JSON.
//!
//! The sentences come from `explanations`. What each stage does for an instruction comes from its row of the
//! instruction table. That the right facts are written is tested, not proved.
#![tactic(auto)]

mod found;
mod instructions;
mod json_page;
mod pages;
mod stages;

pub use found::{ShowMatches, found_of};
pub use json_page::put_found_json;
pub use pages::{put_found, put_names};
