//! Theorems about `yas_asm` and `yo_object`; it has no code. They state what the definitions of assembly and object
//! text mean together: sources as lists of lines, their labels, listings and images, and the images that object text
//! loads.
#![tactic(auto)]

mod objects;
mod sources;

pub use objects::{law_of_loads, law_of_object_lines, law_of_printing};
pub use sources::{
    law_of_align, law_of_bytes, law_of_comments, law_of_faults, law_of_images, law_of_labels,
    law_of_listings, law_of_source_lines, law_of_source_texts, law_of_spacing,
};
