//! Writes the findings on signals at a counterexample, in sentences and as JSON: what the file picks, what is required,
//! which case is taken, and what the definition reads.
//!
//! All datapaths use it. That its sentences state the right facts is tested, not proved.
#![tactic(auto)]

mod cases;
mod explained;
mod facts;
mod iaddq;
mod lines;
mod mending;
mod paragraph;
mod told;
mod values;
mod words;

pub use cases::{CasePlace, place_of};
pub use explained::ExplainedFile;
pub use facts::{
    Out, put_comparison_facts, put_finding_facts, put_mend_first, put_number, put_obligation_facts,
    put_text, put_truth,
};
pub use iaddq::{names_iaddq, put_unasked};
pub use lines::{put_findings, put_obligation};
pub use mending::{first_alone, put_once, put_wrong};
pub use paragraph::{put_lines, put_paragraph};
pub use told::{put_comparisons, put_finding, put_leaf, put_wrong_findings};
pub use values::{Values, name_of};
pub use words::{instruction, mnemonic, put_register, put_value, status, value_name};
