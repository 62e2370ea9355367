//! Reports the faults of HCL, assembly and object text: text in, sentences and facts out. The sentences are data, in
//! the tables of `hcl_rules` and `asm_rules`. `binding_faults` and `object` have those on faults with one sentence for
//! each reason.
#![tactic(auto)]

mod asm_rules;
mod asm_tests;
mod assembly;
mod binding_faults;
mod blame;
mod facts;
mod fill;
mod hcl;
mod hcl_reading;
mod hcl_rules;
mod object;
mod show;

pub use assembly::assembly_report;
pub use facts::{Fault, Related, Report, Tables, datapath_name};
pub use hcl::hcl_report;
pub use object::{has_bytes, object_report};
pub use show::sentences_of;
