//! Certificates of HCL files for PIPE: what a certificate has to show, what follows from it, and the calls to write
//! and check it.
#![tactic(auto)]

mod demanded;
mod files;
mod laws;

pub use cert_checker::{
    CertError, CertFault, CertWhy, Demands, law_of_certificates, law_of_faults, recheck, stated,
};
pub use cert_writer::write;
pub use demanded::demands;
pub use files::{certify, holds_line, recheck_file};
pub use laws::{
    law_of_certified_files, law_of_certified_refinement, law_of_demands, law_of_kept_certificates,
};
