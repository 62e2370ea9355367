//! Certificates: proofs of a `yes` of PIPE's check, as lines that are checked one by one, each against the earlier
//! lines that it names. The checker has no order of variables, no reduction and no store of nodes, and uses no code
//! of the diagrams. `docs/CERTIFICATES.md` describes the format.
#![tactic(auto)]

mod checker;
mod demands;
mod fault;
mod heading;
mod known;
mod laws;
mod line;
mod numbers;
mod reading;
mod rules;

pub use checker::recheck;
pub use demands::Demands;
pub use fault::{CertError, CertFault, CertWhy};
pub use heading::stated;
pub use known::{Claim, TermDef};
pub use laws::{law_of_certificates, law_of_faults, law_of_other_nets};
pub use line::CertLine;
pub use rules::{is_made, is_plain_and, is_plain_not, made_at, part};
