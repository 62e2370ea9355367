//! The binding of an HCL file to a datapath's table of names: it gives the definitions as terms, or the file's fault.
#![tactic(auto)]

mod binding;
mod expressions;
mod fault;
mod laws;
mod places;

pub use binding::bind;
pub use fault::{BindFault, BindWhy};
pub use laws::law_of_faults;
