//! The commands that print and run files: `yas`, `yis`, `hcl`, `ssim`, `ssimp`, `psim` and `big`.
#![tactic(auto)]

mod big;
mod hcl;
mod psim;
mod request;
mod ssim;
mod yas;
mod yis;

pub use crate::big::big_file;
pub use crate::hcl::hcl_file;
pub use crate::psim::psim_file;
pub use crate::request::{PipeRequest, RunRequest};
pub use crate::ssim::ssim_file;
pub use crate::yas::yas_file;
pub use crate::yis::yis_file;
