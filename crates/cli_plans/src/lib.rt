//! Plans: which files a call reads and which answers it may give, what it means that its command followed the plan, and
//! the stages that commands share.
#![tactic(auto)]

mod calls;
mod design;
mod output;
mod stages;
mod stop_reason;

pub use crate::calls::{Status, report_stop, unreadable, words_behind};
pub use crate::design::{all_names, pipe_design, pipe_file, seq_file};
pub use crate::output::write_answer;
pub use crate::stages::{FILE_LIMIT, HCL_LIMIT, load_image, read_file, read_hcl, status};
pub use crate::stop_reason::{InputFault, StopReason};
