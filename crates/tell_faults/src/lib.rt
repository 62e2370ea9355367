//! The faults of files: the command `fault` of `y86-tell`, the design of an HCL text or its faults, and why a call ends
//! without an answer.
#![tactic(auto)]

mod datapaths;
mod designs;
mod faulty;
mod objects;
mod said;
mod stop;

pub use datapaths::tables;
pub use designs::{design_of, fault_stop};
pub use faulty::{HCL_LIMIT, OBJECT_LIMIT, report_faults};
pub use objects::{object_stop, text_stop};
pub use said::{Said, json_text};
pub use stop::{Stop, unread};
