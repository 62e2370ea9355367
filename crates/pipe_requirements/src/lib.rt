//! What PIPE's obligations require of each signal at a valuation, as data.
//!
//! Each of the obligations before those on motion is met exactly where each of its requirements is (`law_of_requirements`).
//! For example obligation 20 requires `m_stat` to be ADR if the memory reports an error, and M's status otherwise.
//! Those on motion require nothing of a single signal: `motion_repairs` is about these.
#![tactic(auto)]

mod flow;
mod laws;
mod lines;
mod listing;
mod now;

/// The first obligation on motion: it and those behind it require nothing of a single signal.
pub const FIRST_ON_MOTION: u32 = 23;

pub use findings::{Requirement, Wanted, is_number, leaf_at, set};
pub use flow::{
    FlowNow, RegisterControlNow, RegisterControlsNow, StageFlowNow, flow_of, is_jump, leaves,
    loads, other_way, predicts, stops_by,
};
pub use laws::law_of_requirements;
pub use lines::{DecodeLine, ExecuteLine, FetchLine, Lines, MemoryLine, WriteLine, lines_of};
pub use listing::requirements_of;
pub use now::Now;
