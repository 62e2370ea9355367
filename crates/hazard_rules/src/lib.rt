//! The formulas of a design for PIPE: the gates that decide its settings, and those of the 27 obligations, over one net.
//!
//! `pipe_obligations` says what each obligation demands, and `demands` calls its gate by its number:
//!
//! | obligation | crate | module | function |
//! |---|---|---|---|
//! | 1, 5 | `pipe_stage_gates` | `front` | `obligation_1`, `obligation_5` |
//! | 2, 3, 4 | `pipe_stage_gates` | `front` | `fetch_rule_gate` of `Status`, `RegisterByte`, `Constant` |
//! | 6, 7, 8, 9 | `pipe_stage_gates` | `front` | `decode_rule_gate` of `SourceA`, `SourceB`, `DestinationE`, `DestinationM` |
//! | 10, 11 | `pipe_stage_gates` | `sources` | `obligation_10`, `obligation_11` |
//! | 12, 13 | `pipe_stage_gates` | `execute` | `demand_in_e` of `OperandA`, `OperandB` |
//! | 14, 15, 16, 17 | `pipe_stage_gates` | `execute` | `obligation_14` to `obligation_17` |
//! | 18 to 22 | `pipe_stage_gates` | `memory` | `obligation_18` to `obligation_22` |
//! | 23, 24, 26, 27 | `pipe_motion_gates` | `motion` | `obligation_23`, `obligation_24`, `obligation_26`, `obligation_27` |
//! | 25 | `pipe_motion_gates` | `fetch` | `obligation_25` |
#![tactic(auto, using(nets::proofs::Truths::begins_more, nets::proofs::Truths::begins_self, pipe_motion_gates::proofs::Inputs::variables_stay))]

mod demands;
mod design;
mod early_gates;
mod parts;
mod rules;

pub use parts::{Parts, pipe_late, pipe_parts, pipe_rules};
pub use pipe_motion_gates::Late;
