//! The output for a file for PIPE: a refusal in sentences and as JSON, and the settings of an accepted file.
//!
//! The facts come from `pipe_refusals`: the counterexample, the findings, the repairs, the false obligations. This
//! crate writes them down. That it writes the right ones is tested, not proved.
#![tactic(auto)]

mod json_page;
mod mending;
mod motion;
mod page;
mod scene;
mod settings;
mod stages;

pub use json_page::put_refusal_json;
pub use mending::{first_to_mend, is_motion, wrong_signals};
pub use page::put_refusal;
pub use scene::{Scene, scene_of};
pub use settings::{put_settings, put_settings_json};
