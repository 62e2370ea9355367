//! What the gates of an obligation are made from.
use ctl_picks::Controls;
use pipe_motion::{FlowGates, Settings};
use y86_base::Variant;

/// What the gates of an obligation are made from: the variant, the settings, the gates of the design's names and the
/// flow of the stages.
#[derive(Clone, Copy)]
pub struct RuleInputs<'a> {
    pub variant: Variant,
    pub settings: &'a Settings,
    pub controls: &'a Controls,
    pub flow: &'a FlowGates,
}
