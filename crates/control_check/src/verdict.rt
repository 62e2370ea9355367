//! What a verdict says.
use ctl_atoms::Atom;
use nets::Valuation;
use pipe_motion::Settings;
use y86_base::Items;

/// Whether a design meets every obligation. If not: the number of the first one that it doesn't meet, with the least
/// valuation at which that is false, and the design's atoms.
#[derive(Debug, PartialEq, Drop)]
pub enum Verdict {
    /// With the settings at which the obligations hold.
    Yes(Settings),
    No {
        rule: u32,
        valuation: Valuation,
        atoms: Items<Atom>,
    },
}
