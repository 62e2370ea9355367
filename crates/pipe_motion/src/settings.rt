//! The settings of a file: which of the permitted shortcuts it takes.

/// Which of the permitted shortcuts a file takes. `pt` and `pb` say by ifun which jumps it predicts as taken: `pt`
/// those that don't go back, `pb` those that do. A jump goes back if its valC is below its valP, as signed words.
#[derive(Clone, Copy, Debug, PartialEq, Eq)]
pub struct Settings {
    pub pt: [bool; 7],
    pub pb: [bool; 7],
    /// A jump carries its target to M in valE.
    pub tv: bool,
    /// A store takes the word that it stores late, from a load in M.
    pub lf: bool,
    /// The right PC after a mispredicted jump is fetched while the jump is in E.
    pub je: bool,
    /// The PC after a ret is fetched while the ret is in M.
    pub rm: bool,
}
