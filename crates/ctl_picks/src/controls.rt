//! The control values of a design: a gate for each truth, and picks for each other name.
ghost use Rattle.std.specs.Prelude.{◌≡◌, IsTrue};
ghost use Rattle.ctl_picks.specs.Picks.{has_gate, has_picks, gate_of, picks_of};

use ctl_atoms::Leaf;
use hcl_types::NameId;
use std::marker::Model;
use y86_base::Items;

/// A leaf or a number, with the gate that is true exactly if it is picked.
#[derive(Clone, Copy, Debug, PartialEq, Eq)]
pub struct Pick {
    pub leaf: Leaf,
    pub gate: u64,
}

/// The gates made for the control value of a name: none yet, the gate of its truth, or its picks.
#[derive(Debug, Drop)]
pub enum Entry {
    Absent,
    Truth(u64),
    Picks(Items<Pick>),
}

/// The gates of a design's control values: one gate for each Truth name, and picks for each other name of the table.
#[derive(Debug, Drop)]
pub struct Controls {
    entries: Items<Entry>,
}

impl Model for Controls {
    ghost use Rattle.std.specs.Prelude.{List};
    ghost use Rattle.ctl_picks.specs.declared.controls.Entry.{Entry};

    ghost Value = { List Entry };

    ghost view = { λ c. c.entries };
}

impl Controls {
    /// The control values with these entries, name by name.
    pub fn of(entries: Items<Entry>) -> Controls
        ensures { result ≡ entries }
    {
        Controls { entries }
    }

    /// The gate of a Truth name: it is true exactly if the signal is.
    pub fn truth(&self, n: NameId) -> u64
        requires { IsTrue (has_gate self.now n) }
        ensures { result ≡ gate_of self.now n }
    {
        match &self.entries.items()[n as usize] {
            Entry::Truth(g) => *g,
            Entry::Absent | Entry::Picks(_) => 0,
        }
    }

    /// The picks of a Code or Value name, or of a constant.
    pub fn picks(&self, n: NameId) -> &[Pick]
        requires { IsTrue (has_picks self.now n) }
        ensures { result.now ≡ picks_of self.now n }
    {
        match &self.entries.items()[n as usize] {
            Entry::Picks(ps) => ps.items(),
            Entry::Absent | Entry::Truth(_) => &[],
        }
    }
}
