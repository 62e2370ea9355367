//! The two targets of a test.
ghost use Rattle.std.specs.Prelude.{◌≡◌};
ghost use Rattle.hcl_compile.specs.Making.{ahead_of, chosen, of_none, swapped};

/// One target if a test is true, another if it is false.
#[derive(Clone, Copy, Debug, PartialEq, Eq)]
pub struct Targets {
    pub hit: u32,
    pub miss: u32,
}

impl Targets {
    /// The target of a test that is known.
    pub fn chosen(self, test: bool) -> u32
        ensures { result ≡ chosen self test }
    {
        if test { self.hit } else { self.miss }
    }

    /// The targets exchanged, as for the negated test.
    pub fn swapped(self) -> Targets
        ensures { result ≡ swapped self }
    {
        Targets {
            hit: self.miss,
            miss: self.hit,
        }
    }
}

/// Which terms of a list have to hold.
#[derive(Clone, Copy, Debug, PartialEq, Eq)]
pub enum Quantifier {
    All,
    Any,
}

impl Quantifier {
    /// Where an empty list leads: all of its terms hold, and there is none that holds.
    pub fn of_none(self, to: Targets) -> u32
        ensures { result ≡ of_none self to }
    {
        match self {
            Quantifier::All => to.hit,
            Quantifier::Any => to.miss,
        }
    }

    /// The targets of a term, if the decision of the terms after it begins at `rest`.
    pub fn ahead_of(self, rest: u32, to: Targets) -> Targets
        ensures { result ≡ ahead_of self rest to }
    {
        match self {
            Quantifier::All => Targets {
                hit: rest,
                miss: to.miss,
            },
            Quantifier::Any => Targets {
                hit: to.hit,
                miss: rest,
            },
        }
    }
}
