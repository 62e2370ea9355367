//! Listings: the lines of an assembled source, with their addresses and bytes.
ghost use Rattle.std.specs.Prelude.{◌≡◌};

use arrayvec::ArrayVec;
use std::marker::Model;

/// A line of a listing.
#[derive(Drop)]
pub struct Line {
    /// The address that the line shows: the one before its statement, or the one that `.pos` or `.align` sets. None if
    /// the line has neither a label nor a statement.
    pub addr: Option<u64>,
    /// The bytes that the line emits, from its address on.
    pub bytes: ArrayVec<u8, 10>,
    /// Where the line's text begins in the source, in bytes.
    pub from: u64,
    /// Where the line's text ends in the source, without its line feed.
    pub to: u64,
}

/// An assembled source: its lines, over a copy of the source.
#[derive(Drop)]
pub struct Listing {
    lines: Vec<Line>,
    source: Vec<u8>,
}

impl Model for Listing {
    ghost use Rattle.yas_asm.specs.Listing.{Listed};

    ghost Value = { Listed };

    ghost view = { λ listing. record { lines = listing.lines.items; source = listing.source.items } };
}

impl Listing {
    /// A listing with these lines of a source.
    pub(crate) fn new(lines: Vec<Line>, source: Vec<u8>) -> Listing
        ensures lines { result.lines ≡ lines.items }
        ensures source { result.source ≡ source.items }
    {
        Listing { lines, source }
    }

    /// The lines, in the order of the source.
    pub fn lines(&self) -> &[Line]
        ensures { result.now ≡ self.now.lines }
    {
        self.lines.as_slice()
    }

    /// The bytes of the source.
    pub fn source(&self) -> &[u8]
        ensures { result.now ≡ self.now.source }
    {
        self.source.as_slice()
    }
}
