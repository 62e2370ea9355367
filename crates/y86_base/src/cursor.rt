//! A reader of bytes that knows its line and column, for the positions in error messages.
ghost use Rattle.std.specs.Prelude.{◌≡◌, ◌∷◌, ◌++◌, [], ◌↔◌, IfNone, IfSome, IsNone, slice_get};
ghost use Rattle.y86_base.specs.Cursor.{column_behind, line_behind};

use std::marker::Model;

/// A reader of bytes that knows its line and column, both from 1; a column counts bytes. A line feed is the
/// last byte of its line; no other byte ends one.
#[derive(Debug, Drop)]
pub struct Cursor<'a> {
    bytes: &'a [u8],
    at: usize,
    line_feeds: u64,
    since: u64,
}

impl<'a> Model for Cursor<'a> {
    ghost use Rattle.std.specs.Prelude.{take, drop};
    ghost use Rattle.y86_base.specs.Cursor.{IsAtPlace, CursorState};

    ghost Value = { CursorState };

    ghost view = { λ cursor. record { done = take cursor.at cursor.bytes.now; left = drop cursor.at cursor.bytes.now } };

    ghost invariant = { λ cursor. IsAtPlace cursor.bytes.now cursor.at cursor.line_feeds cursor.since };
}

impl<'a> Cursor<'a> {
    /// A cursor at the first byte of a text.
    pub fn new(bytes: &'a [u8]) -> Cursor<'a>
        ensures nothing_done { result.done ≡ [] }
        ensures all_left { result.left ≡ bytes.now }
    {
        Cursor {
            bytes,
            at: 0,
            line_feeds: 0,
            since: 0,
        }
    }

    /// The byte at the position, or None at the end.
    pub fn peek(&self) -> Option<u8>
        ensures { result ≡ slice_get self.now.left 0 }
    {
        self.bytes.get(self.at).copied()
    }

    /// Reads the byte at the position; None, without a move, exactly at the end.
    pub fn next(&mut self) -> Option<u8>
        ensures none_at_the_end { IsNone result ↔ (self.old.left ≡ []) }
        ensures first_of_the_rest { IfSome result (λ byte. self.old.left ≡ byte ∷ self.new.left) }
        ensures then_done { IfSome result (λ byte. self.new.done ≡ self.old.done ++ byte ∷ []) }
        ensures stays_at_the_end { IfNone result (self.new ≡ self.old) }
    {
        if self.at >= self.bytes.len() {
            return None;
        }
        let byte = self.bytes[self.at];
        if byte == b'\n' {
            self.line_feeds += 1;
            self.since = 0;
        } else {
            self.since += 1;
        }
        self.at += 1;
        Some(byte)
    }

    /// The line of the position, from 1.
    pub fn line(&self) -> u64
        ensures { result ≡ line_behind self.now.done }
    {
        self.line_feeds + 1
    }

    /// The column of the position in bytes, from 1.
    pub fn col(&self) -> u64
        ensures { result ≡ column_behind self.now.done }
    {
        self.since + 1
    }
}
