//! Places in a text.
ghost use Rattle.std.specs.Prelude.{◌≡◌, ◌≤◌, length};
ghost use Rattle.hcl_faults.specs.Places as spec;

use y86_base::Cursor;

/// A place in a text: the number of bytes before it, and its line and column from 1. A column counts bytes.
#[derive(Clone, Copy, Debug, PartialEq, Eq)]
pub struct TextPlace {
    pub at: usize,
    pub line: u64,
    pub column: u64,
}

/// The place after the first bytes of a text.
pub fn place_at(text: &[u8], at: usize) -> TextPlace
    requires { at ≤ length text.now }
    ensures { result ≡ spec.place_at text.now at }
{
    let before = text.split_at(at).0;
    let mut cursor = Cursor::new(before);
    'bytes: while cursor.next().is_some() {}
    TextPlace {
        at,
        line: cursor.line(),
        column: cursor.col(),
    }
}
