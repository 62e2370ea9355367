//! Tables of fixed texts and their meanings, such as mnemonics and register names.
ghost use Rattle.std.specs.Prelude.{◌≡◌, MatchOption, None, Some, map};
ghost use Rattle.y86_base.specs.Keyword as table;

/// A fixed text and what it means.
#[derive(Clone, Copy, Debug)]
pub struct Keyword<T> {
    pub text: &'static [u8],
    pub meaning: T,
}

/// The first row whose text is at the front, by its meaning, and the bytes after the text.
#[tactic(auto, unfolding(crate::specs::Keyword::keyword_at))]
pub fn keyword_at<'a, T: Copy>(mut rows: &[Keyword<T>], text: &'a [u8]) -> Option<(T, &'a [u8])>
    ensures { MatchOption result (table.keyword_at (map table.entry rows.entry.now) text.now ≡ None)
        (λ x. table.keyword_at (map table.entry rows.entry.now) text.now ≡ Some (x.0, x.1.now)) }
{
    while let Some((row, others)) = rows.split_first() {
        if let Some(behind) = text.strip_prefix(row.text) {
            return Some((row.meaning, behind));
        }
        rows = others;
    }
    None
}

/// The meaning of a whole text, from the first row that has it.
#[tactic(auto, unfolding(crate::specs::Keyword::meaning_of))]
pub fn meaning_of<T: Copy>(mut rows: &[Keyword<T>], text: &[u8]) -> Option<T>
    ensures { result ≡ table.meaning_of (map table.entry rows.entry.now) text.now }
{
    while let Some((row, others)) = rows.split_first() {
        if text == row.text {
            return Some(row.meaning);
        }
        rows = others;
    }
    None
}
