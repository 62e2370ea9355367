//! Comments, and bytes that may not occur outside them.
ghost use Rattle.std.specs.Prelude.{◌≡◌, false, drop, ◌≤◌, length};
ghost use Rattle.yas_asm.specs.Comments as comments;

use y86_base::is_blank;

/// The number of bytes up to and including the first `*/`; 0 if there is none.
#[tactic(auto, unfolding(crate::specs::Comments::close_length))]
fn close_length(text: &[u8]) -> usize
    ensures count { result ≡ comments.close_length text.now }
    ensures within { result ≤ length text.now }
{
    let mut rest = text;
    let mut passed = 0;
    while let Some((_, others)) = rest.split_first() {
        if rest.starts_with(b"*/") {
            return passed + 2;
        }
        rest = others;
        passed += 1;
    }
    0
}

/// The length in bytes of the comment in front; 0 if none begins there.
#[tactic(auto, unfolding(crate::specs::Comments::comment_length))]
pub fn comment_length(text: &[u8]) -> usize
    ensures count { result ≡ comments.comment_length text.now }
    ensures within { result ≤ length text.now }
{
    if text.starts_with(b"#") || text.starts_with(b"//") {
        return text.len();
    }
    match text.strip_prefix(b"/*") {
        None => 0,
        Some(inside) => match close_length(inside) {
            0 => 0,
            length => 2 + length,
        },
    }
}

fn is_good(byte: u8) -> bool
    ensures { result ≡ comments.is_good byte }
{
    is_blank(byte) || (0x21 <= byte && byte <= 0x7e)
}

/// As `comment_length`, in less time if it is known that no `*/` follows.
#[tactic(auto, unfolding(crate::specs::Comments::comment_length))]
fn known_length(text: &[u8], closes: bool) -> usize
    requires { closes ≡ false → comments.close_length (drop 2 text.now) ≡ 0 }
    ensures count { result ≡ comments.comment_length text.now }
    ensures within { result ≤ length text.now }
{
    if !closes && text.starts_with(b"/*") {
        return 0;
    }
    comment_length(text)
}

/// Whether a `*/` may follow further on, if no comment begins here.
#[tactic(auto, unfolding(crate::specs::Comments::comment_length), using(crate::proofs::CommentLemmas::no_close_behind))]
fn still_closes(text: &[u8], closes: bool) -> bool
    requires no_comment { comments.comment_length text.now ≡ 0 }
    requires known { closes ≡ false → comments.close_length (drop 2 text.now) ≡ 0 }
    ensures { result ≡ false → comments.close_length (drop 2 (drop 1 text.now)) ≡ 0 }
{
    closes && !text.starts_with(b"/*")
}

/// Whether a byte that is not allowed occurs outside the comments of a line.
#[tactic(auto, using(crate::proofs::CommentLemmas::sweeps))]
pub fn has_bad_byte(line: &[u8]) -> bool
    ensures { result ≡ comments.bad_outside 0 line.now }
{
    let mut rest = line;
    // After a `/*` that isn't closed, no later one is.
    let mut closes = true;
    while let Some((first, others)) = rest.split_first() {
        let length = known_length(rest, closes);
        if length > 0 {
            closes = true;
            rest = rest.split_at(length).1;
        } else if is_good(*first) {
            closes = still_closes(rest, closes);
            rest = others;
        } else {
            return true;
        }
    }
    false
}
