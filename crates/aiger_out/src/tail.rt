//! The symbols and the comment of a text.
ghost use Rattle.std.specs.Prelude.{◌≡◌, ℕ, ◌+◌, ◌<◌, ◌≤◌, IfSome, MatchOption, None, Some, drop, length};
ghost use Rattle.aiger_out.specs.Form as spec;
ghost use Rattle.aiger_out.specs.Lines.{ended, unended};
ghost use Rattle.y86_base.specs.Text.{after_byte};
ghost use Rattle.aiger_out.specs.Tail.{IsTail, IsTailFault};

use crate::form::Header;
use crate::numbers::{ended_line, number_at};
use y86_base::after_byte;

/// A blank, and a name of at least one byte.
fn is_name(text: &[u8]) -> bool
    ensures { result ≡ spec.is_name (after_byte 32 text.now) }
{
    match after_byte(text, b' ') {
        Some(name) => !name.is_empty(),
        None => false,
    }
}

/// A letter, a number below `count`, a blank and a name.
fn names_one(line: &[u8], letter: u8, count: u64) -> bool
    ensures { result ≡ spec.symbol_behind count (after_byte letter line.now) }
{
    let Some(text) = after_byte(line, letter) else {
        return false;
    };
    let Some((n, rest)) = number_at(text) else {
        return false;
    };
    n < count && is_name(rest)
}

/// A line that names an input or an output.
fn is_symbol(h: Header, line: &[u8]) -> bool
    ensures { result ≡ spec.is_symbol h line.now }
{
    names_one(line, b'i', h.inputs) || names_one(line, b'o', h.outputs)
}

/// The line `c`, which anything may follow.
fn is_comment(line: &[u8]) -> bool
    ensures { result ≡ spec.is_comment line.now }
{
    line == b"c".as_slice()
}

/// The number of lines before the first one that is neither a symbol nor the line `c` nor after that line, if there is
/// such a line.
#[tactic(auto, using(crate::proofs::Tails::read_none, crate::proofs::Tails::read_more, crate::proofs::Tails::read_comment, crate::proofs::Tails::read_bad, crate::proofs::Tails::read_end, crate::proofs::Tails::read_rest, crate::proofs::Tails::read_all))]
pub(crate) fn tail_fault(h: Header, text: &[u8]) -> Option<usize>
    ensures fault { MatchOption result (IsTail h (ended text.now) (spec.has_more text.now)) (λ k. IsTailFault h (ended text.now) (spec.has_more text.now) k) }
    ensures within { IfSome result (λ k. k < length text.now) }
{
    let mut rest = text;
    for k in 0..text.len() {
        let Some((line, behind)) = ended_line(rest) else {
            return if rest.is_empty() { None } else { Some(k) };
        };
        if is_comment(line) {
            return None;
        }
        if !is_symbol(h, line) {
            return Some(k);
        }
        rest = behind;
    }
    None
}
