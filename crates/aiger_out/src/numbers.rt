//! The lines of a text, and the numbers on them.
ghost use Rattle.std.specs.Prelude.{◌≡◌, ◌<◌, ◌≤◌, ◌∷◌, [], MatchOption, IfSome, None, Some, length};
ghost use Rattle.std.specs.List.{position_or_len};
ghost use Rattle.std.specs.Str.Parse.{digits_value};
ghost use Rattle.y86_base.specs.Text.{is_line_feed};
ghost use Rattle.aiger_out.specs.Lines as spec;

use crate::form::{AndLine, Header};
use y86_base::{after_byte, is_decimal, number_in_base, split_decimal};

/// The number of bytes before the first line feed.
fn line_length(bytes: &[u8]) -> usize
    ensures place { result ≡ position_or_len is_line_feed bytes.now }
    ensures within { result ≤ length bytes.now }
{
    bytes.iter().take_while(|byte| **byte != b'\n').count()
}

/// The first line, if a line feed ends it, and the text after it.
#[tactic(auto, using(crate::proofs::Ended::ended_first, crate::proofs::Ended::ended_none, crate::proofs::Ended::unended_first))]
pub(crate) fn ended_line(text: &[u8]) -> Option<(&[u8], &[u8])>
    ensures lines { MatchOption result (spec.ended text.now ≡ []) (λ x. spec.ended text.now ≡ x.0.now ∷ spec.ended x.1.now) }
    ensures rest { IfSome result (λ x. spec.unended text.now ≡ spec.unended x.1.now) }
    ensures shorter { IfSome result (λ x. length x.1.now < length text.now) }
{
    let (line, rest) = text.split_at(line_length(text));
    match rest.split_first() {
        None => None,
        Some((_, behind)) => Some((line, behind)),
    }
}

/// The number that digits write; 2^64 - 1 if it is larger.
fn counted(digits: &[u8]) -> u64
    ensures { result ≡ spec.counted (digits_value 10 digits.now) }
{
    number_in_base(10, digits).unwrap_or(u64::MAX)
}

/// The number at the front, and the text after it.
pub(crate) fn number_at(text: &[u8]) -> Option<(u64, &[u8])>
    ensures { MatchOption result (spec.number_at text.now ≡ None) (λ x. spec.number_at text.now ≡ Some (x.0, x.1.now)) }
{
    if !is_decimal(*text.first()?) {
        return None;
    }
    let (digits, behind) = split_decimal(text);
    Some((counted(digits), behind))
}

/// The number after one blank, and the text after it.
fn number_behind(text: &[u8]) -> Option<(u64, &[u8])>
    ensures { MatchOption result (spec.number_behind text.now ≡ None) (λ x. spec.number_behind text.now ≡ Some (x.0, x.1.now)) }
{
    match after_byte(text, b' ') {
        Some(rest) => number_at(rest),
        None => None,
    }
}

/// The number, if nothing follows it.
fn alone(n: u64, rest: &[u8]) -> Option<u64>
    ensures { result ≡ spec.alone (n, rest.now) }
{
    if rest.is_empty() { Some(n) } else { None }
}

/// The number of a line of one number.
pub(crate) fn one_number(line: &[u8]) -> Option<u64>
    ensures { result ≡ spec.one_number line.now }
{
    match number_at(line) {
        Some((n, rest)) => alone(n, rest),
        None => None,
    }
}

/// The numbers of a line of three.
pub(crate) fn three_numbers(line: &[u8]) -> Option<AndLine>
    ensures { result ≡ spec.three_numbers line.now }
{
    let Some((lhs, rest)) = number_at(line) else {
        return None;
    };
    let Some((rhs0, rest)) = number_behind(rest) else {
        return None;
    };
    let Some((rhs1, rest)) = number_behind(rest) else {
        return None;
    };
    let rhs1 = alone(rhs1, rest)?;
    Some(AndLine { lhs, rhs0, rhs1 })
}

/// The text after `aag`.
fn behind_aag(line: &[u8]) -> Option<&[u8]>
    ensures { MatchOption result (spec.behind_aag line.now ≡ None) (λ rest. spec.behind_aag line.now ≡ Some rest.now) }
{
    let rest = after_byte(line, b'a')?;
    let rest = after_byte(rest, b'a')?;
    let rest = after_byte(rest, b'g')?;
    Some(rest)
}

/// The numbers of a header.
pub(crate) fn header_of(line: &[u8]) -> Option<Header>
    ensures { result ≡ spec.header_of line.now }
{
    let Some(rest) = behind_aag(line) else {
        return None;
    };
    let Some((most, rest)) = number_behind(rest) else {
        return None;
    };
    let Some((inputs, rest)) = number_behind(rest) else {
        return None;
    };
    let Some((latches, rest)) = number_behind(rest) else {
        return None;
    };
    let Some((outputs, rest)) = number_behind(rest) else {
        return None;
    };
    let Some((ands, rest)) = number_behind(rest) else {
        return None;
    };
    let ands = alone(ands, rest)?;
    Some(Header {
        most,
        inputs,
        latches,
        outputs,
        ands,
    })
}
