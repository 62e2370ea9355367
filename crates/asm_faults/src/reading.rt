//! Reads the tokens of a line; each function also returns the bytes after its token.
ghost use Rattle.std.specs.Prelude.{◌≡◌, MatchOption, None, Some};
ghost use Rattle.std.specs.Option.{option_copied};
ghost use Rattle.yas_asm.specs.Comments as comments;
ghost use Rattle.yas_asm.specs.Grammar as grammar;
ghost use Rattle.yas_asm.specs.Tables as tables;
ghost use Rattle.yas_asm.specs.Tokens as tokens;
ghost use Rattle.asm_faults.specs.Stops as spec;
ghost use Rattle.yas_asm.specs.declared.statement.Width.TheVariants.{Eight};

use crate::parts::Part;
use y86_base::{Number, after_blanks, after_byte, keyword_at, register_names, split_name};
use yas_asm::{Directive, Reader, directives, is_name_start, number_at};

/// The bytes after a sign.
#[tactic(auto, unfolding(yas_asm::specs::Tokens::sign))]
pub fn sign(bytes: &[u8], wanted: u8) -> Option<&[u8]>
    ensures { option_copied result ≡ tokens.sign wanted bytes.now }
{
    after_byte(after_blanks(bytes), wanted)
}

/// The bytes after an optional sign.
#[tactic(auto, unfolding(yas_asm::specs::Tokens::after_sign))]
fn after_sign(bytes: &[u8], wanted: u8) -> &[u8]
    ensures { result.now ≡ tokens.after_sign wanted bytes.now }
{
    match sign(bytes, wanted) {
        Some(behind) => behind,
        None => bytes,
    }
}

/// The name in front, and the bytes after it.
#[tactic(auto, unfolding(yas_asm::specs::Tokens::name))]
pub fn name(bytes: &[u8]) -> Option<(&[u8], &[u8])>
    ensures { MatchOption result (tokens.name bytes.now ≡ None) (λ x. tokens.name bytes.now ≡ Some (x.0.now, x.1.now)) }
{
    let text = after_blanks(bytes);
    if !is_name_start(*text.first()?) {
        return None;
    }
    Some(split_name(text))
}

/// The number in front, and the bytes after it.
#[tactic(auto, unfolding(yas_asm::specs::Tokens::number))]
pub fn number(bytes: &[u8]) -> Option<(Number, &[u8])>
    ensures { MatchOption result (tokens.number bytes.now ≡ None) (λ x. tokens.number bytes.now ≡ Some (x.0, x.1.now)) }
{
    number_at(after_blanks(bytes))
}

/// The bytes after a register.
#[tactic(auto, unfolding(yas_asm::specs::Tables::register))]
fn after_register(bytes: &[u8]) -> Option<&[u8]>
    ensures { option_copied result ≡ spec.behind (tables.register bytes.now) }
{
    match keyword_at(register_names(), after_blanks(bytes)) {
        Some((_, behind)) => Some(behind),
        None => None,
    }
}

/// The directive in front, and the bytes after it.
#[tactic(auto, unfolding(yas_asm::specs::Tables::directive))]
pub fn directive(bytes: &[u8]) -> Option<(Directive, &[u8])>
    ensures { MatchOption result (tables.directive bytes.now ≡ None) (λ x. tables.directive bytes.now ≡ Some (x.0, x.1.now)) }
{
    keyword_at(directives(), after_blanks(bytes))
}

/// The bytes after a number or a label.
#[tactic(auto, unfolding(yas_asm::specs::Grammar::operand))]
fn after_value(bytes: &[u8]) -> Option<&[u8]>
    ensures { option_copied result ≡ spec.behind (grammar.operand Eight bytes.now) }
{
    let text = after_sign(bytes, b'$');
    match number(text) {
        Some((_, behind)) => Some(behind),
        None => match name(text) {
            Some((_, behind)) => Some(behind),
            None => None,
        },
    }
}

/// The bytes after a number or a label, which may be missing in front of `(`.
#[tactic(auto, unfolding(yas_asm::specs::Grammar::displacement))]
fn after_displacement(bytes: &[u8]) -> Option<&[u8]>
    ensures { option_copied result ≡ spec.behind (grammar.displacement bytes.now) }
{
    if Reader::new(bytes).next_is(b'(') {
        return Some(bytes);
    }
    after_value(bytes)
}

/// A number that is not negative, and the bytes after it. The inner `None` is a number of 2^64 or more.
#[tactic(auto, unfolding(yas_asm::specs::Grammar::natural))]
fn natural(bytes: &[u8]) -> Option<(Option<u64>, &[u8])>
    ensures { MatchOption result (grammar.natural bytes.now ≡ None) (λ x. grammar.natural bytes.now ≡ Some (x.0, x.1.now)) }
{
    let (number, behind) = number(bytes)?;
    match number.magnitude {
        Some(0) => Some((Some(0), behind)),
        magnitude if !number.negative => Some((magnitude, behind)),
        _ => None,
    }
}

/// The bytes after a number that is not negative.
fn after_natural(bytes: &[u8]) -> Option<&[u8]>
    ensures { option_copied result ≡ spec.behind (grammar.natural bytes.now) }
{
    match natural(bytes) {
        Some((_, behind)) => Some(behind),
        None => None,
    }
}

/// The bytes after a number that is at least 1.
fn after_positive(bytes: &[u8]) -> Option<&[u8]>
    ensures { option_copied result ≡ spec.behind_positive (grammar.natural bytes.now) }
{
    match natural(bytes) {
        None => None,
        Some((None, behind)) => Some(behind),
        Some((Some(n), behind)) => { if n == 0 { None } else { Some(behind) } }
    }
}

/// Whether the line, apart from a comment, ends here.
pub fn ends(bytes: &[u8]) -> bool
    ensures { result ≡ comments.ends bytes.now }
{
    Reader::new(bytes).ends()
}

/// The bytes, unchanged, if the line ends here.
fn after_end(bytes: &[u8]) -> Option<&[u8]>
    ensures { option_copied result ≡ spec.behind_end (comments.ends bytes.now) bytes.now }
{
    if ends(bytes) { Some(bytes) } else { None }
}

/// The bytes after a part, or `None` if something else is there.
#[tactic(auto, unfolding(crate::specs::Stops::behind_part))]
pub fn after_part(part: Part, bytes: &[u8]) -> Option<&[u8]>
    ensures { option_copied result ≡ spec.behind_part part bytes.now }
{
    match part {
        Part::Statement => None,
        Part::Register => after_register(bytes),
        Part::Value => after_value(bytes),
        Part::Displacement => after_displacement(bytes),
        Part::Comma => sign(bytes, b','),
        Part::OpenParenthesis => sign(bytes, b'('),
        Part::CloseParenthesis => sign(bytes, b')'),
        Part::Natural => after_natural(bytes),
        Part::Positive => after_positive(bytes),
        Part::LineEnd => after_end(bytes),
    }
}

/// The bytes after the label, if there is one in front.
#[tactic(auto, unfolding(yas_asm::specs::Grammar::label))]
pub fn after_label(bytes: &[u8]) -> &[u8]
    ensures { result.now ≡ (grammar.label bytes.now).1 }
{
    match name(bytes) {
        None => bytes,
        Some((_, rest)) => match sign(rest, b':') {
            None => bytes,
            Some(behind) => behind,
        },
    }
}
