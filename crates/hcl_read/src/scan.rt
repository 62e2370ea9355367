//! Reads the next token of an HCL file.
ghost use Rattle.std.specs.Prelude.{◌≡◌, ◌≤◌, ◌<◌, ◌+◌, ◌-◌, ◌^◌, ◌∷◌, length, IfOk, MatchOption, List, ℕ, [], drop, true, None, Some, take_while, false};
ghost use Rattle.std.specs.List.{prefix_len};
ghost use Rattle.y86_base.specs.Keyword.{keyword_at, meaning_of};
ghost use Rattle.y86_base.specs.Number.{word_within};
ghost use Rattle.y86_base.specs.Text as text;
ghost use Rattle.hcl_read.specs.Tokens as spec;

use crate::tokens::Token;
use hcl_tree::{CmpOp, Kind, Text};
use std::alloc::Global;
use y86_base::{Memory, Number, decimal_at, is_blank, is_letter, split_name};

/// How many bytes of a quoted text there are at the front.
fn quoted_length(bytes: &[u8]) -> usize
    ensures count { result ≡ prefix_len spec.is_quoted bytes.now }
    ensures within { result ≤ length bytes.now }
{
    bytes
        .iter()
        .take_while(|byte| **byte != b'\'' && **byte != b'\n')
        .count()
}

/// What follows the blanks, line feeds and comments in front.
#[tactic(auto, unfolding(crate::specs::Tokens::skipped))]
pub fn after_gap(bytes: &[u8]) -> &[u8]
    ensures value { result.now ≡ spec.skipped false bytes.now }
    ensures shorter { length result.now ≤ length bytes.now }
{
    let mut rest = bytes;
    let mut comment = false;
    while let Some((byte, behind)) = rest.split_first() {
        if comment {
            comment = *byte != b'\n';
        } else if *byte == b'#' {
            comment = true;
        } else if !is_blank(*byte) && *byte != b'\n' {
            break;
        }
        rest = behind;
    }
    rest
}

/// The keyword with this spelling.
#[tactic(auto, unfolding(y86_base::specs::Keyword::meaning_of))]
fn keyword(name: &[u8]) -> Option<Token>
    ensures { result ≡ meaning_of spec.keywords name.now }
{
    if name == b"quote".as_slice() {
        return Some(Token::KeyQuote);
    }
    if name == b"wordsig".as_slice() {
        return Some(Token::KeySig(Kind::Word));
    }
    if name == b"intsig".as_slice() {
        return Some(Token::KeySig(Kind::Word));
    }
    if name == b"boolsig".as_slice() {
        return Some(Token::KeySig(Kind::Bool));
    }
    if name == b"word".as_slice() {
        return Some(Token::KeyDef(Kind::Word));
    }
    if name == b"int".as_slice() {
        return Some(Token::KeyDef(Kind::Word));
    }
    if name == b"bool".as_slice() {
        return Some(Token::KeyDef(Kind::Bool));
    }
    if name == b"in".as_slice() {
        return Some(Token::KeyIn);
    }
    None
}

/// The keyword with this spelling, or else a name.
fn word(alloc: Global, name: &[u8]) -> Result<Token, Memory>
    ensures { IfOk result (λ token. token ≡ spec.word name.now) }
{
    match keyword(name) {
        Some(token) => Ok(token),
        None => Ok(Token::Ident(Text::of(alloc, name)?)),
    }
}

/// A number as a word of 64 bits, if it is in range.
fn in_range(number: Number) -> Token
    ensures { result ≡ spec.in_range (word_within (2 ^ 63) (2 ^ 63 - 1) number) }
{
    match number.word_within(1 << 63, (1 << 63) - 1) {
        Some(n) => Token::Number(n),
        None => Token::Wide,
    }
}

/// The symbol of two bytes in front, and what follows it.
#[tactic(auto, unfolding(y86_base::specs::Keyword::keyword_at))]
fn long_symbol(bytes: &[u8]) -> Option<(Token, &[u8])>
    ensures { MatchOption result (keyword_at spec.long_symbols bytes.now ≡ None)
        (λ x. keyword_at spec.long_symbols bytes.now ≡ Some (x.0, x.1.now)) }
{
    if let Some(behind) = bytes.strip_prefix(b"||") {
        return Some((Token::OrOr, behind));
    }
    if let Some(behind) = bytes.strip_prefix(b"&&") {
        return Some((Token::AndAnd, behind));
    }
    if let Some(behind) = bytes.strip_prefix(b"==") {
        return Some((Token::Compare(CmpOp::Eq), behind));
    }
    if let Some(behind) = bytes.strip_prefix(b"!=") {
        return Some((Token::Compare(CmpOp::Ne), behind));
    }
    if let Some(behind) = bytes.strip_prefix(b"<=") {
        return Some((Token::Compare(CmpOp::Le), behind));
    }
    if let Some(behind) = bytes.strip_prefix(b">=") {
        return Some((Token::Compare(CmpOp::Ge), behind));
    }
    None
}

/// The symbol that consists of this byte.
#[tactic(auto, unfolding(y86_base::specs::Keyword::keyword_at))]
fn short_symbol(byte: u8) -> Option<Token>
    ensures { MatchOption result ((bytes : List ℕ) → keyword_at spec.short_symbols (byte ∷ bytes) ≡ None)
        (λ token. (bytes : List ℕ) → keyword_at spec.short_symbols (byte ∷ bytes) ≡ Some (token, bytes)) }
{
    match byte {
        b'<' => Some(Token::Compare(CmpOp::Lt)),
        b'>' => Some(Token::Compare(CmpOp::Gt)),
        b'!' => Some(Token::Bang),
        b'=' => Some(Token::Assign),
        b';' => Some(Token::Semicolon),
        b',' => Some(Token::Comma),
        b':' => Some(Token::Colon),
        b'(' => Some(Token::OpenParen),
        b')' => Some(Token::CloseParen),
        b'{' => Some(Token::OpenBrace),
        b'}' => Some(Token::CloseBrace),
        b'[' => Some(Token::OpenBracket),
        b']' => Some(Token::CloseBracket),
        _ => None,
    }
}

/// The symbol in front, or a byte that begins no token, and what follows it.
fn symbol_or_stray<'a>(text: &'a [u8], byte: u8, bytes: &'a [u8]) -> (Token, &'a [u8])
    requires { text.now ≡ byte ∷ bytes.now }
    ensures token { result.0 ≡ (spec.symbol_or_stray byte bytes.now).0 }
    ensures behind { result.1.now ≡ (spec.symbol_or_stray byte bytes.now).1 }
{
    if let Some((token, behind)) = long_symbol(text) {
        return (token, behind);
    }
    match short_symbol(byte) {
        Some(token) => (token, bytes),
        None => {
            let nothing = bytes.split_at(bytes.len()).1;
            if b'!' <= byte && byte <= b'~' {
                (Token::Odd, nothing)
            } else {
                (Token::Bad, nothing)
            }
        }
    }
}

/// The text up to the closing quote, and what follows the quote.
fn split_quoted(bytes: &[u8]) -> Option<(&[u8], &[u8])>
    ensures { MatchOption result (spec.is_closed bytes.now ≡ false)
        (λ x. (spec.is_closed bytes.now ≡ true) × (x.0.now ≡ take_while spec.is_quoted bytes.now)
        × (x.1.now ≡ drop 1 (text.behind spec.is_quoted bytes.now))) }
{
    let (inside, rest) = bytes.split_at(quoted_length(bytes));
    match rest.split_first() {
        Some((b'\'', behind)) => Some((inside, behind)),
        _ => None,
    }
}

/// The token in front, and what follows it; None for an empty text.
#[tactic(auto, unfolding(crate::specs::Tokens::token))]
pub fn token(alloc: Global, text: &[u8]) -> Result<Option<(Token, &[u8])>, Memory>
    ensures { IfOk result (λ r. MatchOption r (text.now ≡ []) (λ x. spec.front text.now ≡ Some (x.0, x.1.now))) }
{
    let Some((first, bytes)) = text.split_first() else {
        return Ok(None);
    };
    let byte = *first;
    if is_letter(byte) {
        let (name, behind) = split_name(text);
        return match word(alloc, name) {
            Ok(token) => Ok(Some((token, behind))),
            Err(memory) => Err(memory),
        };
    }
    if byte == b'\'' {
        if let Some((inside, behind)) = split_quoted(bytes) {
            return match Text::of(alloc, inside) {
                Ok(text) => Ok(Some((Token::Quoted(text), behind))),
                Err(memory) => Err(memory),
            };
        }
    }
    if let Some((number, behind)) = decimal_at(text) {
        return Ok(Some((in_range(number), behind)));
    }
    Ok(Some(symbol_or_stray(text, byte, bytes)))
}
