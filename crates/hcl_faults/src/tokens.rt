//! The tokens of a text with their places.
ghost use Rattle.std.specs.Prelude.{◌≡◌, [], IfOk, MatchOption};
ghost use Rattle.hcl_read.specs.Tokens.{items};
ghost use Rattle.hcl_faults.specs.Places as spec;

use crate::kinds::{TokenKind, kind_of};
use hcl_read::{after_gap, token};
use std::alloc::Global;
use y86_base::{Memory, push};

/// A token of a text: its kind, and the number of bytes before it and up to its end. If no token begins there
/// (`BadByte`, `Stray`), the end is that of the text.
#[derive(Clone, Copy, Debug, PartialEq, Eq)]
pub struct TokenAt {
    pub kind: TokenKind,
    pub from: usize,
    pub to: usize,
}

/// The kind of the first token, the bytes from the token on, and the bytes after it; `None` if no token is left.
fn next_token(alloc: Global, rest: &[u8]) -> Result<Option<(TokenKind, &[u8], &[u8])>, Memory>
    ensures { IfOk result (λ r. MatchOption r (items rest.now ≡ []) (λ x. spec.IsNext rest.now x.0 x.1.now x.2.now)) }
{
    let here = after_gap(rest);
    match token(alloc, here) {
        Err(memory) => Err(memory),
        Ok(None) => Ok(None),
        Ok(Some((token, behind))) => Ok(Some((kind_of(&token), here, behind))),
    }
}

/// The tokens of a text in order. It stops after a byte that begins no token.
pub fn token_list(alloc: Global, text: &[u8]) -> Result<Vec<TokenAt>, Memory>
    ensures { IfOk result (λ list. list.items ≡ spec.token_list text.now) }
{
    let mut list = Vec::new(alloc);
    let mut rest = text;
    'tokens: loop {
        match next_token(alloc, rest) {
            Err(memory) => return Err(memory),
            Ok(None) => return Ok(list),
            Ok(Some((kind, here, behind))) => {
                let from = text.len() - here.len();
                let to = text.len() - behind.len();
                match push(&mut list, TokenAt { kind, from, to }) {
                    Ok(()) => rest = behind,
                    Err(memory) => return Err(memory),
                }
            }
        }
    }
}
