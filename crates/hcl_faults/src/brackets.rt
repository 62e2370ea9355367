//! The brackets that are open after some tokens: which ones the reader still expects to be closed.
ghost use Rattle.std.specs.Prelude.{◌≡◌, IfOk, OnOk, reverse};
ghost use Rattle.hcl_faults.specs.Brackets as spec;

use crate::kinds::TokenKind;
use crate::tokens::TokenAt;
use std::alloc::Global;
use y86_base::Memory;

/// Whether a token opens a bracket.
fn opens(kind: TokenKind) -> bool
    ensures { result ≡ spec.opens kind }
{
    matches!(
        kind,
        TokenKind::OpenParenthesis | TokenKind::OpenBrace | TokenKind::OpenBracket
    )
}

/// Whether a token closes a bracket.
fn closes(kind: TokenKind) -> bool
    ensures { result ≡ spec.closes kind }
{
    matches!(
        kind,
        TokenKind::CloseParenthesis | TokenKind::CloseBrace | TokenKind::CloseBracket
    )
}

/// Records a token that opens or closes a bracket. The innermost bracket is the last.
#[tactic(auto, unfolding(crate::specs::Brackets::behind_one), using(y86_base::proofs::Lists::reverse_push))]
fn note(open_ones: &mut Vec<TokenAt>, token: TokenAt) -> Result<(), Memory>
    ensures { OnOk result (reverse open_ones.new.items ≡ spec.behind_one (reverse open_ones.old.items) token) }
{
    if opens(token.kind) {
        if open_ones.push(token).is_err() {
            return Err(Memory);
        }
    } else if closes(token.kind) {
        let _ = open_ones.pop();
    }
    Ok(())
}

/// The brackets that are open after some tokens, the innermost last.
#[tactic(auto, unfolding(crate::specs::Brackets::open_behind))]
pub fn open_brackets(alloc: Global, tokens: &[TokenAt]) -> Result<Vec<TokenAt>, Memory>
    ensures { IfOk result (λ open_ones. reverse open_ones.items ≡ spec.open_brackets tokens.now) }
{
    let mut open_ones = Vec::new(alloc);
    for token in tokens {
        match note(&mut open_ones, *token) {
            Ok(()) => {}
            Err(memory) => return Err(memory),
        }
    }
    Ok(open_ones)
}
