//! Finds items and defined names among the tokens of an HCL text.
use crate::kinds::TokenKind;
use crate::tokens::TokenAt;

/// Whether a token begins an item.
fn begins_item(kind: TokenKind) -> bool {
    matches!(
        kind,
        TokenKind::Quote | TokenKind::Declaration | TokenKind::Definition
    )
}

/// The bytes of a token.
pub fn token_text<'a>(text: &'a [u8], token: &TokenAt) -> &'a [u8] {
    if token.from <= token.to && token.to <= text.len() {
        text.split_at(token.to).0.split_at(token.from).1
    } else {
        text.split_at(text.len()).1
    }
}

/// The position, in a list of tokens, of the first token of an item. Items are counted from 0.
pub fn item_start(tokens: &[TokenAt], item: usize) -> Option<usize> {
    let mut left = item;
    for (index, token) in tokens.iter().enumerate() {
        if begins_item(token.kind) {
            if left == 0 {
                return Some(index);
            }
            left -= 1;
        }
    }
    None
}

/// The position of the defined name in the first definition of a name, in the list of a text's tokens.
pub fn definition_name(text: &[u8], tokens: &[TokenAt], name: &[u8]) -> Option<usize> {
    let mut is_defined = false;
    for (index, token) in tokens.iter().enumerate() {
        if is_defined && token.kind == TokenKind::Name && token_text(text, token) == name {
            return Some(index);
        }
        is_defined = token.kind == TokenKind::Definition;
    }
    None
}
