//! Finds the cases of definitions in an HCL text.
use finding_text::CasePlace;
use hcl_faults::{TokenAt, TokenKind, place_at, token_list};
use std::alloc::{AllocError, Global};

/// A walk along the tokens of a text: the definition that it is in, how many case lists are open, the number of the case and where
/// it begins.
#[derive(Drop)]
struct Walk<'a> {
    source: &'a [u8],
    signal: &'a str,
    depth: usize,
    number: usize,
    start: Option<usize>,
    found: Vec<CasePlace<'a>>,
}

/// The part of a text between two places; empty if there is none, or if it isn't UTF-8.
fn text_between<'a>(source: &'a [u8], from: usize, to: usize) -> &'a str {
    match source.get(from..to) {
        Some(bytes) => std::str::from_utf8(bytes).unwrap_or(""),
        None => "",
    }
}

impl<'a> Walk<'a> {
    /// Ends a case, at its semicolon.
    fn end_case(&mut self, to: usize) -> Result<(), AllocError> {
        if let Some(from) = self.start {
            if from <= self.source.len() {
                let place = place_at(self.source, from);
                self.found.push(CasePlace {
                    signal: self.signal,
                    number: self.number,
                    line: place.line,
                    column: place.column,
                    text: text_between(self.source, from, to),
                })?;
            }
        }
        self.number = self.number.wrapping_add(1);
        self.start = None;
        Ok(())
    }

    /// Passes a token.
    fn pass(&mut self, before: TokenKind, token: TokenAt) -> Result<(), AllocError> {
        if before == TokenKind::Definition {
            self.signal = text_between(self.source, token.from, token.to);
            self.depth = 0;
            self.start = None;
        }
        if self.depth > 0 && self.start.is_none() {
            self.start = Some(token.from);
        }
        match token.kind {
            TokenKind::OpenBracket => {
                if self.depth == 0 {
                    self.number = 0;
                }
                self.depth = self.depth.wrapping_add(1);
            }
            TokenKind::CloseBracket => self.depth = self.depth.saturating_sub(1),
            TokenKind::Semicolon => {
                if self.depth == 1 {
                    self.end_case(token.to)?;
                }
            }
            _ => {}
        }
        if self.depth == 0 {
            self.start = None;
        }
        Ok(())
    }
}

/// The cases of the outermost case list of each definition of a text.
pub fn case_places<'a>(alloc: Global, source: &'a [u8]) -> Result<Vec<CasePlace<'a>>, AllocError> {
    let Ok(tokens) = token_list(alloc, source) else {
        return Err(AllocError);
    };
    let mut walk = Walk {
        source,
        signal: "",
        depth: 0,
        number: 0,
        start: None,
        found: Vec::new(alloc),
    };
    let mut before = TokenKind::Semicolon;
    for token in tokens.as_slice() {
        walk.pass(before, *token)?;
        before = token.kind;
    }
    Ok(walk.found)
}
