//! Where the reader stops in a text, and what is open and expected there.
ghost use Rattle.std.specs.Prelude.{◌≡◌, ◌≢◌, ◌≤◌, IfOk, IfSome, MatchOption, length, nat_lt, reverse, take};
ghost use Rattle.std.specs.List.{prefix_len};
ghost use Rattle.y86_base.specs.Cursor.{column_behind, line_behind};
ghost use Rattle.hcl_read.specs.Read.{IsFault, ReadsAs};
ghost use Rattle.hcl_tree.specs.declared.tree.File.{File};
ghost use Rattle.hcl_read.specs.declared.fault.HclWhy.TheVariants.{Memory as OutOfMemory};
ghost use Rattle.hcl_faults.specs.Stops as spec;

use crate::brackets::open_brackets;
use crate::expected::expected_kinds;
use crate::kinds::TokenKind;
use crate::tokens::{TokenAt, token_list};
use hcl_read::{HclFault, HclWhy, read};
use std::alloc::Global;
use y86_base::{Cursor, Items, Memory};

/// Where the reader stops in a text: its fault; the number of bytes and of tokens before the place; all tokens of the
/// text; the kinds of token that could be there; and the brackets that are open there, the innermost last.
#[derive(Debug, Drop)]
pub struct Stopped {
    pub fault: HclFault,
    pub at: usize,
    pub index: usize,
    pub tokens: Items<TokenAt>,
    pub expected: Items<TokenKind>,
    pub open: Items<TokenAt>,
}

/// How many bytes are before a line and a column.
fn offset_of(text: &[u8], line: u64, column: u64) -> Option<usize>
    ensures { IfSome result (spec.IsPlace text.now line column) }
{
    let mut cursor = Cursor::new(text);
    let mut at = 0;
    'bytes: loop {
        if cursor.line() == line && cursor.col() == column {
            return Some(at);
        }
        match cursor.next() {
            None => return None,
            Some(_) => at += 1,
        }
    }
}

/// How many tokens begin before a place.
fn count_before(tokens: &[TokenAt], at: usize) -> usize
    ensures count { result ≡ prefix_len (λ token. nat_lt token.from at) tokens.now }
    ensures within { result ≤ length tokens.now }
{
    tokens.iter().take_while(|token| token.from < at).count()
}

/// Describes a place at which the reader stops.
fn described(alloc: Global, text: &[u8], fault: HclFault, at: usize) -> Result<Stopped, Memory>
    ensures { IfOk result (λ s. (s.fault ≡ fault) × (s.at ≡ at) × spec.Describes text.now s) }
{
    let tokens = match token_list(alloc, text) {
        Err(memory) => return Err(memory),
        Ok(tokens) => tokens,
    };
    let index = count_before(tokens.as_slice(), at);
    let expected = match expected_kinds(alloc, text, index) {
        Err(memory) => return Err(memory),
        Ok(expected) => expected,
    };
    let open = match open_brackets(alloc, tokens.as_slice().split_at(index).0) {
        Err(memory) => return Err(memory),
        Ok(open) => open,
    };
    Ok(Stopped {
        fault,
        at,
        index,
        tokens: Items::of(tokens),
        expected: Items::of(expected),
        open: Items::of(open),
    })
}

/// Where the reader stops in a text; `None` if the text is an HCL file.
#[tactic(auto, using(crate::proofs::StopLemmas::is_fault))]
pub fn stop_in(alloc: Global, text: &[u8]) -> Result<Option<Stopped>, Memory>
    ensures { IfOk result (λ r. MatchOption r ((file : File) × ReadsAs text.now file) (spec.IsStopped text.now)) }
{
    match read(alloc, text) {
        Ok(_) => Ok(None),
        Err(fault) => match fault.why {
            HclWhy::Memory => Err(Memory),
            _ => match offset_of(text, fault.line, fault.col) {
                None => Err(Memory),
                Some(at) => match described(alloc, text, fault, at) {
                    Err(memory) => Err(memory),
                    Ok(stopped) => Ok(Some(stopped)),
                },
            },
        },
    }
}

/// The tokens that begin before the place at which the reader stops are just those with which, by the fault, a file can
/// begin: no other token is in front, and the token at the place is the refused one.
pub fn law_of_fronts()
    ensures { spec.IndexIsOfFront }
{}
