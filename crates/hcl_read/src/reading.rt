//! The call that reads an HCL file, and its loop over the tokens.
ghost use Rattle.std.specs.Prelude.{◌≡◌, ◌≤◌, ℕ, List, [], length, take, IfOk, IfErr, Ok};
ghost use Rattle.y86_base.specs.Cursor.{column_behind, line_behind};
ghost use Rattle.hcl_tree.specs.declared.tree.File.{File};
ghost use Rattle.hcl_read.specs.Machine as machine;
ghost use Rattle.hcl_read.specs.Read.{IsReadAnswer, ReadsAs, IsReadFault};
ghost use Rattle.hcl_read.specs.Tokens as tokens;
ghost use Rattle.hcl_read.specs.Stops.{Refused, Stopped, TakesToken};

use crate::fault::{HclFault, HclWhy};
use crate::names::Names;
use crate::scan::{after_gap, token};
use crate::state::{ReaderState, ended, start, step};
use crate::tokens::Token;
use hcl_tree::File;
use std::alloc::Global;
use y86_base::Cursor;

/// Where the reader stops, after how many bytes, and why.
#[derive(Drop)]
pub struct ReadStop {
    pub at: usize,
    pub why: HclWhy,
}

/// Accepts a token, or refuses it.
#[tactic(auto, using(crate::proofs::Readings::refused))]
fn take_token(
    alloc: Global,
    state: ReaderState,
    names: &mut Names,
    token: Token,
) -> Result<ReaderState, HclWhy>
    requires { length names.old ≤ 256 }
    ensures taken { IfOk result (λ next. TakesToken names.old state token names.new next) }
    ensures refused { IfErr result (λ why. Refused names.old state token why) }
{
    let fits = match names.note(alloc, &token) {
        Ok(fits) => fits,
        Err(_) => return Err(HclWhy::Memory),
    };
    match step(alloc, state, token) {
        Ok(next) => {
            if fits {
                Ok(next)
            } else {
                Err(HclWhy::NamesOver256)
            }
        }
        Err(why) => Err(why),
    }
}

/// Reads the tokens of a text, one after another, and stops at the first that no file can have there.
fn read_tokens(alloc: Global, bytes: &[u8]) -> Result<File, ReadStop>
    ensures file { IfOk result (λ file. machine.outcome [] machine.start (tokens.tokens bytes.now) ≡ Ok file) }
    ensures stop { IfErr result (λ stop. Stopped bytes.now stop) }
    ensures within { IfErr result (λ stop. stop.at ≤ length bytes.now) }
{
    let mut rest = after_gap(bytes);
    let mut state = start(alloc);
    let mut names = Names::new(alloc);
    'tokens: loop {
        let at = bytes.len() - rest.len();
        match token(alloc, rest) {
            Err(_) => {
                let why = HclWhy::Memory;
                return Err(ReadStop { at, why });
            }
            Ok(None) => match ended(state) {
                Ok(file) => return Ok(file),
                Err(why) => return Err(ReadStop { at, why }),
            },
            Ok(Some((token, behind))) => match take_token(alloc, state, &mut names, token) {
                Ok(next) => {
                    state = next;
                    rest = after_gap(behind);
                }
                Err(why) => return Err(ReadStop { at, why }),
            },
        }
    }
}

/// The line and the column after some bytes.
fn place(before: &[u8]) -> (u64, u64)
    ensures line { result.0 ≡ line_behind before.now }
    ensures column { result.1 ≡ column_behind before.now }
{
    let mut cursor = Cursor::new(before);
    'bytes: while cursor.next().is_some() {}
    (cursor.line(), cursor.col())
}

/// The fault at a stop.
#[tactic(auto, using(crate::proofs::Readings::told))]
fn fault(bytes: &[u8], stop: ReadStop) -> HclFault
    requires stopped { Stopped bytes.now stop }
    requires within { stop.at ≤ length bytes.now }
    ensures { IsReadFault bytes.now result }
{
    let ReadStop { at, why } = stop;
    if why == HclWhy::Memory {
        return HclFault {
            line: 0,
            col: 0,
            why,
        };
    }
    let (line, col) = place(bytes.split_at(at).0);
    HclFault { line, col, why }
}

/// Reads an HCL file (CS:APP 3e, HCL guide). An `||` or `&&` list is one node of the tree; parentheses make no node.
/// It refuses more than 64 of `(`, `[`, `{` and `!` open around a token, and more than 256 different names.
pub fn read(alloc: Global, bytes: &[u8]) -> Result<File, HclFault>
    ensures found { IfOk result (λ file. ReadsAs bytes.now file) }
    ensures only { (file : File) → ReadsAs bytes.now file → IsReadAnswer result file }
    ensures fault { IfErr result (λ fault. IsReadFault bytes.now fault) }
{
    match read_tokens(alloc, bytes) {
        Ok(file) => Ok(file),
        Err(stop) => Err(fault(bytes, stop)),
    }
}
