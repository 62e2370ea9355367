//! Which kinds of token may follow some tokens, to say what was expected where the reader stops.
ghost use Rattle.std.specs.Prelude.{◌≡◌, ◌≢◌, IfOk, false, true, is_ok, take};
ghost use Rattle.hcl_read.specs.Machine as machine;
ghost use Rattle.hcl_read.specs.Steps.{Steps};
ghost use Rattle.hcl_read.specs.Tokens.{tokens};
ghost use Rattle.hcl_read.specs.declared.fault.HclWhy.TheVariants.{Memory as OutOfMemory};
ghost use Rattle.hcl_faults.specs.Expected as spec;
ghost use Rattle.hcl_faults.specs.Kinds as kinds;

use crate::kinds::{TokenKind, sample};
use hcl_read::{HclWhy, ReaderState, after_gap, start, step, token};
use std::alloc::Global;
use y86_base::{Memory, push};

/// The kinds of token that occur in files.
pub static FOLLOW_KINDS: [TokenKind; 21] = [
    TokenKind::Quote,
    TokenKind::Declaration,
    TokenKind::Definition,
    TokenKind::In,
    TokenKind::Name,
    TokenKind::Number,
    TokenKind::QuotedText,
    TokenKind::Assign,
    TokenKind::Semicolon,
    TokenKind::Or,
    TokenKind::And,
    TokenKind::Not,
    TokenKind::Comparison,
    TokenKind::OpenParenthesis,
    TokenKind::CloseParenthesis,
    TokenKind::OpenBrace,
    TokenKind::CloseBrace,
    TokenKind::OpenBracket,
    TokenKind::CloseBracket,
    TokenKind::Comma,
    TokenKind::Colon,
];

/// The kinds of token that occur in files.
#[tactic(auto, unfolding(crate::specs::Expected::file_kinds))]
fn file_kinds() -> &'static [TokenKind]
    ensures { result.now ≡ spec.file_kinds }
{
    &FOLLOW_KINDS
}

/// The state of the reader after the first tokens of a text.
fn state_behind(alloc: Global, text: &[u8], count: usize) -> Result<ReaderState, HclWhy>
    ensures { Steps result (machine.run 0 machine.start (take count (tokens text.now))) }
{
    let mut rest = text;
    let mut state = start(alloc);
    'tokens: for _done in 0..count {
        match token(alloc, after_gap(rest)) {
            Err(_) => return Err(HclWhy::Memory),
            Ok(None) => return Ok(state),
            Ok(Some((token, behind))) => match step(alloc, state, token) {
                Ok(next) => {
                    state = next;
                    rest = behind;
                }
                Err(why) => return Err(why),
            },
        }
    }
    Ok(state)
}

/// The answer if the reader refuses a token: no, unless memory was out.
fn refused(why: HclWhy) -> Result<bool, Memory>
    ensures { IfOk result (λ yes. (yes ≡ false) × (why ≢ OutOfMemory)) }
{
    match why {
        HclWhy::Memory => Err(Memory),
        _ => Ok(false),
    }
}

/// Drops a state that is not needed any more.
fn let_go(_state: ReaderState) -> bool
    ensures { result ≡ true }
{
    true
}

/// Whether the reader accepts a token of a kind.
#[tactic(auto, using(crate::proofs::Runs::refused_step))]
fn takes(alloc: Global, state: ReaderState, kind: TokenKind) -> Result<bool, Memory>
    ensures { IfOk result (λ yes. yes ≡ is_ok (machine.step true state (kinds.sample kind))) }
{
    match step(alloc, state, sample(alloc, kind)) {
        Ok(next) => Ok(let_go(next)),
        Err(why) => refused(why),
    }
}

/// Whether a token of a kind may follow the first tokens of a text.
fn can_follow(alloc: Global, text: &[u8], count: usize, kind: TokenKind) -> Result<bool, Memory>
    ensures { IfOk result (λ yes. yes ≡ spec.follows (take count (tokens text.now)) kind) }
{
    match state_behind(alloc, text, count) {
        Err(why) => refused(why),
        Ok(state) => takes(alloc, state, kind),
    }
}

/// The kinds of token that may follow the first tokens of a text: some file begins with these tokens and one of that
/// kind (`law_of_expected`).
pub fn expected_kinds(alloc: Global, text: &[u8], count: usize) -> Result<Vec<TokenKind>, Memory>
    ensures { IfOk result (λ list. list.items ≡ spec.expected text.now count) }
{
    let mut list = Vec::new(alloc);
    let kinds = file_kinds();
    for kind in kinds {
        match can_follow(alloc, text, count, *kind) {
            Err(memory) => return Err(memory),
            Ok(false) => {}
            Ok(true) => {
                match push(&mut list, *kind) {
                    Ok(()) => {}
                    Err(memory) => return Err(memory),
                }
            }
        }
    }
    Ok(list)
}

/// A kind of token may follow exactly if some file of the grammar begins with the tokens in front and one of that kind,
/// and keeps the limits on depth and numbers.
#[tactic(auto, using(crate::proofs::Runs::follows_in_files))]
pub fn law_of_expected()
    ensures { spec.FollowsInFiles }
{}
