//! The state of the reader between two tokens, and its step from one to the next.
ghost use Rattle.std.specs.Prelude.{◌≡◌, true, Ok, Err};
ghost use Rattle.hcl_read.specs.Machine as machine;
ghost use Rattle.hcl_read.specs.Steps.{Steps};
ghost use Rattle.hcl_read.specs.declared.state.ItemState.TheVariants.{Between, WantQuote, WantSignal, WantSignalText, WantName, WantAssign};

use crate::fault::HclWhy;
use crate::frames::ExprState;
use crate::stack::Stack;
use crate::steps::{body_step, refusal, start_level, with_last};
use crate::tokens::Token;
use hcl_tree::{Expr, File, Item, Kind, Text};
use std::alloc::Global;
use y86_base::Items;

/// The effect of a token of a body: the next state in the body, or its end.
#[derive(Drop)]
pub enum BodyMove {
    On(ExprState, Stack),
    Ended(Expr),
}

/// What comes next in a file.
#[derive(Drop)]
pub enum ItemState {
    /// An item or the end.
    Between,
    /// The text after `quote`.
    WantQuote,
    /// The name of a declaration.
    WantSignal(Kind),
    /// The text of a declaration.
    WantSignalText(Kind, Text),
    /// The name of a definition.
    WantName(Kind),
    /// `=`
    WantAssign(Kind, Text),
    /// A part of a definition's body, inside the open brackets of a stack.
    Body(Kind, Text, ExprState, Stack),
}

/// The items that have been read, and what comes next.
#[derive(Drop)]
pub struct ReaderState {
    pub items: Items<Item>,
    pub place: ItemState,
}

/// The state with these items and this place.
fn at(items: Items<Item>, place: ItemState) -> ReaderState
    ensures { result ≡ machine.state items place }
{
    ReaderState { items, place }
}

/// The state before the first token.
pub fn start(alloc: Global) -> ReaderState
    ensures { result ≡ machine.start }
{
    at(Items::of(Vec::new(alloc)), ItemState::Between)
}

/// Reads a token at the beginning of an item.
#[tactic(auto, unfolding(crate::specs::Machine::place_step))]
fn begin_item(items: Items<Item>, token: Token) -> Result<ReaderState, HclWhy>
    ensures { Steps result (machine.place_step true items Between token) }
{
    match token {
        Token::KeyQuote => Ok(at(items, ItemState::WantQuote)),
        Token::KeySig(kind) => Ok(at(items, ItemState::WantSignal(kind))),
        Token::KeyDef(kind) => Ok(at(items, ItemState::WantName(kind))),
        other => Err(refusal(other)),
    }
}

/// Reads a token after `quote`.
#[tactic(auto, unfolding(crate::specs::Machine::place_step))]
fn quote_text(items: Items<Item>, token: Token) -> Result<ReaderState, HclWhy>
    ensures { Steps result (machine.place_step true items WantQuote token) }
{
    match token {
        Token::Quoted(text) => Ok(at(with_last(items, Item::Quote(text))?, ItemState::Between)),
        other => Err(refusal(other)),
    }
}

/// Reads a token in the place of a declaration's name.
#[tactic(auto, unfolding(crate::specs::Machine::place_step))]
fn signal_name(items: Items<Item>, kind: Kind, token: Token) -> Result<ReaderState, HclWhy>
    ensures { Steps result (machine.place_step true items (WantSignal kind) token) }
{
    match token {
        Token::Ident(name) => Ok(at(items, ItemState::WantSignalText(kind, name))),
        other => Err(refusal(other)),
    }
}

/// Reads a token in the place of a declaration's text.
#[tactic(auto, unfolding(crate::specs::Machine::place_step))]
fn signal_text(
    items: Items<Item>,
    kind: Kind,
    name: Text,
    token: Token,
) -> Result<ReaderState, HclWhy>
    ensures { Steps result (machine.place_step true items (WantSignalText kind name) token) }
{
    match token {
        Token::Quoted(text) => {
            let declaration = Item::Decl { kind, name, text };
            Ok(at(with_last(items, declaration)?, ItemState::Between))
        }
        other => Err(refusal(other)),
    }
}

/// Reads a token in the place of a definition's name.
#[tactic(auto, unfolding(crate::specs::Machine::place_step))]
fn defined_name(items: Items<Item>, kind: Kind, token: Token) -> Result<ReaderState, HclWhy>
    ensures { Steps result (machine.place_step true items (WantName kind) token) }
{
    match token {
        Token::Ident(name) => Ok(at(items, ItemState::WantAssign(kind, name))),
        other => Err(refusal(other)),
    }
}

/// Reads a token in the place of a definition's `=`.
#[tactic(auto, unfolding(crate::specs::Machine::place_step))]
fn assign(
    alloc: Global,
    items: Items<Item>,
    kind: Kind,
    name: Text,
    token: Token,
) -> Result<ReaderState, HclWhy>
    ensures { Steps result (machine.place_step true items (WantAssign kind name) token) }
{
    match token {
        Token::Assign => {
            let spot = ExprState::Want(start_level(alloc));
            Ok(at(items, ItemState::Body(kind, name, spot, Stack::new(alloc))))
        }
        other => Err(refusal(other)),
    }
}

/// The state after a token of a body.
#[tactic(auto, unfolding(crate::specs::Machine::moved))]
fn moved(items: Items<Item>, kind: Kind, name: Text, to: BodyMove) -> Result<ReaderState, HclWhy>
    ensures { Steps result (machine.moved items kind name (Ok to)) }
{
    match to {
        BodyMove::On(spot, stack) => Ok(at(items, ItemState::Body(kind, name, spot, stack))),
        BodyMove::Ended(body) => {
            let definition = Item::Def { kind, name, body };
            Ok(at(with_last(items, definition)?, ItemState::Between))
        }
    }
}

/// The state after a token.
#[tactic(auto, unfolding(crate::specs::Machine::place_step, crate::specs::Machine::moved))]
pub fn step(alloc: Global, state: ReaderState, token: Token) -> Result<ReaderState, HclWhy>
    ensures { Steps result (machine.step true state token) }
{
    let ReaderState { items, place } = state;
    match place {
        ItemState::Between => begin_item(items, token),
        ItemState::WantQuote => quote_text(items, token),
        ItemState::WantSignal(kind) => signal_name(items, kind, token),
        ItemState::WantSignalText(kind, name) => signal_text(items, kind, name, token),
        ItemState::WantName(kind) => defined_name(items, kind, token),
        ItemState::WantAssign(kind, name) => assign(alloc, items, kind, name, token),
        ItemState::Body(kind, name, spot, stack) => {
            moved(items, kind, name, body_step(alloc, spot, stack, token)?)
        }
    }
}

/// The file that has been read at the end of the text.
#[tactic(auto, unfolding(crate::specs::Machine::ended))]
pub fn ended(state: ReaderState) -> Result<File, HclWhy>
    ensures { Steps result (machine.ended state.items state.place) }
{
    match state.place {
        ItemState::Between => Ok(File { items: state.items }),
        _ => Err(HclWhy::Syntax),
    }
}
