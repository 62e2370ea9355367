//! How a token of an expression changes its state and its open brackets.
ghost use Rattle.std.specs.Prelude.{◌≡◌, ◌∷◌, ◌++◌, [], true, IfOk};
ghost use Rattle.hcl_read.specs.Grammar as grammar;
ghost use Rattle.hcl_read.specs.Machine as machine;
ghost use Rattle.hcl_read.specs.Depth.{level_behind};
ghost use Rattle.hcl_read.specs.Steps.{Steps};
ghost use Rattle.hcl_read.specs.declared.frames.ExprState.TheVariants.{Want};
ghost use Rattle.hcl_read.specs.declared.frames.Frame.TheVariants.{Set, Guard, Value};
ghost use Rattle.hcl_read.specs.declared.state.BodyMove.TheVariants.{On};

use crate::fault::HclWhy;
use crate::frames::{ExprState, Frame, Level, OperandSide};
use crate::stack::Stack;
use crate::state::BodyMove;
use crate::tokens::Token;
use hcl_tree::{Branch, Expr};
use std::alloc::Global;
use y86_base::{Boxed, Items, Memory, push};

/// A list with one more element at its end.
pub fn with_last<T: Drop>(items: Items<T>, last: T) -> Result<Items<T>, Memory>
    ensures { IfOk result (λ all. all ≡ items ++ last ∷ []) }
{
    let mut vec = items.into_vec();
    push(&mut vec, last)?;
    Ok(Items::of(vec))
}

/// The reason for a token that cannot occur where it is.
#[tactic(auto, unfolding(crate::specs::Machine::refusal))]
pub fn refusal(token: Token) -> HclWhy
    ensures { result ≡ machine.refusal token }
{
    match token {
        Token::Bad => HclWhy::BadByte,
        _ => HclWhy::Syntax,
    }
}

/// The level of an expression at its beginning.
pub fn start_level(alloc: Global) -> Level
    ensures { result ≡ machine.start_level }
{
    Level {
        nots: 0,
        ands: Items::of(Vec::new(alloc)),
        ors: Items::of(Vec::new(alloc)),
    }
}

/// An expression after some `!`s.
fn negate(alloc: Global, nots: u64, e: Expr) -> Result<Expr, Memory>
    ensures { IfOk result (λ all. all ≡ machine.negate nots e) }
{
    let mut all = e;
    for _i in 0..nots {
        all = Expr::Not(Boxed::of(alloc, all)?);
    }
    Ok(all)
}

/// The operands of an `||` list as one expression.
fn or_of(es: Items<Expr>) -> Expr
    ensures { result ≡ grammar.or_of es }
{
    let mut vec = es.into_vec();
    if vec.len() == 1 {
        if let Some(e) = vec.pop() {
            return e;
        }
    }
    Expr::Or(Items::of(vec))
}

/// The operands of an `&&` list as one expression.
fn and_of(es: Items<Expr>) -> Expr
    ensures { result ≡ grammar.and_of es }
{
    let mut vec = es.into_vec();
    if vec.len() == 1 {
        if let Some(e) = vec.pop() {
            return e;
        }
    }
    Expr::And(Items::of(vec))
}

/// The state after a comparison, or after a single operand in its place.
#[tactic(auto, unfolding(crate::specs::Machine::related))]
fn related(alloc: Global, level: Level, e: Expr) -> Result<ExprState, Memory>
    ensures { IfOk result (λ spot. spot ≡ machine.related level e) }
{
    let Level { nots, ands, ors } = level;
    let operand = negate(alloc, nots, e)?;
    Ok(ExprState::After(with_last(ands, operand)?, ors))
}

/// The state after an operand of a comparison.
#[tactic(auto, unfolding(crate::specs::Machine::put))]
fn put(alloc: Global, side: OperandSide, level: Level, e: Expr) -> Result<ExprState, Memory>
    ensures { IfOk result (λ spot. spot ≡ machine.put side level e) }
{
    match side {
        OperandSide::Left => Ok(ExprState::AfterPrim(Boxed::of(alloc, e)?, level)),
        OperandSide::Right(op, left) => {
            related(alloc, level, Expr::Cmp(op, left, Boxed::of(alloc, e)?))
        }
    }
}

/// Opens a bracket inside which an expression begins.
#[tactic(auto, unfolding(crate::specs::Machine::opened, crate::specs::Depth::depth))]
fn open_bracket(alloc: Global, stack: Stack, frame: Frame) -> Result<BodyMove, HclWhy>
    ensures { Steps result (machine.opened true (level_behind frame) stack (On (Want machine.start_level) (frame ∷ stack))) }
{
    let mut stack = stack;
    if stack.is_full(frame.nots()) {
        return Err(HclWhy::DepthOver64);
    }
    stack.push(frame)?;
    Ok(BodyMove::On(ExprState::Want(start_level(alloc)), stack))
}

/// Reads a token at the beginning of an operand of a comparison.
#[tactic(auto, unfolding(crate::specs::Machine::prim))]
fn prim(
    alloc: Global,
    side: OperandSide,
    level: Level,
    stack: Stack,
    token: Token,
) -> Result<BodyMove, HclWhy>
    ensures { Steps result (machine.prim true side level stack token) }
{
    let operand = match token {
        Token::OpenParen => return open_bracket(alloc, stack, Frame::Paren(side, level)),
        Token::OpenBracket => {
            let branches = Items::of(Vec::new(alloc));
            return open_bracket(alloc, stack, Frame::Guard(side, branches, level));
        }
        Token::Number(n) => Expr::Num(n),
        Token::Ident(text) => Expr::Name(text),
        Token::Wide => return Err(HclWhy::NumberTooWide),
        other => return Err(refusal(other)),
    };
    Ok(BodyMove::On(put(alloc, side, level, operand)?, stack))
}

/// Reads a token at the beginning of an operand of `&&`.
#[tactic(auto, unfolding(crate::specs::Machine::want, crate::specs::Machine::opened, crate::specs::Depth::depth))]
fn want(alloc: Global, level: Level, stack: Stack, token: Token) -> Result<BodyMove, HclWhy>
    ensures { Steps result (machine.want true level stack token) }
{
    match token {
        Token::Bang => {
            if stack.is_full(level.nots) {
                return Err(HclWhy::DepthOver64);
            }
            let Level { nots, ands, ors } = level;
            let negated = Level {
                nots: nots + 1,
                ands,
                ors,
            };
            Ok(BodyMove::On(ExprState::Want(negated), stack))
        }
        other => prim(alloc, OperandSide::Left, level, stack, other),
    }
}

/// A set that is being read: the operand before `in`, the members so far, and the level around the set.
#[derive(Drop)]
struct OpenSet {
    left: Boxed<Expr>,
    members: Items<Expr>,
    level: Level,
}

/// A case expression that is being read: its side, the branches so far, and the level around it.
#[derive(Drop)]
struct OpenCase {
    side: OperandSide,
    branches: Items<Branch>,
    level: Level,
}

/// Reads a token after a member of a set.
#[tactic(auto, unfolding(crate::specs::Machine::close))]
fn close_member(
    alloc: Global,
    e: Expr,
    set: OpenSet,
    stack: Stack,
    token: Token,
) -> Result<BodyMove, HclWhy>
    ensures { Steps result (machine.close e (Set set.left set.members set.level ∷ stack) token) }
{
    let OpenSet {
        left,
        members,
        level,
    } = set;
    let mut stack = stack;
    let spot = match token {
        Token::Comma => {
            stack.push(Frame::Set(left, with_last(members, e)?, level))?;
            ExprState::Want(start_level(alloc))
        }
        Token::CloseBrace => related(alloc, level, Expr::In(left, with_last(members, e)?))?,
        other => return Err(refusal(other)),
    };
    Ok(BodyMove::On(spot, stack))
}

/// Reads a token after a guard.
#[tactic(auto, unfolding(crate::specs::Machine::close))]
fn close_guard(
    alloc: Global,
    e: Expr,
    case: OpenCase,
    stack: Stack,
    token: Token,
) -> Result<BodyMove, HclWhy>
    ensures { Steps result (machine.close e (Guard case.side case.branches case.level ∷ stack) token) }
{
    let OpenCase {
        side,
        branches,
        level,
    } = case;
    let mut stack = stack;
    match token {
        Token::Colon => {
            stack.push(Frame::Value(side, branches, Boxed::of(alloc, e)?, level))?;
            Ok(BodyMove::On(ExprState::Want(start_level(alloc)), stack))
        }
        other => Err(refusal(other)),
    }
}

/// Reads a token after the value of a branch.
#[tactic(auto, unfolding(crate::specs::Machine::close))]
fn close_value(
    e: Expr,
    guard: Boxed<Expr>,
    case: OpenCase,
    stack: Stack,
    token: Token,
) -> Result<BodyMove, HclWhy>
    ensures { Steps result (machine.close e (Value case.side case.branches guard case.level ∷ stack) token) }
{
    let OpenCase {
        side,
        branches,
        level,
    } = case;
    match token {
        Token::Semicolon => {
            let guard = guard.into_inner();
            let branch = Branch { guard, value: e };
            let branches = with_last(branches, branch)?;
            Ok(BodyMove::On(ExprState::Cases(side, branches, level), stack))
        }
        other => Err(refusal(other)),
    }
}

/// Reads a token after an expression.
#[tactic(auto, unfolding(crate::specs::Machine::close))]
fn close(alloc: Global, e: Expr, stack: Stack, token: Token) -> Result<BodyMove, HclWhy>
    ensures { Steps result (machine.close e stack token) }
{
    let mut stack = stack;
    match stack.pop() {
        None => match token {
            Token::Semicolon => Ok(BodyMove::Ended(e)),
            other => Err(refusal(other)),
        },
        Some(Frame::Paren(side, level)) => match token {
            Token::CloseParen => Ok(BodyMove::On(put(alloc, side, level, e)?, stack)),
            other => Err(refusal(other)),
        },
        Some(Frame::Set(left, members, level)) => {
            let set = OpenSet {
                left,
                members,
                level,
            };
            close_member(alloc, e, set, stack, token)
        }
        Some(Frame::Guard(side, branches, level)) => {
            let case = OpenCase {
                side,
                branches,
                level,
            };
            close_guard(alloc, e, case, stack, token)
        }
        Some(Frame::Value(side, branches, guard, level)) => {
            let case = OpenCase {
                side,
                branches,
                level,
            };
            close_value(e, guard, case, stack, token)
        }
    }
}

/// Reads a token after an operand of `&&`, which is the last of the first list.
#[tactic(auto, unfolding(crate::specs::Machine::after))]
fn after(
    alloc: Global,
    ands: Items<Expr>,
    ors: Items<Expr>,
    stack: Stack,
    token: Token,
) -> Result<BodyMove, HclWhy>
    ensures { Steps result (machine.after ands ors stack token) }
{
    match token {
        Token::AndAnd => {
            let level = Level { nots: 0, ands, ors };
            Ok(BodyMove::On(ExprState::Want(level), stack))
        }
        Token::OrOr => {
            let ors = with_last(ors, and_of(ands))?;
            let level = Level {
                nots: 0,
                ands: Items::of(Vec::new(alloc)),
                ors,
            };
            Ok(BodyMove::On(ExprState::Want(level), stack))
        }
        other => {
            let whole = or_of(with_last(ors, and_of(ands))?);
            close(alloc, whole, stack, other)
        }
    }
}

/// Reads a token after a left operand of a comparison.
#[tactic(auto, unfolding(crate::specs::Machine::after_prim))]
fn after_prim(
    alloc: Global,
    e: Boxed<Expr>,
    level: Level,
    stack: Stack,
    token: Token,
) -> Result<BodyMove, HclWhy>
    ensures { Steps result (machine.after_prim e level stack token) }
{
    match token {
        Token::Compare(op) => Ok(BodyMove::On(ExprState::WantRight(op, e, level), stack)),
        Token::KeyIn => Ok(BodyMove::On(ExprState::WantSet(e, level), stack)),
        other => {
            let Level { nots, ands, ors } = level;
            let operand = negate(alloc, nots, e.into_inner())?;
            after(alloc, with_last(ands, operand)?, ors, stack, other)
        }
    }
}

/// Reads a token after `in`.
#[tactic(auto, unfolding(crate::specs::Machine::want_set))]
fn want_set(
    alloc: Global,
    e: Boxed<Expr>,
    level: Level,
    stack: Stack,
    token: Token,
) -> Result<BodyMove, HclWhy>
    ensures { Steps result (machine.want_set true e level stack token) }
{
    match token {
        Token::OpenBrace => {
            let members = Items::of(Vec::new(alloc));
            open_bracket(alloc, stack, Frame::Set(e, members, level))
        }
        other => Err(refusal(other)),
    }
}

/// Reads a token after a branch.
#[tactic(auto, unfolding(crate::specs::Machine::after_branch))]
fn after_branch(
    alloc: Global,
    side: OperandSide,
    branches: Items<Branch>,
    level: Level,
    stack: Stack,
    token: Token,
) -> Result<BodyMove, HclWhy>
    ensures { Steps result (machine.after_branch true side branches level stack token) }
{
    let mut stack = stack;
    match token {
        Token::CloseBracket => {
            let cases = Expr::Case(branches);
            Ok(BodyMove::On(put(alloc, side, level, cases)?, stack))
        }
        other => {
            stack.push(Frame::Guard(side, branches, level))?;
            want(alloc, start_level(alloc), stack, other)
        }
    }
}

/// Reads a token of a definition's body.
#[tactic(auto, unfolding(crate::specs::Machine::body_step))]
pub fn body_step(
    alloc: Global,
    spot: ExprState,
    stack: Stack,
    token: Token,
) -> Result<BodyMove, HclWhy>
    ensures { Steps result (machine.body_step true spot stack token) }
{
    match spot {
        ExprState::Want(level) => want(alloc, level, stack, token),
        ExprState::WantRight(op, left, level) => {
            prim(alloc, OperandSide::Right(op, left), level, stack, token)
        }
        ExprState::AfterPrim(e, level) => after_prim(alloc, e, level, stack, token),
        ExprState::After(ands, ors) => after(alloc, ands, ors, stack, token),
        ExprState::WantSet(e, level) => want_set(alloc, e, level, stack, token),
        ExprState::Cases(side, branches, level) => {
            after_branch(alloc, side, branches, level, stack, token)
        }
    }
}
