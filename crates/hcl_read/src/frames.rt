//! The levels and brackets that are open while an expression is read.
ghost use Rattle.std.specs.Prelude.{◌≡◌};
ghost use Rattle.hcl_read.specs.Depth.{level_behind};

use hcl_tree::{Branch, CmpOp, Expr};
use y86_base::{Boxed, Items};

/// What has been read of an expression on one level of brackets: the operands of its `||` list so far, those of
/// the current `&&` list, and how many `!`s precede the next operand.
#[derive(Drop)]
pub struct Level {
    pub nots: u64,
    pub ands: Items<Expr>,
    pub ors: Items<Expr>,
}

/// The side of an operand of a comparison: left, or right of an operator and its left operand.
#[derive(Drop)]
pub enum OperandSide {
    Left,
    Right(CmpOp, Boxed<Expr>),
}

/// An open bracket, with what was read before it and, so far, inside it.
#[derive(Drop)]
pub enum Frame {
    /// `(`
    Paren(OperandSide, Level),
    /// `{` of a set, with the left side of its `in` and the members read.
    Set(Boxed<Expr>, Items<Expr>, Level),
    /// `[`, in a guard, with the branches read.
    Guard(OperandSide, Items<Branch>, Level),
    /// `[`, in the value after a guard.
    Value(OperandSide, Items<Branch>, Boxed<Expr>, Level),
}

impl Frame {
    /// How many `!`s precede the operand that contains the bracket.
    pub fn nots(&self) -> u64
        ensures { result ≡ (level_behind self.now).nots }
    {
        match self {
            Frame::Paren(_, level) => level.nots,
            Frame::Set(_, _, level) => level.nots,
            Frame::Guard(_, _, level) => level.nots,
            Frame::Value(_, _, _, level) => level.nots,
        }
    }
}

/// What comes next in an expression.
#[derive(Drop)]
pub enum ExprState {
    /// An operand of `&&`.
    Want(Level),
    /// The right operand of a comparison.
    WantRight(CmpOp, Boxed<Expr>, Level),
    /// What may follow a left operand.
    AfterPrim(Boxed<Expr>, Level),
    /// What may follow an operand of `&&`, which is the last of the first list.
    After(Items<Expr>, Items<Expr>),
    /// `{`
    WantSet(Boxed<Expr>, Level),
    /// Another branch or `]`.
    Cases(OperandSide, Items<Branch>, Level),
}
