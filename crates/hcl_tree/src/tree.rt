//! The tree of a file: declarations, definitions and their expressions.
use crate::text::Text;
use y86_base::{Boxed, Items};

/// What a signal is: a word of 64 bits or a Boolean (HCL guide).
#[derive(Clone, Copy, Debug, PartialEq, Eq)]
pub enum Kind {
    Word,
    Bool,
}

/// A comparison: `==`, `!=`, `<`, `<=`, `>`, `>=`.
#[derive(Clone, Copy, Debug, PartialEq, Eq)]
pub enum CmpOp {
    Eq,
    Ne,
    Lt,
    Le,
    Gt,
    Ge,
}

/// An expression (CS:APP 3e, section 4.2.3 and the HCL guide).
#[derive(Debug, PartialEq, Drop)]
#[cycle(expression)]
pub enum Expr {
    /// A number from -2^63 to 2^63-1, a negative one as its two's complement.
    Num(u64),
    /// The name of a signal or of a constant.
    Name(Text),
    /// `! operand`
    Not(Boxed<Expr>),
    /// Two or more operands joined by `&&`, none of which is such a list without parentheses of its own.
    And(Items<Expr>),
    /// Two or more operands joined by `||`.
    Or(Items<Expr>),
    /// `left op right`
    Cmp(CmpOp, Boxed<Expr>, Boxed<Expr>),
    /// `left in { member, .. }`, with one or more members.
    In(Boxed<Expr>, Items<Expr>),
    /// `[ guard : value; .. ]`, with one or more branches.
    Case(Items<Branch>),
}

/// One line of a case list: `guard : value;`.
#[derive(Debug, PartialEq, Drop)]
#[cycle(expression)]
pub struct Branch {
    pub guard: Expr,
    pub value: Expr,
}

/// One item of a file.
#[derive(Debug, PartialEq, Drop)]
pub enum Item {
    /// `quote 'text'`: text for the C program, kept and without effect.
    Quote(Text),
    /// `wordsig name 'text'` or `boolsig name 'text'`; `intsig` is read as `wordsig`. It binds a name of the
    /// datapath to its text in C.
    Decl { kind: Kind, name: Text, text: Text },
    /// `word name = body;` or `bool name = body;`; `int` is read as `word`.
    Def { kind: Kind, name: Text, body: Expr },
}

/// The items of a file, in text order.
#[derive(Debug, PartialEq, Drop)]
pub struct File {
    pub items: Items<Item>,
}
