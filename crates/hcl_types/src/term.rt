//! Expressions of HCL over the rows of a table.
use hcl_tree::CmpOp;
use y86_base::{Boxed, Items};

/// The position of a row of a table, from 0.
pub type NameId = u32;

/// An expression of HCL whose names are rows of a table (CS:APP 3e, section 4.2.3 and the HCL guide).
#[derive(Debug, PartialEq, Drop)]
#[cycle(term)]
pub enum Term {
    /// A word of 64 bits, a negative number as its two's complement.
    Num(u64),
    /// The value of a row.
    Name(NameId),
    /// `! operand`
    Not(Boxed<Term>),
    /// Operands joined by `&&`.
    And(Items<Term>),
    /// Operands joined by `||`.
    Or(Items<Term>),
    /// `left op right`
    Cmp(CmpOp, Boxed<Term>, Boxed<Term>),
    /// `left in { member, .. }`
    In(Boxed<Term>, Items<Term>),
    /// `[ guard : value; .. ]`
    Case(Items<TermBranch>),
}

/// One line of a case list: `guard : value;`.
#[derive(Debug, PartialEq, Drop)]
#[cycle(term)]
pub struct TermBranch {
    pub guard: Term,
    pub value: Term,
}
