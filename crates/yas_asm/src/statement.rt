//! Statements of the assembly language.
use crate::name::Name;

/// The number of bytes in which a number or a label is emitted, the lowest first.
#[derive(Clone, Copy, Debug)]
pub enum Width {
    One,
    Two,
    Four,
    Eight,
}

/// The operands that a mnemonic takes, in the order in which they are written.
#[derive(Clone, Copy, Debug)]
pub enum Shape {
    /// None.
    Alone,
    /// `rA,rB`
    Registers,
    /// `V,rB`
    Immediate,
    /// `rA,D(rB)`
    Store,
    /// `D(rB),rA`
    Load,
    /// `V`
    Target,
    /// `rA`
    Single,
}

/// The operation of a mnemonic: its operands and the first byte of its instruction (CS:APP 3e, figure 4.2).
#[derive(Clone, Copy, Debug)]
pub struct Operation {
    pub shape: Shape,
    pub icode: u8,
    pub ifun: u8,
}

/// What a directive does.
#[derive(Clone, Copy, Debug)]
pub enum Directive {
    Position,
    Align,
    Data(Width),
}

/// A number or a label as an operand.
#[derive(Drop)]
pub enum Operand<'a> {
    /// A number within its bounds, modulo 2^64.
    Word(u64),
    /// A label by its name.
    Label(Name<'a>),
    /// A written number outside its bounds.
    Wide,
}

/// A statement of the assembly language. A line without one has `Nothing`.
#[derive(Drop)]
pub enum Statement<'a> {
    Nothing,
    Instruction {
        icode: u8,
        ifun: u8,
        r_a: u8,
        r_b: u8,
        constant: Operand<'a>,
    },
    Data {
        width: Width,
        value: Operand<'a>,
    },
    /// `.pos` with the address to go to.
    Position(u64),
    /// `.align` with a number of at least 1.
    Align(u64),
    /// `.pos` or `.align` with a number of 2^64 or more.
    Wide,
}

/// The content of a well-formed line.
#[derive(Drop)]
pub struct Parsed<'a> {
    pub label: Option<Name<'a>>,
    pub statement: Statement<'a>,
}
