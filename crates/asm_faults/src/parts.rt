//! The parts of a line: what the grammar requires, one after the other.
ghost use Rattle.std.specs.Prelude.{◌≡◌};
ghost use Rattle.asm_faults.specs.Parts as spec;

use yas_asm::{Directive, Shape};

/// What the grammar of a line requires next.
#[derive(Clone, Copy, Debug, PartialEq, Eq)]
pub enum Part {
    /// A mnemonic or a directive.
    Statement,
    /// The name of a register.
    Register,
    /// A number or a label, with an optional `$` in front.
    Value,
    /// The same, or nothing if `(` comes next.
    Displacement,
    Comma,
    OpenParenthesis,
    CloseParenthesis,
    /// A number that is not negative.
    Natural,
    /// A number that is at least 1.
    Positive,
    /// The end of the line. A comment may come before it.
    LineEnd,
}

static ALONE: [Part; 1] = [Part::LineEnd];

static REGISTERS: [Part; 4] = [Part::Register, Part::Comma, Part::Register, Part::LineEnd];

static IMMEDIATE: [Part; 4] = [Part::Value, Part::Comma, Part::Register, Part::LineEnd];

static STORE: [Part; 7] = [
    Part::Register,
    Part::Comma,
    Part::Displacement,
    Part::OpenParenthesis,
    Part::Register,
    Part::CloseParenthesis,
    Part::LineEnd,
];

static LOAD: [Part; 7] = [
    Part::Displacement,
    Part::OpenParenthesis,
    Part::Register,
    Part::CloseParenthesis,
    Part::Comma,
    Part::Register,
    Part::LineEnd,
];

static VALUE: [Part; 2] = [Part::Value, Part::LineEnd];

static SINGLE: [Part; 2] = [Part::Register, Part::LineEnd];

static POSITION: [Part; 2] = [Part::Natural, Part::LineEnd];

static ALIGN: [Part; 2] = [Part::Positive, Part::LineEnd];

/// The parts after a mnemonic whose operands have a shape.
pub fn parts_of_shape(shape: Shape) -> &'static [Part]
    ensures { result.now ≡ spec.parts_of_shape shape }
{
    match shape {
        Shape::Alone => &ALONE,
        Shape::Registers => &REGISTERS,
        Shape::Immediate => &IMMEDIATE,
        Shape::Store => &STORE,
        Shape::Load => &LOAD,
        Shape::Target => &VALUE,
        Shape::Single => &SINGLE,
    }
}

/// The parts after a directive.
pub fn parts_of_directive(directive: Directive) -> &'static [Part]
    ensures { result.now ≡ spec.parts_of_directive directive }
{
    match directive {
        Directive::Position => &POSITION,
        Directive::Align => &ALIGN,
        Directive::Data(_) => &VALUE,
    }
}
