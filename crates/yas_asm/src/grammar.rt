//! Reads the label and the statement of a line.
ghost use Rattle.yas_asm.specs.Sound.{IsSound};
ghost use Rattle.std.specs.Prelude.{IfOk, ◌≡◌, ◌*◌, ◌-◌, ◌^◌};
ghost use Rattle.yas_asm.specs.Grammar as grammar;
ghost use Rattle.yas_asm.specs.Tables as tables;
ghost use Rattle.yas_asm.specs.Reads.{LeavesRest};

use crate::comment::has_bad_byte;
use crate::fault::AsmWhy;
use crate::reader::Reader;
use crate::statement::{Directive, Operand, Operation, Parsed, Shape, Statement, Width};
use crate::tables::mnemonics;
use y86_base::{Number, Variant, meaning_of};

/// The greatest number that fits a width.
pub fn greatest(width: Width) -> u64
    ensures { result ≡ 2 ^ (8 * grammar.bytes_of width) - 1 }
{
    match width {
        Width::One => 0xff,
        Width::Two => 0xffff,
        Width::Four => 0xffff_ffff,
        Width::Eight => u64::MAX,
    }
}

/// The magnitude of the least number that fits a width.
fn least_magnitude(width: Width) -> u64
    ensures { result ≡ 2 ^ (8 * grammar.bytes_of width - 1) }
{
    match width {
        Width::One => 0x80,
        Width::Two => 0x8000,
        Width::Four => 0x8000_0000,
        Width::Eight => 0x8000_0000_0000_0000,
    }
}

/// A written number as a word of a width.
#[tactic(auto, unfolding(crate::specs::Grammar::word_of))]
fn word_of<'a>(width: Width, number: Number) -> Operand<'a>
    ensures { result ≡ grammar.word_of width number }
{
    match number.word_within(least_magnitude(width), greatest(width)) {
        Some(n) => Operand::Word(n),
        None => Operand::Wide,
    }
}

/// A number or a label, with an optional `$` in front.
#[tactic(auto, unfolding(crate::specs::Grammar::operand))]
fn operand<'a>(reader: &mut Reader<'a>, width: Width) -> Option<Operand<'a>>
    ensures { LeavesRest result (grammar.operand width reader.old) reader.new }
{
    reader.skip_sign(b'$');
    if let Some(number) = reader.number() {
        return Some(word_of(width, number));
    }
    Some(Operand::Label(reader.name()?))
}

/// The operand before a `(`; 0 if there is none.
#[tactic(auto, unfolding(crate::specs::Grammar::displacement))]
fn displacement<'a>(reader: &mut Reader<'a>) -> Option<Operand<'a>>
    ensures { LeavesRest result (grammar.displacement reader.old) reader.new }
{
    if reader.next_is(b'(') {
        return Some(Operand::Word(0));
    }
    operand(reader, Width::Eight)
}

/// A memory operand: its displacement and its base register.
#[tactic(auto, unfolding(crate::specs::Grammar::memory))]
fn memory<'a>(reader: &mut Reader<'a>) -> Option<(Operand<'a>, u8)>
    ensures { LeavesRest result (grammar.memory reader.old) reader.new }
{
    let displacement = displacement(reader)?;
    reader.sign(b'(')?;
    let base = reader.register()?;
    reader.sign(b')')?;
    Some((displacement, base))
}

/// A number that is not negative; the inner None means one of 2^64 or more.
#[tactic(auto, unfolding(crate::specs::Grammar::natural))]
fn natural(reader: &mut Reader) -> Option<Option<u64>>
    ensures { LeavesRest result (grammar.natural reader.old) reader.new }
{
    let number = reader.number()?;
    match number.magnitude {
        Some(0) => Some(Some(0)),
        magnitude if !number.negative => Some(magnitude),
        _ => None,
    }
}

#[tactic(auto, unfolding(crate::specs::Grammar::position_operand))]
fn position_operand<'a>(reader: &mut Reader) -> Option<Statement<'a>>
    ensures { LeavesRest result (grammar.position_operand reader.old) reader.new }
{
    match natural(reader)? {
        None => Some(Statement::Wide),
        Some(n) => Some(Statement::Position(n)),
    }
}

#[tactic(auto, unfolding(crate::specs::Grammar::align_operand))]
fn align_operand<'a>(reader: &mut Reader) -> Option<Statement<'a>>
    ensures { LeavesRest result (grammar.align_operand reader.old) reader.new }
{
    match natural(reader)? {
        None => Some(Statement::Wide),
        Some(0) => None,
        Some(n) => Some(Statement::Align(n)),
    }
}

#[tactic(auto, unfolding(crate::specs::Grammar::data_operand))]
fn data_operand<'a>(reader: &mut Reader<'a>, width: Width) -> Option<Statement<'a>>
    ensures { LeavesRest result (grammar.data_operand width reader.old) reader.new }
{
    let value = operand(reader, width)?;
    Some(Statement::Data { width, value })
}

#[tactic(auto, unfolding(crate::specs::Grammar::directive_operand))]
fn directive_operand<'a>(reader: &mut Reader<'a>, directive: Directive) -> Option<Statement<'a>>
    ensures { LeavesRest result (grammar.directive_operand directive reader.old) reader.new }
{
    match directive {
        Directive::Position => position_operand(reader),
        Directive::Align => align_operand(reader),
        Directive::Data(width) => data_operand(reader, width),
    }
}

/// An instruction; 15 marks a register field that is not used.
fn instruction<'a>(operation: Operation, r_a: u8, r_b: u8, constant: Operand<'a>) -> Statement<'a>
    ensures { result ≡ grammar.instruction operation r_a r_b constant.entry }
{
    let icode = operation.icode;
    let ifun = operation.ifun;
    Statement::Instruction {
        icode,
        ifun,
        r_a,
        r_b,
        constant,
    }
}

#[tactic(auto, unfolding(crate::specs::Grammar::two_registers))]
fn two_registers<'a>(reader: &mut Reader, operation: Operation) -> Option<Statement<'a>>
    ensures { LeavesRest result (grammar.two_registers operation reader.old) reader.new }
{
    let a = reader.register()?;
    reader.sign(b',')?;
    let b = reader.register()?;
    Some(instruction(operation, a, b, Operand::Word(0)))
}

#[tactic(auto, unfolding(crate::specs::Grammar::immediate))]
fn immediate<'a>(reader: &mut Reader<'a>, operation: Operation) -> Option<Statement<'a>>
    ensures { LeavesRest result (grammar.immediate operation reader.old) reader.new }
{
    let value = operand(reader, Width::Eight)?;
    reader.sign(b',')?;
    let b = reader.register()?;
    Some(instruction(operation, 15, b, value))
}

#[tactic(auto, unfolding(crate::specs::Grammar::store))]
fn store<'a>(reader: &mut Reader<'a>, operation: Operation) -> Option<Statement<'a>>
    ensures { LeavesRest result (grammar.store operation reader.old) reader.new }
{
    let a = reader.register()?;
    reader.sign(b',')?;
    let (displacement, base) = memory(reader)?;
    Some(instruction(operation, a, base, displacement))
}

#[tactic(auto, unfolding(crate::specs::Grammar::load))]
fn load<'a>(reader: &mut Reader<'a>, operation: Operation) -> Option<Statement<'a>>
    ensures { LeavesRest result (grammar.load operation reader.old) reader.new }
{
    let (displacement, base) = memory(reader)?;
    reader.sign(b',')?;
    let destination = reader.register()?;
    Some(instruction(operation, destination, base, displacement))
}

#[tactic(auto, unfolding(crate::specs::Grammar::target))]
fn target<'a>(reader: &mut Reader<'a>, operation: Operation) -> Option<Statement<'a>>
    ensures { LeavesRest result (grammar.target operation reader.old) reader.new }
{
    let value = operand(reader, Width::Eight)?;
    Some(instruction(operation, 15, 15, value))
}

#[tactic(auto, unfolding(crate::specs::Grammar::single))]
fn single<'a>(reader: &mut Reader, operation: Operation) -> Option<Statement<'a>>
    ensures { LeavesRest result (grammar.single operation reader.old) reader.new }
{
    let a = reader.register()?;
    Some(instruction(operation, a, 15, Operand::Word(0)))
}

/// The operands of a mnemonic.
#[tactic(auto, unfolding(crate::specs::Grammar::operands_of))]
fn operands_of<'a>(reader: &mut Reader<'a>, operation: Operation) -> Option<Statement<'a>>
    ensures { LeavesRest result (grammar.operands_of operation reader.old) reader.new }
{
    match operation.shape {
        Shape::Alone => Some(instruction(operation, 15, 15, Operand::Word(0))),
        Shape::Registers => two_registers(reader, operation),
        Shape::Immediate => immediate(reader, operation),
        Shape::Store => store(reader, operation),
        Shape::Load => load(reader, operation),
        Shape::Target => target(reader, operation),
        Shape::Single => single(reader, operation),
    }
}

/// The operation that a name means as a mnemonic.
#[tactic(auto, unfolding(crate::specs::Tables::mnemonic))]
pub fn mnemonic(variant: Variant, name: &[u8]) -> Option<Operation>
    ensures { result ≡ tables.mnemonic variant name.now }
{
    meaning_of(mnemonics(variant), name)
}

/// A mnemonic with its operands.
#[tactic(auto, unfolding(crate::specs::Grammar::instruction_text))]
fn instruction_text<'a>(reader: &mut Reader<'a>, variant: Variant) -> Option<Statement<'a>>
    ensures { LeavesRest result (grammar.instruction_text variant reader.old) reader.new }
{
    let name = reader.name()?;
    let operation = mnemonic(variant, name.bytes())?;
    operands_of(reader, operation)
}

/// A directive or a mnemonic with its operands.
#[tactic(auto, unfolding(crate::specs::Grammar::statement))]
fn statement<'a>(reader: &mut Reader<'a>, variant: Variant) -> Option<Statement<'a>>
    ensures { LeavesRest result (grammar.statement variant reader.old) reader.new }
{
    match reader.directive() {
        Some(directive) => directive_operand(reader, directive),
        None => instruction_text(reader, variant),
    }
}

/// An optional statement up to the end of the line.
#[tactic(auto, unfolding(crate::specs::Grammar::last_statement))]
fn last_statement<'a>(reader: &mut Reader<'a>, variant: Variant) -> Option<Statement<'a>>
    ensures { result ≡ grammar.last_statement variant reader.old }
{
    if reader.ends() {
        return Some(Statement::Nothing);
    }
    let statement = statement(reader, variant)?;
    if reader.ends() { Some(statement) } else { None }
}

/// A well-formed line.
#[tactic(auto, unfolding(crate::specs::Grammar::line))]
fn line(variant: Variant, bytes: &[u8]) -> Option<Parsed<'_>>
    ensures { result ≡ grammar.line variant bytes.now }
{
    let mut reader = Reader::new(bytes);
    let label = reader.label();
    let statement = last_statement(&mut reader, variant)?;
    Some(Parsed { label, statement })
}

/// Whether a written number is outside its bounds.
#[tactic(auto, unfolding(crate::specs::Grammar::is_wide))]
fn is_wide(statement: &Statement) -> bool
    ensures { result ≡ grammar.is_wide statement.now }
{
    match statement {
        Statement::Wide => true,
        Statement::Instruction {
            constant: Operand::Wide,
            ..
        } => true,
        Statement::Data {
            value: Operand::Wide,
            ..
        } => true,
        _ => false,
    }
}

/// The content of a line, or the fault that it has of its own, without regard to other lines.
#[tactic(auto, unfolding(crate::specs::Grammar::read_line))]
pub fn read_line(variant: Variant, bytes: &[u8]) -> Result<Parsed<'_>, AsmWhy>
    ensures value { result ≡ grammar.read_line variant bytes.now }
    ensures sound { IfOk result (λ parsed. IsSound variant parsed.statement) }
{
    if has_bad_byte(bytes) {
        return Err(AsmWhy::BadByte);
    }
    let Some(parsed) = line(variant, bytes) else {
        return Err(AsmWhy::Syntax);
    };
    if is_wide(&parsed.statement) {
        return Err(AsmWhy::NumberTooWide);
    }
    Ok(parsed)
}
