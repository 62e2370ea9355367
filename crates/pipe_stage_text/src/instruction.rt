//! The text of an instruction, as the assembler reads it.
ghost use Rattle.std.specs.Prelude.{◌≡◌, ◌++◌, [], OnOk, slice_index_or};
ghost use Rattle.pipe_stage_text.specs.Instruction as text;

use crate::numbers::{put_address, put_register};
use crate::stage_content::StageContent;
use y86_base::{Memory, Variant, put, put_signed};
use y86_isa::{icode_count, row};

/// The operands of an instruction, in the order in which they are written.
#[derive(Clone, Copy, Debug, PartialEq, Eq)]
pub enum OperandShape {
    /// None.
    Alone,
    /// `rA, rB`
    Registers,
    /// `$V, rB`
    Immediate,
    /// `rA, D(rB)`
    Store,
    /// `D(rB), rA`
    Load,
    /// An address.
    Target,
    /// `rA`
    Single,
}

/// The operands of the instructions of an icode.
#[tactic(auto, unfolding(crate::specs::Instruction::shape_of))]
fn shape_of(icode: u64) -> OperandShape
    ensures { result ≡ text.shape_of icode }
{
    match icode {
        2 => OperandShape::Registers,
        3 => OperandShape::Immediate,
        4 => OperandShape::Store,
        5 => OperandShape::Load,
        6 => OperandShape::Registers,
        7 => OperandShape::Target,
        8 => OperandShape::Target,
        10 => OperandShape::Single,
        11 => OperandShape::Single,
        12 => OperandShape::Immediate,
        _ => OperandShape::Alone,
    }
}

/// Whether an icode and an ifun are those of an instruction.
fn is_valid(icode: u64, ifun: u64) -> bool
    ensures { result ≡ text.is_valid icode ifun }
{
    icode < icode_count(Variant::Full) && ifun <= row(Variant::Full, icode).ifun_top
}

#[tactic(auto, unfolding(crate::specs::Instruction::moves))]
fn move_name(ifun: u64) -> &'static [u8]
    ensures { result.now ≡ slice_index_or text.moves ifun [] }
{
    match ifun {
        0 => b"rrmovq",
        1 => b"cmovle",
        2 => b"cmovl",
        3 => b"cmove",
        4 => b"cmovne",
        5 => b"cmovge",
        6 => b"cmovg",
        _ => b"",
    }
}

#[tactic(auto, unfolding(crate::specs::Instruction::operations))]
fn operation_name(ifun: u64) -> &'static [u8]
    ensures { result.now ≡ slice_index_or text.operations ifun [] }
{
    match ifun {
        0 => b"addq",
        1 => b"subq",
        2 => b"andq",
        3 => b"xorq",
        _ => b"",
    }
}

#[tactic(auto, unfolding(crate::specs::Instruction::jumps))]
fn jump_name(ifun: u64) -> &'static [u8]
    ensures { result.now ≡ slice_index_or text.jumps ifun [] }
{
    match ifun {
        0 => b"jmp",
        1 => b"jle",
        2 => b"jl",
        3 => b"je",
        4 => b"jne",
        5 => b"jge",
        6 => b"jg",
        _ => b"",
    }
}

/// The name of an instruction.
#[tactic(auto, unfolding(crate::specs::Instruction::mnemonic))]
fn mnemonic(icode: u64, ifun: u64) -> &'static [u8]
    ensures { result.now ≡ text.mnemonic icode ifun }
{
    match icode {
        0 => b"halt",
        1 => b"nop",
        2 => move_name(ifun),
        3 => b"irmovq",
        4 => b"rmmovq",
        5 => b"mrmovq",
        6 => operation_name(ifun),
        7 => jump_name(ifun),
        8 => b"call",
        9 => b"ret",
        10 => b"pushq",
        11 => b"popq",
        12 => b"iaddq",
        _ => b"",
    }
}

/// Appends two registers.
fn put_registers(out: &mut Vec<u8>, held: &StageContent) -> Result<(), Memory>
    ensures { OnOk result (out.new.items ≡ out.old.items ++ text.two_registers held.now) }
{
    put(out, b" ")?;
    put_register(out, held.r_a)?;
    put(out, b", ")?;
    put_register(out, held.r_b)
}

/// Appends a constant and a register.
fn put_immediate(out: &mut Vec<u8>, held: &StageContent) -> Result<(), Memory>
    ensures { OnOk result (out.new.items ≡ out.old.items ++ text.immediate held.now) }
{
    put(out, b" $")?;
    put_signed(out, held.val_c)?;
    put(out, b", ")?;
    put_register(out, held.r_b)
}

/// Appends a place in memory.
fn put_place(out: &mut Vec<u8>, held: &StageContent) -> Result<(), Memory>
    ensures { OnOk result (out.new.items ≡ out.old.items ++ text.place held.now) }
{
    put_signed(out, held.val_c)?;
    put(out, b"(")?;
    put_register(out, held.r_b)?;
    put(out, b")")
}

/// Appends a register and a place in memory.
fn put_store(out: &mut Vec<u8>, held: &StageContent) -> Result<(), Memory>
    ensures { OnOk result (out.new.items ≡ out.old.items ++ text.store held.now) }
{
    put(out, b" ")?;
    put_register(out, held.r_a)?;
    put(out, b", ")?;
    put_place(out, held)
}

/// Appends a place in memory and a register.
fn put_load(out: &mut Vec<u8>, held: &StageContent) -> Result<(), Memory>
    ensures { OnOk result (out.new.items ≡ out.old.items ++ text.load held.now) }
{
    put(out, b" ")?;
    put_place(out, held)?;
    put(out, b", ")?;
    put_register(out, held.r_a)
}

/// Appends the target address of an instruction.
fn put_target(out: &mut Vec<u8>, held: &StageContent) -> Result<(), Memory>
    ensures { OnOk result (out.new.items ≡ out.old.items ++ text.target held.now) }
{
    put(out, b" ")?;
    put_address(out, held.val_c)
}

/// Appends one register.
fn put_single(out: &mut Vec<u8>, held: &StageContent) -> Result<(), Memory>
    ensures { OnOk result (out.new.items ≡ out.old.items ++ text.single held.now) }
{
    put(out, b" ")?;
    put_register(out, held.r_a)
}

/// Appends the operands of an instruction.
#[tactic(auto, unfolding(crate::specs::Instruction::operands))]
fn put_operands(out: &mut Vec<u8>, held: &StageContent) -> Result<(), Memory>
    ensures { OnOk result (out.new.items ≡ out.old.items ++ text.operands (text.shape_of held.now.icode) held.now) }
{
    match shape_of(held.icode) {
        OperandShape::Alone => Ok(()),
        OperandShape::Registers => put_registers(out, held),
        OperandShape::Immediate => put_immediate(out, held),
        OperandShape::Store => put_store(out, held),
        OperandShape::Load => put_load(out, held),
        OperandShape::Target => put_target(out, held),
        OperandShape::Single => put_single(out, held),
    }
}

/// Appends what a stage holds: an instruction with its operands, a bubble, or a fetch that failed.
#[tactic(auto, unfolding(crate::specs::Instruction::instruction))]
pub fn put_instruction(out: &mut Vec<u8>, held: &StageContent) -> Result<(), Memory>
    ensures { OnOk result (out.new.items ≡ out.old.items ++ text.instruction held.now) }
{
    if !held.live {
        return put(out, b"bubble");
    }
    if held.failed {
        return put(out, b"failed fetch");
    }
    if !is_valid(held.icode, held.ifun) {
        return put(out, b"invalid");
    }
    put(out, mnemonic(held.icode, held.ifun))?;
    put_operands(out, held)
}
