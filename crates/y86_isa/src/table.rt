//! The instruction table: the row of each icode.
ghost use Rattle.std.specs.Prelude.{◌≡◌, ◌≤◌, length};
ghost use Rattle.y86_isa.specs.Table as table;

use crate::columns::{AluAColumn, AluBColumn, MemoryColumn, NextPcColumn, RegisterColumn, Row};
use y86_base::Variant;

/// The icode of halt (CS:APP 3e, figure 4.26).
pub const IHALT: u64 = 0;
/// The icode of nop; an instruction outside the memory is read as a nop.
pub const INOP: u64 = 1;
/// The icode of an invalid instruction.
pub const INVALID_ICODE: u64 = 15;

/// The number that means no register.
pub const NO_REGISTER: u64 = 15;
/// The number of `%rsp`.
pub const STACK_POINTER: u64 = 4;

/// A row of one byte with a dash in each column.
pub const DASH: Row = Row {
    length: 1,
    uses_a: false,
    uses_b: false,
    has_byte: false,
    has_const: false,
    ifun_top: 0,
    src_a: RegisterColumn::Dash,
    src_b: RegisterColumn::Dash,
    dst_e: RegisterColumn::Dash,
    dst_m: RegisterColumn::Dash,
    conditional: false,
    alu_a: AluAColumn::NoA,
    alu_b: AluBColumn::NoB,
    selects: false,
    sets_flags: false,
    memory: MemoryColumn::NoMem,
    next: NextPcColumn::Itself,
};

pub const HALT: Row = Row {
    ifun_top: 15,
    ..DASH
};

pub const NOP: Row = Row {
    ifun_top: 15,
    next: NextPcColumn::Fall,
    ..DASH
};

pub const RRMOVQ: Row = Row {
    length: 2,
    uses_a: true,
    uses_b: true,
    has_byte: true,
    ifun_top: 6,
    src_a: RegisterColumn::FieldA,
    dst_e: RegisterColumn::FieldB,
    conditional: true,
    alu_a: AluAColumn::ValA,
    alu_b: AluBColumn::Zero,
    next: NextPcColumn::Fall,
    ..DASH
};

pub const IRMOVQ: Row = Row {
    length: 10,
    uses_b: true,
    has_byte: true,
    has_const: true,
    ifun_top: 15,
    dst_e: RegisterColumn::FieldB,
    alu_a: AluAColumn::ValC,
    alu_b: AluBColumn::Zero,
    next: NextPcColumn::Fall,
    ..DASH
};

pub const RMMOVQ: Row = Row {
    length: 10,
    uses_a: true,
    uses_b: true,
    has_byte: true,
    has_const: true,
    ifun_top: 15,
    src_a: RegisterColumn::FieldA,
    src_b: RegisterColumn::FieldB,
    alu_a: AluAColumn::ValC,
    alu_b: AluBColumn::ValB,
    memory: MemoryColumn::StoreA,
    next: NextPcColumn::Fall,
    ..DASH
};

pub const MRMOVQ: Row = Row {
    length: 10,
    uses_a: true,
    uses_b: true,
    has_byte: true,
    has_const: true,
    ifun_top: 15,
    src_b: RegisterColumn::FieldB,
    dst_m: RegisterColumn::FieldA,
    alu_a: AluAColumn::ValC,
    alu_b: AluBColumn::ValB,
    memory: MemoryColumn::LoadE,
    next: NextPcColumn::Fall,
    ..DASH
};

pub const OPQ: Row = Row {
    length: 2,
    uses_a: true,
    uses_b: true,
    has_byte: true,
    ifun_top: 3,
    src_a: RegisterColumn::FieldA,
    src_b: RegisterColumn::FieldB,
    dst_e: RegisterColumn::FieldB,
    alu_a: AluAColumn::ValA,
    alu_b: AluBColumn::ValB,
    selects: true,
    sets_flags: true,
    next: NextPcColumn::Fall,
    ..DASH
};

pub const JXX: Row = Row {
    length: 9,
    has_const: true,
    ifun_top: 6,
    next: NextPcColumn::Branch,
    ..DASH
};

pub const CALL: Row = Row {
    length: 9,
    has_const: true,
    ifun_top: 15,
    src_b: RegisterColumn::Stack,
    dst_e: RegisterColumn::Stack,
    alu_a: AluAColumn::Minus8,
    alu_b: AluBColumn::ValB,
    memory: MemoryColumn::StoreP,
    next: NextPcColumn::Target,
    ..DASH
};

pub const RET: Row = Row {
    ifun_top: 15,
    src_a: RegisterColumn::Stack,
    src_b: RegisterColumn::Stack,
    dst_e: RegisterColumn::Stack,
    alu_a: AluAColumn::Plus8,
    alu_b: AluBColumn::ValB,
    memory: MemoryColumn::LoadA,
    next: NextPcColumn::Loaded,
    ..DASH
};

pub const PUSHQ: Row = Row {
    length: 2,
    uses_a: true,
    has_byte: true,
    ifun_top: 15,
    src_a: RegisterColumn::FieldA,
    src_b: RegisterColumn::Stack,
    dst_e: RegisterColumn::Stack,
    alu_a: AluAColumn::Minus8,
    alu_b: AluBColumn::ValB,
    memory: MemoryColumn::StoreA,
    next: NextPcColumn::Fall,
    ..DASH
};

pub const POPQ: Row = Row {
    length: 2,
    uses_a: true,
    has_byte: true,
    ifun_top: 15,
    src_a: RegisterColumn::Stack,
    src_b: RegisterColumn::Stack,
    dst_e: RegisterColumn::Stack,
    dst_m: RegisterColumn::FieldA,
    alu_a: AluAColumn::Plus8,
    alu_b: AluBColumn::ValB,
    memory: MemoryColumn::LoadA,
    next: NextPcColumn::Fall,
    ..DASH
};

/// `iaddq` (CS:APP 3e, exercises 4.51 and 4.52).
pub const IADDQ: Row = Row {
    length: 10,
    uses_b: true,
    has_byte: true,
    has_const: true,
    ifun_top: 15,
    src_b: RegisterColumn::FieldB,
    dst_e: RegisterColumn::FieldB,
    alu_a: AluAColumn::ValC,
    alu_b: AluBColumn::ValB,
    sets_flags: true,
    next: NextPcColumn::Fall,
    ..DASH
};

/// The number of icodes that have a row in the variant; they are the icodes below it.
pub fn icode_count(v: Variant) -> u64
    ensures { result ≡ length (table.rows v) }
{
    match v {
        Variant::Base => 12,
        Variant::Full => 13,
    }
}

/// The row of an icode in the instruction table; an icode that has none has the row of dashes.
#[tactic(auto, unfolding(crate::specs::Table::row))]
pub fn row(v: Variant, icode: u64) -> Row
    ensures row { result ≡ table.row v icode }
    ensures length { result.length ≤ 10 }
    ensures ifun_top { result.ifun_top ≤ 15 }
{
    if icode >= icode_count(v) {
        return DASH;
    }
    match icode {
        0 => HALT,
        1 => NOP,
        2 => RRMOVQ,
        3 => IRMOVQ,
        4 => RMMOVQ,
        5 => MRMOVQ,
        6 => OPQ,
        7 => JXX,
        8 => CALL,
        9 => RET,
        10 => PUSHQ,
        11 => POPQ,
        12 => IADDQ,
        _ => DASH,
    }
}
