//! Ranks of variables: the one with the smaller rank comes first.
ghost use Rattle.std.specs.Prelude.{◌<◌, IfSome, length};

use net_fields::BitRange;
use pipe_fields::{BIT_COUNT, FIELD_COUNT, places};

/// Whether a variable is a bit of a field.
fn is_in(field: BitRange, variable: u32) -> bool {
    field.first <= variable && variable - field.first < field.bits
}

/// The index in a list of the field that the variable is a bit of.
fn field_of(fields: &[BitRange], variable: u32) -> Option<usize>
    ensures { IfSome result (λ k. k < length fields.now) }
{
    for k in 0..fields.len() {
        if is_in(fields[k], variable) {
            return Some(k);
        }
    }
    None
}

/// Whether a variable is a bit of a register number.
fn is_register(variable: u32) -> bool {
    let registers = places::REGISTERS;
    field_of(&registers, variable).is_some()
}

/// The rank of a variable stage by stage: kinds first, then atoms, then the fields of each stage, its registers last.
pub fn stages_rank(variable: u32) -> usize
    ensures { result < 11 }
{
    let registers = if is_register(variable) { 1 } else { 0 };
    if variable < places::F_ERROR.first {
        0
    } else if variable < places::D_STAT.first {
        2
    } else if variable < places::E_STAT.first {
        3 + registers
    } else if variable < places::M_STAT.first {
        5 + registers
    } else if variable < places::W_STAT.first {
        7 + registers
    } else if variable < BIT_COUNT {
        9 + registers
    } else {
        1
    }
}

/// The number of fields that aren't register numbers.
const OTHER_COUNT: usize = FIELD_COUNT - places::REGISTER_COUNT;

/// The fields that aren't register numbers, stage by stage. If they are ordered by number instead, the certificate of a
/// pipeline without bypassing is twenty times as long.
const OTHERS: [BitRange; OTHER_COUNT] = [
    places::F_ERROR,
    places::F_ICODE,
    places::F_IFUN,
    places::F_TAKEN,
    places::F_STOPS,
    places::F_BACK,
    places::M_KIND,
    places::M_STAT,
    places::M_ICODE,
    places::M_IFUN,
    places::M_CND,
    places::M_ERROR,
    places::M_BACK,
    places::E_KIND,
    places::E_STAT,
    places::E_ICODE,
    places::E_IFUN,
    places::E_CND,
    places::E_STOPS,
    places::E_BACK,
    places::D_KIND,
    places::D_STAT,
    places::D_ICODE,
    places::D_IFUN,
    places::D_TAKEN,
    places::D_STOPS,
    places::D_BACK,
    places::W_KIND,
    places::W_STAT,
    places::W_ICODE,
];

/// The rank of bit `bit` of register field `k`, if `width` fields are interleaved.
fn woven_rank(width: usize, k: usize, bit: u32) -> usize
    requires { 0 < width }
{
    let group = (k / width).wrapping_mul(100);
    let row = (bit as usize).wrapping_mul(20);
    group.wrapping_add(row).wrapping_add(k % width)
}

/// The rank of a variable if registers come last, `width` of their fields interleaved: atoms first, then the other
/// fields, then these.
pub fn registers_last_rank(width: usize, variable: u32) -> usize
    requires { 0 < width }
{
    let registers = places::REGISTERS;
    if let Some(k) = field_of(&registers, variable) {
        let bit = variable.wrapping_sub(registers[k].first);
        return woven_rank(width, k, bit).wrapping_add(100);
    }
    let others = OTHERS;
    match field_of(&others, variable) {
        Some(k) => k.wrapping_add(1),
        None => 0,
    }
}

/// The rank if the icode in E comes first and registers last, four of their fields interleaved.
pub fn large_part_rank(variable: u32) -> usize {
    if is_in(places::E_ICODE, variable) {
        0
    } else {
        registers_last_rank(4, variable).wrapping_add(1)
    }
}
