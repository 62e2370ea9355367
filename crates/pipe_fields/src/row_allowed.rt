//! Gates for the lines of instructions, where the icode is known.
#![tactic(auto, using(nets::proofs::Truths::begins_more), unfolding(crate::specs::Layout::fields_of, crate::specs::Allowed::fetch_row_allowed, crate::specs::Allowed::decode_row_allowed, crate::specs::Allowed::execute_row_allowed, crate::specs::Allowed::memory_row_allowed, crate::specs::Allowed::write_row_allowed))]

ghost use Rattle.std.specs.Prelude.{◌≡◌, ◌<◌, ◌≤◌, ◌+◌, ◌==◌, ◌&&◌, ◌||◌, length, IfOk};
ghost use Rattle.nets.specs.Nets.{ExtendsNet, IsGate, truth};
ghost use Rattle.pipe_fields.specs.Layout.{bit_count, fields_of};
ghost use Rattle.pipe_fields.specs.Allowed as spec;
ghost use Rattle.net_fields.specs.AllowedNumbers.{cnd_allowed_where, codes_allowed, destination_allowed, register_field_allowed, zero_unless, register_allowed};
ghost use Rattle.net_fields.specs.Spelling.{spelt};

use crate::places::{
    D_BACK, D_IFUN, D_KIND, D_R_A, D_R_B, D_STAT, D_STOPS, D_TAKEN, E_BACK, E_CND, E_DST_E,
    E_DST_M, E_IFUN, E_KIND, E_SRC_A, E_SRC_B, E_STAT, E_STOPS, F_BACK, F_ERROR, F_IFUN, F_STOPS,
    F_TAKEN, M_BACK, M_CND, M_DST_E, M_DST_M, M_ERROR, M_IFUN, M_KIND, M_STAT, W_DST_E, W_DST_M,
    W_STAT,
};
use net_fields::{
    BitRange, cnd_allowed, cnd_allowed_where, codes_allowed, destination_allowed, reading_allowed,
    register_allowed, register_field_allowed, shares_register, spells, stat_allowed, zero_unless,
};
use nets::NetBuilder;
use y86_base::Memory;
use y86_isa::{RegisterColumn, Row, accesses, next_is_branch};

/// An instruction that is good and has no fault so far.
fn live(b: &mut NetBuilder, kind: BitRange, stat: BitRange) -> Result<u64, Memory>
    requires kind { kind.first + kind.bits ≤ b.old.vars }
    requires stat { stat.first + stat.bits ≤ b.old.vars }
    ensures extends { ExtendsNet b.old b.new }
    ensures has_truth { IfOk result (λ g. IsGate b.new g (λ w. spec.is_good_aok (spelt w kind.first kind.bits) (spelt w stat.first stat.bits))) }
{
    let good = spells(b, kind, 1)?;
    let fine = spells(b, stat, 1)?;
    b.and(good, fine)
}

/// The gate is true, and a hidden bit is 1 only in an instruction without fault for which a test holds.
fn and_live_only(
    b: &mut NetBuilder,
    all: u64,
    may: bool,
    kind: BitRange,
    stat: BitRange,
    bit: BitRange,
) -> Result<u64, Memory>
    requires kind { kind.first + kind.bits ≤ b.old.vars }
    requires stat { stat.first + stat.bits ≤ b.old.vars }
    requires bit { bit.first + bit.bits ≤ b.old.vars }
    requires gate { all < length b.old.gates }
    ensures extends { ExtendsNet b.old b.new }
    ensures has_truth { IfOk result (λ g. IsGate b.new g (λ w.
        truth b.old all w && zero_unless (spec.is_good_aok (spelt w kind.first kind.bits) (spelt w stat.first stat.bits) && may) (spelt w bit.first bit.bits))) }
{
    let live = live(b, kind, stat)?;
    let only = zero_unless(b, may, live, bit)?;
    b.and(all, only)
}

/// The gate is true, and a hidden bit is 1 only where a test holds.
fn and_only_if(b: &mut NetBuilder, all: u64, may: bool, bit: BitRange) -> Result<u64, Memory>
    requires bit { bit.first + bit.bits ≤ b.old.vars }
    requires gate { all < length b.old.gates }
    ensures extends { ExtendsNet b.old b.new }
    ensures has_truth { IfOk result (λ g. IsGate b.new g (λ w. truth b.old all w && zero_unless may (spelt w bit.first bit.bits))) }
{
    let always = b.constant(true)?;
    let only = zero_unless(b, may, always, bit)?;
    b.and(all, only)
}

/// A fetched jump is taken if its condition holds, and no other instruction is.
fn fetch_taken(
    b: &mut NetBuilder,
    jump: bool,
    ifun: BitRange,
    taken: BitRange,
) -> Result<u64, Memory>
    requires ifun { ifun.first + ifun.bits ≤ b.old.vars }
    requires taken { taken.first + taken.bits ≤ b.old.vars }
    ensures extends { ExtendsNet b.old b.new }
    ensures has_truth { IfOk result (λ g. IsGate b.new g (λ w. cnd_allowed_where jump (spelt w ifun.first ifun.bits) (spelt w taken.first taken.bits))) }
{
    let always = b.constant(true)?;
    cnd_allowed_where(b, jump, always, ifun, taken)
}

/// A jump without fault in D is taken if its condition holds, and no other instruction is.
fn decode_taken(b: &mut NetBuilder, jump: bool) -> Result<u64, Memory>
    requires vars { bit_count ≤ b.old.vars }
    ensures extends { ExtendsNet b.old b.new }
    ensures has_truth { IfOk result (λ g. IsGate b.new g (λ w.
        cnd_allowed_where (spec.is_good_aok (fields_of w).d.kind (fields_of w).d.stat && jump) (fields_of w).d.ifun (fields_of w).d.taken)) }
{
    let live = live(b, D_KIND, D_STAT)?;
    cnd_allowed_where(b, jump, live, D_IFUN, D_TAKEN)
}

/// The line F of an instruction of this icode.
pub fn fetch_row_allowed(
    b: &mut NetBuilder,
    count: u64,
    icode: u64,
    row: &Row,
) -> Result<u64, Memory>
    requires vars { bit_count ≤ b.old.vars }
    requires top { row.now.ifun_top < 16 }
    ensures extends { ExtendsNet b.old b.new }
    ensures has_truth { IfOk result (λ g. IsGate b.new g (λ w. spec.fetch_row_allowed count icode row.now (fields_of w).f)) }
{
    let read = reading_allowed(b, count, icode, row, F_ERROR, F_IFUN)?;
    let taken = fetch_taken(b, next_is_branch(row.next), F_IFUN, F_TAKEN)?;
    let all = b.and(read, taken)?;
    let all = and_only_if(b, all, accesses(row.memory), F_STOPS)?;
    and_only_if(b, all, next_is_branch(row.next), F_BACK)
}

/// Status, ifun and the halves of the register byte in D.
fn decode_code(b: &mut NetBuilder, count: u64, icode: u64, row: &Row) -> Result<u64, Memory>
    requires vars { bit_count ≤ b.old.vars }
    requires top { row.now.ifun_top < 16 }
    ensures extends { ExtendsNet b.old b.new }
    ensures has_truth { IfOk result (λ g. IsGate b.new g (λ w.
        codes_allowed count row.now (fields_of w).d.stat icode (fields_of w).d.ifun
        && register_field_allowed row.now.has_byte row.now.uses_a (fields_of w).d.r_a
        && register_field_allowed row.now.has_byte row.now.uses_b (fields_of w).d.r_b)) }
{
    let code = codes_allowed(b, count, icode, row, D_STAT, D_IFUN)?;
    let r_a = register_field_allowed(b, row.has_byte, row.uses_a, D_R_A)?;
    let all = b.and(code, r_a)?;
    let r_b = register_field_allowed(b, row.has_byte, row.uses_b, D_R_B)?;
    b.and(all, r_b)
}

/// The line D of an instruction of this icode.
pub fn decode_row_allowed(
    b: &mut NetBuilder,
    count: u64,
    icode: u64,
    row: &Row,
) -> Result<u64, Memory>
    requires vars { bit_count ≤ b.old.vars }
    requires top { row.now.ifun_top < 16 }
    ensures extends { ExtendsNet b.old b.new }
    ensures has_truth { IfOk result (λ g. IsGate b.new g (λ w. spec.decode_row_allowed count icode row.now (fields_of w).d)) }
{
    let code = decode_code(b, count, icode, row)?;
    let taken = decode_taken(b, next_is_branch(row.next))?;
    let all = b.and(code, taken)?;
    let all = and_live_only(b, all, accesses(row.memory), D_KIND, D_STAT, D_STOPS)?;
    and_live_only(b, all, next_is_branch(row.next), D_KIND, D_STAT, D_BACK)
}

/// The gate is true, and a field is a register number, or none, as the row's column requires.
fn and_register(
    b: &mut NetBuilder,
    all: u64,
    column: RegisterColumn,
    field: BitRange,
) -> Result<u64, Memory>
    requires field { field.first + field.bits ≤ b.old.vars }
    requires gate { all < length b.old.gates }
    ensures extends { ExtendsNet b.old b.new }
    ensures has_truth { IfOk result (λ g. IsGate b.new g (λ w. truth b.old all w && register_allowed column (spelt w field.first field.bits))) }
{
    let fits = register_allowed(b, column, field)?;
    b.and(all, fits)
}

/// The register numbers in E.
fn registers_allowed(b: &mut NetBuilder, row: &Row) -> Result<u64, Memory>
    requires vars { bit_count ≤ b.old.vars }
    ensures extends { ExtendsNet b.old b.new }
    ensures has_truth { IfOk result (λ g. IsGate b.new g (λ w. spec.registers_allowed row.now (fields_of w).e)) }
{
    let all = register_allowed(b, row.dst_e, E_DST_E)?;
    let all = and_register(b, all, row.dst_m, E_DST_M)?;
    let all = and_register(b, all, row.src_a, E_SRC_A)?;
    let all = and_register(b, all, row.src_b, E_SRC_B)?;
    let tied = shares_register(b, row, E_SRC_B, E_DST_E)?;
    b.and(all, tied)
}

/// The line E of an instruction of this icode.
pub fn execute_row_allowed(
    b: &mut NetBuilder,
    count: u64,
    icode: u64,
    row: &Row,
) -> Result<u64, Memory>
    requires vars { bit_count ≤ b.old.vars }
    requires top { row.now.ifun_top < 16 }
    ensures extends { ExtendsNet b.old b.new }
    ensures has_truth { IfOk result (λ g. IsGate b.new g (λ w. spec.execute_row_allowed count icode row.now (fields_of w).e)) }
{
    let code = codes_allowed(b, count, icode, row, E_STAT, E_IFUN)?;
    let registers = registers_allowed(b, row)?;
    let all = b.and(code, registers)?;
    let cnd = cnd_allowed(b, E_IFUN, E_CND)?;
    let all = b.and(all, cnd)?;
    let all = and_live_only(b, all, accesses(row.memory), E_KIND, E_STAT, E_STOPS)?;
    and_live_only(b, all, next_is_branch(row.next), E_KIND, E_STAT, E_BACK)
}

/// Status, ifun and the destinations in M.
fn memory_code(b: &mut NetBuilder, count: u64, icode: u64, row: &Row) -> Result<u64, Memory>
    requires vars { bit_count ≤ b.old.vars }
    requires top { row.now.ifun_top < 16 }
    ensures extends { ExtendsNet b.old b.new }
    ensures has_truth { IfOk result (λ g. IsGate b.new g (λ w.
        codes_allowed count row.now (fields_of w).m.stat icode (fields_of w).m.ifun
        && destination_allowed row.now (fields_of w).m.cnd (fields_of w).m.dst_e
        && register_allowed row.now.dst_m (fields_of w).m.dst_m)) }
{
    let code = codes_allowed(b, count, icode, row, M_STAT, M_IFUN)?;
    let dst_e = destination_allowed(b, row, M_CND, M_DST_E)?;
    let all = b.and(code, dst_e)?;
    and_register(b, all, row.dst_m, M_DST_M)
}

/// The line M of an instruction of this icode.
pub fn memory_row_allowed(
    b: &mut NetBuilder,
    count: u64,
    icode: u64,
    row: &Row,
) -> Result<u64, Memory>
    requires vars { bit_count ≤ b.old.vars }
    requires top { row.now.ifun_top < 16 }
    ensures extends { ExtendsNet b.old b.new }
    ensures has_truth { IfOk result (λ g. IsGate b.new g (λ w. spec.memory_row_allowed count icode row.now (fields_of w).m)) }
{
    let code = memory_code(b, count, icode, row)?;
    let cnd = cnd_allowed(b, M_IFUN, M_CND)?;
    let all = b.and(code, cnd)?;
    let all = and_live_only(b, all, accesses(row.memory), M_KIND, M_STAT, M_ERROR)?;
    and_live_only(b, all, next_is_branch(row.next), M_KIND, M_STAT, M_BACK)
}

/// The destination of valE in W. A conditional move whose condition didn't hold has none.
fn write_destination(b: &mut NetBuilder, row: &Row) -> Result<u64, Memory>
    requires vars { bit_count ≤ b.old.vars }
    ensures extends { ExtendsNet b.old b.new }
    ensures has_truth { IfOk result (λ g. IsGate b.new g (λ w.
        row.now.conditional && spelt w W_DST_E.first W_DST_E.bits == 15 || register_allowed row.now.dst_e (spelt w W_DST_E.first W_DST_E.bits))) }
{
    let register = register_allowed(b, row.dst_e, W_DST_E)?;
    if !row.conditional {
        return Ok(register);
    }
    let none = spells(b, W_DST_E, 15)?;
    b.or(none, register)
}

/// The line W of an instruction of this icode.
pub fn write_row_allowed(
    b: &mut NetBuilder,
    count: u64,
    icode: u64,
    row: &Row,
) -> Result<u64, Memory>
    requires vars { bit_count ≤ b.old.vars }
    ensures extends { ExtendsNet b.old b.new }
    ensures has_truth { IfOk result (λ g. IsGate b.new g (λ w. spec.write_row_allowed count icode row.now (fields_of w).w)) }
{
    let status = stat_allowed(b, count, accesses(row.memory), icode, W_STAT)?;
    let dst_e = write_destination(b, row)?;
    let all = b.and(status, dst_e)?;
    and_register(b, all, row.dst_m, W_DST_M)
}
