//! Gates for the lines of bubbles.
#![tactic(auto, using(nets::proofs::Truths::begins_more), unfolding(crate::specs::Layout::fields_of))]

ghost use Rattle.std.specs.Prelude.{◌≡◌, ◌<◌, ◌≤◌, ◌+◌, ◌==◌, ◌&&◌, ◌||◌, length, IfOk};
ghost use Rattle.nets.specs.Nets.{ExtendsNet, IsGate, truth};
ghost use Rattle.pipe_fields.specs.Layout.{bit_count, fields_of};
ghost use Rattle.pipe_fields.specs.Allowed as spec;
ghost use Rattle.net_fields.specs.Spelling.{spelt};

use crate::places::{
    D_BACK, D_ICODE, D_IFUN, D_R_A, D_R_B, D_STAT, D_STOPS, D_TAKEN, E_BACK, E_CND, E_DST_E,
    E_DST_M, E_ICODE, E_IFUN, E_SRC_A, E_SRC_B, E_STAT, E_STOPS, M_BACK, M_DST_E, M_DST_M, M_ERROR,
    M_ICODE, M_IFUN, M_STAT, W_DST_E, W_DST_M, W_ICODE, W_STAT,
};
use net_fields::{BitRange, spells};
use nets::NetBuilder;
use y86_base::Memory;

/// The gate is true, and the field is the number.
fn and_is(b: &mut NetBuilder, all: u64, p: BitRange, n: u64) -> Result<u64, Memory>
    requires place { p.first + p.bits ≤ b.old.vars }
    requires gate { all < length b.old.gates }
    ensures extends { ExtendsNet b.old b.new }
    ensures has_truth { IfOk result (λ g. IsGate b.new g (λ w. truth b.old all w && spelt w p.first p.bits == n)) }
{
    let is = spells(b, p, n)?;
    b.and(all, is)
}

/// The status and the code of a bubble: a nop of status 0.
fn nop_code(
    b: &mut NetBuilder,
    stat: BitRange,
    icode: BitRange,
    ifun: BitRange,
) -> Result<u64, Memory>
    requires stat { stat.first + stat.bits ≤ b.old.vars }
    requires icode { icode.first + icode.bits ≤ b.old.vars }
    requires ifun { ifun.first + ifun.bits ≤ b.old.vars }
    ensures extends { ExtendsNet b.old b.new }
    ensures has_truth { IfOk result (λ g. IsGate b.new g (λ w.
        spelt w stat.first stat.bits == 0 && spelt w icode.first icode.bits == 1 && spelt w ifun.first ifun.bits == 0)) }
{
    let all = spells(b, stat, 0)?;
    let all = and_is(b, all, icode, 1)?;
    and_is(b, all, ifun, 0)
}

/// The line D of a bubble.
pub fn decode_bubble(b: &mut NetBuilder) -> Result<u64, Memory>
    requires vars { bit_count ≤ b.old.vars }
    ensures extends { ExtendsNet b.old b.new }
    ensures has_truth { IfOk result (λ g. IsGate b.new g (λ w. spec.decode_bubble (fields_of w).d)) }
{
    let all = nop_code(b, D_STAT, D_ICODE, D_IFUN)?;
    let all = and_is(b, all, D_R_A, 15)?;
    let all = and_is(b, all, D_R_B, 15)?;
    let all = and_is(b, all, D_TAKEN, 0)?;
    let all = and_is(b, all, D_STOPS, 0)?;
    and_is(b, all, D_BACK, 0)
}

/// The gate is true, and no register is named in E.
fn and_no_registers(b: &mut NetBuilder, all: u64) -> Result<u64, Memory>
    requires vars { bit_count ≤ b.old.vars }
    requires gate { all < length b.old.gates }
    ensures extends { ExtendsNet b.old b.new }
    ensures has_truth { IfOk result (λ g. IsGate b.new g (λ w.
        truth b.old all w && (fields_of w).e.dst_e == 15 && (fields_of w).e.dst_m == 15 && (fields_of w).e.src_a == 15 && (fields_of w).e.src_b == 15)) }
{
    let all = and_is(b, all, E_DST_E, 15)?;
    let all = and_is(b, all, E_DST_M, 15)?;
    let all = and_is(b, all, E_SRC_A, 15)?;
    and_is(b, all, E_SRC_B, 15)
}

/// The line E of a bubble.
pub fn execute_bubble(b: &mut NetBuilder) -> Result<u64, Memory>
    requires vars { bit_count ≤ b.old.vars }
    ensures extends { ExtendsNet b.old b.new }
    ensures has_truth { IfOk result (λ g. IsGate b.new g (λ w. spec.execute_bubble (fields_of w).e)) }
{
    let code = nop_code(b, E_STAT, E_ICODE, E_IFUN)?;
    let all = and_no_registers(b, code)?;
    let all = and_is(b, all, E_CND, 1)?;
    let all = and_is(b, all, E_STOPS, 0)?;
    and_is(b, all, E_BACK, 0)
}

/// The line M of a bubble.
pub fn memory_bubble(b: &mut NetBuilder) -> Result<u64, Memory>
    requires vars { bit_count ≤ b.old.vars }
    ensures extends { ExtendsNet b.old b.new }
    ensures has_truth { IfOk result (λ g. IsGate b.new g (λ w. spec.memory_bubble (fields_of w).m)) }
{
    let all = nop_code(b, M_STAT, M_ICODE, M_IFUN)?;
    let all = and_is(b, all, M_DST_E, 15)?;
    let all = and_is(b, all, M_DST_M, 15)?;
    let all = and_is(b, all, M_ERROR, 0)?;
    and_is(b, all, M_BACK, 0)
}

/// The line W of a bubble.
pub fn write_bubble(b: &mut NetBuilder) -> Result<u64, Memory>
    requires vars { bit_count ≤ b.old.vars }
    ensures extends { ExtendsNet b.old b.new }
    ensures has_truth { IfOk result (λ g. IsGate b.new g (λ w. spec.write_bubble (fields_of w).w)) }
{
    let all = spells(b, W_STAT, 0)?;
    let all = and_is(b, all, W_ICODE, 1)?;
    let all = and_is(b, all, W_DST_E, 15)?;
    and_is(b, all, W_DST_M, 15)
}
