//! The gate that is true exactly where each line is allowed in a control valuation.
#![tactic(auto, using(nets::proofs::Truths::begins_more), unfolding(crate::specs::Layout::fields_of, crate::specs::Lines::line_icode_allowed))]

ghost use Rattle.std.specs.Prelude.{◌≡◌, ◌<◌, ◌≤◌, ◌+◌, ◌==◌, ◌&&◌, ◌||◌, not, length, List, Bool, IfOk};
ghost use Rattle.nets.specs.Nets.{ExtendsNet, IsGate, truth};
ghost use Rattle.net_fields.specs.Icodes.{where_below};
ghost use Rattle.net_fields.specs.Spelling.{spelt};
ghost use Rattle.pipe_fields.specs.Allowed as spec;
ghost use Rattle.pipe_fields.specs.Layout.{bit_count, fields_of};
ghost use Rattle.pipe_fields.specs.Lines.{line_icode_allowed, line_row_allowed, icode_in};

use crate::bubbles::{decode_bubble, execute_bubble, memory_bubble, write_bubble};
use crate::lines::StageLine;
use crate::places::{D_ICODE, D_KIND, E_ICODE, E_KIND, F_ICODE, M_ICODE, M_KIND, W_ICODE, W_KIND};
use crate::row_allowed::{
    decode_row_allowed, execute_row_allowed, fetch_row_allowed, memory_row_allowed,
    write_row_allowed,
};
use net_fields::{BitRange, below, here, spells};
use nets::{NetBuilder, choose};
use y86_base::{Memory, Variant};
use y86_isa::{Row, icode_count, row};

/// Where the icode of a line is.
fn icode_place(line: StageLine) -> BitRange
    ensures is { (w : List Bool) → spelt w result.first result.bits ≡ icode_in line (fields_of w) }
    ensures within { result.first + result.bits ≤ bit_count }
    ensures bits { result.bits ≡ 4 }
{
    match line {
        StageLine::F => F_ICODE,
        StageLine::D => D_ICODE,
        StageLine::E => E_ICODE,
        StageLine::M => M_ICODE,
        StageLine::W => W_ICODE,
    }
}

/// The line is that of an instruction with this icode and row.
fn row_fits(
    b: &mut NetBuilder,
    line: StageLine,
    count: u64,
    icode: u64,
    row: &Row,
) -> Result<u64, Memory>
    requires vars { bit_count ≤ b.old.vars }
    requires top { row.now.ifun_top < 16 }
    ensures extends { ExtendsNet b.old b.new }
    ensures has_truth { IfOk result (λ g. IsGate b.new g (λ w. line_row_allowed line count icode row.now (fields_of w))) }
{
    match line {
        StageLine::F => fetch_row_allowed(b, count, icode, row),
        StageLine::D => decode_row_allowed(b, count, icode, row),
        StageLine::E => execute_row_allowed(b, count, icode, row),
        StageLine::M => memory_row_allowed(b, count, icode, row),
        StageLine::W => write_row_allowed(b, count, icode, row),
    }
}

/// If the line has this icode, it fits the icode's row.
#[tactic(auto, using(nets::proofs::Truths::begins_more), unfolding(crate::specs::Lines::line_icode_allowed))]
fn at_icode(b: &mut NetBuilder, v: Variant, line: StageLine, icode: u64) -> Result<u64, Memory>
    requires vars { bit_count ≤ b.old.vars }
    ensures extends { ExtendsNet b.old b.new }
    ensures has_truth { IfOk result (λ g. IsGate b.new g (λ w.
        not (icode_in line (fields_of w) == icode) || line_icode_allowed v line icode (fields_of w))) }
{
    let row = row(v, icode);
    let fits = row_fits(b, line, icode_count(v), icode, &row)?;
    let place = icode_place(line);
    here(b, place, icode, fits)
}

/// If the icode of the line is below a number, the line fits its row.
fn below_icode(b: &mut NetBuilder, v: Variant, line: StageLine, n: u64) -> Result<u64, Memory>
    requires vars { bit_count ≤ b.old.vars }
    ensures extends { ExtendsNet b.old b.new }
    ensures has_truth { IfOk result (λ g. IsGate b.new g (λ w.
        where_below n (icode_in line (fields_of w)) (λ k. line_icode_allowed v line k (fields_of w)))) }
{
    if n == 0 {
        return b.constant(true);
    }
    let earlier = below_icode(b, v, line, n - 1)?;
    let last = at_icode(b, v, line, n - 1)?;
    b.and(earlier, last)
}

/// The line of an instruction fits the row of its icode.
pub fn stage_line_allowed(b: &mut NetBuilder, v: Variant, line: StageLine) -> Result<u64, Memory>
    requires vars { bit_count ≤ b.old.vars }
    ensures extends { ExtendsNet b.old b.new }
    ensures has_truth { IfOk result (λ g. IsGate b.new g (λ w. line_icode_allowed v line (icode_in line (fields_of w)) (fields_of w))) }
{
    below_icode(b, v, line, 16)
}

/// The line of a stage is that of a bubble, or of an instruction of a kind that the stage can hold.
fn stage_allowed(
    b: &mut NetBuilder,
    kinds: u64,
    kind: BitRange,
    bubble: u64,
    fits: u64,
) -> Result<u64, Memory>
    requires place { kind.first + kind.bits ≤ b.old.vars }
    requires bubble { bubble < length b.old.gates }
    requires fits { fits < length b.old.gates }
    ensures extends { ExtendsNet b.old b.new }
    ensures has_truth { IfOk result (λ g. IsGate b.new g (λ w.
        spec.stage_allowed kinds (spelt w kind.first kind.bits) (truth b.old bubble w) (truth b.old fits w))) }
{
    let known = below(b, kind, kinds)?;
    let some = b.and(known, fits)?;
    let none = spells(b, kind, 0)?;
    choose(b, none, bubble, some)
}

/// The gate is true, and the line D is that of a control valuation.
fn and_decode(b: &mut NetBuilder, v: Variant, all: u64) -> Result<u64, Memory>
    requires vars { bit_count ≤ b.old.vars }
    requires gate { all < length b.old.gates }
    ensures extends { ExtendsNet b.old b.new }
    ensures has_truth { IfOk result (λ g. IsGate b.new g (λ w. truth b.old all w && spec.decode_allowed v (fields_of w).d)) }
{
    let fits = stage_line_allowed(b, v, StageLine::D)?;
    let bubble = decode_bubble(b)?;
    let line = stage_allowed(b, 3, D_KIND, bubble, fits)?;
    b.and(all, line)
}

/// The gate is true, and the line E is that of a control valuation.
fn and_execute(b: &mut NetBuilder, v: Variant, all: u64) -> Result<u64, Memory>
    requires vars { bit_count ≤ b.old.vars }
    requires gate { all < length b.old.gates }
    ensures extends { ExtendsNet b.old b.new }
    ensures has_truth { IfOk result (λ g. IsGate b.new g (λ w. truth b.old all w && spec.execute_allowed v (fields_of w).e)) }
{
    let fits = stage_line_allowed(b, v, StageLine::E)?;
    let bubble = execute_bubble(b)?;
    let line = stage_allowed(b, 3, E_KIND, bubble, fits)?;
    b.and(all, line)
}

/// The gate is true, and the line M is that of a control valuation.
fn and_memory(b: &mut NetBuilder, v: Variant, all: u64) -> Result<u64, Memory>
    requires vars { bit_count ≤ b.old.vars }
    requires gate { all < length b.old.gates }
    ensures extends { ExtendsNet b.old b.new }
    ensures has_truth { IfOk result (λ g. IsGate b.new g (λ w. truth b.old all w && spec.memory_allowed v (fields_of w).m)) }
{
    let fits = stage_line_allowed(b, v, StageLine::M)?;
    let bubble = memory_bubble(b)?;
    let line = stage_allowed(b, 2, M_KIND, bubble, fits)?;
    b.and(all, line)
}

/// The gate is true, and the line W is that of a control valuation.
fn and_write(b: &mut NetBuilder, v: Variant, all: u64) -> Result<u64, Memory>
    requires vars { bit_count ≤ b.old.vars }
    requires gate { all < length b.old.gates }
    ensures extends { ExtendsNet b.old b.new }
    ensures has_truth { IfOk result (λ g. IsGate b.new g (λ w. truth b.old all w && spec.write_allowed v (fields_of w).w)) }
{
    let fits = stage_line_allowed(b, v, StageLine::W)?;
    let bubble = write_bubble(b)?;
    let line = stage_allowed(b, 2, W_KIND, bubble, fits)?;
    b.and(all, line)
}

/// The lines are those of a control valuation.
pub fn allowed(b: &mut NetBuilder, v: Variant) -> Result<u64, Memory>
    requires vars { bit_count ≤ b.old.vars }
    ensures extends { ExtendsNet b.old b.new }
    ensures has_truth { IfOk result (λ g. IsGate b.new g (λ w. spec.allowed v (fields_of w))) }
{
    let f = stage_line_allowed(b, v, StageLine::F)?;
    let all = and_decode(b, v, f)?;
    let all = and_execute(b, v, all)?;
    let all = and_memory(b, v, all)?;
    and_write(b, v, all)
}
