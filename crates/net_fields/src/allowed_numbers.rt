//! Gates for the numbers that the fields of an instruction can have, given its icode. Each function returns a gate that
//! is true exactly if the function's comment is.
ghost use Rattle.std.specs.Prelude.{◌≡◌, ◌<◌, ◌≤◌, ◌+◌, ◌==◌, ◌&&◌, ◌||◌, not, nat_le, length, IfOk};
ghost use Rattle.nets.specs.Nets.{ExtendsNet, IsGate, truth};
ghost use Rattle.net_fields.specs.AllowedNumbers as spec;
ghost use Rattle.net_fields.specs.Spelling.{spelt};

use crate::field_specs::BitRange;
use crate::gates::{below, same, spells};
use nets::{NetBuilder, choose, implies};
use y86_base::Memory;
use y86_isa::{RegisterColumn, Row, is_field_b};

/// The field is at most the number.
#[tactic(auto, using(nets::proofs::Truths::begins_more, crate::proofs::Fields::most_step))]
pub fn at_most(b: &mut NetBuilder, p: BitRange, most: u64) -> Result<u64, Memory>
    requires place { p.first + p.bits ≤ b.old.vars }
    requires most { most < 16 }
    ensures extends { ExtendsNet b.old b.new }
    ensures has_truth { IfOk result (λ g. IsGate b.new g (λ w. nat_le (spelt w p.first p.bits) most)) }
{
    below(b, p, most + 1)
}

/// The field is the number, and `holds` is true.
pub fn spells_if(b: &mut NetBuilder, holds: bool, p: BitRange, n: u64) -> Result<u64, Memory>
    requires { p.first + p.bits ≤ b.old.vars }
    ensures extends { ExtendsNet b.old b.new }
    ensures has_truth { IfOk result (λ g. IsGate b.new g (λ w. (spelt w p.first p.bits == n) && holds)) }
{
    if holds {
        spells(b, p, n)
    } else {
        b.constant(false)
    }
}

/// A bit is 1 only if the gate and `may` are true.
pub fn zero_unless(b: &mut NetBuilder, may: bool, live: u64, bit: BitRange) -> Result<u64, Memory>
    requires live { live < length b.old.gates }
    requires place { bit.first + bit.bits ≤ b.old.vars }
    ensures extends { ExtendsNet b.old b.new }
    ensures has_truth { IfOk result (λ g. IsGate b.new g (λ w. spec.zero_unless (truth b.old live w && may) (spelt w bit.first bit.bits))) }
{
    let clear = spells(b, bit, 0)?;
    if !may {
        return Ok(clear);
    }
    b.or(live, clear)
}

/// A bit can be the condition's result for an ifun: it is 1 for ifun 0, either for 1 to 6, and 0 for the others.
pub fn cnd_allowed(b: &mut NetBuilder, ifun: BitRange, cnd: BitRange) -> Result<u64, Memory>
    requires ifun { ifun.first + ifun.bits ≤ b.old.vars }
    requires cnd { cnd.first + cnd.bits ≤ b.old.vars }
    ensures extends { ExtendsNet b.old b.new }
    ensures has_truth { IfOk result (λ g. IsGate b.new g (λ w. spec.cnd_allowed (spelt w ifun.first ifun.bits) (spelt w cnd.first cnd.bits))) }
{
    let always = spells(b, ifun, 0)?;
    let clear = spells(b, cnd, 0)?;
    let known = below(b, ifun, 7)?;
    let free = b.or(known, clear)?;
    let set = b.not(clear)?;
    choose(b, always, set, free)
}

/// A bit can be the condition's result for an ifun if the gate and `may` are true, and is 0 otherwise.
pub fn cnd_allowed_where(
    b: &mut NetBuilder,
    may: bool,
    live: u64,
    ifun: BitRange,
    cnd: BitRange,
) -> Result<u64, Memory>
    requires live { live < length b.old.gates }
    requires ifun { ifun.first + ifun.bits ≤ b.old.vars }
    requires cnd { cnd.first + cnd.bits ≤ b.old.vars }
    ensures extends { ExtendsNet b.old b.new }
    ensures has_truth { IfOk result (λ g. IsGate b.new g (λ w.
        spec.cnd_allowed_where (truth b.old live w && may) (spelt w ifun.first ifun.bits) (spelt w cnd.first cnd.bits))) }
{
    let clear = spells(b, cnd, 0)?;
    if !may {
        return Ok(clear);
    }
    let fits = cnd_allowed(b, ifun, cnd)?;
    choose(b, live, fits, clear)
}

/// The field can be a register field of the register byte.
pub fn register_field_allowed(
    b: &mut NetBuilder,
    has_byte: bool,
    used: bool,
    p: BitRange,
) -> Result<u64, Memory>
    requires { p.first + p.bits ≤ b.old.vars }
    ensures extends { ExtendsNet b.old b.new }
    ensures has_truth { IfOk result (λ g. IsGate b.new g (λ w. spec.register_field_allowed has_byte used (spelt w p.first p.bits))) }
{
    if !has_byte {
        return spells(b, p, 15);
    }
    if used {
        return below(b, p, 15);
    }
    b.constant(true)
}

/// The field can be the number of the register that a column names.
pub fn register_allowed(
    b: &mut NetBuilder,
    field: RegisterColumn,
    p: BitRange,
) -> Result<u64, Memory>
    requires { p.first + p.bits ≤ b.old.vars }
    ensures extends { ExtendsNet b.old b.new }
    ensures has_truth { IfOk result (λ g. IsGate b.new g (λ w. spec.register_allowed field (spelt w p.first p.bits))) }
{
    match field {
        RegisterColumn::Dash => spells(b, p, 15),
        RegisterColumn::FieldA | RegisterColumn::FieldB => below(b, p, 15),
        RegisterColumn::Stack => spells(b, p, 4),
    }
}

/// The second source is the destination of valE if both are the field `rB`.
pub fn shares_register(
    b: &mut NetBuilder,
    row: &Row,
    src_b: BitRange,
    dst_e: BitRange,
) -> Result<u64, Memory>
    requires source { src_b.first + src_b.bits ≤ b.old.vars }
    requires destination { dst_e.first + dst_e.bits ≤ b.old.vars }
    ensures extends { ExtendsNet b.old b.new }
    ensures has_truth { IfOk result (λ g. IsGate b.new g (λ w. spec.shares_register row.now (spelt w src_b.first src_b.bits) (spelt w dst_e.first dst_e.bits))) }
{
    if is_field_b(row.src_b) && is_field_b(row.dst_e) {
        same(b, src_b, dst_e)
    } else {
        b.constant(true)
    }
}

/// The field can be the destination of valE after the condition.
pub fn destination_allowed(
    b: &mut NetBuilder,
    row: &Row,
    cnd: BitRange,
    dst_e: BitRange,
) -> Result<u64, Memory>
    requires cnd { cnd.first + cnd.bits ≤ b.old.vars }
    requires destination { dst_e.first + dst_e.bits ≤ b.old.vars }
    ensures extends { ExtendsNet b.old b.new }
    ensures has_truth { IfOk result (λ g. IsGate b.new g (λ w. spec.destination_allowed row.now (spelt w cnd.first cnd.bits) (spelt w dst_e.first dst_e.bits))) }
{
    let register = register_allowed(b, row.dst_e, dst_e)?;
    if !row.conditional {
        return Ok(register);
    }
    let lost = spells(b, cnd, 0)?;
    let none = spells(b, dst_e, 15)?;
    choose(b, lost, none, register)
}

/// The fields can be a fetched icode and ifun: a nop if there is an error, else an icode with an ifun that it takes.
pub fn reading_allowed(
    b: &mut NetBuilder,
    count: u64,
    icode: u64,
    row: &Row,
    error: BitRange,
    ifun: BitRange,
) -> Result<u64, Memory>
    requires error { error.first + error.bits ≤ b.old.vars }
    requires ifun { ifun.first + ifun.bits ≤ b.old.vars }
    requires top { row.now.ifun_top < 16 }
    ensures extends { ExtendsNet b.old b.new }
    ensures has_truth { IfOk result (λ g. IsGate b.new g (λ w.
        spec.reading_allowed count row.now (spelt w error.first error.bits) icode (spelt w ifun.first ifun.bits))) }
{
    let fine = spells(b, error, 0)?;
    let known = b.constant(icode < count || icode == 15)?;
    let outside = spells_if(b, icode == 1, ifun, 0)?;
    let read = choose(b, fine, known, outside)?;
    let most = at_most(b, ifun, row.ifun_top)?;
    b.and(read, most)
}

/// The status fits the icode.
pub fn stat_allowed(
    b: &mut NetBuilder,
    count: u64,
    faulted: bool,
    icode: u64,
    stat: BitRange,
) -> Result<u64, Memory>
    requires { stat.first + stat.bits ≤ b.old.vars }
    ensures extends { ExtendsNet b.old b.new }
    ensures has_truth { IfOk result (λ g. IsGate b.new g (λ w. spec.stat_allowed count faulted (spelt w stat.first stat.bits) icode)) }
{
    let running = spells_if(b, (0 < icode) & (icode < count), stat, 1)?;
    let halted = spells_if(b, icode == 0, stat, 2)?;
    let fine = b.or(running, halted)?;
    let outside = spells_if(b, (icode == 1) | faulted, stat, 3)?;
    let inside = b.or(fine, outside)?;
    let invalid = spells_if(b, icode == 15, stat, 4)?;
    b.or(inside, invalid)
}

/// An instruction outside the memory has ifun 0.
fn blank_outside(b: &mut NetBuilder, stat: BitRange, ifun: BitRange) -> Result<u64, Memory>
    requires stat { stat.first + stat.bits ≤ b.old.vars }
    requires ifun { ifun.first + ifun.bits ≤ b.old.vars }
    ensures extends { ExtendsNet b.old b.new }
    ensures has_truth { IfOk result (λ g. IsGate b.new g (λ w. not (spelt w stat.first stat.bits == 3) || spelt w ifun.first ifun.bits == 0)) }
{
    let outside = spells(b, stat, 3)?;
    let zero = spells(b, ifun, 0)?;
    implies(b, outside, zero)
}

/// The fields can be the status and ifun of an instruction of this icode after its fetch.
pub fn codes_allowed(
    b: &mut NetBuilder,
    count: u64,
    icode: u64,
    row: &Row,
    stat: BitRange,
    ifun: BitRange,
) -> Result<u64, Memory>
    requires stat { stat.first + stat.bits ≤ b.old.vars }
    requires ifun { ifun.first + ifun.bits ≤ b.old.vars }
    requires top { row.now.ifun_top < 16 }
    ensures extends { ExtendsNet b.old b.new }
    ensures has_truth { IfOk result (λ g. IsGate b.new g (λ w.
        spec.codes_allowed count row.now (spelt w stat.first stat.bits) icode (spelt w ifun.first ifun.bits))) }
{
    let status = stat_allowed(b, count, false, icode, stat)?;
    let most = at_most(b, ifun, row.ifun_top)?;
    let both = b.and(status, most)?;
    let blank = blank_outside(b, stat, ifun)?;
    b.and(both, blank)
}
