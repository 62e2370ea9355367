//! Gates that compare fields with numbers and with one another. Each function returns a gate that is true exactly if
//! the function's comment is.
ghost use Rattle.std.specs.Prelude.{◌≡◌, ◌<◌, ◌≤◌, ◌+◌, ◌==◌, ◌||◌, not, nat_lt, length, get_or, false, IfOk};
ghost use Rattle.nets.specs.Nets.{ExtendsNet, IsGate, agree, truth};
ghost use Rattle.net_fields.specs.Spelling.{spelt};

use crate::field_specs::BitRange;
use nets::{NetBuilder, implies};
use y86_base::Memory;

/// The variable has this value.
pub fn bit_is(b: &mut NetBuilder, v: u32, want: bool) -> Result<u64, Memory>
    requires { v < b.old.vars }
    ensures extends { ExtendsNet b.old b.new }
    ensures has_truth { IfOk result (λ g. IsGate b.new g (λ w. agree want (get_or w v false))) }
{
    let x = b.variable(v)?;
    if want { Ok(x) } else { b.not(x) }
}

/// Two variables have the same value.
fn bits_same(b: &mut NetBuilder, v: u32, u: u32) -> Result<u64, Memory>
    requires first { v < b.old.vars }
    requires second { u < b.old.vars }
    ensures extends { ExtendsNet b.old b.new }
    ensures has_truth { IfOk result (λ g. IsGate b.new g (λ w. agree (get_or w v false) (get_or w u false))) }
{
    let x = b.variable(v)?;
    let y = b.variable(u)?;
    b.equal(x, y)
}

/// The field is the number.
pub fn spells(b: &mut NetBuilder, p: BitRange, n: u64) -> Result<u64, Memory>
    requires { p.first + p.bits ≤ b.old.vars }
    ensures extends { ExtendsNet b.old b.new }
    ensures has_truth { IfOk result (λ g. IsGate b.new g (λ w. spelt w p.first p.bits == n)) }
{
    if p.bits == 0 {
        return b.constant(n == 0);
    }
    let _vars = b.vars(); // brings its bound, so that no sum below wraps
    let bits = p.bits - 1;
    let last = bit_is(b, p.first + bits, n % 2 == 1)?;
    let first = p.first;
    let rest = spells(b, BitRange { first, bits }, n / 2)?;
    b.and(last, rest)
}

/// The field is below the number.
pub fn below(b: &mut NetBuilder, p: BitRange, n: u64) -> Result<u64, Memory>
    requires { p.first + p.bits ≤ b.old.vars }
    ensures extends { ExtendsNet b.old b.new }
    ensures has_truth { IfOk result (λ g. IsGate b.new g (λ w. nat_lt (spelt w p.first p.bits) n)) }
{
    if n == 0 {
        return b.constant(false);
    }
    let here = spells(b, p, n - 1)?;
    let rest = below(b, p, n - 1)?;
    b.or(here, rest)
}

/// Two fields have the same number.
pub fn same(b: &mut NetBuilder, p: BitRange, q: BitRange) -> Result<u64, Memory>
    requires first { p.first + p.bits ≤ b.old.vars }
    requires second { q.first + q.bits ≤ b.old.vars }
    ensures extends { ExtendsNet b.old b.new }
    ensures has_truth { IfOk result (λ g. IsGate b.new g (λ w. spelt w p.first p.bits == spelt w q.first q.bits)) }
{
    if p.bits == 0 {
        return spells(b, q, 0);
    }
    if q.bits == 0 {
        return spells(b, p, 0);
    }
    let _vars = b.vars(); // brings its bound, so that no sum below wraps
    let bits_p = p.bits - 1;
    let bits_q = q.bits - 1;
    let last = bits_same(b, p.first + bits_p, q.first + bits_q)?;
    let rest = same(
        b,
        BitRange {
            first: p.first,
            bits: bits_p,
        },
        BitRange {
            first: q.first,
            bits: bits_q,
        },
    )?;
    b.and(last, rest)
}

/// If the field is the number, the gate is true.
pub fn here(b: &mut NetBuilder, p: BitRange, n: u64, x: u64) -> Result<u64, Memory>
    requires place { p.first + p.bits ≤ b.old.vars }
    requires gate { x < length b.old.gates }
    ensures extends { ExtendsNet b.old b.new }
    ensures has_truth { IfOk result (λ g. IsGate b.new g (λ w. not (spelt w p.first p.bits == n) || truth b.old x w)) }
{
    let is = spells(b, p, n)?;
    implies(b, is, x)
}
