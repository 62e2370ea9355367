//! Samples of formulas of any size, to test and measure diagrams.
ghost use Rattle.std.specs.Prelude.{◌<◌};

use crate::wires::Wires;
use nets::Net;
use std::alloc::Global;

/// A gate of a net, and another: in a sample it is that of a variable after all others, which the first gate doesn't
/// use.
#[derive(Drop)]
pub struct Formula {
    pub net: Net,
    pub gate: u64,
    pub other: u64,
}

/// A kind of formula, of any size.
#[derive(Clone, Copy)]
pub enum Sample {
    /// Two adders of words with `size` bits have the same sums and carries.
    Adders,
    /// Both variables of at least one of `size` pairs are true.
    Pairs,
    /// An odd number of `size` variables is true, counted upwards and downwards.
    Parities,
    /// There are `size` queens on a board with as many rows, and none attacks another.
    Queens,
    /// Two words of `size` bits are equal. All bits of the first come before those of the second, so a diagram keeps
    /// the whole of the first: about three nodes for each of its values.
    Words,
}

impl Sample {
    /// The largest size.
    const MOST: u32 = 1000;

    /// The number of variables in a formula of a size.
    fn vars(self, size: u32) -> Option<u32> {
        if size == 0 || size > Sample::MOST {
            return None;
        }
        match self {
            Sample::Adders | Sample::Pairs | Sample::Words => Some(2 * size),
            Sample::Parities => Some(size),
            Sample::Queens => Some(size * size),
        }
    }

    /// The wire of the formula.
    fn wire(self, w: &mut Wires, size: u32) -> Option<u64> {
        match self {
            Sample::Adders => adders(w, size),
            Sample::Pairs => pairs(w, size),
            Sample::Parities => parities(w, size),
            Sample::Queens => queens(w, size),
            Sample::Words => words(w, size),
        }
    }

    /// The formula of a size, if there is one and memory for it.
    pub fn formula(self, alloc: Global, size: u32) -> Option<Formula> {
        let vars = self.vars(size)?;
        let mut wires = Wires::new(alloc, vars.checked_add(1)?);
        let gate = self.wire(&mut wires, size)?;
        let other = wires.variable(vars)?;
        Some(Formula {
            net: wires.finish(),
            gate,
            other,
        })
    }
}

/// The formulas of two texts in postfix notation: a digit is a variable, `!` negates the formula before it, and `&` and
/// `|` join the two before them.
pub fn formulas_of(alloc: Global, vars: u32, text: &str, other: &str) -> Option<Formula> {
    let mut wires = Wires::new(alloc, vars);
    let gate = postfix(&mut wires, text)?;
    let other = postfix(&mut wires, other)?;
    Some(Formula {
        net: wires.finish(),
        gate,
        other,
    })
}

/// The wire of such a text.
fn postfix(w: &mut Wires, text: &str) -> Option<u64> {
    let mut top = None;
    let mut below = [0u64; 8];
    let mut depth = 0usize;
    for byte in text.bytes() {
        let wire = match byte {
            b'!' => w.not(top?)?,
            b'&' | b'|' => {
                depth = depth.checked_sub(1)?;
                let left = *below.get(depth)?;
                if byte == b'&' {
                    w.and(left, top?)?
                } else {
                    w.or(left, top?)?
                }
            }
            digit => {
                if let Some(wire) = top {
                    *below.get_mut(depth)? = wire;
                    depth += 1;
                }
                w.variable((digit as u32).checked_sub(48)?)?
            }
        };
        top = Some(wire);
    }
    top
}

/// The sum of three bits and its carry, by exclusive or.
fn sum_by_parity(w: &mut Wires, a: u64, b: u64, carry: u64) -> Option<(u64, u64)> {
    let half = w.differ(a, b)?;
    let sum = w.differ(half, carry)?;
    let both = w.and(a, b)?;
    let through = w.and(half, carry)?;
    let next = w.or(both, through)?;
    Some((sum, next))
}

/// The carry of three bits: at least two of them are true.
fn carry_by_products(w: &mut Wires, a: u64, b: u64, carry: u64) -> Option<u64> {
    let ab = w.and(a, b)?;
    let ac = w.and(a, carry)?;
    let bc = w.and(b, carry)?;
    let some = w.or(ab, ac)?;
    w.or(some, bc)
}

/// The sum of three bits with their carry: one of them is true, or all are.
fn sum_by_products(w: &mut Wires, a: u64, b: u64, carry: u64, next: u64) -> Option<u64> {
    let two = w.and(a, b)?;
    let all = w.and(two, carry)?;
    let one = w.or(a, b)?;
    let any = w.or(one, carry)?;
    let fewer = w.not(next)?;
    let single = w.and(any, fewer)?;
    w.or(single, all)
}

/// The bits of the two words alternate, the lowest first.
fn adders(w: &mut Wires, bits: u32) -> Option<u64> {
    let mut same = w.constant(true)?;
    let mut left = w.constant(false)?;
    let mut right = left;
    for i in 0..bits {
        let a = w.variable(i.checked_mul(2)?)?;
        let b = w.variable(i.checked_mul(2)?.checked_add(1)?)?;
        let first = sum_by_parity(w, a, b, left)?;
        let next = carry_by_products(w, a, b, right)?;
        let second = sum_by_products(w, a, b, right, next)?;
        let sums = w.equal(first.0, second)?;
        same = w.and(same, sums)?;
        left = first.1;
        right = next;
    }
    let carries = w.equal(left, right)?;
    w.and(same, carries)
}

fn pairs(w: &mut Wires, count: u32) -> Option<u64> {
    let mut some = w.constant(false)?;
    for i in 0..count {
        let a = w.variable(i.checked_mul(2)?)?;
        let b = w.variable(i.checked_mul(2)?.checked_add(1)?)?;
        let both = w.and(a, b)?;
        some = w.or(some, both)?;
    }
    Some(some)
}

fn parities(w: &mut Wires, vars: u32) -> Option<u64> {
    let mut up = w.constant(false)?;
    let mut down = up;
    for i in 0..vars {
        let first = w.variable(i)?;
        up = w.differ(up, first)?;
        let last = w.variable(vars - 1 - i)?;
        down = w.differ(down, last)?;
    }
    w.equal(up, down)
}

fn words(w: &mut Wires, bits: u32) -> Option<u64> {
    let mut same = w.constant(true)?;
    for i in 0..bits {
        let a = w.variable(i)?;
        let b = w.variable(bits.checked_add(i)?)?;
        let equal = w.equal(a, b)?;
        same = w.and(same, equal)?;
    }
    Some(same)
}

/// Whether a queen on one square attacks another.
fn attacks(side: u32, first: u32, second: u32) -> bool
    requires { 0 < side }
{
    let rows = (second / side).abs_diff(first / side);
    let columns = (second % side).abs_diff(first % side);
    rows == 0 || columns == 0 || rows == columns
}

/// There is a queen in a row.
fn some_in_row(w: &mut Wires, side: u32, row: u32) -> Option<u64> {
    let mut some = w.constant(false)?;
    for column in 0..side {
        let square = w.variable(row.checked_mul(side)?.checked_add(column)?)?;
        some = w.or(some, square)?;
    }
    Some(some)
}

/// A square is empty, or it attacks no queen on a later square.
fn safe(w: &mut Wires, side: u32, first: u32, squares: u32) -> Option<u64>
    requires { 0 < side }
{
    let mut free = w.constant(true)?;
    for second in first..squares {
        if second != first && attacks(side, first, second) {
            let other = w.variable(second)?;
            let none = w.not(other)?;
            free = w.and(free, none)?;
        }
    }
    let queen = w.variable(first)?;
    let empty = w.not(queen)?;
    w.or(empty, free)
}

fn queens(w: &mut Wires, side: u32) -> Option<u64> {
    if side == 0 {
        return None;
    }
    let squares = side.checked_mul(side)?;
    let mut all = w.constant(true)?;
    for row in 0..side {
        let some = some_in_row(w, side, row)?;
        all = w.and(all, some)?;
    }
    for first in 0..squares {
        let safe = safe(w, side, first, squares)?;
        all = w.and(all, safe)?;
    }
    Some(all)
}
