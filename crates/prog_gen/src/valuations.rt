//! Control valuations of PIPE, drawn field by field.
ghost use Rattle.std.specs.Prelude.{◌≡◌, ◌<◌, ◌≤◌, ◌+◌, ◌++◌, [], ◌-◌, ◌^◌, drop, take, length};
ghost use Rattle.net_fields.specs.FieldSpecs.{pattern};
ghost use Rattle.pipe_fields.specs.Layout.{field_specs, bit_count, field_count};
ghost use Rattle.prog_gen.specs.Choices as spec;
ghost use Rattle.net_fields.specs.Spelling.{spell};

use crate::choices::choice;
use crate::draws::Draws;
use ctl_rules::Rules;
use nets::Valuation;
use pipe_fields::{BIT_COUNT, FIELD_COUNT, field_specs};
use y86_base::Variant;

/// Writes the bits of a number, the most significant one first.
fn put_bits(out: &mut [bool], first: u32, bits: u32, n: u64)
    requires room { first + bits ≤ length out.old }
    requires small { first + bits < 2 ^ 32 }
    ensures { out.new ≡ spec.with_field out.old first bits n }
{
    let mut left = n;
    let mut k = bits;
    while k > 0 {
        k -= 1;
        out[(first + k) as usize] = left % 2 == 1;
        left /= 2;
    }
}

/// Draws the fields in the order of the variables.
fn draw_fields(v: Variant, draws: &mut Draws, out: &mut [bool])
    requires { bit_count ≤ length out.old }
    ensures after { draws.new ≡ spec.word_behind field_count draws.old }
    ensures bits { out.new ≡ pattern field_specs (spec.numbers_drawn v field_count [] draws.old) [] ++ drop bit_count out.old }
{
    let mut numbers = [0u64; FIELD_COUNT];
    let fields = field_specs();
    let mut first = 0;
    for j in 0..FIELD_COUNT {
        let bits = fields[j].bits;
        let n = choice(v, &numbers[..j], bits, draws.draw());
        numbers[j] = n;
        put_bits(out, first, bits, n);
        first += bits;
    }
}

/// Draws truths after the first ones.
fn draw_truths(draws: &mut Draws, out: &mut [bool], from: usize)
    requires { from ≤ length out.old }
    ensures { out.new ≡ take from out.old ++ spec.truths_drawn (length out.old - from) draws.old }
{
    for k in from..out.len() {
        out[k] = draws.draw() % 2 == 1;
    }
}

/// Draws the valuation of a generator with this word: the fields, then the atoms.
pub fn draw_valuation(v: Variant, word: u64, out: &mut [bool])
    requires { bit_count ≤ length out.old }
    ensures { out.new ≡ spec.valuation_from v (length out.old - bit_count) word }
{
    let mut draws = Draws::from(word);
    draw_fields(v, &mut draws, out);
    draw_truths(&mut draws, out, BIT_COUNT as usize);
}

/// Puts valuation `i` of a seed into `out`, for the instruction set of the rules and the atoms of their net. The net
/// has a variable for each bit of the fields and one for each atom; `out` has a bit for each variable.
pub fn valuation(r: &Rules, seed: u64, i: u64, out: &mut Valuation)
    requires fields { bit_count ≤ r.now.net.vars }
    requires atoms { r.now.net.vars ≤ bit_count + 64 }
    requires bits { length out.old.bits ≡ r.now.net.vars }
    ensures { out.new.bits ≡ spec.valuation r.now.variant (r.now.net.vars - bit_count) seed i }
{
    draw_valuation(r.variant, seed.wrapping_add(i), out.bits.items_mut());
}
