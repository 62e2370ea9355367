//! The first rule that is false at a drawn valuation: 512 valuations at once, block after block.
ghost use Rattle.std.specs.Prelude.{◌≡◌, ◌<◌, ◌≤◌, ◌+◌, ◌-◌, ◌==◌, ℕ, length, slice_get, IfOk};
ghost use Rattle.pipe_fields.specs.Layout.{bit_count};
ghost use Rattle.lane_eval.specs.Lanes.{across, along, lane_bit};
ghost use Rattle.lane_eval.specs.Search.{RulesHaveGates, IsFirstFalse, holds_drawn, holds_in};
ghost use Rattle.prog_gen.specs.Choices.{valuation};

use crate::lanes::Scratch;
use crate::places::first_false_place;
use crate::words::{put_words, shift_in};
use ctl_rules::{Rule, Rules};
use prog_gen::draw_valuation;
use std::alloc::Global;
use std::simd::u64x8;
use y86_base::{Memory, Variant};

/// A rule that is false at a drawn valuation: the valuation's index, and the rule's number.
#[derive(Clone, Copy, Debug, PartialEq, Eq)]
pub struct Found {
    pub index: u64,
    pub rule: u32,
}

/// Draws 64 valuations, one after another, into the places of words. The last one is left in `bits`.
fn draw_words(v: Variant, seed: u64, bits: &mut [bool], words: &mut [u64])
    requires fields { bit_count ≤ length bits.old }
    requires size { length words.old ≡ length bits.old }
    ensures { (j : ℕ) → j < 64 → along j words.new ≡ valuation v (length bits.old - bit_count) seed j }
{
    for k in 0..64 {
        draw_valuation(v, seed.wrapping_add(k), bits);
        shift_in(words, bits);
    }
}

/// Draws 512 valuations, one after another, into the places of vectors.
fn draw_block(v: Variant, seed: u64, bits: &mut [bool], words: &mut [u64], lanes: &mut [u64x8])
    requires fields { bit_count ≤ length bits.old }
    requires size { length words.old ≡ length bits.old }
    requires lanes { length lanes.old ≡ length bits.old }
    ensures { (p : ℕ) → p < 512 → across p lanes.new ≡ valuation v (length bits.old - bit_count) seed p }
{
    for l in 0..8 {
        draw_words(v, seed.wrapping_add(64 * l), bits, words);
        put_words(lanes, l, words);
    }
}

/// The first place in which some rule of a list is false, and the first such rule.
fn first_of(list: &[Rule], s: &Scratch) -> Option<Found>
    requires { (k : ℕ) (x : Rule) → slice_get list.now k ≡ Some x → x.gate < length s.now }
    ensures { IsFirstFalse (holds_in s.now) list.now 512 result }
{
    let mut best = 512;
    let mut number = 0;
    for k in 0..list.len() {
        let rule = list[k];
        let place = first_false_place(s.at(rule.gate));
        if place < best {
            best = place;
            number = rule.number;
        }
    }
    if best < 512 {
        Some(Found {
            index: best,
            rule: number,
        })
    } else {
        None
    }
}

/// The first of 512 valuations of a seed at which some rule is false, and the first such rule.
fn search_block(
    r: &Rules,
    seed: u64,
    bits: &mut [bool],
    words: &mut [u64],
    lanes: &mut [u64x8],
    s: &mut Scratch,
) -> Option<Found>
    requires fields { bit_count ≤ r.now.net.vars }
    requires gates { RulesHaveGates r.now.net r.now.list }
    requires bits { length bits.old ≡ r.now.net.vars }
    requires words { length words.old ≡ r.now.net.vars }
    requires lanes { length lanes.old ≡ r.now.net.vars }
    requires has_truth { length s.old ≡ length r.now.net.gates }
    ensures has_truth { length s.new ≡ length r.now.net.gates }
    ensures found { IsFirstFalse (holds_drawn r.now seed) r.now.list 512 result }
{
    draw_block(r.variant, seed, bits, words, lanes);
    s.run(&r.net, lanes);
    first_of(r.list.items(), s)
}

/// A vector of `n` copies.
pub fn copies<T: Copy>(alloc: Global, x: T, n: u32) -> Result<Vec<T>, Memory>
    ensures { IfOk result (λ v. length v.items ≡ n) }
{
    let mut v = Vec::new(alloc);
    for _k in 0..n {
        if v.push(x).is_err() {
            return Err(Memory);
        }
    }
    Ok(v)
}

/// The least index below `count` at whose valuation of `seed` some rule is false, and the first such rule; `None` if
/// there is none. The rules' net has a variable for each bit of a control valuation's fields, and one for each atom.
pub fn first_false(alloc: Global, r: &Rules, seed: u64, count: u64) -> Result<Option<Found>, Memory>
    requires fields { bit_count ≤ r.now.net.vars }
    requires atoms { r.now.net.vars ≤ bit_count + 64 }
    requires gates { RulesHaveGates r.now.net r.now.list }
    ensures { IfOk result (IsFirstFalse (holds_drawn r.now seed) r.now.list count) }
{
    let n = r.net.vars();
    let mut bits = copies(alloc, false, n)?;
    let mut words = copies(alloc, 0u64, n)?;
    let mut lanes = copies(alloc, u64x8::splat(0), n)?;
    let mut s = Scratch::new(alloc, &r.net)?;
    let mut at = 0;
    while at < count {
        let left = count - at;
        match search_block(
            r,
            seed.wrapping_add(at),
            bits.as_mut_slice(),
            words.as_mut_slice(),
            lanes.as_mut_slice(),
            &mut s,
        ) {
            Some(found) => {
                if found.index < left {
                    return Ok(Some(Found {
                        index: at + found.index,
                        rule: found.rule,
                    }));
                }
                return Ok(None);
            }
            None => {}
        }
        if left <= 512 {
            return Ok(None);
        }
        at += 512;
    }
    Ok(None)
}
