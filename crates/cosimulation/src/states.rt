//! The first part in which two final states differ.
ghost use Rattle.std.specs.Prelude.{◌≡◌, ◌≢◌, ◌<◌, ◌^◌, ◌/◌, IfNone, IfSome, length};
ghost use Rattle.cosimulation.specs.States.{FirstDiffersIn, SameRegisters, SameState, SameWords};
ghost use Rattle.y86_base.specs.Registers.{register};
ghost use Rattle.yis_run.specs.Report.{aligned_word, ended};

use y86_base::{Flags, Image, Regs, Stat};
use yis_run::End;

/// A part of the state, with its values in the one and in the other. A register is given by its number, an aligned
/// word of memory by its index: its address is 8 times that.
#[derive(Clone, Copy, Debug, PartialEq, Eq)]
pub enum Part {
    Stat(Stat, Stat),
    Pc(u64, u64),
    Flags(Flags, Flags),
    Register(u64, u64, u64),
    Memory(u64, u64, u64),
}

/// The first register in which they differ.
fn register_difference(one: &Regs, other: &Regs) -> Option<u64>
    ensures none { IfNone result (SameRegisters one.now other.now 15) }
    ensures some { IfSome result (λ n. register one.now n ≢ register other.now n) }
    ensures first { IfSome result (SameRegisters one.now other.now) }
{
    for n in 0..15 {
        if one.get(n) != other.get(n) {
            return Some(n);
        }
    }
    None
}

/// The aligned word at an index of a memory; 0 outside.
fn word_of(memory: &Image, n: u64) -> u64
    requires { n < 2 ^ 60 }
    ensures { result ≡ aligned_word memory.now n }
{
    memory.word(8 * n).unwrap_or(0)
}

/// The first aligned word in which they differ, by its index, and its value in both.
fn memory_difference(one: &Image, other: &Image) -> Option<(u64, u64, u64)>
    ensures none { IfNone result (SameWords one.now other.now (length one.now / 8)) }
    ensures some { IfSome result (λ d. (d.1 ≡ aligned_word one.now d.0) × (d.2 ≡ aligned_word other.now d.0) × (d.1 ≢ d.2)) }
    ensures first { IfSome result (λ d. SameWords one.now other.now d.0) }
{
    let words = one.size() / 8;
    for n in 0..words {
        let first = word_of(one, n);
        let second = word_of(other, n);
        if first != second {
            return Some((n, first, second));
        }
    }
    None
}

/// The first part in which two final states differ.
pub fn difference(one: &End<'_>, other: &End<'_>) -> Option<Part>
    ensures none { IfNone result (SameState (ended one.now) (ended other.now)) }
    ensures some { IfSome result (FirstDiffersIn (ended one.now) (ended other.now)) }
{
    if one.stat.number() != other.stat.number() {
        return Some(Part::Stat(one.stat, other.stat));
    }
    if one.pc != other.pc {
        return Some(Part::Pc(one.pc, other.pc));
    }
    if one.flags != other.flags {
        return Some(Part::Flags(one.flags, other.flags));
    }
    if let Some(n) = register_difference(one.regs, other.regs) {
        return Some(Part::Register(n, one.regs.get(n), other.regs.get(n)));
    }
    if let Some((n, first, second)) = memory_difference(one.mem, other.mem) {
        return Some(Part::Memory(n, first, second));
    }
    None
}
