//! The arithmetic/logic unit, and the conditions of its flags.
ghost use Rattle.std.specs.Prelude.{◌≡◌};
ghost use Rattle.y86_isa.specs.Blocks as blocks;

use y86_base::Flags;

/// The results of the arithmetic/logic unit: a word and its condition codes.
#[derive(Clone, Copy, Debug, PartialEq, Eq)]
pub struct AluOut {
    pub val: u64,
    pub flags: Flags,
}

/// The sign bit of a word.
const SIGN: u64 = 1 << 63;

/// The sum of two words, and whether it overflows as signed numbers.
#[tactic(auto, unfolding(crate::specs::Blocks::alu_value))]
fn sum(a: u64, b: u64) -> (u64, bool)
    ensures value { result.0 ≡ blocks.alu_value 0 a b }
    ensures overflow { result.1 ≡ blocks.alu_overflows 0 a b }
{
    let val = b.wrapping_add(a);
    let same = (a >= SIGN) == (b >= SIGN);
    (val, same && (val >= SIGN) != (b >= SIGN))
}

/// The difference `b - a` of two words, and whether it overflows as signed numbers.
#[tactic(auto, unfolding(crate::specs::Blocks::alu_value))]
fn difference(a: u64, b: u64) -> (u64, bool)
    ensures value { result.0 ≡ blocks.alu_value 1 a b }
    ensures overflow { result.1 ≡ blocks.alu_overflows 1 a b }
{
    let val = b.wrapping_sub(a);
    let same = (a >= SIGN) == (b >= SIGN);
    (val, !same && (val >= SIGN) != (b >= SIGN))
}

/// A result with its condition codes.
fn with_codes(val: u64, overflows: bool) -> AluOut
    ensures value { result.val ≡ val }
    ensures codes { result.flags ≡ blocks.condition_codes val overflows }
{
    AluOut {
        val,
        flags: Flags {
            zf: val == 0,
            sf: val >= SIGN,
            of: overflows,
        },
    }
}

/// The ALU (CS:APP 3e, figures 4.3 and 4.29). Function 0 is `b + a`, 1 is `b - a`, 2 is `b & a` and 3 is
/// `b ^ a`, modulo 2^64; any other function gives 0. Only a sum or a difference overflows.
#[tactic(auto, unfolding(crate::specs::Blocks::alu_value, crate::specs::Blocks::alu_flags))]
pub fn alu(f: u64, a: u64, b: u64) -> AluOut
    ensures { result ≡ blocks.alu f a b }
{
    let (val, overflows) = match f {
        0 => sum(a, b),
        1 => difference(a, b),
        2 => (b & a, false),
        3 => (b ^ a, false),
        _ => (0, false),
    };
    with_codes(val, overflows)
}

/// Whether the flags meet a condition: always for 0, then le, l, e, ne, ge and g for 1 to 6 (CS:APP 3e,
/// figures 3.15 and 4.3), and never for any other number.
#[tactic(auto, unfolding(crate::specs::Blocks::condition))]
pub fn cond(f: u64, flags: Flags) -> bool
    ensures { result ≡ blocks.condition f flags }
{
    let less = flags.sf != flags.of;
    match f {
        0 => true,
        1 => less || flags.zf,
        2 => less,
        3 => flags.zf,
        4 => !flags.zf,
        5 => !less,
        6 => !less && !flags.zf,
        _ => false,
    }
}
