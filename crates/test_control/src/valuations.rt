//! Tests the number of lines that control valuations can have, against counts by hand.
ghost use Rattle.std.specs.Prelude.{◌≡◌, IfOk, length};
ghost use Rattle.pipe_fields.specs.Layout.{bit_count};

use nets::{NetBuilder, Valuation, eval};
use pipe_fields::{BIT_COUNT, StageLine, places, stage_line_allowed};
use std::alloc::Global;
use std::test::Fail;
use y86_base::{Items, Memory, Variant};

/// A pattern of PIPE's bits: the bits of a number, the lowest first, after `first` bits that are 0, and before others
/// that are all `rest`.
fn pattern(
    alloc: Global,
    first: u32,
    size: u32,
    number: u32,
    rest: bool,
) -> Result<Vec<bool>, Memory>
    ensures { IfOk result (λ bits. length bits.items ≡ bit_count) }
{
    let mut bits = match vec![in alloc; false; BIT_COUNT as usize] {
        Ok(bits) => bits,
        Err(_) => return Err(Memory),
    };
    let mut skip = first;
    let mut more = size;
    let mut left = number;
    for bit in bits.as_mut_slice() {
        if skip > 0 {
            skip -= 1;
        } else if more > 0 {
            *bit = left % 2 == 1;
            left /= 2;
            more -= 1;
        } else {
            *bit = rest;
        }
    }
    Ok(bits)
}

/// A line, and the patterns to count: `size` bits from the variable `first` on take all values, and the bits after them
/// are all `rest`.
struct Counted {
    variant: Variant,
    line: StageLine,
    first: u32,
    size: u32,
    patterns: u32,
    rest: bool,
    allowed: u32,
}

/// F, 12 bits, by icode: 16 ifuns of halt, nop and irmovq; 7 of moves; 32, with the hidden bit of an error at memory, of
/// the six icodes that access it; 4 of OPq; 2 of jmp and 4 of each other jump; 1 of the invalid icode, and 1 with an error:
/// 48 + 7 + 192 + 4 + 26 + 2.
///
/// F with hidden bits that are 0, 9 bits, where iaddq has 16 too: 48 + 7 + 96 + 4 + 6 + 2 + 16.
///
/// W without a destination of valM, 11 bits, by status. 1: nop, rmmovq, jXX, call, ret and pushq have one line each, a move
/// 16, irmovq and OPq 15. 2: one. 3: nop and the four icodes that access memory and load no register. 4: one.
/// 6 + 16 + 30 + 1 + 5 + 1.
static COUNTED: [Counted; 3] = [
    Counted {
        variant: Variant::Base,
        line: StageLine::F,
        first: places::F_ERROR.first,
        size: 12,
        patterns: 4096,
        rest: false,
        allowed: 279,
    },
    Counted {
        variant: Variant::Full,
        line: StageLine::F,
        first: places::F_ERROR.first,
        size: 9,
        patterns: 512,
        rest: false,
        allowed: 179,
    },
    Counted {
        variant: Variant::Base,
        line: StageLine::W,
        first: places::W_STAT.first,
        size: 11,
        patterns: 2048,
        rest: true,
        allowed: 59,
    },
];

/// The number of patterns that are allowed.
fn count(alloc: Global, c: &Counted) -> Result<u32, Memory> {
    let mut b = NetBuilder::new(alloc, BIT_COUNT);
    let gate = stage_line_allowed(&mut b, c.variant, c.line)?;
    let net = b.finish();
    let mut count = 0u32;
    for number in 0..c.patterns {
        let bits = Items::of(pattern(alloc, c.first, c.size, number, c.rest)?);
        if eval(alloc, &net, gate, &Valuation { bits })? {
            count = count.saturating_add(1);
        }
    }
    Ok(count)
}

#[test]
fn lines_by_hand(rt: HostRuntime) -> Result<(), Fail> {
    for c in &COUNTED {
        assert_eq!(rt; count(rt.alloc(), c)?, c.allowed);
    }
    Ok(())
}
