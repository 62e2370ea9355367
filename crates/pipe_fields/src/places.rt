//! The place of each field of PIPE among the variables of a control valuation.
use net_fields::BitRange;

/// A number of bits from a variable on.
macro_rules! place {
    ($first:expr, $bits:expr) => {
        BitRange {
            first: $first,
            bits: $bits,
        }
    };
}

/// The first bit of line F, after the kinds, and of each other line.
const F: u32 = 6;

const D: u32 = F + 12;

const E: u32 = D + 22;

const M: u32 = E + 30;

const W: u32 = M + 22;

pub const D_KIND: BitRange = place!(0, 2);

pub const E_KIND: BitRange = place!(2, 2);

pub const M_KIND: BitRange = place!(4, 1);

pub const W_KIND: BitRange = place!(5, 1);

pub const F_ERROR: BitRange = place!(F + 0, 1);

pub const F_ICODE: BitRange = place!(F + 1, 4);

pub const F_IFUN: BitRange = place!(F + 5, 4);

pub const F_TAKEN: BitRange = place!(F + 9, 1);

pub const F_STOPS: BitRange = place!(F + 10, 1);

pub const F_BACK: BitRange = place!(F + 11, 1);

pub const D_STAT: BitRange = place!(D + 0, 3);

pub const D_ICODE: BitRange = place!(D + 3, 4);

pub const D_IFUN: BitRange = place!(D + 7, 4);

pub const D_R_A: BitRange = place!(D + 11, 4);

pub const D_R_B: BitRange = place!(D + 15, 4);

pub const D_TAKEN: BitRange = place!(D + 19, 1);

pub const D_STOPS: BitRange = place!(D + 20, 1);

pub const D_BACK: BitRange = place!(D + 21, 1);

pub const E_STAT: BitRange = place!(E + 0, 3);

pub const E_ICODE: BitRange = place!(E + 3, 4);

pub const E_IFUN: BitRange = place!(E + 7, 4);

pub const E_DST_E: BitRange = place!(E + 11, 4);

pub const E_DST_M: BitRange = place!(E + 15, 4);

pub const E_SRC_A: BitRange = place!(E + 19, 4);

pub const E_SRC_B: BitRange = place!(E + 23, 4);

pub const E_CND: BitRange = place!(E + 27, 1);

pub const E_STOPS: BitRange = place!(E + 28, 1);

pub const E_BACK: BitRange = place!(E + 29, 1);

pub const M_STAT: BitRange = place!(M + 0, 3);

pub const M_ICODE: BitRange = place!(M + 3, 4);

pub const M_IFUN: BitRange = place!(M + 7, 4);

pub const M_DST_E: BitRange = place!(M + 11, 4);

pub const M_DST_M: BitRange = place!(M + 15, 4);

pub const M_CND: BitRange = place!(M + 19, 1);

pub const M_ERROR: BitRange = place!(M + 20, 1);

pub const M_BACK: BitRange = place!(M + 21, 1);

pub const W_STAT: BitRange = place!(W + 0, 3);

pub const W_ICODE: BitRange = place!(W + 3, 4);

pub const W_DST_E: BitRange = place!(W + 7, 4);

pub const W_DST_M: BitRange = place!(W + 11, 4);

/// The number of fields that are register numbers.
pub const REGISTER_COUNT: usize = 10;

/// The fields that are numbers of registers, in the order of the variables.
pub const REGISTERS: [BitRange; REGISTER_COUNT] = [
    D_R_A, D_R_B, E_DST_E, E_DST_M, E_SRC_A, E_SRC_B, M_DST_E, M_DST_M, W_DST_E, W_DST_M,
];

/// The total number of bits of the fields. In a control valuation the atoms follow them.
pub const BIT_COUNT: u32 = W + 15;
