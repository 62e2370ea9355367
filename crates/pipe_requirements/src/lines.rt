//! The fields of a valuation as numbers.
ghost use Rattle.std.specs.Prelude.{◌≡◌, ◌≤◌};
ghost use Rattle.net_fields.specs.Spelling.{spelt};
ghost use Rattle.pipe_fields.specs.Layout.{fields_of};
ghost use Rattle.pipe_requirements.specs.Flows.{fields_in};

use control_values::number_at;
use net_fields::BitRange;
use pipe_fields::places as place;

/// What is fetched.
#[derive(Clone, Copy)]
pub struct FetchLine {
    pub error: u64,
    pub icode: u64,
    pub ifun: u64,
    pub taken: u64,
    pub stops: u64,
    pub back: u64,
}

/// What D holds.
#[derive(Clone, Copy)]
pub struct DecodeLine {
    pub kind: u64,
    pub stat: u64,
    pub icode: u64,
    pub ifun: u64,
    pub r_a: u64,
    pub r_b: u64,
    pub taken: u64,
    pub stops: u64,
    pub back: u64,
}

/// What E holds.
#[derive(Clone, Copy)]
pub struct ExecuteLine {
    pub kind: u64,
    pub stat: u64,
    pub icode: u64,
    pub ifun: u64,
    pub dst_e: u64,
    pub dst_m: u64,
    pub src_a: u64,
    pub src_b: u64,
    pub cnd: u64,
    pub stops: u64,
    pub back: u64,
}

/// What M holds.
#[derive(Clone, Copy)]
pub struct MemoryLine {
    pub kind: u64,
    pub stat: u64,
    pub icode: u64,
    pub ifun: u64,
    pub dst_e: u64,
    pub dst_m: u64,
    pub cnd: u64,
    pub error: u64,
    pub back: u64,
}

/// What W holds.
#[derive(Clone, Copy)]
pub struct WriteLine {
    pub kind: u64,
    pub stat: u64,
    pub icode: u64,
    pub dst_e: u64,
    pub dst_m: u64,
}

/// All fields of a valuation.
#[derive(Clone, Copy)]
pub struct Lines {
    pub f: FetchLine,
    pub d: DecodeLine,
    pub e: ExecuteLine,
    pub m: MemoryLine,
    pub w: WriteLine,
}

/// The number of a field.
fn number(bits: &[bool], place: BitRange) -> u64
    requires few { place.bits ≤ 4 }
    requires near { place.first ≤ 1000 }
    ensures { result ≡ spelt bits.now place.first place.bits }
{
    number_at(bits, place.first as usize, place.bits as usize)
}

/// The fields that bits spell.
#[tactic(auto, unfolding(pipe_fields::specs::Layout::fields_of))]
pub fn lines_of(bits: &[bool]) -> Lines
    ensures { fields_in result ≡ fields_of bits.now }
{
    Lines {
        f: FetchLine {
            error: number(bits, place::F_ERROR),
            icode: number(bits, place::F_ICODE),
            ifun: number(bits, place::F_IFUN),
            taken: number(bits, place::F_TAKEN),
            stops: number(bits, place::F_STOPS),
            back: number(bits, place::F_BACK),
        },
        d: DecodeLine {
            kind: number(bits, place::D_KIND),
            stat: number(bits, place::D_STAT),
            icode: number(bits, place::D_ICODE),
            ifun: number(bits, place::D_IFUN),
            r_a: number(bits, place::D_R_A),
            r_b: number(bits, place::D_R_B),
            taken: number(bits, place::D_TAKEN),
            stops: number(bits, place::D_STOPS),
            back: number(bits, place::D_BACK),
        },
        e: ExecuteLine {
            kind: number(bits, place::E_KIND),
            stat: number(bits, place::E_STAT),
            icode: number(bits, place::E_ICODE),
            ifun: number(bits, place::E_IFUN),
            dst_e: number(bits, place::E_DST_E),
            dst_m: number(bits, place::E_DST_M),
            src_a: number(bits, place::E_SRC_A),
            src_b: number(bits, place::E_SRC_B),
            cnd: number(bits, place::E_CND),
            stops: number(bits, place::E_STOPS),
            back: number(bits, place::E_BACK),
        },
        m: MemoryLine {
            kind: number(bits, place::M_KIND),
            stat: number(bits, place::M_STAT),
            icode: number(bits, place::M_ICODE),
            ifun: number(bits, place::M_IFUN),
            dst_e: number(bits, place::M_DST_E),
            dst_m: number(bits, place::M_DST_M),
            cnd: number(bits, place::M_CND),
            error: number(bits, place::M_ERROR),
            back: number(bits, place::M_BACK),
        },
        w: WriteLine {
            kind: number(bits, place::W_KIND),
            stat: number(bits, place::W_STAT),
            icode: number(bits, place::W_ICODE),
            dst_e: number(bits, place::W_DST_E),
            dst_m: number(bits, place::W_DST_M),
        },
    }
}
