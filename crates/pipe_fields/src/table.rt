//! The table of PIPE's fields.
ghost use Rattle.std.specs.Prelude.{◌≡◌};
ghost use Rattle.pipe_fields.specs.Layout as layout;

use crate::places as place;
use dp_signals::pipe_row as row;
use net_fields::{BitRange, FieldSpec, place_in};

/// The table of the fields, in the order of the variables. Each row has the name of the field's place, its label in
/// output, and, unless the field is hidden, the name of its signal. The given macro is called with all rows.
#[macro_export]
macro_rules! field_table {
    ($of_rows:ident) => {
        $of_rows!(
            D_KIND "kind",
            E_KIND "kind",
            M_KIND "kind",
            W_KIND "kind",
            F_ERROR "error" IMEM_ERROR,
            F_ICODE "icode" IMEM_ICODE,
            F_IFUN "ifun" IMEM_IFUN,
            F_TAKEN "taken",
            F_STOPS "stops",
            F_BACK "back",
            D_STAT "stat" HELD_D_STAT,
            D_ICODE "icode" HELD_D_ICODE,
            D_IFUN "ifun" HELD_D_IFUN,
            D_R_A "rA" HELD_D_R_A,
            D_R_B "rB" HELD_D_R_B,
            D_TAKEN "taken",
            D_STOPS "stops",
            D_BACK "back",
            E_STAT "stat" HELD_E_STAT,
            E_ICODE "icode" HELD_E_ICODE,
            E_IFUN "ifun" HELD_E_IFUN,
            E_DST_E "dstE" HELD_E_DST_E,
            E_DST_M "dstM" HELD_E_DST_M,
            E_SRC_A "srcA" HELD_E_SRC_A,
            E_SRC_B "srcB" HELD_E_SRC_B,
            E_CND "cnd" E_CND,
            E_STOPS "stops",
            E_BACK "back",
            M_STAT "stat" HELD_M_STAT,
            M_ICODE "icode" HELD_M_ICODE,
            M_IFUN "ifun" HELD_M_IFUN,
            M_DST_E "dstE" HELD_M_DST_E,
            M_DST_M "dstM" HELD_M_DST_M,
            M_CND "cnd" HELD_M_CND,
            M_ERROR "error" DMEM_ERROR,
            M_BACK "back",
            W_STAT "stat" HELD_W_STAT,
            W_ICODE "icode" HELD_W_ICODE,
            W_DST_E "dstE" HELD_W_DST_E,
            W_DST_M "dstM" HELD_W_DST_M
        )
    };
}

macro_rules! signal_name {
    () => {
        None
    };
    ($signal:ident) => {
        Some(row::$signal)
    };
}

macro_rules! specs {
    ($($place:ident $label:literal $($signal:ident)?),*) => {
        [$(FieldSpec { bits: place::$place.bits, name: signal_name!($($signal)?) }),*]
    };
}

/// The index of the first field of line F, after the four kinds, and of each other line.
pub const F_FIRST: usize = 4;

pub const D_FIRST: usize = F_FIRST + 6;

pub const E_FIRST: usize = D_FIRST + 8;

pub const M_FIRST: usize = E_FIRST + 10;

pub const W_FIRST: usize = M_FIRST + 8;

/// The number of fields.
pub const FIELD_COUNT: usize = W_FIRST + 4;

static SPOTS: [FieldSpec; FIELD_COUNT] = field_table!(specs);

/// The fields in the order of the variables, each with its number of bits and the row of its signal, if it has one.
pub fn field_specs() -> &'static [FieldSpec]
    ensures { result.now ≡ layout.field_specs }
{
    &SPOTS
}

/// The place of a signal that is a field; `None` for other signals.
#[tactic(auto, unfolding(crate::specs::Layout::place_of))]
pub fn place_of(name: u32) -> Option<BitRange>
    ensures { result ≡ layout.place_of name }
{
    place_in(field_specs(), name)
}
