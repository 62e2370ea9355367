//! The output of a `no` of SEQ and of SEQ+.
ghost use Rattle.std.specs.Prelude.{◌≡◌, ◌≤◌, Bool, List, true, IfOk, length};
ghost use Rattle.hcl_types.specs.Tables.{row_names};
ghost use Rattle.seq_obligations.specs.Fields.{fields_of, line_at, number_at, p_cnd, p_icode, plus_line};
ghost use Rattle.verdict_text.specs.SeqLine.{plus_no, previous_numbers, seq_no, seq_numbers};
ghost use Rattle.verdict_text.specs.Views.{are_few, shown};

use crate::atoms::put_atoms;
use crate::numbers::{ShownField, put_line};
use ctl_atoms::Atom;
use hcl_types::Row;
use net_fields::BitRange;
use nets::Valuation;
use seq_obligations::{BIT_COUNT, LINE, P_CND, P_ICODE, PLUS_BIT_COUNT, PLUS_LINE, line_table};
use std::alloc::Global;
use y86_base::{Memory, put, put_decimal};

/// The field with a label and a place.
macro_rules! shown_field {
    ($label:literal, $place:expr) => {
        ShownField {
            label: $label,
            place: BitRange {
                first: $place.first,
                bits: $place.bits,
            },
        }
    };
}

/// The fields of a line S at these places.
macro_rules! shown_line {
    ($line:expr; $($field:ident $label:literal $signal:ident),*) => {
        [$(shown_field!($label, $line.$field)),*]
    };
}

static FIELDS: &[ShownField] = &line_table!(shown_line, LINE);

static PLUS_FIELDS: &[ShownField] = &line_table!(shown_line, PLUS_LINE);

static PREVIOUS_FIELDS: [ShownField; 2] = [
    shown_field!("icode", P_ICODE),
    shown_field!("cnd", P_CND),
];

/// The fields of the line S of SEQ in the output.
#[tactic(auto, unfolding(crate::specs::SeqLine::seq_numbers, seq_obligations::specs::Fields::fields_of))]
pub fn seq_fields() -> &'static [ShownField]
    ensures shown { (w : List Bool) → shown w result.now ≡ seq_numbers (fields_of w) }
    ensures few { are_few result.now ≡ true }
{
    FIELDS
}

/// The fields of the line S of SEQ+ in the output.
#[tactic(auto, unfolding(crate::specs::SeqLine::seq_numbers, seq_obligations::specs::Fields::line_at))]
pub fn plus_fields() -> &'static [ShownField]
    ensures shown { (w : List Bool) → shown w result.now ≡ seq_numbers (line_at plus_line w) }
    ensures few { are_few result.now ≡ true }
{
    PLUS_FIELDS
}

/// The fields of the line P of SEQ+ in the output.
#[tactic(auto, unfolding(crate::specs::SeqLine::previous_numbers))]
pub fn previous_fields() -> &'static [ShownField]
    ensures shown { (w : List Bool) → shown w result.now ≡ previous_numbers (number_at w p_icode) (number_at w p_cnd) }
    ensures few { are_few result.now ≡ true }
{
    &PREVIOUS_FIELDS
}

/// The output of a `no` of SEQ: the obligation that is false, the valuation at which it is, by the names of the rows of
/// SEQ's table, and the truths of its atoms.
#[tactic(auto, unfolding(crate::specs::SeqLine::seq_no))]
pub fn seq_refusal(
    alloc: Global,
    rows: &[Row],
    rule: u32,
    valuation: &Valuation,
    atoms: &[Atom],
) -> Result<Vec<u8>, Memory>
    requires few { length atoms.now ≤ 64 }
    ensures { IfOk result (λ text. text.items ≡ seq_no (row_names rows.now) rule valuation.now.bits atoms.now) }
{
    let mut out = Vec::new(alloc);
    let bits = valuation.bits.items();
    put(&mut out, b"no S")?;
    put_decimal(&mut out, rule as u64)?;
    put(&mut out, b"\n")?;
    put_line(&mut out, b"S", bits, seq_fields())?;
    put_atoms(&mut out, rows, bits, BIT_COUNT as usize, atoms)?;
    Ok(out)
}

/// The same for SEQ+, by the names of the rows of its own table. The line P, whose bits come first, is printed before
/// the line S.
#[tactic(auto, unfolding(crate::specs::SeqLine::plus_no))]
pub fn plus_refusal(
    alloc: Global,
    rows: &[Row],
    rule: u32,
    valuation: &Valuation,
    atoms: &[Atom],
) -> Result<Vec<u8>, Memory>
    requires few { length atoms.now ≤ 64 }
    ensures { IfOk result (λ text. text.items ≡ plus_no (row_names rows.now) rule (number_at valuation.now.bits p_icode) (number_at valuation.now.bits p_cnd)
        (line_at plus_line valuation.now.bits) valuation.now.bits atoms.now) }
{
    let mut out = Vec::new(alloc);
    let bits = valuation.bits.items();
    put(&mut out, b"no S")?;
    put_decimal(&mut out, rule as u64)?;
    put(&mut out, b"\n")?;
    put_line(&mut out, b"P", bits, previous_fields())?;
    put_line(&mut out, b"S", bits, plus_fields())?;
    put_atoms(&mut out, rows, bits, PLUS_BIT_COUNT as usize, atoms)?;
    Ok(out)
}
