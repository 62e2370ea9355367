//! The output of labels and numbers.
ghost use Rattle.std.specs.Prelude.{◌≡◌, ◌≤◌, ◌%◌, ◌^◌, ◌++◌, codes, true, OnOk};
ghost use Rattle.y86_base.specs.Numeral.{numeral};
ghost use Rattle.net_fields.specs.Spelling.{spelt};
ghost use Rattle.verdict_text.specs.Fields.{labelled, labelled_line};
ghost use Rattle.verdict_text.specs.Views.{are_few, shown};

use net_fields::BitRange;
use y86_base::{Memory, put, put_decimal};

/// The number that some bits of a valuation spell, the most significant one first.
#[tactic(auto, using(net_fields::proofs::Loops::number_none, crate::proofs::Few::one_more))]
pub(crate) fn number_at(bits: &[bool], place: BitRange) -> u64
    ensures { result ≡ spelt bits.now place.first place.bits % 2 ^ 64 }
{
    let first = place.first as usize;
    let mut n: u64 = 0;
    for k in 0..place.bits as usize {
        let bit = bits.get(first + k).copied().unwrap_or(false);
        n = n.wrapping_mul(2).wrapping_add(u64::from(bit));
    }
    n
}

/// A field in the output: its label, and its place in a valuation.
#[derive(Clone, Copy)]
pub struct ShownField {
    pub label: &'static str,
    pub place: BitRange,
}

impl ShownField {
    /// The field's number at a valuation.
    pub fn number(&self, bits: &[bool]) -> u64
        ensures { result ≡ spelt bits.now self.now.place.first self.now.place.bits % 2 ^ 64 }
    {
        number_at(bits, self.place)
    }
}

/// Puts a label and its number.
#[tactic(auto, using(crate::proofs::Few::spelt_few))]
fn put_field(out: &mut Vec<u8>, bits: &[bool], it: ShownField) -> Result<(), Memory>
    requires few { it.place.bits ≤ 4 }
    ensures { OnOk result (out.new.items ≡ out.old.items ++ codes " " ++ it.label.now ++ codes "=" ++ numeral 10 1 (spelt bits.now it.place.first it.place.bits)) }
{
    put(out, b" ")?;
    put(out, it.label.as_bytes())?;
    put(out, b"=")?;
    put_decimal(out, it.number(bits))
}

/// Puts labels, each with its number.
fn put_fields(out: &mut Vec<u8>, bits: &[bool], fields: &[ShownField]) -> Result<(), Memory>
    requires few { are_few fields.now ≡ true }
    ensures { OnOk result (out.new.items ≡ out.old.items ++ labelled (shown bits.now fields.now)) }
{
    for it in fields {
        match put_field(out, bits, *it) {
            Ok(()) => {}
            Err(_) => return Err(Memory),
        }
    }
    Ok(())
}

/// Puts a line: its beginning, and its fields.
#[tactic(auto, unfolding(crate::specs::Fields::labelled_line))]
pub(crate) fn put_line(
    out: &mut Vec<u8>,
    beginning: &[u8],
    bits: &[bool],
    fields: &[ShownField],
) -> Result<(), Memory>
    requires few { are_few fields.now ≡ true }
    ensures { OnOk result (out.new.items ≡ out.old.items ++ labelled_line beginning.now (shown bits.now fields.now)) }
{
    put(out, beginning)?;
    put_fields(out, bits, fields)?;
    put(out, b"\n")
}
