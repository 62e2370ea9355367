//! The places of the fields of a control valuation.
ghost use Rattle.std.specs.Prelude.{◌≡◌, ◌<◌, ◌+◌, ◌^◌};
ghost use Rattle.net_fields.specs.FieldSpecs.{total, place_from};

/// Which variables are the bits of a field, the most significant one first.
#[derive(Clone, Copy, Debug, PartialEq, Eq)]
pub struct BitRange {
    pub first: u32,
    pub bits: u32,
}

/// A field of a control valuation: its number of bits, and the row of the signal whose value it is, if there is one.
#[derive(Clone, Copy, Debug, PartialEq, Eq)]
pub struct FieldSpec {
    pub bits: u32,
    pub name: Option<u32>,
}

/// The place of a signal's field, if it has one. The fields follow one another from variable 0 on.
pub fn place_in(fields: &[FieldSpec], name: u32) -> Option<BitRange>
    requires { total fields.now < 2 ^ 32 }
    ensures { result ≡ place_from fields.now 0 name }
{
    let mut first = 0;
    for field in fields {
        if field.name == Some(name) {
            return Some(BitRange {
                first,
                bits: field.bits,
            });
        }
        first += field.bits;
    }
    None
}
