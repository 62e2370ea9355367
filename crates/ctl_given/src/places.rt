//! Where the numbers of the state and the hardware stand among the variables.
use hcl_types::NameId;

/// The place of a Code or Truth name of the state or the hardware among the variables: its `bits` bits from `first` on,
/// the most significant one first.
#[derive(Clone, Copy, Debug, PartialEq, Eq)]
pub struct Place {
    pub name: NameId,
    pub first: u32,
    pub bits: u32,
}
