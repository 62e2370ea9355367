//! The errors of the static side of control values.
use hcl_types::NameId;
use thiserror::Error;

/// Why a design has no control values.
#[derive(Clone, Copy, Debug, PartialEq, Eq, Error)]
pub enum CtlFault {
    /// The definition of a name, the first in table order, mixes codes with words of the datapath: in a
    /// comparison, among the members of an `in`, among the values of a case list, or by a value of the other class.
    #[error("Mixed")]
    Mixed(NameId),
    /// The definitions have more than 64 different open comparisons of leaves.
    #[error("AtomsOver64")]
    AtomsOver64,
    /// Memory ran out.
    #[error("Memory")]
    Memory,
}
