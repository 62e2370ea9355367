//! The fields of a valuation of SEQ+, and the rows and places of its signals.
ghost use Rattle.std.specs.Prelude.{◌≡◌};
ghost use Rattle.seq_check.specs.Fields as spec;
ghost use Rattle.seq_check.specs.Rules.{places};

use ctl_given::Place;
use net_fields::FieldSpec;
use seq_obligations::{P_CND, P_ICODE, PLUS_LINE, line_places, line_spots, line_table};
use seq_plus::row::{self, PLUS};

static SPOTS: &[FieldSpec] =
    &line_table!(line_spots, [P_ICODE => row::P_ICODE, P_CND => row::P_CND], PLUS_LINE, PLUS);

/// The fields of a valuation in the order of its variables, those of the line P first: their bits, and the rows of
/// their signals in SEQ+'s table.
pub(crate) fn spots() -> &'static [FieldSpec]
    ensures { result.now ≡ spec.spots }
{
    SPOTS
}

static PLACES: &[Place] =
    &line_table!(line_places, [P_ICODE => row::P_ICODE, P_CND => row::P_CND], PLUS_LINE, PLUS);

/// The places of the signals that are fields, in the form that the translation of a design uses.
pub(crate) fn places() -> &'static [Place]
    ensures { result.now ≡ places }
{
    PLACES
}
