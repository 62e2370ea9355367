//! The sequential datapaths: the fields of their valuations, and the rows of their signals.
ghost use Rattle.std.specs.Prelude.{◌≡◌};
ghost use Rattle.net_fields.specs.FieldSpecs.{total};
ghost use Rattle.seq_check.specs.Datapaths as spec;

use crate::fields::spots;
use dp_signals::{SEQ, SignalRows, seq_row};
use hcl_types::{NameId, SequentialDatapath};
use net_fields::FieldSpec;
use seq_obligations::{BIT_COUNT, PLUS_BIT_COUNT};
use seq_plus::row::{self as plus_row, PLUS};

static SEQ_SIGNALS: SignalRows = SEQ;

static PLUS_SIGNALS: SignalRows = PLUS;

/// The rows of the signals that the obligations are about.
pub fn signals_of(which: SequentialDatapath) -> &'static SignalRows
    ensures { result.now ≡ spec.signals_of which }
{
    match which {
        SequentialDatapath::Seq => &SEQ_SIGNALS,
        SequentialDatapath::SeqPlus => &PLUS_SIGNALS,
    }
}

/// The row of the first definition: the terms of a design are those of the rows from there on.
pub fn first_defined(which: SequentialDatapath) -> NameId
    ensures { result ≡ spec.defined_of which }
{
    match which {
        SequentialDatapath::Seq => seq_row::DEFINED,
        SequentialDatapath::SeqPlus => plus_row::DEFINED,
    }
}

/// The fields of a valuation in the order of its variables.
pub fn spots_of(which: SequentialDatapath) -> &'static [FieldSpec]
    ensures { result.now ≡ spec.spots_of which }
{
    match which {
        SequentialDatapath::Seq => seq_obligations::spots(),
        SequentialDatapath::SeqPlus => spots(),
    }
}

/// The number of bits of all fields together. The atoms of a valuation follow them.
pub fn bit_count(which: SequentialDatapath) -> u32
    ensures { result ≡ total (spec.spots_of which) }
{
    match which {
        SequentialDatapath::Seq => BIT_COUNT,
        SequentialDatapath::SeqPlus => PLUS_BIT_COUNT,
    }
}
