//! The fields of a valuation as numbers.
ghost use Rattle.std.specs.Prelude.{◌≡◌};
ghost use Rattle.net_fields.specs.FieldSpecs.{decoded};
ghost use Rattle.seq_check.specs.Fields as plus;
ghost use Rattle.seq_check.specs.Datapaths as spec;
ghost use Rattle.seq_requirements.specs.Lines.{fields_in};

use control_values::number_at;
use hcl_types::SequentialDatapath;
use seq_obligations::{LINE, P_CND, P_ICODE, PLUS_LINE, line_table};

/// The line S: what one cycle reads.
#[derive(Clone, Copy, Debug, PartialEq, Eq)]
pub struct LineNow {
    pub error: u64,
    pub icode: u64,
    pub ifun: u64,
    pub r_a: u64,
    pub r_b: u64,
    pub cnd: u64,
    pub derror: u64,
}

/// The line P of SEQ+: what the previous instruction left.
#[derive(Clone, Copy, Debug, PartialEq, Eq)]
pub struct PreviousNow {
    pub icode: u64,
    pub cnd: u64,
}

/// The numbers that bits spell at the places of a line S.
macro_rules! line_now {
    ($bits:expr, $line:expr; $($field:ident $label:literal $signal:ident),*) => {
        LineNow {
            $($field: number_at($bits, $line.$field.first as usize, $line.$field.bits as usize),)*
        }
    };
}

/// The line S of a valuation.
pub fn line_of(which: SequentialDatapath, bits: &[bool]) -> LineNow
    ensures { fields_in result ≡ spec.line_of which (decoded (spec.spots_of which) 0 bits.now) }
{
    match which {
        SequentialDatapath::Seq => line_table!(line_now, bits, LINE),
        SequentialDatapath::SeqPlus => line_table!(line_now, bits, PLUS_LINE),
    }
}

/// The line P of a valuation of SEQ+.
pub fn previous_of(bits: &[bool]) -> PreviousNow
    ensures icode { result.icode ≡ (plus.fields_by (decoded plus.spots 0 bits.now)).icode }
    ensures cnd { result.cnd ≡ (plus.fields_by (decoded plus.spots 0 bits.now)).cnd }
{
    PreviousNow {
        icode: number_at(bits, P_ICODE.first as usize, P_ICODE.bits as usize),
        cnd: number_at(bits, P_CND.first as usize, P_CND.bits as usize),
    }
}
