//! What a refusal is explained over: the names of the table, the definitions, and one counterexample.
ghost use Rattle.std.specs.Prelude.{◌≡◌};
ghost use Rattle.hcl_types.specs.declared.table.Datapath.TheVariants as path;
ghost use Rattle.hcl_types.specs.declared.table.SequentialDatapath.TheVariants as datapath;
ghost use Rattle.net_fields.specs.FieldSpecs.{total};
ghost use Rattle.seq_check.specs.Datapaths.{defined_of, spots_of};

use explanations::{Obligation, obligation_at};
use finding_text::{ExplainedFile, Values, first_alone, put_wrong};
use hcl_types::{Datapath, NameId, SequentialDatapath};
use seq_check::{bit_count, first_defined};
use seq_diagnosis::{Refusal, Refutation};
use seq_requirements::{PreviousNow, previous_of};
use std::alloc::{AllocError, Global};

/// The datapath, as obligations name it.
pub fn path_of(which: SequentialDatapath) -> Datapath
    ensures seq { which ≡ datapath.Seq → result ≡ path.Seq }
    ensures plus { which ≡ datapath.SeqPlus → result ≡ path.SeqPlus }
{
    match which {
        SequentialDatapath::Seq => Datapath::Seq,
        SequentialDatapath::SeqPlus => Datapath::SeqPlus,
    }
}

/// An obligation of the datapath.
pub fn obligation_of(which: SequentialDatapath, rule: u32) -> Option<&'static Obligation> {
    obligation_at(path_of(which), rule)
}

/// The values at the counterexample of a refutation.
pub fn values_of<'a>(
    which: SequentialDatapath,
    file: &ExplainedFile<'a>,
    refusal: &'a Refusal,
    refutation: &'a Refutation,
) -> Values<'a>
    ensures rows { result.rows.now ≡ file.now.rows.now }
    ensures terms { result.terms.now ≡ file.now.terms.now }
    ensures defined { result.defined ≡ defined_of which }
    ensures first { result.first ≡ total (spots_of which) }
    ensures bits { result.bits.now ≡ refutation.now.valuation.bits }
    ensures leaves { result.leaves.now ≡ refutation.now.diagnosis.leaves }
    ensures atoms { result.atoms.now ≡ refusal.now.atoms }
{
    Values {
        rows: file.rows,
        terms: file.terms,
        defined: first_defined(which),
        atoms: refusal.atoms.items(),
        first: bit_count(which) as usize,
        bits: refutation.valuation.bits.items(),
        leaves: refutation.diagnosis.leaves.items(),
    }
}

/// What is stored of the instruction before: only SEQ+ has it.
pub fn before(which: SequentialDatapath, bits: &[bool]) -> Option<PreviousNow> {
    match which {
        SequentialDatapath::Seq => None,
        SequentialDatapath::SeqPlus => Some(previous_of(bits)),
    }
}

/// The signals that are wrong at a counterexample.
fn wrong_signals(alloc: Global, refutation: &Refutation) -> Result<Vec<NameId>, AllocError> {
    let mut out: Vec<NameId> = Vec::new(alloc);
    put_wrong(&mut out, refutation.diagnosis.findings.items())?;
    Ok(out)
}

/// The obligation to mend first: the first whose wrong signals depend on no other's.
pub fn first_to_mend(
    alloc: Global,
    values: &Values<'_>,
    refusal: &Refusal,
) -> Result<u32, AllocError> {
    let mut all: Vec<Vec<NameId>> = Vec::new(alloc);
    all.push(wrong_signals(alloc, &refusal.first)?)?;
    for other in refusal.others.items() {
        all.push(wrong_signals(alloc, other)?)?;
    }
    let place = first_alone(alloc, values, all.as_slice())?;
    match refusal.others.items().get(place.wrapping_sub(1)) {
        Some(other) => Ok(other.rule),
        None => Ok(refusal.first.rule),
    }
}
