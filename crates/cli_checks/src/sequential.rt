//! Verdicts on designs for the sequential datapaths, and the text of a `no`.
ghost use Rattle.std.specs.Prelude.{◌≡◌, ◌≤◌, Err, IfErr, IfOk, OnErr, length};
ghost use Rattle.hcl_types.specs.Tables.{IsBoundDesign};
ghost use Rattle.ctl_verdicts.specs.ObligationSet.{IsFault};
ghost use Rattle.cli_checks.specs.Sequential.{IsDecided, no_text};
ghost use Rattle.seq_plus.specs.Datapaths.{rows_of};
ghost use Rattle.cli_plans.specs.declared.stop_reason.StopReason.TheVariants.{Memory as WantOfMemory};

use cli_plans::StopReason;
use ctl_atoms::Atom;
use ctl_verdicts::CheckFault;
use hcl_types::{BoundDesign, Row, SequentialDatapath};
use nets::Valuation;
use seq_check::{SeqVerdict, check_seq};
use std::alloc::Global;
use verdict_text::{plus_refusal, seq_refusal};
use y86_base::{Items, Memory, Variant};

/// Why a design isn't accepted: the first obligation that is false at some valuation, the least such valuation, and the
/// design's atoms.
#[derive(Debug, Drop)]
pub struct SeqRejection {
    pub rule: u32,
    pub valuation: Valuation,
    pub atoms: Items<Atom>,
}

/// The verdict on a design: `None` if it is accepted.
pub fn decided(
    alloc: Global,
    which: SequentialDatapath,
    variant: Variant,
    bound: &BoundDesign,
) -> Result<Option<SeqRejection>, CheckFault>
    requires { IsBoundDesign (rows_of which) bound.now }
    ensures decided { IfOk result (IsDecided which variant bound.now.ordered.design.terms) }
    ensures fault { IfErr result (IsFault (rows_of which) bound.now.ordered.design.terms) }
{
    match check_seq(alloc, which, variant, &bound.ordered) {
        Ok(SeqVerdict::Yes) => Ok(None),
        Ok(
            SeqVerdict::No {
                rule,
                valuation,
                atoms,
            },
        ) => Ok(Some(SeqRejection {
            rule,
            valuation,
            atoms,
        })),
        Err(fault) => Err(fault),
    }
}

/// The text of a `no`, by the rows of the datapath's table and the design's atoms.
#[tactic(auto, unfolding(seq_check::specs::Fields::fields_of, seq_obligations::specs::Fields::line_at))]
fn refusal(
    alloc: Global,
    which: SequentialDatapath,
    rows: &[Row],
    rule: u32,
    valuation: &Valuation,
    list: &[Atom],
) -> Result<Vec<u8>, Memory>
    requires rows { rows.now ≡ rows_of which }
    requires few { length list.now ≤ 64 }
    ensures { IfOk result (λ text. text.items ≡ no_text which rule valuation.now.bits list.now) }
{
    match which {
        SequentialDatapath::Seq => seq_refusal(alloc, rows, rule, valuation, list),
        SequentialDatapath::SeqPlus => plus_refusal(alloc, rows, rule, valuation, list),
    }
}

/// The text of a `no` for a design.
pub fn seq_text<'a>(
    alloc: Global,
    which: SequentialDatapath,
    bound: &BoundDesign,
    denial: &SeqRejection,
) -> Result<Vec<u8>, StopReason<'a>>
    requires ordered { IsBoundDesign (rows_of which) bound.now }
    requires few { length denial.now.atoms ≤ 64 }
    ensures text { IfOk result (λ text. text.items ≡ no_text which denial.now.rule denial.now.valuation.bits denial.now.atoms) }
    ensures memory { OnErr result (result ≡ Err WantOfMemory) }
{
    match refusal(
        alloc,
        which,
        bound.table.rows.items(),
        denial.rule,
        &denial.valuation,
        denial.atoms.items(),
    ) {
        Ok(text) => Ok(text),
        Err(_) => Err(StopReason::Memory),
    }
}
