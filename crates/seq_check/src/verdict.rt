//! The verdict on a design for SEQ or SEQ+.
ghost use Rattle.std.specs.Prelude.{◌≡◌, IfErr, IfOk, true};
ghost use Rattle.hcl_types.specs.Tables.{IsBound, IsOrderOf};
ghost use Rattle.ctl_atoms.specs.Atoms.{AreAtoms, IsCtlFault};
ghost use Rattle.ctl_verdicts.specs.ObligationSet.{IsFault};
ghost use Rattle.seq_plus.specs.Datapaths.{rows_of};
ghost use Rattle.seq_check.specs.Rules.{AreRulesOf};
ghost use Rattle.seq_check.specs.Verdicts.{IsVerdictOn, Refines, is_yes};

use crate::rules::plus_rules;
use ctl_atoms::{Atom, CtlFault};
use ctl_rules::Rules;
use ctl_verdicts::{CheckFault, check_fault, decide};
use hcl_types::{OrderedDesign, SequentialDatapath};
use nets::Valuation;
use seq_obligations::seq_rules;
use std::alloc::Global;
use y86_base::{Items, Memory, Variant};

/// Whether a design meets every obligation. If not: the number of the first one that it doesn't meet, with the least
/// valuation at which that is false, and the design's atoms.
#[derive(Debug, PartialEq, Drop)]
pub enum SeqVerdict {
    Yes,
    No {
        rule: u32,
        valuation: Valuation,
        atoms: Items<Atom>,
    },
}

/// The rules of a design for the datapath.
pub fn rules_of(
    alloc: Global,
    which: SequentialDatapath,
    v: Variant,
    ordered: &OrderedDesign,
) -> Result<Rules, CtlFault>
    requires bound { IsBound (rows_of which) ordered.now.design.terms }
    requires ordered { IsOrderOf (rows_of which) ordered.now.design.terms ordered.now.order.ids }
    ensures rules { IfOk result (λ r. AreRulesOf which v ordered.now.design.terms r.net r.list) }
    ensures variant { IfOk result (λ r. r.variant ≡ v) }
    ensures atoms { IfOk result (λ r. AreAtoms (rows_of which) ordered.now.design.terms r.atoms) }
    ensures fault { IfErr result (IsCtlFault (rows_of which) ordered.now.design.terms) }
{
    match which {
        SequentialDatapath::Seq => seq_rules(alloc, v, ordered),
        SequentialDatapath::SeqPlus => plus_rules(alloc, v, ordered),
    }
}

/// The verdict on an HCL file for SEQ or SEQ+. If it is yes, the file's machine runs as the instructions do: on every
/// image, for every number of cycles.
pub fn check_seq(
    alloc: Global,
    which: SequentialDatapath,
    variant: Variant,
    ordered: &OrderedDesign,
) -> Result<SeqVerdict, CheckFault>
    requires bound { IsBound (rows_of which) ordered.now.design.terms }
    requires ordered { IsOrderOf (rows_of which) ordered.now.design.terms ordered.now.order.ids }
    ensures verdict { IfOk result (IsVerdictOn which variant ordered.now.design.terms) }
    ensures refines { IfOk result (λ r. is_yes r ≡ true → Refines which variant ordered.now.design.terms) }
    ensures fault { IfErr result (IsFault (rows_of which) ordered.now.design.terms) }
{
    let rules = match rules_of(alloc, which, variant, ordered) {
        Ok(rules) => rules,
        Err(fault) => return Err(check_fault(fault)),
    };
    match decide(alloc, &rules.net, rules.list.items()) {
        Ok(None) => Ok(SeqVerdict::Yes),
        Ok(Some(failure)) => Ok(SeqVerdict::No {
            rule: failure.rule,
            valuation: failure.valuation,
            atoms: rules.atoms,
        }),
        Err(Memory) => Err(CheckFault::Memory),
    }
}
