//! The rules of a design for a sequential datapath.
ghost use Rattle.std.specs.Prelude.{◌≡◌, ◌||◌, not, IfErr, IfOk};
ghost use Rattle.hcl_types.specs.Tables.{IsBound, IsOrderOf};
ghost use Rattle.ctl_atoms.specs.Atoms.{AreAtoms, IsCtlFault};
ghost use Rattle.dp_signals.specs.SeqTable.{seq_rows};
ghost use Rattle.seq_obligations.specs.Rules.{AreDesignedRules, AreSeqRules};

use crate::numbered::{RuleFamily, numbered_rules};
use crate::rules::SeqRules;
use ctl_atoms::{CtlFault, atoms};
use ctl_formula::translate;
use ctl_rules::Rules;
use hcl_types::OrderedDesign;
use nets::NetBuilder;
use std::alloc::Global;
use y86_base::{Items, Variant};

/// The 16 rules of a design for a sequential datapath, in their order: each gate is its obligation at every pattern of
/// bits of a control valuation. The fields come first, then the atoms. A design that mixes classes or has more than 64
/// atoms has no rules.
pub fn designed_rules<N: RuleFamily>(
    alloc: Global,
    variant: Variant,
    ordered: &OrderedDesign,
    rules: &N,
) -> Result<Rules, CtlFault>
    requires bound { IsBound N.rows ordered.now.design.terms }
    requires ordered { IsOrderOf N.rows ordered.now.design.terms ordered.now.order.ids }
    ensures rules { IfOk result (λ r. AreDesignedRules N.rows N.field N.bits (λ i w α cv. not (N.may rules.now w α cv) || N.asks rules.now i w α cv) ordered.now.design.terms r.net r.list) }
    ensures variant { IfOk result (λ r. r.variant ≡ variant) }
    ensures atoms { IfOk result (λ r. AreAtoms N.rows ordered.now.design.terms r.atoms) }
    ensures fault { IfErr result (IsCtlFault N.rows ordered.now.design.terms) }
{
    let table = match rules.table(alloc) {
        Ok(table) => table,
        Err(_) => return Err(CtlFault::Memory),
    };
    let listed = atoms(alloc, ordered, &table)?;
    let mut b = NetBuilder::new(alloc, rules.bit_count() + listed.len() as u32);
    let ctl = translate(alloc, ordered, &table, rules.field_places(), &mut b)?;
    match numbered_rules(alloc, &mut b, &ctl, rules) {
        Err(_) => Err(CtlFault::Memory),
        Ok(list) => Ok(Rules {
            variant,
            net: b.finish(),
            list: Items::of(list),
            atoms: Items::of(listed),
        }),
    }
}

/// The 16 rules of a design for SEQ.
pub fn seq_rules(alloc: Global, v: Variant, ordered: &OrderedDesign) -> Result<Rules, CtlFault>
    requires bound { IsBound seq_rows ordered.now.design.terms }
    requires ordered { IsOrderOf seq_rows ordered.now.design.terms ordered.now.order.ids }
    ensures rules { IfOk result (λ r. AreSeqRules v ordered.now.design.terms r.net r.list) }
    ensures variant { IfOk result (λ r. r.variant ≡ v) }
    ensures atoms { IfOk result (λ r. AreAtoms seq_rows ordered.now.design.terms r.atoms) }
    ensures fault { IfErr result (IsCtlFault seq_rows ordered.now.design.terms) }
{
    designed_rules(alloc, v, ordered, &SeqRules { variant: v })
}
