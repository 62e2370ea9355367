//! What a certificate of a file for PIPE has to show at given settings.
ghost use Rattle.std.specs.Prelude.{◌≡◌, ◌++◌, ◌∷◌, [], cond, map, IfErr, IfOk};
ghost use Rattle.ctl_atoms.specs.Atoms.{IsCtlFault};
ghost use Rattle.dp_signals.specs.PipeTable.{pipe_rows};
ghost use Rattle.hcl_types.specs.Tables.{IsBound, IsOrderOf};
ghost use Rattle.cert_log.specs.DesignDemands.{DemandsFor, gate_of};
ghost use Rattle.cert_writer.specs.Writing.{AreInside};

use cert_checker::Demands;
use ctl_atoms::CtlFault;
use ctl_rules::Rule;
use hazard_rules::{pipe_parts, pipe_rules};
use hcl_types::OrderedDesign;
use pipe_motion::Settings;
use std::alloc::Global;
use y86_base::{Items, Memory, Variant, push};

/// The gates of rules.
#[tactic(auto, using(crate::proofs::Wanted::gates_none, crate::proofs::Wanted::gates_more, crate::proofs::Wanted::gates_all))]
fn gates_of(alloc: Global, list: &[Rule]) -> Result<Vec<u64>, Memory>
    ensures { IfOk result (λ gates. gates.items ≡ map gate_of list.now) }
{
    let mut gates: Vec<u64> = Vec::new(alloc);
    for k in 0..list.len() {
        push(&mut gates, list[k].gate)?;
    }
    Ok(gates)
}

/// The gates that are demanded at settings: those of the rules and, if the settings say that jumps carry their targets
/// (`target`), the gate for that.
fn wanted(alloc: Global, list: &[Rule], target: bool, tv: u64) -> Result<Vec<u64>, Memory>
    ensures { IfOk result (λ want. want.items ≡ map gate_of list.now ++ cond target (tv ∷ []) []) }
{
    let mut want = gates_of(alloc, list)?;
    if target {
        push(&mut want, tv)?;
    }
    Ok(want)
}

/// What a certificate of a file has to show at given settings: its 27 obligations and, if the settings say so, that
/// jumps carry their targets.
///
/// Errors: `Mixed` and `AtomsOver64`, as `ctl_atoms::atoms` reports them; `Memory`.
#[tactic(auto, using(crate::proofs::Wanted::demanded))]
pub fn demands(
    alloc: Global,
    variant: Variant,
    ordered: &OrderedDesign,
    settings: Settings,
) -> Result<Demands, CtlFault>
    requires bound { IsBound pipe_rows ordered.now.design.terms }
    requires ordered { IsOrderOf pipe_rows ordered.now.design.terms ordered.now.order.ids }
    ensures demands { IfOk result (DemandsFor variant ordered.now.design.terms settings) }
    ensures inside { IfOk result AreInside }
    ensures fault { IfErr result (IsCtlFault pipe_rows ordered.now.design.terms) }
{
    let parts = pipe_parts(alloc, variant, ordered)?;
    let tv = parts.tv;
    let rules = match pipe_rules(alloc, parts, settings) {
        Ok(rules) => rules,
        Err(Memory) => return Err(CtlFault::Memory),
    };
    match wanted(alloc, rules.list.items(), settings.tv, tv) {
        Ok(want) => Ok(Demands {
            settings,
            net: rules.net,
            want: Items::of(want),
        }),
        Err(Memory) => Err(CtlFault::Memory),
    }
}
