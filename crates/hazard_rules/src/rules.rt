//! The 27 obligations as gates.
ghost use Rattle.std.specs.Prelude.{◌≡◌, false, true, if◌then◌else◌, length, IfOk};
ghost use Rattle.nets.specs.Nets.{ExtendsNet};
ghost use Rattle.ctl_picks.specs.Picks.{Covers, IsInside};
ghost use Rattle.dp_signals.specs.PipeTable.{pipe_rows};
ghost use Rattle.pipe_fields.specs.Layout.{fields_of};
ghost use Rattle.pipe_motion.specs.Gates.{IsFlow};
ghost use Rattle.ctl_rules.specs.declared.rules.Rule.{Rule};
ghost use Rattle.hazard_rules.specs.Parts.{AreRuleGates};
ghost use Rattle.pipe_gates.specs.GateTruths.{IsAtomGate};
ghost use Rattle.pipe_motion_gates.specs.Legality as built;
ghost use Rattle.pipe_obligations.specs.Rules as spec;
ghost use Rattle.pipe_obligations.specs.StageFlows.{flow_of};

use crate::demands::demand_gate;
use ctl_atoms::Atom;
use ctl_picks::Controls;
use ctl_rules::Rule;
use nets::{NetBuilder, implies};
use pipe_gates::{RuleInputs, flow_gates};
use pipe_motion::{FlowGates, Settings};
use pipe_motion_gates::{is_always_demanded, premise_gate};
use pipe_obligations::RULE_COUNT;
use std::alloc::Global;
use y86_base::{Memory, Variant, push};

/// The flow of the stages, and the valuations at which obligations are demanded: in any cycle, and in one that
/// doesn't stop.
#[derive(Clone, Copy, Debug)]
pub(crate) struct Premises {
    pub flow: FlowGates,
    pub always: u64,
    pub going: u64,
}

/// The premises of the obligations.
fn premises_of(
    b: &mut NetBuilder,
    v: Variant,
    s: &Settings,
    atoms: &[Atom],
) -> Result<Premises, Memory>
    requires has { built.HasAtomVariables b.old atoms.now }
    ensures extends { ExtendsNet b.old b.new }
    ensures flow { IfOk result (λ p. IsFlow b.new p.flow (λ w. flow_of v s.now (fields_of w))) }
    ensures always { IfOk result (λ p. IsAtomGate b.new atoms.now p.always (λ w α. built.premise_when v s.now atoms.now true (fields_of w) α)) }
    ensures going { IfOk result (λ p. IsAtomGate b.new atoms.now p.going (λ w α. built.premise_when v s.now atoms.now false (fields_of w) α)) }
{
    let flow = flow_gates(b, v, s)?;
    let always = premise_gate(b, v, s, atoms, &flow, true)?;
    let going = premise_gate(b, v, s, atoms, &flow, false)?;
    Ok(Premises {
        flow,
        always,
        going,
    })
}

/// One of two gates.
fn one_of(first: bool, x: u64, y: u64) -> u64
    ensures { result ≡ (if first then x else y) }
{
    if first { x } else { y }
}

/// The 27 obligations in their order: each number's demand, with its premise.
pub(crate) fn rules_told(
    alloc: Global,
    b: &mut NetBuilder,
    ctl: &Controls,
    v: Variant,
    s: &Settings,
    atoms: &[Atom],
) -> Result<Vec<Rule>, Memory>
    requires inside { IsInside b.old ctl.now }
    requires covers { Covers pipe_rows ctl.now }
    requires has { built.HasAtomVariables b.old atoms.now }
    ensures extends { ExtendsNet b.old b.new }
    ensures count { IfOk result (λ list. length list.items ≡ spec.rule_count) }
    ensures rules { IfOk result (λ list. AreRuleGates v s.now b.new ctl.now atoms.now list.items) }
{
    let p = premises_of(b, v, s, atoms)?;
    let mut list = Vec::new(alloc);
    for i in 0..RULE_COUNT {
        let number = i + 1;
        let inputs = RuleInputs {
            variant: v,
            settings: s,
            controls: ctl,
            flow: &p.flow,
        };
        let demand = demand_gate(b, &inputs, number)?;
        let premise = one_of(is_always_demanded(number as u64), p.always, p.going);
        let gate = implies(b, premise, demand)?;
        push(&mut list, Rule { number, gate })?;
    }
    Ok(list)
}
