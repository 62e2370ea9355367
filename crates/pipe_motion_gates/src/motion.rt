//! Obligations 23, 24, 26 and 27: how the stall and bubble signals move the flow of the stages.
ghost use Rattle.std.specs.Prelude.{IfOk};
ghost use Rattle.nets.specs.Nets.{ExtendsNet};
ghost use Rattle.ctl_rules.specs.ControlGates.{IsControlGate};
ghost use Rattle.pipe_gates.specs.Inputs.{IsRuleReady, at_inputs};
ghost use Rattle.pipe_obligations.specs.Obligations as spec;

use nets::NetBuilder;
use pipe_gates::{RuleInputs, register_controls_of};
use y86_base::Memory;

/// Obligation 23: no register is both stalled and bubbled.
pub fn obligation_23(b: &mut NetBuilder, inputs: &RuleInputs<'_>) -> Result<u64, Memory>
    requires ready { IsRuleReady b.old inputs.now }
    ensures extends { ExtendsNet b.old b.new }
    ensures has_truth { IfOk result (λ g. IsControlGate b.new inputs.now.controls.now g (at_inputs spec.o23 b.old inputs.now)) }
{
    let controls = register_controls_of(inputs.controls);
    pipe_motion::obligation_23(b, &controls)
}

/// Obligation 24: no good instruction is lost or doubled.
pub fn obligation_24(b: &mut NetBuilder, inputs: &RuleInputs<'_>) -> Result<u64, Memory>
    requires ready { IsRuleReady b.old inputs.now }
    ensures extends { ExtendsNet b.old b.new }
    ensures has_truth { IfOk result (λ g. IsControlGate b.new inputs.now.controls.now g (at_inputs spec.o24 b.old inputs.now)) }
{
    let controls = register_controls_of(inputs.controls);
    pipe_motion::obligation_24(b, &controls, inputs.flow)
}

/// Obligation 26: if E, M and W hold bubbles, the good instruction in D leaves.
pub fn obligation_26(b: &mut NetBuilder, inputs: &RuleInputs<'_>) -> Result<u64, Memory>
    requires ready { IsRuleReady b.old inputs.now }
    ensures extends { ExtendsNet b.old b.new }
    ensures has_truth { IfOk result (λ g. IsControlGate b.new inputs.now.controls.now g (at_inputs spec.o26 b.old inputs.now)) }
{
    let controls = register_controls_of(inputs.controls);
    pipe_motion::obligation_26(b, &controls, inputs.flow)
}

/// Obligation 27: if the pipeline is empty, D loads.
pub fn obligation_27(b: &mut NetBuilder, inputs: &RuleInputs<'_>) -> Result<u64, Memory>
    requires ready { IsRuleReady b.old inputs.now }
    ensures extends { ExtendsNet b.old b.new }
    ensures has_truth { IfOk result (λ g. IsControlGate b.new inputs.now.controls.now g (at_inputs spec.o27 b.old inputs.now)) }
{
    let controls = register_controls_of(inputs.controls);
    pipe_motion::obligation_27(b, &controls, inputs.flow)
}
