//! What each of the 27 obligations demands, by its number.
ghost use Rattle.std.specs.Prelude.{◌≤◌, IfOk};
ghost use Rattle.nets.specs.Nets.{ExtendsNet};
ghost use Rattle.ctl_rules.specs.ControlGates.{IsControlGate};
ghost use Rattle.pipe_gates.specs.Inputs.{IsRuleReady, at_inputs};
ghost use Rattle.pipe_obligations.specs.Rules.{demand, rule_count};

use nets::NetBuilder;
use pipe_gates::RuleInputs;
use pipe_motion_gates::{
    obligation_23, obligation_24, obligation_25, obligation_26, obligation_27,
};
use pipe_stage_gates::{
    FrontRule, RowRule, decode_rule_gate, demand_in_e, fetch_rule_gate, obligation_1, obligation_5,
    obligation_10, obligation_11, obligation_14, obligation_15, obligation_16, obligation_17,
    obligation_18, obligation_19, obligation_20, obligation_21, obligation_22,
};
use y86_base::Memory;

/// What the obligation of a number from 1 to 27 demands.
#[tactic(auto, using(pipe_stage_gates::proofs::Ready::ready_by, pipe_stage_gates::proofs::Ready::front_ready_by))]
pub(crate) fn demand_gate(
    b: &mut NetBuilder,
    inputs: &RuleInputs<'_>,
    number: u32,
) -> Result<u64, Memory>
    requires ready { IsRuleReady b.old inputs.now }
    requires from { 1 ≤ number }
    requires to { number ≤ rule_count }
    ensures extends { ExtendsNet b.old b.new }
    ensures has_truth { IfOk result (λ g. IsControlGate b.new inputs.now.controls.now g (at_inputs (demand number) b.old inputs.now)) }
{
    let ctl = inputs.controls;
    let v = inputs.variant;
    match number {
        1 => obligation_1(b, ctl),
        2 => fetch_rule_gate(b, ctl, v, FrontRule::Status),
        3 => fetch_rule_gate(b, ctl, v, FrontRule::RegisterByte),
        4 => fetch_rule_gate(b, ctl, v, FrontRule::Constant),
        5 => obligation_5(b, ctl, v, inputs.settings),
        6 => decode_rule_gate(b, ctl, v, FrontRule::SourceA),
        7 => decode_rule_gate(b, ctl, v, FrontRule::SourceB),
        8 => decode_rule_gate(b, ctl, v, FrontRule::DestinationE),
        9 => decode_rule_gate(b, ctl, v, FrontRule::DestinationM),
        10 => obligation_10(b, inputs),
        11 => obligation_11(b, inputs),
        12 => demand_in_e(b, inputs, RowRule::OperandA),
        13 => demand_in_e(b, inputs, RowRule::OperandB),
        14 => obligation_14(b, inputs),
        15 => obligation_15(b, inputs),
        16 => obligation_16(b, inputs),
        17 => obligation_17(b, inputs),
        18 => obligation_18(b, inputs),
        19 => obligation_19(b, inputs),
        20 => obligation_20(b, ctl),
        21 => obligation_21(b, inputs),
        22 => obligation_22(b, inputs),
        23 => obligation_23(b, inputs),
        24 => obligation_24(b, inputs),
        25 => obligation_25(b, inputs),
        26 => obligation_26(b, inputs),
        27 => obligation_27(b, inputs),
        _ => unreachable!(),
    }
}
