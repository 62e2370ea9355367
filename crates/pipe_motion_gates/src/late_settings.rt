//! The gates that decide lf, je and rm: a setting is 1 if its gate is false at some valuation.
ghost use Rattle.std.specs.Prelude.{◌≡◌, ◌<◌, ◌&&◌, if◌then◌else◌, IfOk, length, not};
ghost use Rattle.nets.specs.Nets.{ExtendsNet, truth};
ghost use Rattle.ctl_atoms.specs.declared.leaf.Leaf.TheVariants.{Name};
ghost use Rattle.ctl_picks.specs.Picks.{Covers, IsInside};
ghost use Rattle.y86_base.specs.Words.{set};
ghost use Rattle.dp_signals.specs.PipeNames as names;
ghost use Rattle.dp_signals.specs.PipeTable.{pipe_rows};
ghost use Rattle.ctl_rules.specs.ControlGates.{IsControlGate};
ghost use Rattle.ctl_rules.specs.ColumnDemands as words;
ghost use Rattle.pipe_fields.specs.Layout.{fields_of};
ghost use Rattle.pipe_motion.specs.Gates.{IsFlow, flow_at};
ghost use Rattle.pipe_obligations.specs.Obligations.{register_controls_of};
ghost use Rattle.pipe_gates.specs.GateTruths.{IsAtomGate, IsTruthGate};
ghost use Rattle.pipe_gates.specs.Inputs.{IsRuleReady};
ghost use Rattle.pipe_motion_gates.specs.Legality.{HasAtomVariables};
ghost use Rattle.pipe_obligations.specs.FileSettings.{leaves_past_load, may_witness, permissive, witnesses_je, witnesses_lf, witnesses_rm};
ghost use Rattle.pipe_obligations.specs.StageFlows.{is_jump, flow_of};

use crate::fetch::right_after_e;
use crate::late::{no_early_jump, no_early_ret, no_late_load};
use crate::premises::premise_gate;
use ctl_atoms::{Atom, Leaf};
use ctl_picks::Controls;
use ctl_rules::{ExpectedLeaf, picks_leaf};
use dp_signals::pipe_row as signal;
use nets::NetBuilder;
use pipe_fields::places::E_DST_M;
use pipe_gates::{RuleInputs, flow_gates, register_controls_of};
use pipe_motion::{FlowGates, Settings};
use y86_base::{Memory, Variant};

/// False exactly if a good store leaves D while E loads its source, and `plain` holds.
#[tactic(auto, using(pipe_gates::proofs::Known::known_d_srcA, pipe_motion::proofs::Kept::flow_stays, ctl_picks::proofs::Inside::inside_more))]
fn no_load_passed(b: &mut NetBuilder, inputs: &RuleInputs<'_>, plain: u64) -> Result<u64, Memory>
    requires ready { IsRuleReady b.old inputs.now }
    requires plain_in { plain < length b.old.gates }
    ensures extends { ExtendsNet b.old b.new }
    ensures has_truth { IfOk result (λ g. IsControlGate b.new inputs.now.controls.now g (λ w α cv.
        not (leaves_past_load inputs.now.variant (fields_of w) (flow_at b.old w inputs.now.flow.now) (register_controls_of α cv) cv && truth b.old plain w))) }
{
    let controls = register_controls_of(inputs.controls);
    let equal = picks_leaf(
        b,
        inputs.controls,
        signal::D_SRC_A,
        ExpectedLeaf::Field(E_DST_M),
    )?;
    no_late_load(b, inputs.variant, equal, &controls, inputs.flow, plain)
}

/// False exactly if E holds a missed jump, and f_pc is where it goes, and `plain` holds.
#[tactic(auto, using(pipe_gates::proofs::Known::known_f_pc, pipe_motion::proofs::Kept::flow_stays, ctl_picks::proofs::Inside::inside_more))]
fn no_jump_early(b: &mut NetBuilder, inputs: &RuleInputs<'_>, plain: u64) -> Result<u64, Memory>
    requires ready { IsRuleReady b.old inputs.now }
    requires plain_in { plain < length b.old.gates }
    ensures extends { ExtendsNet b.old b.new }
    ensures has_truth { IfOk result (λ g. IsControlGate b.new inputs.now.controls.now g (λ w α cv.
        not (((flow_at b.old w inputs.now.flow.now).e.missed && (is_jump inputs.now.variant (fields_of w).e.stat (fields_of w).e.icode
        && words.picks_leaf cv names.f_pc (if set (fields_of w).e.cnd then Name names.E_valC else Name names.E_valA))) && truth b.old plain w))) }
{
    let right = right_after_e(b, inputs)?;
    no_early_jump(b, inputs.flow, right, plain)
}

/// False exactly if M holds a ret that doesn't stop, and f_pc is where it goes, and `plain` holds.
#[tactic(auto, using(pipe_gates::proofs::Known::known_f_pc, pipe_motion::proofs::Kept::flow_stays, ctl_picks::proofs::Inside::inside_more))]
fn no_ret_early(b: &mut NetBuilder, inputs: &RuleInputs<'_>, plain: u64) -> Result<u64, Memory>
    requires ready { IsRuleReady b.old inputs.now }
    requires plain_in { plain < length b.old.gates }
    ensures extends { ExtendsNet b.old b.new }
    ensures has_truth { IfOk result (λ g. IsControlGate b.new inputs.now.controls.now g (λ w α cv.
        not ((((flow_at b.old w inputs.now.flow.now).m.ret && not (flow_at b.old w inputs.now.flow.now).m.stops) && words.picks_leaf cv names.f_pc (Name names.m_valM)) && truth b.old plain w))) }
{
    let right = picks_leaf(
        b,
        inputs.controls,
        signal::F_PC,
        ExpectedLeaf::This(Leaf::Name(signal::M_VAL_M)),
    )?;
    no_early_ret(b, inputs.flow, right, plain)
}

/// The flow of the stages, and the valuations that may show a setting.
#[derive(Clone, Copy, Debug)]
struct PermissiveFlow {
    flow: FlowGates,
    plain: u64,
}

/// The valuations that may show a setting: legal ones of cycles that don't stop, with every early fetch and late word
/// allowed.
fn permissive_legal(
    b: &mut NetBuilder,
    v: Variant,
    s: &Settings,
    atoms: &[Atom],
) -> Result<PermissiveFlow, Memory>
    requires has { HasAtomVariables b.old atoms.now }
    requires free { permissive s.now ≡ s.now }
    ensures extends { ExtendsNet b.old b.new }
    ensures flow { IfOk result (λ r. IsFlow b.new r.flow (λ w. flow_of v s.now (fields_of w))) }
    ensures plain { IfOk result (λ r. IsAtomGate b.new atoms.now r.plain (λ w α. may_witness v s.now atoms.now (fields_of w) α)) }
{
    let flow = flow_gates(b, v, s)?;
    let plain = premise_gate(b, v, s, atoms, &flow, false)?;
    Ok(PermissiveFlow { flow, plain })
}

/// The gates that decide lf, je and rm: a setting holds if its gate is false at some valuation.
#[derive(Clone, Copy, Debug, PartialEq, Eq)]
pub struct Late {
    pub lf: u64,
    pub je: u64,
    pub rm: u64,
}

/// The gates that decide lf, je and rm. Each is false at the valuations that show its setting. The given settings allow
/// every early fetch and late word.
#[tactic(auto, using(pipe_motion::proofs::Kept::flow_stays, ctl_picks::proofs::Inside::inside_more, nets::proofs::Truths::begins_more))]
pub fn late_gates(
    b: &mut NetBuilder,
    ctl: &Controls,
    v: Variant,
    s: &Settings,
    atoms: &[Atom],
) -> Result<Late, Memory>
    requires inside { IsInside b.old ctl.now }
    requires known { Covers pipe_rows ctl.now }
    requires has { HasAtomVariables b.old atoms.now }
    requires free { permissive s.now ≡ s.now }
    ensures extends { ExtendsNet b.old b.new }
    ensures late { IfOk result (λ r. IsTruthGate b.new ctl.now atoms.now r.lf (λ c α cv. not (witnesses_lf v s.now atoms.now c α cv))) }
    ensures jump { IfOk result (λ r. IsTruthGate b.new ctl.now atoms.now r.je (λ c α cv. not (witnesses_je v s.now atoms.now c α cv))) }
    ensures ret { IfOk result (λ r. IsTruthGate b.new ctl.now atoms.now r.rm (λ c α cv. not (witnesses_rm v s.now atoms.now c α cv))) }
{
    let p = permissive_legal(b, v, s, atoms)?;
    let inputs = RuleInputs {
        variant: v,
        settings: s,
        controls: ctl,
        flow: &p.flow,
    };
    let lf = no_load_passed(b, &inputs, p.plain)?;
    let je = no_jump_early(b, &inputs, p.plain)?;
    let rm = no_ret_early(b, &inputs, p.plain)?;
    Ok(Late { lf, je, rm })
}
