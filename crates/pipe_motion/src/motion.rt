//! Gates of the next cycle: what the registers hold after stalls and bubbles.
ghost use Rattle.std.specs.Prelude.{◌<◌, length, IfOk};
ghost use Rattle.nets.specs.Nets.{ExtendsNet, IsGate, truth};
ghost use Rattle.pipe_motion.specs.Gates.{stage_flow_at, flow_at, register_control_at, register_controls_at, HasStageFlow, HasFlow, HasRegisterControl, HasRegisterControls, IsStageFlow, IsFlow};
ghost use Rattle.pipe_motion.specs.Flow as spec;

use crate::flow_gates::{FlowGates, RegisterControlGates, RegisterControlsGates, StageFlowGates};
use nets::{NetBuilder, choose, neither, without};
use y86_base::Memory;

/// The register is neither stalled nor bubbled.
pub fn load_gate(b: &mut NetBuilder, k: &RegisterControlGates) -> Result<u64, Memory>
    requires { HasRegisterControl (length b.old.gates) k.now }
    ensures extends { ExtendsNet b.old b.new }
    ensures has_truth { IfOk result (λ g. IsGate b.new g (λ w. spec.loads (register_control_at b.old w k.now))) }
{
    neither(b, k.stall, k.bubble)
}

/// A bit of a register after a cycle: the old bit if it is stalled, false if it is bubbled, else the loaded bit.
fn moved_bit(
    b: &mut NetBuilder,
    k: &RegisterControlGates,
    old: u64,
    loaded: u64,
) -> Result<u64, Memory>
    requires control_stays { HasRegisterControl (length b.old.gates) k.now }
    requires old_in { old < length b.old.gates }
    requires loaded_in { loaded < length b.old.gates }
    ensures extends { ExtendsNet b.old b.new }
    ensures has_truth { IfOk result (λ g. IsGate b.new g (λ w. spec.moved_truth (register_control_at b.old w k.now) (truth b.old old w) (truth b.old loaded w))) }
{
    let comes = without(b, loaded, k.bubble)?;
    choose(b, k.stall, old, comes)
}

/// The state of a register after a cycle.
fn moved_stage(
    b: &mut NetBuilder,
    k: &RegisterControlGates,
    old: &StageFlowGates,
    loaded: &StageFlowGates,
) -> Result<StageFlowGates, Memory>
    requires control_stays { HasRegisterControl (length b.old.gates) k.now }
    requires old_in { HasStageFlow (length b.old.gates) old.now }
    requires loaded_in { HasStageFlow (length b.old.gates) loaded.now }
    ensures extends { ExtendsNet b.old b.new }
    ensures has_truth { IfOk result (λ r. IsStageFlow b.new r (λ w. spec.moved_stage (register_control_at b.old w k.now) (stage_flow_at b.old w old.now) (stage_flow_at b.old w loaded.now))) }
{
    let good = moved_bit(b, k, old.good, loaded.good)?;
    let wrong = moved_bit(b, k, old.wrong, loaded.wrong)?;
    let stops = moved_bit(b, k, old.stops, loaded.stops)?;
    let ret = moved_bit(b, k, old.ret, loaded.ret)?;
    let missed = moved_bit(b, k, old.missed, loaded.missed)?;
    Ok(StageFlowGates {
        good,
        wrong,
        stops,
        ret,
        missed,
    })
}

/// M's state as W loads it. Only D, E and M record a mispredicted jump.
fn for_w(b: &mut NetBuilder, s: &StageFlowGates) -> Result<StageFlowGates, Memory>
    requires { HasStageFlow (length b.old.gates) s.now }
    ensures extends { ExtendsNet b.old b.new }
    ensures has_truth { IfOk result (λ r. IsStageFlow b.new r (λ w. spec.entering_w (stage_flow_at b.old w s.now))) }
{
    let missed = b.constant(false)?;
    Ok(StageFlowGates {
        good: s.good,
        wrong: s.wrong,
        stops: s.stops,
        ret: s.ret,
        missed,
    })
}

/// What D loads: the facts of the fetched instruction if the fetch is good, else a wrong instruction.
pub fn fetched_flow(
    b: &mut NetBuilder,
    good: u64,
    s: &StageFlowGates,
) -> Result<StageFlowGates, Memory>
    requires good_in { good < length b.old.gates }
    requires stage_flow_stays { HasStageFlow (length b.old.gates) s.now }
    ensures extends { ExtendsNet b.old b.new }
    ensures has_truth { IfOk result (λ r. IsStageFlow b.new r (λ w. spec.fetched_flow (truth b.old good w) (stage_flow_at b.old w s.now))) }
{
    let wrong = b.not(good)?;
    let stops = b.and(good, s.stops)?;
    let ret = b.and(good, s.ret)?;
    let missed = b.and(good, s.missed)?;
    Ok(StageFlowGates {
        good,
        wrong,
        stops,
        ret,
        missed,
    })
}

/// The flow of the next cycle.
#[tactic(auto, unfolding(crate::specs::Flow::moved_flow), using(nets::proofs::Truths::begins_more, nets::proofs::Truths::begins_self, crate::proofs::Kept::stage_flow_kept, crate::proofs::Kept::control_kept))]
pub fn move_flow(
    b: &mut NetBuilder,
    k: &RegisterControlsGates,
    fetched: &StageFlowGates,
    v: &FlowGates,
) -> Result<FlowGates, Memory>
    requires controls_in { HasRegisterControls (length b.old.gates) k.now }
    requires fetched_in { HasStageFlow (length b.old.gates) fetched.now }
    requires flow_in { HasFlow (length b.old.gates) v.now }
    ensures extends { ExtendsNet b.old b.new }
    ensures has_truth { IfOk result (λ r. IsFlow b.new r (λ w. spec.moved_flow (register_controls_at b.old w k.now) (stage_flow_at b.old w fetched.now) (flow_at b.old w v.now))) }
{
    let d = moved_stage(b, &k.d, &v.d, fetched)?;
    let e = moved_stage(b, &k.e, &v.e, &v.d)?;
    let m = moved_stage(b, &k.m, &v.m, &v.e)?;
    let from_m = for_w(b, &v.m)?;
    let w = moved_stage(b, &k.w, &v.w, &from_m)?;
    Ok(FlowGates { d, e, m, w })
}
