//! The instructions in D, E, M and W, and the stall and bubble signals, as truths.
ghost use Rattle.std.specs.Prelude.{◌≡◌, ◌≤◌, not};
ghost use Rattle.pipe_motion.specs.Predictions as spec_predictions;
ghost use Rattle.pipe_motion.specs.Flow as flows;
ghost use Rattle.pipe_obligations.specs.StageFlows as spec;
ghost use Rattle.nets.specs.Nets.{agree};
ghost use Rattle.y86_base.specs.Words as numbers;
ghost use Rattle.pipe_requirements.specs.Flows.{fields_in, as_register_controls, as_stage_flow, as_flow};

use crate::lines::Lines;
use findings::set;
use pipe_motion::Settings;
use y86_base::Variant;
use y86_isa::{next_is_branch, next_is_val_m, row};

/// The state of a register.
#[derive(Clone, Copy)]
pub struct StageFlowNow {
    pub good: bool,
    pub wrong: bool,
    pub stops: bool,
    pub ret: bool,
    pub missed: bool,
}

/// The states of D to W.
#[derive(Clone, Copy)]
pub struct FlowNow {
    pub d: StageFlowNow,
    pub e: StageFlowNow,
    pub m: StageFlowNow,
    pub w: StageFlowNow,
}

/// The stall and bubble signals of a register.
#[derive(Clone, Copy)]
pub struct RegisterControlNow {
    pub stall: bool,
    pub bubble: bool,
}

/// The ten stall and bubble signals.
#[derive(Clone, Copy)]
pub struct RegisterControlsNow {
    pub f: RegisterControlNow,
    pub d: RegisterControlNow,
    pub e: RegisterControlNow,
    pub m: RegisterControlNow,
    pub w: RegisterControlNow,
}

/// Whether a jump of this ifun, that goes back or not, is predicted as taken.
pub fn predicts(s: &Settings, ifun: u64, back: bool) -> bool
    ensures { result ≡ spec_predictions.predicts s.now ifun back }
{
    let all = if back { &s.pb } else { &s.pt };
    all.get(ifun as usize).copied().unwrap_or(false)
}

/// The state of a register by its kind and three truths.
fn stage_flow_by(kind: u64, stops: bool, ret: bool, missed: bool) -> StageFlowNow
    ensures { as_stage_flow result ≡ spec.stage_flow_by kind stops ret missed }
{
    let good = kind == 1;
    StageFlowNow {
        good,
        wrong: kind == 2,
        stops: good && stops,
        ret: good && ret,
        missed: good && missed,
    }
}

/// A jump, also `jmp`, with status 1 (AOK).
pub fn is_jump(v: Variant, stat: u64, icode: u64) -> bool
    ensures { result ≡ spec.is_jump v stat icode }
{
    stat == 1 && next_is_branch(row(v, icode).next)
}

/// A jump doesn't go the predicted way.
pub fn other_way(s: &Settings, ifun: u64, taken: u64, back: u64) -> bool
    ensures { result ≡ not (agree (numbers.set taken) (spec_predictions.predicts s.now ifun (numbers.set back))) }
{
    set(taken) != predicts(s, ifun, set(back))
}

/// The instruction stops the machine: by its status, or by a fault at memory.
pub fn stops_by(stat: u64, fault: u64) -> bool
    ensures { result ≡ spec.stops_by stat fault }
{
    stat != 1 || set(fault)
}

/// The flow of the stages.
#[tactic(auto, unfolding(pipe_obligations::specs::StageFlows::flow_of))]
pub fn flow_of(v: Variant, s: &Settings, l: &Lines) -> FlowNow
    ensures { as_flow result ≡ spec.flow_of v s.now (fields_in l.now) }
{
    FlowNow {
        d: stage_flow_by(
            l.d.kind,
            stops_by(l.d.stat, l.d.stops),
            next_is_val_m(row(v, l.d.icode).next),
            is_jump(v, l.d.stat, l.d.icode) && other_way(s, l.d.ifun, l.d.taken, l.d.back),
        ),
        e: stage_flow_by(
            l.e.kind,
            stops_by(l.e.stat, l.e.stops),
            next_is_val_m(row(v, l.e.icode).next),
            is_jump(v, l.e.stat, l.e.icode) && other_way(s, l.e.ifun, l.e.cnd, l.e.back),
        ),
        m: stage_flow_by(
            l.m.kind,
            stops_by(l.m.stat, l.m.error),
            next_is_val_m(row(v, l.m.icode).next),
            is_jump(v, l.m.stat, l.m.icode) && other_way(s, l.m.ifun, l.m.cnd, l.m.back),
        ),
        w: stage_flow_by(
            l.w.kind,
            l.w.stat != 1,
            next_is_val_m(row(v, l.w.icode).next),
            false,
        ),
    }
}

/// A register that is neither stalled nor bubbled.
pub fn loads(k: RegisterControlNow) -> bool
    ensures { result ≡ flows.loads (record { stall = k.stall; bubble = k.bubble }) }
{
    !(k.stall || k.bubble)
}

/// The good instruction in D goes on to E.
pub fn leaves(k: &RegisterControlsNow, y: &FlowNow) -> bool
    ensures { result ≡ flows.leaves (as_register_controls k.now) (as_flow y.now) }
{
    y.d.good && (loads(k.e) && !k.d.stall)
}
