//! Gates for a legal flow of the pipeline, and for its path: the predicted PC is that of the next instruction.
#![tactic(auto, unfolding(crate::specs::Flow::flow_legal, crate::specs::Flow::path, crate::specs::Flow::youngest_stops), using(nets::proofs::Truths::begins_more, nets::proofs::Truths::begins_self))]

ghost use Rattle.std.specs.Prelude.{◌<◌, ◌&&◌, not, length, IfOk};
ghost use Rattle.nets.specs.Nets.{ExtendsNet, IsGate, truth};
ghost use Rattle.pipe_motion.specs.Gates.{stage_flow_at, flow_at, HasStageFlow, HasFlow};
ghost use Rattle.pipe_motion.specs.Flow as spec;

use crate::flow_gates::{FlowGates, StageFlowGates};
use nets::{NetBuilder, choose, excludes, implies, without};
use y86_base::Memory;

/// If E holds a wrong instruction, D holds no good one.
fn good_behind_wrong(b: &mut NetBuilder, v: &FlowGates) -> Result<u64, Memory>
    requires { HasFlow (length b.old.gates) v.now }
    ensures extends { ExtendsNet b.old b.new }
    ensures has_truth { IfOk result (λ g. IsGate b.new g (λ w. spec.no_good_behind_wrong (flow_at b.old w v.now))) }
{
    excludes(b, v.e.wrong, v.d.good)
}

/// If `has` is true for M, no good instruction in D or E follows it.
fn youngest_in_m(b: &mut NetBuilder, v: &FlowGates, has: u64) -> Result<u64, Memory>
    requires flow_in { HasFlow (length b.old.gates) v.now }
    requires has_in { has < length b.old.gates }
    ensures extends { ExtendsNet b.old b.new }
    ensures has_truth { IfOk result (λ g. IsGate b.new g (λ w. not (truth b.old has w && spec.is_followed_m (flow_at b.old w v.now)))) }
{
    let behind = b.or(v.d.good, v.e.good)?;
    excludes(b, has, behind)
}

/// If `has` is true for W, no good instruction in D, E or M follows it.
fn youngest_in_w(b: &mut NetBuilder, v: &FlowGates, has: u64) -> Result<u64, Memory>
    requires flow_in { HasFlow (length b.old.gates) v.now }
    requires has_in { has < length b.old.gates }
    ensures extends { ExtendsNet b.old b.new }
    ensures has_truth { IfOk result (λ g. IsGate b.new g (λ w. not (truth b.old has w && spec.is_followed_w (flow_at b.old w v.now)))) }
{
    let behind_m = b.or(v.d.good, v.e.good)?;
    let behind = b.or(behind_m, v.m.good)?;
    excludes(b, has, behind)
}

/// Only the youngest good instruction stops.
fn one_stops(b: &mut NetBuilder, v: &FlowGates) -> Result<u64, Memory>
    requires { HasFlow (length b.old.gates) v.now }
    ensures extends { ExtendsNet b.old b.new }
    ensures has_truth { IfOk result (λ g. IsGate b.new g (λ w. spec.youngest_stops_alone (flow_at b.old w v.now))) }
{
    let e = excludes(b, v.e.stops, v.d.good)?;
    let m = youngest_in_m(b, v, v.m.stops)?;
    let w = youngest_in_w(b, v, v.w.stops)?;
    let both = b.and(m, w)?;
    b.and(e, both)
}

/// Wrong instructions may follow the youngest good one.
fn reason(b: &mut NetBuilder, v: &FlowGates) -> Result<u64, Memory>
    requires { HasFlow (length b.old.gates) v.now }
    ensures extends { ExtendsNet b.old b.new }
    ensures has_truth { IfOk result (λ g. IsGate b.new g (λ w. spec.wrong_may_follow (flow_at b.old w v.now))) }
{
    let d = without(b, v.d.stops, v.d.ret)?;
    let e_stops = without(b, v.e.stops, v.e.ret)?;
    let e = b.or(e_stops, v.e.missed)?;
    let m = without(b, v.m.stops, v.m.ret)?;
    of_youngest(b, v, d, e, m, v.w.stops)
}

/// D and E hold wrong instructions only where these may follow.
fn wrong_reasons(b: &mut NetBuilder, v: &FlowGates) -> Result<u64, Memory>
    requires { HasFlow (length b.old.gates) v.now }
    ensures extends { ExtendsNet b.old b.new }
    ensures has_truth { IfOk result (λ g. IsGate b.new g (λ w. spec.wrong_has_reason (flow_at b.old w v.now))) }
{
    let reason = reason(b, v)?;
    let wrong = b.or(v.d.wrong, v.e.wrong)?;
    implies(b, wrong, reason)
}

/// A missed jump is the youngest good instruction: in E, and in M unless `je`.
fn missed_jumps(b: &mut NetBuilder, v: &FlowGates, je: bool) -> Result<u64, Memory>
    requires { HasFlow (length b.old.gates) v.now }
    ensures extends { ExtendsNet b.old b.new }
    ensures has_truth { IfOk result (λ g. IsGate b.new g (λ w. spec.missed_jump_is_youngest je (flow_at b.old w v.now))) }
{
    let e = excludes(b, v.e.missed, v.d.good)?;
    if je {
        return Ok(e);
    }
    let m = youngest_in_m(b, v, v.m.missed)?;
    b.and(e, m)
}

/// A ret is the youngest good instruction: in E and M, and in W unless `rm`.
fn rets(b: &mut NetBuilder, v: &FlowGates, rm: bool) -> Result<u64, Memory>
    requires { HasFlow (length b.old.gates) v.now }
    ensures extends { ExtendsNet b.old b.new }
    ensures has_truth { IfOk result (λ g. IsGate b.new g (λ w. spec.ret_is_youngest rm (flow_at b.old w v.now))) }
{
    let e = excludes(b, v.e.ret, v.d.good)?;
    let m = youngest_in_m(b, v, v.m.ret)?;
    let both = b.and(e, m)?;
    if rm {
        return Ok(both);
    }
    let w = youngest_in_w(b, v, v.w.ret)?;
    b.and(both, w)
}

/// The last three of the five conditions of a legal flow.
fn reasons_and_turns(b: &mut NetBuilder, v: &FlowGates, je: bool, rm: bool) -> Result<u64, Memory>
    requires { HasFlow (length b.old.gates) v.now }
    ensures extends { ExtendsNet b.old b.new }
    ensures has_truth { IfOk result (λ g. IsGate b.new g (λ w.
        spec.wrong_has_reason (flow_at b.old w v.now) && (spec.missed_jump_is_youngest je (flow_at b.old w v.now) && spec.ret_is_youngest rm (flow_at b.old w v.now)))) }
{
    let reasons = wrong_reasons(b, v)?;
    let jumps = missed_jumps(b, v, je)?;
    let rets = rets(b, v, rm)?;
    let last_two = b.and(jumps, rets)?;
    b.and(reasons, last_two)
}

/// The flow is legal. `je` and `rm` say whether the file fetches early from E and from M.
pub fn flow_legal_gate(b: &mut NetBuilder, v: &FlowGates, je: bool, rm: bool) -> Result<u64, Memory>
    requires { HasFlow (length b.old.gates) v.now }
    ensures extends { ExtendsNet b.old b.new }
    ensures has_truth { IfOk result (λ g. IsGate b.new g (λ w. spec.flow_legal je rm (flow_at b.old w v.now))) }
{
    let first = good_behind_wrong(b, v)?;
    let second = one_stops(b, v)?;
    let rest = reasons_and_turns(b, v, je, rm)?;
    let last_two = b.and(second, rest)?;
    b.and(first, last_two)
}

/// The run continues at the PC that was predicted after this instruction.
fn follows(b: &mut NetBuilder, s: &StageFlowGates) -> Result<u64, Memory>
    requires { HasStageFlow (length b.old.gates) s.now }
    ensures extends { ExtendsNet b.old b.new }
    ensures has_truth { IfOk result (λ g. IsGate b.new g (λ w. spec.follows_prediction (stage_flow_at b.old w s.now))) }
{
    let turns = b.or(s.ret, s.missed)?;
    let any = b.or(s.stops, turns)?;
    b.not(any)
}

/// Selects a gate by the stage of the youngest good instruction: `d`, `e` or `m`, and `w` if it is in W or there is
/// none.
pub fn of_youngest(
    b: &mut NetBuilder,
    v: &FlowGates,
    d: u64,
    e: u64,
    m: u64,
    w: u64,
) -> Result<u64, Memory>
    requires flow_in { HasFlow (length b.old.gates) v.now }
    requires d_in { d < length b.old.gates }
    requires e_in { e < length b.old.gates }
    requires m_in { m < length b.old.gates }
    requires w_in { w < length b.old.gates }
    ensures extends { ExtendsNet b.old b.new }
    ensures has_truth { IfOk result (λ g. IsGate b.new g (λ x. spec.of_youngest (flow_at b.old x v.now) (truth b.old d x) (truth b.old e x) (truth b.old m x) (truth b.old w x))) }
{
    let from_m = choose(b, v.m.good, m, w)?;
    let from_e = choose(b, v.e.good, e, from_m)?;
    choose(b, v.d.good, d, from_e)
}

/// The predicted PC is that of the next instruction.
pub fn path_gate(b: &mut NetBuilder, v: &FlowGates) -> Result<u64, Memory>
    requires { HasFlow (length b.old.gates) v.now }
    ensures extends { ExtendsNet b.old b.new }
    ensures has_truth { IfOk result (λ g. IsGate b.new g (λ w. spec.path (flow_at b.old w v.now))) }
{
    let d = follows(b, &v.d)?;
    let e = follows(b, &v.e)?;
    let m = follows(b, &v.m)?;
    let w = follows(b, &v.w)?;
    of_youngest(b, v, d, e, m, w)
}

/// The youngest good instruction stops.
pub fn stops_gate(b: &mut NetBuilder, v: &FlowGates) -> Result<u64, Memory>
    requires { HasFlow (length b.old.gates) v.now }
    ensures extends { ExtendsNet b.old b.new }
    ensures has_truth { IfOk result (λ g. IsGate b.new g (λ w. spec.youngest_stops (flow_at b.old w v.now))) }
{
    of_youngest(b, v, v.d.stops, v.e.stops, v.m.stops, v.w.stops)
}
