//! The next cycle's flow, and the obligations from 23 on, computed from the flow of the stages.
ghost use Rattle.std.specs.Prelude.{◌≡◌, ◌&&◌};
ghost use Rattle.pipe_requirements.specs.Flows.{as_register_control, as_register_controls, as_stage_flow, as_flow};
ghost use Rattle.pipe_motion.specs.Flow as spec;

use pipe_requirements::{
    FlowNow, Now, RegisterControlNow, RegisterControlsNow, StageFlowNow, leaves, loads,
};

/// A truth about a register after the cycle.
fn moved_truth(k: RegisterControlNow, old: bool, loaded: bool) -> bool
    ensures { result ≡ spec.moved_truth (as_register_control k) old loaded }
{
    if k.stall {
        old
    } else if k.bubble {
        false
    } else {
        loaded
    }
}

/// What a register holds after the cycle.
fn moved_stage(k: RegisterControlNow, old: &StageFlowNow, loaded: &StageFlowNow) -> StageFlowNow
    ensures { as_stage_flow result ≡ spec.moved_stage (as_register_control k) (as_stage_flow old.now) (as_stage_flow loaded.now) }
{
    StageFlowNow {
        good: moved_truth(k, old.good, loaded.good),
        wrong: moved_truth(k, old.wrong, loaded.wrong),
        stops: moved_truth(k, old.stops, loaded.stops),
        ret: moved_truth(k, old.ret, loaded.ret),
        missed: moved_truth(k, old.missed, loaded.missed),
    }
}

/// What D loads.
fn fetched_flow(good: bool, facts: &StageFlowNow) -> StageFlowNow
    ensures { as_stage_flow result ≡ spec.fetched_flow good (as_stage_flow facts.now) }
{
    StageFlowNow {
        good,
        wrong: !good,
        stops: good && facts.stops,
        ret: good && facts.ret,
        missed: good && facts.missed,
    }
}

/// M's stage flow as W loads it.
fn entering_w(s: &StageFlowNow) -> StageFlowNow
    ensures { as_stage_flow result ≡ spec.entering_w (as_stage_flow s.now) }
{
    StageFlowNow {
        good: s.good,
        wrong: s.wrong,
        stops: s.stops,
        ret: s.ret,
        missed: false,
    }
}

/// The next cycle's flow; `good` says whether the fetch is good, `facts` are those of the fetched instruction.
#[tactic(auto, unfolding(pipe_motion::specs::Flow::moved_flow))]
pub fn next_flow(k: &RegisterControlsNow, good: bool, facts: &StageFlowNow, y: &FlowNow) -> FlowNow
    ensures { as_flow result ≡ spec.moved_flow (as_register_controls k.now) (spec.fetched_flow good (as_stage_flow facts.now)) (as_flow y.now) }
{
    let entering = fetched_flow(good, facts);
    let leaving = entering_w(&y.m);
    FlowNow {
        d: moved_stage(k.d, &y.d, &entering),
        e: moved_stage(k.e, &y.e, &y.d),
        m: moved_stage(k.m, &y.m, &y.e),
        w: moved_stage(k.w, &y.w, &leaving),
    }
}

/// Only the youngest good instruction stops.
fn stops_alone(y: &FlowNow) -> bool
    ensures { result ≡ spec.youngest_stops_alone (as_flow y.now) }
{
    !(y.e.stops && y.d.good)
        && (!(y.m.stops && (y.d.good || y.e.good))
            && !(y.w.stops && ((y.d.good || y.e.good) || y.m.good)))
}

/// Wrong instructions may follow the youngest good one.
fn wrong_may_follow(y: &FlowNow) -> bool
    ensures { result ≡ spec.wrong_may_follow (as_flow y.now) }
{
    if y.d.good {
        y.d.stops && !y.d.ret
    } else if y.e.good {
        (y.e.stops && !y.e.ret) || y.e.missed
    } else if y.m.good {
        y.m.stops && !y.m.ret
    } else {
        y.w.stops
    }
}

/// D and E hold wrong instructions only where these may follow.
fn wrong_has_reason(y: &FlowNow) -> bool
    ensures { result ≡ spec.wrong_has_reason (as_flow y.now) }
{
    !(y.d.wrong || y.e.wrong) || wrong_may_follow(y)
}

/// A missed jump is the youngest good instruction.
fn missed_is_youngest(je: bool, y: &FlowNow) -> bool
    ensures { result ≡ spec.missed_jump_is_youngest je (as_flow y.now) }
{
    !(y.e.missed && y.d.good) && (je || !(y.m.missed && (y.d.good || y.e.good)))
}

/// A ret is the youngest good instruction.
fn ret_is_youngest(rm: bool, y: &FlowNow) -> bool
    ensures { result ≡ spec.ret_is_youngest rm (as_flow y.now) }
{
    !(y.e.ret && y.d.good)
        && (!(y.m.ret && (y.d.good || y.e.good))
            && (rm || !(y.w.ret && ((y.d.good || y.e.good) || y.m.good))))
}

/// The flow is legal.
#[tactic(auto, unfolding(pipe_motion::specs::Flow::flow_legal))]
fn flow_legal(je: bool, rm: bool, y: &FlowNow) -> bool
    ensures { result ≡ spec.flow_legal je rm (as_flow y.now) }
{
    !(y.e.wrong && y.d.good)
        && (stops_alone(y)
            && (wrong_has_reason(y) && (missed_is_youngest(je, y) && ret_is_youngest(rm, y))))
}

/// The run continues at the PC that was predicted after this instruction.
fn follows(s: &StageFlowNow) -> bool
    ensures { result ≡ spec.follows_prediction (as_stage_flow s.now) }
{
    !(s.stops || (s.ret || s.missed))
}

/// A fact of the youngest good instruction.
pub fn of_youngest(y: &FlowNow, d: bool, e: bool, m: bool, w: bool) -> bool
    ensures { result ≡ spec.of_youngest (as_flow y.now) d e m w }
{
    if y.d.good {
        d
    } else if y.e.good {
        e
    } else if y.m.good {
        m
    } else {
        w
    }
}

/// The predicted PC is that of the next instruction.
#[tactic(auto, unfolding(pipe_motion::specs::Flow::path))]
pub fn path(y: &FlowNow) -> bool
    ensures { result ≡ spec.path (as_flow y.now) }
{
    of_youngest(
        y,
        follows(&y.d),
        follows(&y.e),
        follows(&y.m),
        follows(&y.w),
    )
}

/// The youngest good instruction stops.
#[tactic(auto, unfolding(pipe_motion::specs::Flow::youngest_stops))]
pub fn youngest_stops(y: &FlowNow) -> bool
    ensures { result ≡ spec.youngest_stops (as_flow y.now) }
{
    of_youngest(y, y.d.stops, y.e.stops, y.m.stops, y.w.stops)
}

/// The register isn't both stalled and bubbled.
fn stall_excludes_bubble(k: RegisterControlNow) -> bool
    ensures { result ≡ spec.stall_excludes_bubble (as_register_control k) }
{
    !(k.stall && k.bubble)
}

fn met_23(k: &RegisterControlsNow) -> bool
    ensures { result ≡ spec.o23 (as_register_controls k.now) }
{
    stall_excludes_bubble(k.f)
        && (stall_excludes_bubble(k.d)
            && (stall_excludes_bubble(k.e)
                && (stall_excludes_bubble(k.m) && stall_excludes_bubble(k.w))))
}

/// A good instruction goes on to the next register.
fn passes_on(next: RegisterControlNow, own: RegisterControlNow, s: &StageFlowNow) -> bool
    ensures { result ≡ spec.passes_on (as_register_control next) (as_register_control own) (as_stage_flow s.now) }
{
    !s.good || (loads(next) && !own.stall)
}

/// A good instruction in D leaves, or stays while E doesn't load.
fn goes_or_stays(k: &RegisterControlsNow, y: &FlowNow) -> bool
    ensures { result ≡ spec.goes_or_stays (as_register_controls k.now) (as_flow y.now) }
{
    !y.d.good || (leaves(k, y) || (k.d.stall && !loads(k.e)))
}

fn met_24(k: &RegisterControlsNow, y: &FlowNow) -> bool
    ensures { result ≡ spec.o24 (as_register_controls k.now) (as_flow y.now) }
{
    !(y.w.good && k.w.stall)
        && (passes_on(k.w, k.m, &y.m) && (passes_on(k.m, k.e, &y.e) && goes_or_stays(k, y)))
}

/// If the path holds next: F loads if D loads a good fetch, else F is stalled and the path holds now.
fn path_is_kept(k: &RegisterControlsNow, good: bool, now: bool, next: bool) -> bool
    ensures { result ≡ spec.path_is_kept (as_register_controls k.now) good now next }
{
    !next
        || (if loads(k.d) && good {
            loads(k.f)
        } else {
            k.f.stall && now
        })
}

fn met_25(
    je: bool,
    rm: bool,
    k: &RegisterControlsNow,
    good: bool,
    facts: &StageFlowNow,
    y: &FlowNow,
) -> bool
    ensures { result ≡ spec.o25 je rm (as_register_controls k.now) good (as_stage_flow facts.now) (as_flow y.now) }
{
    let next = next_flow(k, good, facts, y);
    flow_legal(je, rm, &next)
        && (!(next.m.wrong || next.w.wrong) && path_is_kept(k, good, path(y), path(&next)))
}

fn is_bubble(s: &StageFlowNow) -> bool
    ensures { result ≡ spec.is_bubble (as_stage_flow s.now) }
{
    !(s.good || s.wrong)
}

fn is_drained(y: &FlowNow) -> bool
    ensures { result ≡ spec.is_drained (as_flow y.now) }
{
    is_bubble(&y.e) && (is_bubble(&y.m) && is_bubble(&y.w))
}

fn met_26(k: &RegisterControlsNow, y: &FlowNow) -> bool
    ensures { result ≡ spec.o26 (as_register_controls k.now) (as_flow y.now) }
{
    !(y.d.good && is_drained(y)) || leaves(k, y)
}

fn met_27(k: &RegisterControlsNow, y: &FlowNow) -> bool
    ensures { result ≡ spec.o27 (as_register_controls k.now) (as_flow y.now) }
{
    !(is_bubble(&y.d) && is_drained(y)) || loads(k.d)
}

/// Whether the obligations from 23 on are met.
pub fn registers_move_well(n: &Now<'_>, good: bool, facts: &StageFlowNow) -> bool
    ensures { result ≡ (spec.o23 (as_register_controls n.now.mv.now)
        && (spec.o24 (as_register_controls n.now.mv.now) (as_flow n.now.y.now)
        && (spec.o25 n.now.s.now.je n.now.s.now.rm (as_register_controls n.now.mv.now) good (as_stage_flow facts.now) (as_flow n.now.y.now)
        && (spec.o26 (as_register_controls n.now.mv.now) (as_flow n.now.y.now)
        && spec.o27 (as_register_controls n.now.mv.now) (as_flow n.now.y.now))))) }
{
    met_23(n.mv)
        && (met_24(n.mv, n.y)
            && (met_25(n.s.je, n.s.rm, n.mv, good, facts, n.y)
                && (met_26(n.mv, n.y) && met_27(n.mv, n.y))))
}
