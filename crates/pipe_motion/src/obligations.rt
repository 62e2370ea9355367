//! Gates of the obligations on motion.
ghost use Rattle.std.specs.Prelude.{◌<◌, ◌||◌, ◌&&◌, not, length, IfOk};
ghost use Rattle.nets.specs.Nets.{ExtendsNet, IsGate, truth};
ghost use Rattle.pipe_motion.specs.Gates.{stage_flow_at, flow_at, register_control_at, register_controls_at, HasStageFlow, HasFlow, HasRegisterControl, HasRegisterControls};
ghost use Rattle.pipe_motion.specs.Flow as spec;

use crate::flow_gates::{FlowGates, RegisterControlGates, RegisterControlsGates, StageFlowGates};
use crate::legal_flow::{flow_legal_gate, path_gate};
use crate::motion::{fetched_flow, load_gate, move_flow};
use crate::settings::Settings;
use nets::{NetBuilder, choose, excludes, implies, neither, without};
use y86_base::Memory;

/// A good instruction leaves D.
pub fn leaves_gate(
    b: &mut NetBuilder,
    k: &RegisterControlsGates,
    v: &FlowGates,
) -> Result<u64, Memory>
    requires controls_in { HasRegisterControls (length b.old.gates) k.now }
    requires flow_in { HasFlow (length b.old.gates) v.now }
    ensures extends { ExtendsNet b.old b.new }
    ensures has_truth { IfOk result (λ g. IsGate b.new g (λ w. spec.leaves (register_controls_at b.old w k.now) (flow_at b.old w v.now))) }
{
    let e_loads = load_gate(b, &k.e)?;
    let goes = without(b, e_loads, k.d.stall)?;
    b.and(v.d.good, goes)
}

/// The register isn't both stalled and bubbled.
fn stall_excludes_bubble(b: &mut NetBuilder, k: &RegisterControlGates) -> Result<u64, Memory>
    requires control_stays { HasRegisterControl (length b.old.gates) k.now }
    ensures extends { ExtendsNet b.old b.new }
    ensures has_truth { IfOk result (λ g. IsGate b.new g (λ w. spec.stall_excludes_bubble (register_control_at b.old w k.now))) }
{
    excludes(b, k.stall, k.bubble)
}

/// None of E, M and W is both stalled and bubbled.
fn last_one_way(b: &mut NetBuilder, k: &RegisterControlsGates) -> Result<u64, Memory>
    requires controls_in { HasRegisterControls (length b.old.gates) k.now }
    ensures extends { ExtendsNet b.old b.new }
    ensures has_truth { IfOk result (λ g. IsGate b.new g (λ w. spec.stall_excludes_bubble (register_control_at b.old w k.now.e) && (spec.stall_excludes_bubble (register_control_at b.old w k.now.m) && spec.stall_excludes_bubble (register_control_at b.old w k.now.w)))) }
{
    let e = stall_excludes_bubble(b, &k.e)?;
    let m = stall_excludes_bubble(b, &k.m)?;
    let w = stall_excludes_bubble(b, &k.w)?;
    let last_two = b.and(m, w)?;
    b.and(e, last_two)
}

/// No register is both stalled and bubbled.
pub fn obligation_23(b: &mut NetBuilder, k: &RegisterControlsGates) -> Result<u64, Memory>
    requires controls_in { HasRegisterControls (length b.old.gates) k.now }
    ensures extends { ExtendsNet b.old b.new }
    ensures has_truth { IfOk result (λ g. IsGate b.new g (λ w. spec.o23 (register_controls_at b.old w k.now))) }
{
    let f = stall_excludes_bubble(b, &k.f)?;
    let d = stall_excludes_bubble(b, &k.d)?;
    let rest = last_one_way(b, k)?;
    let last = b.and(d, rest)?;
    b.and(f, last)
}

/// A good instruction goes on: the next register loads, and its own isn't stalled.
fn passes(
    b: &mut NetBuilder,
    next: &RegisterControlGates,
    own: &RegisterControlGates,
    good: u64,
) -> Result<u64, Memory>
    requires next_in { HasRegisterControl (length b.old.gates) next.now }
    requires own_in { HasRegisterControl (length b.old.gates) own.now }
    requires good_in { good < length b.old.gates }
    ensures extends { ExtendsNet b.old b.new }
    ensures has_truth { IfOk result (λ g. IsGate b.new g (λ w. not (truth b.old good w) || (spec.loads (register_control_at b.old w next.now) && not (truth b.old own.now.stall w)))) }
{
    let loads = load_gate(b, next)?;
    let goes = without(b, loads, own.stall)?;
    implies(b, good, goes)
}

/// A good instruction in D leaves, or it stays and E doesn't load.
fn goes_or_stays(
    b: &mut NetBuilder,
    k: &RegisterControlsGates,
    v: &FlowGates,
) -> Result<u64, Memory>
    requires controls_in { HasRegisterControls (length b.old.gates) k.now }
    requires flow_in { HasFlow (length b.old.gates) v.now }
    ensures extends { ExtendsNet b.old b.new }
    ensures has_truth { IfOk result (λ g. IsGate b.new g (λ w. spec.goes_or_stays (register_controls_at b.old w k.now) (flow_at b.old w v.now))) }
{
    let leaves = leaves_gate(b, k, v)?;
    let e_loads = load_gate(b, &k.e)?;
    let stays = without(b, k.d.stall, e_loads)?;
    let either = b.or(leaves, stays)?;
    implies(b, v.d.good, either)
}

/// A good instruction is neither lost nor doubled.
pub fn obligation_24(
    b: &mut NetBuilder,
    k: &RegisterControlsGates,
    v: &FlowGates,
) -> Result<u64, Memory>
    requires controls_in { HasRegisterControls (length b.old.gates) k.now }
    requires flow_in { HasFlow (length b.old.gates) v.now }
    ensures extends { ExtendsNet b.old b.new }
    ensures has_truth { IfOk result (λ g. IsGate b.new g (λ w. spec.o24 (register_controls_at b.old w k.now) (flow_at b.old w v.now))) }
{
    let w = excludes(b, v.w.good, k.w.stall)?;
    let m = passes(b, &k.w, &k.m, v.m.good)?;
    let e = passes(b, &k.m, &k.e, v.e.good)?;
    let d = goes_or_stays(b, k, v)?;
    let last_two = b.and(e, d)?;
    let last_three = b.and(m, last_two)?;
    b.and(w, last_three)
}

/// If the path holds next: F loads if D loads a good fetch; else F is stalled and the path holds now.
fn path_kept(
    b: &mut NetBuilder,
    k: &RegisterControlsGates,
    good: u64,
    now: u64,
    later: u64,
) -> Result<u64, Memory>
    requires controls_in { HasRegisterControls (length b.old.gates) k.now }
    requires good_in { good < length b.old.gates }
    requires now_in { now < length b.old.gates }
    requires later_in { later < length b.old.gates }
    ensures extends { ExtendsNet b.old b.new }
    ensures has_truth { IfOk result (λ g. IsGate b.new g (λ w. spec.path_is_kept (register_controls_at b.old w k.now) (truth b.old good w) (truth b.old now w) (truth b.old later w))) }
{
    let d_loads = load_gate(b, &k.d)?;
    let entered = b.and(d_loads, good)?;
    let f_loads = load_gate(b, &k.f)?;
    let stayed = b.and(k.f.stall, now)?;
    let either = choose(b, entered, f_loads, stayed)?;
    implies(b, later, either)
}

/// The next flow is legal, no wrong instruction comes to M or W, and the path is kept.
#[tactic(auto, using(nets::proofs::Truths::begins_more, nets::proofs::Truths::begins_self, crate::proofs::Kept::flow_kept, crate::proofs::Kept::controls_kept))]
fn next_right(
    b: &mut NetBuilder,
    k: &RegisterControlsGates,
    good: u64,
    v: &FlowGates,
    next: &FlowGates,
    s: &Settings,
) -> Result<u64, Memory>
    requires controls_in { HasRegisterControls (length b.old.gates) k.now }
    requires good_in { good < length b.old.gates }
    requires flow_in { HasFlow (length b.old.gates) v.now }
    requires next_in { HasFlow (length b.old.gates) next.now }
    ensures extends { ExtendsNet b.old b.new }
    ensures has_truth { IfOk result (λ g. IsGate b.new g (λ w. spec.next_is_right s.now.je s.now.rm (register_controls_at b.old w k.now) (truth b.old good w) (flow_at b.old w v.now) (flow_at b.old w next.now))) }
{
    let lawful = flow_legal_gate(b, next, s.je, s.rm)?;
    let wrong = b.or(next.m.wrong, next.w.wrong)?;
    let none_wrong = b.not(wrong)?;
    let now = path_gate(b, v)?;
    let later = path_gate(b, next)?;
    let kept = path_kept(b, k, good, now, later)?;
    let last_two = b.and(none_wrong, kept)?;
    b.and(lawful, last_two)
}

/// The next flow is legal, no wrong instruction comes to M or W, and the path is kept. `good` says whether the fetch is
/// good; `facts` are those of the fetched instruction.
pub fn obligation_25(
    b: &mut NetBuilder,
    k: &RegisterControlsGates,
    good: u64,
    facts: &StageFlowGates,
    v: &FlowGates,
    s: &Settings,
) -> Result<u64, Memory>
    requires controls_in { HasRegisterControls (length b.old.gates) k.now }
    requires good_in { good < length b.old.gates }
    requires facts_in { HasStageFlow (length b.old.gates) facts.now }
    requires flow_in { HasFlow (length b.old.gates) v.now }
    ensures extends { ExtendsNet b.old b.new }
    ensures has_truth { IfOk result (λ g. IsGate b.new g (λ w. spec.o25 s.now.je s.now.rm (register_controls_at b.old w k.now) (truth b.old good w) (stage_flow_at b.old w facts.now) (flow_at b.old w v.now))) }
{
    let fetched = fetched_flow(b, good, facts)?;
    let next = move_flow(b, k, &fetched, v)?;
    next_right(b, k, good, v, &next, s)
}

/// E, M and W hold bubbles.
fn drained(b: &mut NetBuilder, v: &FlowGates) -> Result<u64, Memory>
    requires flow_in { HasFlow (length b.old.gates) v.now }
    ensures extends { ExtendsNet b.old b.new }
    ensures has_truth { IfOk result (λ g. IsGate b.new g (λ w. spec.is_drained (flow_at b.old w v.now))) }
{
    let e = neither(b, v.e.good, v.e.wrong)?;
    let m = neither(b, v.m.good, v.m.wrong)?;
    let w = neither(b, v.w.good, v.w.wrong)?;
    let last_two = b.and(m, w)?;
    b.and(e, last_two)
}

/// If E, M and W are empty, a good instruction in D leaves.
pub fn obligation_26(
    b: &mut NetBuilder,
    k: &RegisterControlsGates,
    v: &FlowGates,
) -> Result<u64, Memory>
    requires controls_in { HasRegisterControls (length b.old.gates) k.now }
    requires flow_in { HasFlow (length b.old.gates) v.now }
    ensures extends { ExtendsNet b.old b.new }
    ensures has_truth { IfOk result (λ g. IsGate b.new g (λ w. spec.o26 (register_controls_at b.old w k.now) (flow_at b.old w v.now))) }
{
    let drained = drained(b, v)?;
    let here = b.and(v.d.good, drained)?;
    let leaves = leaves_gate(b, k, v)?;
    implies(b, here, leaves)
}

/// If the pipeline is empty, D loads.
pub fn obligation_27(
    b: &mut NetBuilder,
    k: &RegisterControlsGates,
    v: &FlowGates,
) -> Result<u64, Memory>
    requires controls_in { HasRegisterControls (length b.old.gates) k.now }
    requires flow_in { HasFlow (length b.old.gates) v.now }
    ensures extends { ExtendsNet b.old b.new }
    ensures has_truth { IfOk result (λ g. IsGate b.new g (λ w. spec.o27 (register_controls_at b.old w k.now) (flow_at b.old w v.now))) }
{
    let d = neither(b, v.d.good, v.d.wrong)?;
    let drained = drained(b, v)?;
    let here = b.and(d, drained)?;
    let loads = load_gate(b, &k.d)?;
    implies(b, here, loads)
}
