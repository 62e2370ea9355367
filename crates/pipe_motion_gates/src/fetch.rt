//! Obligation 25: whether the fetch is that of the next instruction, and the next cycle's flow.
#![tactic(auto, using(nets::proofs::Truths::begins_more, ctl_picks::proofs::Inside::inside_more, pipe_motion::proofs::Kept::flow_stays, pipe_gates::proofs::InputsKept::inputs_stay, pipe_gates::proofs::Known::known_f_pc, pipe_gates::proofs::Known::known_f_stat, pipe_gates::proofs::Known::known_f_icode, pipe_gates::proofs::Known::known_f_ifun))]

ghost use Rattle.std.specs.Prelude.{◌<◌, ◌≤◌, ◌&&◌, ◌||◌, false, get_or, if◌then◌else◌, IfOk, IsTrue, length};
ghost use Rattle.nets.specs.Nets.{ExtendsNet, truth};
ghost use Rattle.ctl_atoms.specs.declared.leaf.Leaf.TheVariants.{Name};
ghost use Rattle.ctl_picks.specs.Picks.{IsInside, has_picks};
ghost use Rattle.y86_base.specs.Words.{set};
ghost use Rattle.dp_signals.specs.PipeNames as names;
ghost use Rattle.ctl_rules.specs.ControlGates.{IsControlGate};
ghost use Rattle.ctl_rules.specs.ColumnDemands as words;
ghost use Rattle.pipe_fields.specs.Layout.{fields_of};
ghost use Rattle.pipe_motion.specs.Gates.{flow_at};
ghost use Rattle.pipe_motion.specs.Predictions.{predicts};
ghost use Rattle.pipe_motion.specs.Flow.{path};
ghost use Rattle.pipe_gates.specs.Columns.{has};
ghost use Rattle.pipe_gates.specs.GateTruths.{AreStageFlowGates};
ghost use Rattle.pipe_gates.specs.Inputs.{HasInputs, IsRuleReady, at_inputs};
ghost use Rattle.pipe_obligations.specs.Obligations as spec;
ghost use Rattle.pipe_obligations.specs.StageFlows as stages;

use ctl_atoms::Leaf;
use ctl_picks::Controls;
use ctl_rules::{ExpectedLeaf, picks_leaf, picks_leaf_if};
use dp_signals::pipe_row as signal;
use hcl_types::NameId;
use net_fields::spells;
use nets::{NetBuilder, choose};
use pipe_fields::places::{
    E_CND, E_ICODE, E_STAT, F_BACK, F_STOPS, F_TAKEN, M_CND, M_ICODE, M_STAT,
};
use pipe_gates::{RowTest, RuleInputs, jump, register_controls_of, row_passes};
use pipe_motion::{StageFlowGates, of_youngest, path_gate, stops_gate};
use y86_base::{Memory, Variant};
use y86_isa::row;

/// The signal is the code, and `counts` holds.
fn code_if(
    b: &mut NetBuilder,
    ctl: &Controls,
    name: NameId,
    code: u64,
    counts: bool,
) -> Result<u64, Memory>
    requires inside { IsInside b.old ctl.now }
    requires known { IsTrue (has_picks ctl.now name) }
    ensures extends { ExtendsNet b.old b.new }
    ensures has_truth { IfOk result (λ g. IsControlGate b.new ctl.now g (λ w α cv. words.is_number cv name code && counts)) }
{
    let here = picks_leaf(b, ctl, name, ExpectedLeaf::This(Leaf::Number(code)))?;
    let count = b.constant(counts)?;
    b.and(here, count)
}

/// The list is true at the code of a signal.
fn code_listed(
    b: &mut NetBuilder,
    ctl: &Controls,
    name: NameId,
    list: &[bool],
) -> Result<u64, Memory>
    requires inside { IsInside b.old ctl.now }
    requires known { IsTrue (has_picks ctl.now name) }
    requires few { length list.now ≤ 15 }
    ensures extends { ExtendsNet b.old b.new }
    ensures has_truth { IfOk result (λ g. IsControlGate b.new ctl.now g (λ w α cv. get_or list.now (spec.code_of (cv name)) false)) }
{
    let mut any = b.constant(false)?;
    for k in 0..list.len() {
        let here = code_if(b, ctl, name, k as u64, list[k])?;
        any = b.or(any, here)?;
    }
    Ok(any)
}

/// The row of the signal's icode passes the test.
fn code_has(
    b: &mut NetBuilder,
    ctl: &Controls,
    v: Variant,
    name: NameId,
    test: RowTest,
) -> Result<u64, Memory>
    requires inside { IsInside b.old ctl.now }
    requires known { IsTrue (has_picks ctl.now name) }
    ensures extends { ExtendsNet b.old b.new }
    ensures has_truth { IfOk result (λ g. IsControlGate b.new ctl.now g (λ w α cv. has v test (spec.code_of (cv name)))) }
{
    let mut any = b.constant(false)?;
    for k in 0..15 {
        let here = code_if(b, ctl, name, k, row_passes(&row(v, k), test))?;
        any = b.or(any, here)?;
    }
    Ok(any)
}

/// The fetched instruction stops the machine.
fn fetched_stops(b: &mut NetBuilder, inputs: &RuleInputs<'_>) -> Result<u64, Memory>
    requires has { HasInputs b.old inputs.now }
    requires known { IsTrue (has_picks inputs.now.controls.now names.f_stat) }
    ensures extends { ExtendsNet b.old b.new }
    ensures has_truth { IfOk result (λ g. IsControlGate b.new inputs.now.controls.now g (λ w α cv. stages.stops_by (spec.code_of (cv names.f_stat)) (fields_of w).f.stops)) }
{
    let running = picks_leaf(
        b,
        inputs.controls,
        signal::F_STAT,
        ExpectedLeaf::This(Leaf::Number(1)),
    )?;
    let clear = spells(b, F_STOPS, 0)?;
    let goes_on = b.and(running, clear)?;
    b.not(goes_on)
}

/// The fetched instruction is a jump, also `jmp`, with status 1 (AOK).
fn fetched_jumps(b: &mut NetBuilder, ctl: &Controls, v: Variant) -> Result<u64, Memory>
    requires inside { IsInside b.old ctl.now }
    requires stat_known { IsTrue (has_picks ctl.now names.f_stat) }
    requires icode_known { IsTrue (has_picks ctl.now names.f_icode) }
    ensures extends { ExtendsNet b.old b.new }
    ensures has_truth { IfOk result (λ g. IsControlGate b.new ctl.now g (λ w α cv. stages.is_jump v (spec.code_of (cv names.f_stat)) (spec.code_of (cv names.f_icode)))) }
{
    let running = picks_leaf(b, ctl, signal::F_STAT, ExpectedLeaf::This(Leaf::Number(1)))?;
    let branch = code_has(b, ctl, v, signal::F_ICODE, RowTest::Jump)?;
    b.and(running, branch)
}

/// The way that is predicted for the fetched instruction, as if it were a jump.
fn fetched_way(b: &mut NetBuilder, inputs: &RuleInputs<'_>) -> Result<u64, Memory>
    requires has { HasInputs b.old inputs.now }
    requires known { IsTrue (has_picks inputs.now.controls.now names.f_ifun) }
    ensures extends { ExtendsNet b.old b.new }
    ensures has_truth { IfOk result (λ g. IsControlGate b.new inputs.now.controls.now g (λ w α cv. predicts inputs.now.settings.now (spec.code_of (cv names.f_ifun)) (set (fields_of w).f.back))) }
{
    let forward = code_listed(b, inputs.controls, signal::F_IFUN, &inputs.settings.pt)?;
    let backward = code_listed(b, inputs.controls, signal::F_IFUN, &inputs.settings.pb)?;
    let ahead = spells(b, F_BACK, 0)?;
    choose(b, ahead, forward, backward)
}

/// The fetched instruction is a mispredicted jump.
fn fetched_misses(b: &mut NetBuilder, inputs: &RuleInputs<'_>) -> Result<u64, Memory>
    requires has { HasInputs b.old inputs.now }
    requires stat_known { IsTrue (has_picks inputs.now.controls.now names.f_stat) }
    requires icode_known { IsTrue (has_picks inputs.now.controls.now names.f_icode) }
    requires ifun_known { IsTrue (has_picks inputs.now.controls.now names.f_ifun) }
    ensures extends { ExtendsNet b.old b.new }
    ensures has_truth { IfOk result (λ g. IsControlGate b.new inputs.now.controls.now g (λ w α cv.
        stages.is_missed inputs.now.variant inputs.now.settings.now (spec.code_of (cv names.f_stat)) (spec.code_of (cv names.f_icode)) (spec.code_of (cv names.f_ifun)) (fields_of w).f.taken (fields_of w).f.back)) }
{
    let here = fetched_jumps(b, inputs.controls, inputs.variant)?;
    let way = fetched_way(b, inputs)?;
    let passed = spells(b, F_TAKEN, 0)?;
    let other = b.equal(passed, way)?;
    b.and(here, other)
}

/// What D loads from a good fetch.
fn fetched_facts(b: &mut NetBuilder, inputs: &RuleInputs<'_>) -> Result<StageFlowGates, Memory>
    requires has { HasInputs b.old inputs.now }
    requires stat_known { IsTrue (has_picks inputs.now.controls.now names.f_stat) }
    requires icode_known { IsTrue (has_picks inputs.now.controls.now names.f_icode) }
    requires ifun_known { IsTrue (has_picks inputs.now.controls.now names.f_ifun) }
    ensures extends { ExtendsNet b.old b.new }
    ensures has_truth { IfOk result (λ r. AreStageFlowGates b.new inputs.now.controls.now r (λ w α cv.
        stages.stage_flow_by 1 (stages.stops_by (spec.code_of (cv names.f_stat)) (fields_of w).f.stops) (stages.is_ret inputs.now.variant (spec.code_of (cv names.f_icode)))
        (stages.is_missed inputs.now.variant inputs.now.settings.now (spec.code_of (cv names.f_stat)) (spec.code_of (cv names.f_icode)) (spec.code_of (cv names.f_ifun)) (fields_of w).f.taken (fields_of w).f.back))) }
{
    let good = b.constant(true)?;
    let wrong = b.constant(false)?;
    let stops = fetched_stops(b, inputs)?;
    let ret = code_has(
        b,
        inputs.controls,
        inputs.variant,
        signal::F_ICODE,
        RowTest::Ret,
    )?;
    let missed = fetched_misses(b, inputs)?;
    Ok(StageFlowGates {
        good,
        wrong,
        stops,
        ret,
        missed,
    })
}

/// A gate holds, and f_pc picks a leaf.
fn goes_to(b: &mut NetBuilder, ctl: &Controls, here: u64, leaf: NameId) -> Result<u64, Memory>
    requires inside { IsInside b.old ctl.now }
    requires known { IsTrue (has_picks ctl.now names.f_pc) }
    requires here_in { here < length b.old.gates }
    ensures extends { ExtendsNet b.old b.new }
    ensures has_truth { IfOk result (λ g. IsControlGate b.new ctl.now g (λ w α cv. truth b.old here w && words.picks_leaf cv names.f_pc (Name leaf))) }
{
    let taken = picks_leaf(b, ctl, signal::F_PC, ExpectedLeaf::This(Leaf::Name(leaf)))?;
    b.and(here, taken)
}

/// f_pc is where the jump in E goes.
pub fn right_after_e(b: &mut NetBuilder, inputs: &RuleInputs<'_>) -> Result<u64, Memory>
    requires has { HasInputs b.old inputs.now }
    requires known { IsTrue (has_picks inputs.now.controls.now names.f_pc) }
    ensures extends { ExtendsNet b.old b.new }
    ensures has_truth { IfOk result (λ g. IsControlGate b.new inputs.now.controls.now g (λ w α cv.
        stages.is_jump inputs.now.variant (fields_of w).e.stat (fields_of w).e.icode && words.picks_leaf cv names.f_pc (if set (fields_of w).e.cnd then Name names.E_valC else Name names.E_valA))) }
{
    let here = jump(b, inputs.variant, E_STAT, E_ICODE)?;
    let falls = spells(b, E_CND, 0)?;
    let taken = picks_leaf_if(
        b,
        inputs.controls,
        signal::F_PC,
        falls,
        ExpectedLeaf::This(Leaf::Name(signal::HELD_E_VAL_A)),
        ExpectedLeaf::This(Leaf::Name(signal::HELD_E_VAL_C)),
    )?;
    b.and(here, taken)
}

/// f_pc is where the jump in M goes. Its target counts only if the file carries it through the ALU (`tv`).
fn jump_after_m(b: &mut NetBuilder, inputs: &RuleInputs<'_>) -> Result<u64, Memory>
    requires has { HasInputs b.old inputs.now }
    requires known { IsTrue (has_picks inputs.now.controls.now names.f_pc) }
    ensures extends { ExtendsNet b.old b.new }
    ensures has_truth { IfOk result (λ g. IsControlGate b.new inputs.now.controls.now g (λ w α cv.
        stages.is_jump inputs.now.variant (fields_of w).m.stat (fields_of w).m.icode
        && (if set (fields_of w).m.cnd then inputs.now.settings.now.tv && words.picks_leaf cv names.f_pc (Name names.M_valE) else words.picks_leaf cv names.f_pc (Name names.M_valA)))) }
{
    let carried = b.constant(inputs.settings.tv)?;
    let target = goes_to(b, inputs.controls, carried, signal::HELD_M_VAL_E)?;
    let next = picks_leaf(
        b,
        inputs.controls,
        signal::F_PC,
        ExpectedLeaf::This(Leaf::Name(signal::HELD_M_VAL_A)),
    )?;
    let falls = spells(b, M_CND, 0)?;
    let way = choose(b, falls, next, target)?;
    let here = jump(b, inputs.variant, M_STAT, M_ICODE)?;
    b.and(here, way)
}

/// f_pc is where the jump or the ret in M goes.
fn right_after_m(b: &mut NetBuilder, inputs: &RuleInputs<'_>) -> Result<u64, Memory>
    requires has { HasInputs b.old inputs.now }
    requires known { IsTrue (has_picks inputs.now.controls.now names.f_pc) }
    ensures extends { ExtendsNet b.old b.new }
    ensures has_truth { IfOk result (λ g. IsControlGate b.new inputs.now.controls.now g (λ w α cv.
        (stages.is_jump inputs.now.variant (fields_of w).m.stat (fields_of w).m.icode
        && (if set (fields_of w).m.cnd then inputs.now.settings.now.tv && words.picks_leaf cv names.f_pc (Name names.M_valE) else words.picks_leaf cv names.f_pc (Name names.M_valA)))
        || ((flow_at b.old w inputs.now.flow.now).m.ret && words.picks_leaf cv names.f_pc (Name names.m_valM)))) }
{
    let jumped = jump_after_m(b, inputs)?;
    let returned = goes_to(b, inputs.controls, inputs.flow.m.ret, signal::M_VAL_M)?;
    b.or(jumped, returned)
}

/// The youngest good instruction is a jump or ret whose stage has the address where it goes, and f_pc is that one.
fn right_pc(b: &mut NetBuilder, inputs: &RuleInputs<'_>) -> Result<u64, Memory>
    requires has { HasInputs b.old inputs.now }
    requires known { IsTrue (has_picks inputs.now.controls.now names.f_pc) }
    ensures extends { ExtendsNet b.old b.new }
    ensures has_truth { IfOk result (λ g. IsControlGate b.new inputs.now.controls.now g (at_inputs spec.right_pc b.old inputs.now)) }
{
    let never = b.constant(false)?;
    let e = right_after_e(b, inputs)?;
    let m = right_after_m(b, inputs)?;
    let w = goes_to(b, inputs.controls, inputs.flow.w.ret, signal::HELD_W_VAL_M)?;
    of_youngest(b, inputs.flow, never, e, m, w)
}

/// f_pc is the predicted PC, on the path.
fn on_path(b: &mut NetBuilder, inputs: &RuleInputs<'_>) -> Result<u64, Memory>
    requires has { HasInputs b.old inputs.now }
    requires known { IsTrue (has_picks inputs.now.controls.now names.f_pc) }
    ensures extends { ExtendsNet b.old b.new }
    ensures has_truth { IfOk result (λ g. IsControlGate b.new inputs.now.controls.now g (λ w α cv. words.picks_leaf cv names.f_pc (Name names.F_predPC) && path (flow_at b.old w inputs.now.flow.now))) }
{
    let path = path_gate(b, inputs.flow)?;
    let ahead = picks_leaf(
        b,
        inputs.controls,
        signal::F_PC,
        ExpectedLeaf::This(Leaf::Name(signal::HELD_F_PRED_PC)),
    )?;
    b.and(ahead, path)
}

/// The fetch is that of the next instruction.
fn fetch_good(b: &mut NetBuilder, inputs: &RuleInputs<'_>) -> Result<u64, Memory>
    requires has { HasInputs b.old inputs.now }
    requires known { IsTrue (has_picks inputs.now.controls.now names.f_pc) }
    ensures extends { ExtendsNet b.old b.new }
    ensures has_truth { IfOk result (λ g. IsControlGate b.new inputs.now.controls.now g (at_inputs spec.fetch_good b.old inputs.now)) }
{
    let ahead = on_path(b, inputs)?;
    let right = right_pc(b, inputs)?;
    let next = b.or(ahead, right)?;
    let stops = stops_gate(b, inputs.flow)?;
    let goes_on = b.not(stops)?;
    b.and(goes_on, next)
}

/// Obligation 25: the next cycle's flow is legal, has no wrong instruction in M and W, and keeps the path.
pub fn obligation_25(b: &mut NetBuilder, inputs: &RuleInputs<'_>) -> Result<u64, Memory>
    requires ready { IsRuleReady b.old inputs.now }
    ensures extends { ExtendsNet b.old b.new }
    ensures has_truth { IfOk result (λ g. IsControlGate b.new inputs.now.controls.now g (at_inputs spec.o25 b.old inputs.now)) }
{
    let controls = register_controls_of(inputs.controls);
    let good = fetch_good(b, inputs)?;
    let facts = fetched_facts(b, inputs)?;
    pipe_motion::obligation_25(b, &controls, good, &facts, inputs.flow, inputs.settings)
}
