//! Gates of the states of D, E, M and W.
#![tactic(auto, unfolding(pipe_fields::specs::Layout::fields_of), using(nets::proofs::Truths::begins_more, nets::proofs::Truths::begins_self))]

ghost use Rattle.std.specs.Prelude.{◌≡◌, ◌<◌, ◌≤◌, ◌+◌, not, length, IfOk};
ghost use Rattle.nets.specs.Nets.{ExtendsNet, IsGate, agree, truth};
ghost use Rattle.y86_base.specs.Words.{set};
ghost use Rattle.net_fields.specs.Spelling.{spelt};
ghost use Rattle.pipe_fields.specs.Layout.{bit_count, fields_of};
ghost use Rattle.pipe_motion.specs.Gates.{IsStageFlow, IsFlow};
ghost use Rattle.pipe_motion.specs.Predictions.{predicts};
ghost use Rattle.pipe_obligations.specs.StageFlows as spec;

use crate::columns::RowTest;
use crate::fields::{listed, row_has};
use net_fields::{BitRange, spells};
use nets::{NetBuilder, choose};
use pipe_fields::places::{
    D_BACK, D_ICODE, D_IFUN, D_KIND, D_STAT, D_STOPS, D_TAKEN, E_BACK, E_CND, E_ICODE, E_IFUN,
    E_KIND, E_STAT, E_STOPS, M_BACK, M_CND, M_ERROR, M_ICODE, M_IFUN, M_KIND, M_STAT, W_ICODE,
    W_KIND, W_STAT,
};
use pipe_motion::{FlowGates, Settings, StageFlowGates};
use y86_base::{Memory, Variant};

/// The instruction stops the machine: its status isn't 1, or its fault bit is set.
fn stops(b: &mut NetBuilder, stat: BitRange, fault: BitRange) -> Result<u64, Memory>
    requires stat_place { stat.first + stat.bits ≤ b.old.vars }
    requires fault_place { fault.first + fault.bits ≤ b.old.vars }
    ensures extends { ExtendsNet b.old b.new }
    ensures has_truth { IfOk result (λ g. IsGate b.new g (λ w. spec.stops_by (spelt w stat.first stat.bits) (spelt w fault.first fault.bits))) }
{
    let running = spells(b, stat, 1)?;
    let clear = spells(b, fault, 0)?;
    let goes_on = b.and(running, clear)?;
    b.not(goes_on)
}

/// A jump, also `jmp`, with status 1 (AOK).
pub fn jump(b: &mut NetBuilder, v: Variant, stat: BitRange, icode: BitRange) -> Result<u64, Memory>
    requires stat_place { stat.first + stat.bits ≤ b.old.vars }
    requires icode_place { icode.first + icode.bits ≤ b.old.vars }
    requires bits { icode.bits ≡ 4 }
    ensures extends { ExtendsNet b.old b.new }
    ensures has_truth { IfOk result (λ g. IsGate b.new g (λ w. spec.is_jump v (spelt w stat.first stat.bits) (spelt w icode.first icode.bits))) }
{
    let running = spells(b, stat, 1)?;
    let branch = row_has(b, v, icode, RowTest::Jump)?;
    b.and(running, branch)
}

/// A jump doesn't go the predicted way.
fn other_way(
    b: &mut NetBuilder,
    s: &Settings,
    ifun: BitRange,
    taken: BitRange,
    back: BitRange,
) -> Result<u64, Memory>
    requires ifun_place { ifun.first + ifun.bits ≤ b.old.vars }
    requires taken_place { taken.first + taken.bits ≤ b.old.vars }
    requires back_place { back.first + back.bits ≤ b.old.vars }
    ensures extends { ExtendsNet b.old b.new }
    ensures has_truth { IfOk result (λ g. IsGate b.new g (λ w.
        not (agree (set (spelt w taken.first taken.bits)) (predicts s.now (spelt w ifun.first ifun.bits) (set (spelt w back.first back.bits)))))) }
{
    let forward = listed(b, &s.pt, ifun)?;
    let backward = listed(b, &s.pb, ifun)?;
    let ahead = spells(b, back, 0)?;
    let predicted = choose(b, ahead, forward, backward)?;
    let passed = spells(b, taken, 0)?;
    b.equal(passed, predicted)
}

/// The fields of a stage that decide whether its jump was mispredicted.
#[derive(Clone, Copy, Debug)]
struct JumpFields {
    stat: BitRange,
    icode: BitRange,
    ifun: BitRange,
    taken: BitRange,
    back: BitRange,
}

const JUMP_IN_D: JumpFields = JumpFields {
    stat: D_STAT,
    icode: D_ICODE,
    ifun: D_IFUN,
    taken: D_TAKEN,
    back: D_BACK,
};

const JUMP_IN_E: JumpFields = JumpFields {
    stat: E_STAT,
    icode: E_ICODE,
    ifun: E_IFUN,
    taken: E_CND,
    back: E_BACK,
};

const JUMP_IN_M: JumpFields = JumpFields {
    stat: M_STAT,
    icode: M_ICODE,
    ifun: M_IFUN,
    taken: M_CND,
    back: M_BACK,
};

/// A mispredicted jump.
fn is_missed(b: &mut NetBuilder, v: Variant, s: &Settings, at: JumpFields) -> Result<u64, Memory>
    requires stat_place { at.stat.first + at.stat.bits ≤ b.old.vars }
    requires icode_place { at.icode.first + at.icode.bits ≤ b.old.vars }
    requires bits { at.icode.bits ≡ 4 }
    requires ifun_place { at.ifun.first + at.ifun.bits ≤ b.old.vars }
    requires taken_place { at.taken.first + at.taken.bits ≤ b.old.vars }
    requires back_place { at.back.first + at.back.bits ≤ b.old.vars }
    ensures extends { ExtendsNet b.old b.new }
    ensures has_truth { IfOk result (λ g. IsGate b.new g (λ w. spec.is_missed v s.now (spelt w at.stat.first at.stat.bits) (spelt w at.icode.first at.icode.bits)
        (spelt w at.ifun.first at.ifun.bits) (spelt w at.taken.first at.taken.bits) (spelt w at.back.first at.back.bits))) }
{
    let here = jump(b, v, at.stat, at.icode)?;
    let other = other_way(b, s, at.ifun, at.taken, at.back)?;
    b.and(here, other)
}

/// The state of a stage, by its kind and by the gates of facts that count for a good instruction.
fn stage_flow(
    b: &mut NetBuilder,
    kind: BitRange,
    stop: u64,
    turn: u64,
    miss: u64,
) -> Result<StageFlowGates, Memory>
    requires kind_place { kind.first + kind.bits ≤ b.old.vars }
    requires stop_in { stop < length b.old.gates }
    requires turn_in { turn < length b.old.gates }
    requires miss_in { miss < length b.old.gates }
    ensures extends { ExtendsNet b.old b.new }
    ensures has_truth { IfOk result (λ r. IsStageFlow b.new r (λ w. spec.stage_flow_by (spelt w kind.first kind.bits) (truth b.old stop w) (truth b.old turn w) (truth b.old miss w))) }
{
    let good = spells(b, kind, 1)?;
    let wrong = spells(b, kind, 2)?;
    let stops = b.and(good, stop)?;
    let ret = b.and(good, turn)?;
    let missed = b.and(good, miss)?;
    Ok(StageFlowGates {
        good,
        wrong,
        stops,
        ret,
        missed,
    })
}

fn decode_flow(b: &mut NetBuilder, v: Variant, s: &Settings) -> Result<StageFlowGates, Memory>
    requires { bit_count ≤ b.old.vars }
    ensures extends { ExtendsNet b.old b.new }
    ensures has_truth { IfOk result (λ r. IsStageFlow b.new r (λ w. spec.decode_flow v s.now (fields_of w).d)) }
{
    let stop = stops(b, D_STAT, D_STOPS)?;
    let turn = row_has(b, v, D_ICODE, RowTest::Ret)?;
    let miss = is_missed(b, v, s, JUMP_IN_D)?;
    stage_flow(b, D_KIND, stop, turn, miss)
}

fn execute_flow(b: &mut NetBuilder, v: Variant, s: &Settings) -> Result<StageFlowGates, Memory>
    requires { bit_count ≤ b.old.vars }
    ensures extends { ExtendsNet b.old b.new }
    ensures has_truth { IfOk result (λ r. IsStageFlow b.new r (λ w. spec.execute_flow v s.now (fields_of w).e)) }
{
    let stop = stops(b, E_STAT, E_STOPS)?;
    let turn = row_has(b, v, E_ICODE, RowTest::Ret)?;
    let miss = is_missed(b, v, s, JUMP_IN_E)?;
    stage_flow(b, E_KIND, stop, turn, miss)
}

fn memory_flow(b: &mut NetBuilder, v: Variant, s: &Settings) -> Result<StageFlowGates, Memory>
    requires { bit_count ≤ b.old.vars }
    ensures extends { ExtendsNet b.old b.new }
    ensures has_truth { IfOk result (λ r. IsStageFlow b.new r (λ w. spec.memory_flow v s.now (fields_of w).m)) }
{
    let stop = stops(b, M_STAT, M_ERROR)?;
    let turn = row_has(b, v, M_ICODE, RowTest::Ret)?;
    let miss = is_missed(b, v, s, JUMP_IN_M)?;
    stage_flow(b, M_KIND, stop, turn, miss)
}

fn write_flow(b: &mut NetBuilder, v: Variant) -> Result<StageFlowGates, Memory>
    requires { bit_count ≤ b.old.vars }
    ensures extends { ExtendsNet b.old b.new }
    ensures has_truth { IfOk result (λ r. IsStageFlow b.new r (λ w. spec.write_flow v (fields_of w).w)) }
{
    let running = spells(b, W_STAT, 1)?;
    let stop = b.not(running)?;
    let turn = row_has(b, v, W_ICODE, RowTest::Ret)?;
    let none = b.constant(false)?;
    stage_flow(b, W_KIND, stop, turn, none)
}

/// The flow of the stages of a valuation.
#[tactic(auto, unfolding(pipe_obligations::specs::StageFlows::flow_of), using(nets::proofs::Truths::begins_more, nets::proofs::Truths::begins_self, pipe_motion::proofs::Kept::stage_flow_kept))]
pub fn flow_gates(b: &mut NetBuilder, v: Variant, s: &Settings) -> Result<FlowGates, Memory>
    requires { bit_count ≤ b.old.vars }
    ensures extends { ExtendsNet b.old b.new }
    ensures has_truth { IfOk result (λ r. IsFlow b.new r (λ w. spec.flow_of v s.now (fields_of w))) }
{
    let d = decode_flow(b, v, s)?;
    let e = execute_flow(b, v, s)?;
    let m = memory_flow(b, v, s)?;
    let w = write_flow(b, v)?;
    Ok(FlowGates { d, e, m, w })
}
