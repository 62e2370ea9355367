//! The obligations on fetch and decode, 1 to 9, which don't depend on the kinds of what the stages hold.
#![tactic(auto, using(nets::proofs::Truths::begins_more, ctl_picks::proofs::Inside::inside_more), unfolding(pipe_fields::specs::Layout::fields_of))]

ghost use Rattle.std.specs.Prelude.{◌<◌, ◌≤◌, ◌&&◌, ◌||◌, not, IfOk};
ghost use Rattle.nets.specs.Nets.{ExtendsNet, IsGate};
ghost use Rattle.ctl_picks.specs.Picks.{IsInside};
ghost use Rattle.dp_signals.specs.PipeNames as names;
ghost use Rattle.y86_base.specs.Words.{set};
ghost use Rattle.pipe_stage_gates.specs.Fronts.{IsFrontReady, demand_in_front};
ghost use Rattle.pipe_obligations.specs.Obligations.{predicted_leaf};
ghost use Rattle.pipe_fields.specs.Layout.{bit_count, fields_of};
ghost use Rattle.pipe_motion.specs.Predictions.{predicts};
ghost use Rattle.ctl_rules.specs.ControlGates.{IsControlGate};
ghost use Rattle.ctl_rules.specs.ColumnDemands as words;
ghost use Rattle.y86_isa.specs.Table.{dash_row, row};
ghost use Rattle.y86_isa.specs.declared.columns.NextPcColumn.TheVariants as way;
ghost use Rattle.pipe_stage_gates.specs.declared.front.FrontRule.TheVariants as kind;

use ctl_picks::{Controls, Leaf};
use ctl_rules::{
    ExpectedLeaf, RowGates, by_icode, is_truth, picks_leaf, picks_leaf_if, picks_some_leaf,
    register_is, status_is,
};
use dp_signals::pipe_row as signal;
use net_fields::spells;
use nets::{NetBuilder, choose};
use pipe_fields::places::{D_ICODE, D_R_A, D_R_B, F_BACK, F_ERROR, F_ICODE, F_IFUN};
use pipe_gates::listed;
use pipe_motion::Settings;
use y86_base::{Memory, Variant};
use y86_isa::{NextPcColumn, Row};

/// What an icode and its row demand: of f_stat, need_regids, need_valC and f_predPC for the fetched instruction, and of
/// d_srcA, d_srcB, d_dstE and d_dstM for the one in D.
#[derive(Clone, Copy, Debug, PartialEq, Eq)]
pub enum FrontRule {
    Status,
    RegisterByte,
    Constant,
    Predicted(Settings),
    SourceA,
    SourceB,
    DestinationE,
    DestinationM,
}

/// A jump with this ifun and back bit is predicted as taken.
fn predicted(b: &mut NetBuilder, s: &Settings) -> Result<u64, Memory>
    requires { bit_count ≤ b.old.vars }
    ensures extends { ExtendsNet b.old b.new }
    ensures has_truth { IfOk result (λ g. IsGate b.new g (λ w. predicts s.now (fields_of w).f.ifun (set (fields_of w).f.back))) }
{
    let forward = listed(b, &s.pt, F_IFUN)?;
    let backward = listed(b, &s.pb, F_IFUN)?;
    let ahead = spells(b, F_BACK, 0)?;
    choose(b, ahead, forward, backward)
}

/// f_predPC is the target of a jump that is predicted as taken, and the PC after any other.
fn jump_predicted(b: &mut NetBuilder, ctl: &Controls, s: &Settings) -> Result<u64, Memory>
    requires inside { IsInside b.old ctl.now }
    requires ready { IsFrontReady b.old.vars ctl.now }
    ensures extends { ExtendsNet b.old b.new }
    ensures has_truth { IfOk result (λ g. IsControlGate b.new ctl.now g (λ w α cv.
        words.picks_some_leaf cv names.f_predPC (predicted_leaf way.Branch (predicts s.now (fields_of w).f.ifun (set (fields_of w).f.back))))) }
{
    let taken = predicted(b, s)?;
    picks_leaf_if(
        b,
        ctl,
        signal::F_PRED_PC,
        taken,
        ExpectedLeaf::This(Leaf::Name(signal::F_VAL_C)),
        ExpectedLeaf::This(Leaf::Name(signal::F_VAL_P)),
    )
}

/// f_predPC is the PC that the row predicts, if it predicts one.
fn next_predicted(
    b: &mut NetBuilder,
    ctl: &Controls,
    s: &Settings,
    next: NextPcColumn,
) -> Result<u64, Memory>
    requires inside { IsInside b.old ctl.now }
    requires ready { IsFrontReady b.old.vars ctl.now }
    ensures extends { ExtendsNet b.old b.new }
    ensures has_truth { IfOk result (λ g. IsControlGate b.new ctl.now g (λ w α cv.
        words.picks_some_leaf cv names.f_predPC (predicted_leaf next (predicts s.now (fields_of w).f.ifun (set (fields_of w).f.back))))) }
{
    match next {
        NextPcColumn::Itself => picks_some_leaf(b, ctl, signal::F_PRED_PC, None),
        NextPcColumn::Fall => picks_some_leaf(
            b,
            ctl,
            signal::F_PRED_PC,
            Some(Leaf::Name(signal::F_VAL_P)),
        ),
        NextPcColumn::Branch => jump_predicted(b, ctl, s),
        NextPcColumn::Target => picks_some_leaf(
            b,
            ctl,
            signal::F_PRED_PC,
            Some(Leaf::Name(signal::F_VAL_C)),
        ),
        NextPcColumn::Loaded => picks_some_leaf(b, ctl, signal::F_PRED_PC, None),
    }
}

/// The fetch has an error.
fn reading_fails(b: &mut NetBuilder) -> Result<u64, Memory>
    requires { bit_count ≤ b.old.vars }
    ensures extends { ExtendsNet b.old b.new }
    ensures has_truth { IfOk result (λ g. IsGate b.new g (λ w. set (fields_of w).f.error)) }
{
    let fine = spells(b, F_ERROR, 0)?;
    b.not(fine)
}

/// f_stat is the status of the fetched icode, or of the fetch error.
fn fetch_status_is(b: &mut NetBuilder, ctl: &Controls, icode: u64) -> Result<u64, Memory>
    requires inside { IsInside b.old ctl.now }
    requires ready { IsFrontReady b.old.vars ctl.now }
    ensures extends { ExtendsNet b.old b.new }
    ensures has_truth { IfOk result (λ g. IsControlGate b.new ctl.now g (λ w α cv. demand_in_front kind.Status icode dash_row (fields_of w) α cv)) }
{
    let error = reading_fails(b)?;
    status_is(b, ctl, signal::F_STAT, error, icode)
}

/// What an icode and its row demand.
fn front_asks(
    b: &mut NetBuilder,
    ctl: &Controls,
    rule: FrontRule,
    icode: u64,
    row: &Row,
) -> Result<u64, Memory>
    requires inside { IsInside b.old ctl.now }
    requires ready { IsFrontReady b.old.vars ctl.now }
    ensures extends { ExtendsNet b.old b.new }
    ensures has_truth { IfOk result (λ g. IsControlGate b.new ctl.now g (λ w α cv. demand_in_front rule icode row.now (fields_of w) α cv)) }
{
    match rule {
        FrontRule::Status => fetch_status_is(b, ctl, icode),
        FrontRule::RegisterByte => is_truth(b, ctl, signal::NEED_REGIDS, row.has_byte),
        FrontRule::Constant => is_truth(b, ctl, signal::NEED_VAL_C, row.has_const),
        FrontRule::Predicted(s) => next_predicted(b, ctl, &s, row.next),
        FrontRule::SourceA => register_is(b, ctl, signal::D_SRC_A, row.src_a, D_R_A, D_R_B),
        FrontRule::SourceB => register_is(b, ctl, signal::D_SRC_B, row.src_b, D_R_A, D_R_B),
        FrontRule::DestinationE => register_is(b, ctl, signal::D_DST_E, row.dst_e, D_R_A, D_R_B),
        FrontRule::DestinationM => register_is(b, ctl, signal::D_DST_M, row.dst_m, D_R_A, D_R_B),
    }
}

impl RowGates for FrontRule {
    ghost asks = { λ rule code r w α cv. demand_in_front rule code r (fields_of w) α cv };

    ghost knows = { λ rule vars ctl. IsFrontReady vars ctl };

    fn at_row(
        &self,
        b: &mut NetBuilder,
        ctl: &Controls,
        icode: u64,
        row: Row,
    ) -> Result<u64, Memory> {
        front_asks(b, ctl, *self, icode, &row)
    }
}

/// Obligation 1: f_icode and f_ifun are what was read.
pub fn obligation_1(b: &mut NetBuilder, ctl: &Controls) -> Result<u64, Memory>
    requires inside { IsInside b.old ctl.now }
    requires ready { IsFrontReady b.old.vars ctl.now }
    ensures extends { ExtendsNet b.old b.new }
    ensures has_truth { IfOk result (λ g. IsControlGate b.new ctl.now g (λ w α cv.
        words.is_number cv names.f_icode (fields_of w).f.icode && words.is_number cv names.f_ifun (fields_of w).f.ifun)) }
{
    let code = picks_leaf(b, ctl, signal::F_ICODE, ExpectedLeaf::Field(F_ICODE))?;
    let fun = picks_leaf(b, ctl, signal::F_IFUN, ExpectedLeaf::Field(F_IFUN))?;
    b.and(code, fun)
}

/// What the fetched icode demands.
pub fn fetch_rule_gate(
    b: &mut NetBuilder,
    ctl: &Controls,
    v: Variant,
    rule: FrontRule,
) -> Result<u64, Memory>
    requires inside { IsInside b.old ctl.now }
    requires ready { IsFrontReady b.old.vars ctl.now }
    ensures extends { ExtendsNet b.old b.new }
    ensures has_truth { IfOk result (λ g. IsControlGate b.new ctl.now g (λ w α cv. demand_in_front rule (fields_of w).f.icode (row v (fields_of w).f.icode) (fields_of w) α cv)) }
{
    by_icode(b, ctl, v, F_ICODE, &rule)
}

/// What the icode in D demands.
pub fn decode_rule_gate(
    b: &mut NetBuilder,
    ctl: &Controls,
    v: Variant,
    rule: FrontRule,
) -> Result<u64, Memory>
    requires inside { IsInside b.old ctl.now }
    requires ready { IsFrontReady b.old.vars ctl.now }
    ensures extends { ExtendsNet b.old b.new }
    ensures has_truth { IfOk result (λ g. IsControlGate b.new ctl.now g (λ w α cv. demand_in_front rule (fields_of w).d.icode (row v (fields_of w).d.icode) (fields_of w) α cv)) }
{
    by_icode(b, ctl, v, D_ICODE, &rule)
}

/// Obligation 5: f_predPC is the predicted PC after an instruction that was fetched without an error.
pub fn obligation_5(
    b: &mut NetBuilder,
    ctl: &Controls,
    v: Variant,
    s: &Settings,
) -> Result<u64, Memory>
    requires inside { IsInside b.old ctl.now }
    requires ready { IsFrontReady b.old.vars ctl.now }
    ensures extends { ExtendsNet b.old b.new }
    ensures has_truth { IfOk result (λ g. IsControlGate b.new ctl.now g (λ w α cv.
        set (fields_of w).f.error || words.picks_some_leaf cv names.f_predPC (predicted_leaf (row v (fields_of w).f.icode).next (predicts s.now (fields_of w).f.ifun (set (fields_of w).f.back))))) }
{
    let error = reading_fails(b)?;
    let asked = fetch_rule_gate(b, ctl, v, FrontRule::Predicted(*s))?;
    b.or(error, asked)
}
