//! The obligations on the memory and write-back stages, 18 to 22.
#![tactic(auto, using(nets::proofs::Truths::begins_more, ctl_picks::proofs::Inside::inside_more, crate::proofs::Joined::ready_more), unfolding(pipe_fields::specs::Layout::fields_of))]

ghost use Rattle.std.specs.Prelude.{◌&&◌, if◌then◌else◌, IfOk};
ghost use Rattle.nets.specs.Nets.{ExtendsNet};
ghost use Rattle.ctl_atoms.specs.declared.leaf.Leaf.TheVariants.{Name};
ghost use Rattle.ctl_picks.specs.Picks.{IsInside};
ghost use Rattle.dp_signals.specs.PipeNames as names;
ghost use Rattle.y86_base.specs.Words.{set};
ghost use Rattle.pipe_stage_gates.specs.Signals.{IsReady};
ghost use Rattle.pipe_fields.specs.Layout.{fields_of};
ghost use Rattle.pipe_gates.specs.Inputs.{HasInputs, at_inputs};
ghost use Rattle.pipe_obligations.specs.Obligations as spec;
ghost use Rattle.ctl_rules.specs.ControlGates.{IsControlGate};
ghost use Rattle.ctl_rules.specs.ColumnDemands as words;

use crate::execute::truth_where;
use crate::row_rules::RowRule;
use ctl_picks::{Controls, Leaf};
use ctl_rules::{ExpectedLeaf, by_icode, picks_leaf, picks_leaf_if};
use dp_signals::pipe_row as signal;
use net_fields::spells;
use nets::{NetBuilder, implies};
use pipe_fields::places::{M_ERROR, M_ICODE, M_STAT, W_DST_E, W_DST_M, W_STAT};
use pipe_gates::{RowTest, RuleInputs, row_has};
use y86_base::Memory;

/// Obligation 18: mem_addr is the address of a good instruction that accesses memory.
pub fn obligation_18(b: &mut NetBuilder, inputs: &RuleInputs<'_>) -> Result<u64, Memory>
    requires has { HasInputs b.old inputs.now }
    requires ready { IsReady b.old.vars inputs.now.controls.now }
    ensures extends { ExtendsNet b.old b.new }
    ensures has_truth { IfOk result (λ g. IsControlGate b.new inputs.now.controls.now g (at_inputs spec.o18 b.old inputs.now)) }
{
    let told = by_icode(
        b,
        inputs.controls,
        inputs.variant,
        M_ICODE,
        &RowRule::Address,
    )?;
    implies(b, inputs.flow.m.good, told)
}

/// Obligation 19: mem_read holds exactly for a good instruction that reads, mem_write for one that writes.
pub fn obligation_19(b: &mut NetBuilder, inputs: &RuleInputs<'_>) -> Result<u64, Memory>
    requires has { HasInputs b.old inputs.now }
    requires ready { IsReady b.old.vars inputs.now.controls.now }
    ensures extends { ExtendsNet b.old b.new }
    ensures has_truth { IfOk result (λ g. IsControlGate b.new inputs.now.controls.now g (at_inputs spec.o19 b.old inputs.now)) }
{
    let ctl = inputs.controls;
    let good = inputs.flow.m.good;
    let loads = row_has(b, inputs.variant, M_ICODE, RowTest::Loads)?;
    let reads = truth_where(b, ctl, signal::MEM_READ, good, loads)?;
    let stores = row_has(b, inputs.variant, M_ICODE, RowTest::Stores)?;
    let writes = truth_where(b, ctl, signal::MEM_WRITE, good, stores)?;
    b.and(reads, writes)
}

/// Obligation 20: m_stat reports the fault.
pub fn obligation_20(b: &mut NetBuilder, ctl: &Controls) -> Result<u64, Memory>
    requires inside { IsInside b.old ctl.now }
    requires ready { IsReady b.old.vars ctl.now }
    ensures extends { ExtendsNet b.old b.new }
    ensures has_truth { IfOk result (λ g. IsControlGate b.new ctl.now g (λ w α cv.
        words.is_number cv names.m_stat (if set (fields_of w).m.error then 3 else (fields_of w).m.stat))) }
{
    let fine = spells(b, M_ERROR, 0)?;
    let fault = b.not(fine)?;
    picks_leaf_if(
        b,
        ctl,
        signal::M_STAT,
        fault,
        ExpectedLeaf::This(Leaf::Number(3)),
        ExpectedLeaf::Field(M_STAT),
    )
}

/// The values to write are those of W.
fn values_written(b: &mut NetBuilder, ctl: &Controls) -> Result<u64, Memory>
    requires inside { IsInside b.old ctl.now }
    requires ready { IsReady b.old.vars ctl.now }
    ensures extends { ExtendsNet b.old b.new }
    ensures has_truth { IfOk result (λ g. IsControlGate b.new ctl.now g (λ w α cv.
        words.picks_leaf cv names.w_valE (Name names.W_valE) && words.picks_leaf cv names.w_valM (Name names.W_valM))) }
{
    let val_e = picks_leaf(
        b,
        ctl,
        signal::W_VAL_E,
        ExpectedLeaf::This(Leaf::Name(signal::HELD_W_VAL_E)),
    )?;
    let val_m = picks_leaf(
        b,
        ctl,
        signal::W_VAL_M,
        ExpectedLeaf::This(Leaf::Name(signal::HELD_W_VAL_M)),
    )?;
    b.and(val_e, val_m)
}

/// The registers and values to write are those of W.
fn registers_written(b: &mut NetBuilder, ctl: &Controls) -> Result<u64, Memory>
    requires inside { IsInside b.old ctl.now }
    requires ready { IsReady b.old.vars ctl.now }
    ensures extends { ExtendsNet b.old b.new }
    ensures has_truth { IfOk result (λ g. IsControlGate b.new ctl.now g (λ w α cv.
        words.is_number cv names.w_dstE (fields_of w).w.dst_e && (words.is_number cv names.w_dstM (fields_of w).w.dst_m && (words.picks_leaf cv names.w_valE (Name names.W_valE) && words.picks_leaf cv names.w_valM (Name names.W_valM))))) }
{
    let dst_e = picks_leaf(b, ctl, signal::W_DST_E, ExpectedLeaf::Field(W_DST_E))?;
    let dst_m = picks_leaf(b, ctl, signal::W_DST_M, ExpectedLeaf::Field(W_DST_M))?;
    let values = values_written(b, ctl)?;
    let rest = b.and(dst_m, values)?;
    b.and(dst_e, rest)
}

/// Obligation 21: a good instruction writes what W holds.
pub fn obligation_21(b: &mut NetBuilder, inputs: &RuleInputs<'_>) -> Result<u64, Memory>
    requires has { HasInputs b.old inputs.now }
    requires ready { IsReady b.old.vars inputs.now.controls.now }
    ensures extends { ExtendsNet b.old b.new }
    ensures has_truth { IfOk result (λ g. IsControlGate b.new inputs.now.controls.now g (at_inputs spec.o21 b.old inputs.now)) }
{
    let told = registers_written(b, inputs.controls)?;
    implies(b, inputs.flow.w.good, told)
}

/// Obligation 22: Stat is the status of the good instruction in W, and 1 if there is none.
pub fn obligation_22(b: &mut NetBuilder, inputs: &RuleInputs<'_>) -> Result<u64, Memory>
    requires has { HasInputs b.old inputs.now }
    requires ready { IsReady b.old.vars inputs.now.controls.now }
    ensures extends { ExtendsNet b.old b.new }
    ensures has_truth { IfOk result (λ g. IsControlGate b.new inputs.now.controls.now g (at_inputs spec.o22 b.old inputs.now)) }
{
    picks_leaf_if(
        b,
        inputs.controls,
        signal::STAT,
        inputs.flow.w.good,
        ExpectedLeaf::Field(W_STAT),
        ExpectedLeaf::This(Leaf::Number(1)),
    )
}
