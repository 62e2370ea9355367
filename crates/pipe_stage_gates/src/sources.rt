//! The right value of a source: that of the youngest older instruction that writes its register (CS:APP 3e, section 4.5.5,
//! avoiding data hazards by forwarding). Obligations 10 and 11.
#![tactic(auto, using(nets::proofs::Truths::begins_more, ctl_picks::proofs::Inside::inside_more, pipe_gates::proofs::InputsKept::inputs_stay, pipe_gates::proofs::Known::known_d_valA, pipe_gates::proofs::Known::known_d_srcA, pipe_gates::proofs::Known::known_d_valB, pipe_gates::proofs::Known::known_d_srcB), unfolding(pipe_fields::specs::Layout::fields_of))]

ghost use Rattle.std.specs.Prelude.{◌<◌, ◌≤◌, ◌+◌, ◌&&◌, ◌||◌, if◌then◌else◌, IfOk, IsTrue, length, not};
ghost use Rattle.nets.specs.Nets.{ExtendsNet, IsGate, truth};
ghost use Rattle.ctl_atoms.specs.declared.leaf.Leaf.TheVariants.{Name};
ghost use Rattle.ctl_picks.specs.Picks.{IsInside, has_picks};
ghost use Rattle.net_fields.specs.Spelling.{spelt};
ghost use Rattle.dp_signals.specs.PipeNames as names;
ghost use Rattle.y86_isa.specs.RowTests.{select_a_is_val_p, stores_val_a};
ghost use Rattle.y86_isa.specs.Table.{row};
ghost use Rattle.ctl_rules.specs.ControlGates.{IsControlGate};
ghost use Rattle.ctl_rules.specs.ColumnDemands as words;
ghost use Rattle.pipe_fields.specs.Layout.{bit_count, fields_of};
ghost use Rattle.pipe_gates.specs.Inputs.{HasInputs, IsRuleReady, at_inputs};
ghost use Rattle.pipe_obligations.specs.Obligations as spec;

use crate::execute::late_destination_is;
use ctl_atoms::Leaf;
use ctl_picks::Controls;
use ctl_rules::{ExpectedLeaf, picks_leaf};
use dp_signals::pipe_row as signal;
use hcl_types::NameId;
use net_fields::BitRange;
use nets::{NetBuilder, choose, implies};
use pipe_fields::places::{D_ICODE, E_DST_M, M_DST_E, M_DST_M, W_DST_E, W_DST_M};
use pipe_gates::{RowTest, RuleInputs, none_leaves, row_has};
use y86_base::{Memory, Variant};

/// A word that takes the value of a source, and the leaf that it takes if no instruction in E, M or W writes the
/// source. The gate `free` counts if that value isn't known yet, because the good instruction in E is loading it.
#[derive(Clone, Copy, Debug)]
struct Operand {
    word: NameId,
    source: NameId,
    rest: NameId,
    free: u64,
}

/// The word takes the leaf if the source is the number of a field; otherwise an older gate counts.
fn from_stage(
    b: &mut NetBuilder,
    ctl: &Controls,
    operand: Operand,
    at: BitRange,
    leaf: NameId,
    older: u64,
) -> Result<u64, Memory>
    requires inside { IsInside b.old ctl.now }
    requires word_known { IsTrue (has_picks ctl.now operand.word) }
    requires source_known { IsTrue (has_picks ctl.now operand.source) }
    requires place { at.first + at.bits ≤ b.old.vars }
    requires older_in { older < length b.old.gates }
    ensures extends { ExtendsNet b.old b.new }
    ensures has_truth { IfOk result (λ g. IsControlGate b.new ctl.now g (λ w α cv.
        if words.is_number cv operand.source (spelt w at.first at.bits) then words.picks_leaf cv operand.word (Name leaf) else truth b.old older w)) }
{
    let here = picks_leaf(b, ctl, operand.source, ExpectedLeaf::Field(at))?;
    let taken = picks_leaf(b, ctl, operand.word, ExpectedLeaf::This(Leaf::Name(leaf)))?;
    choose(b, here, taken, older)
}

/// The word takes the value of a source that no instruction in E writes: from M, from W, or from the register file.
fn from_m_on(b: &mut NetBuilder, inputs: &RuleInputs<'_>, operand: Operand) -> Result<u64, Memory>
    requires has { HasInputs b.old inputs.now }
    requires word_known { IsTrue (has_picks inputs.now.controls.now operand.word) }
    requires source_known { IsTrue (has_picks inputs.now.controls.now operand.source) }
    ensures extends { ExtendsNet b.old b.new }
    ensures has_truth { IfOk result (λ g. IsControlGate b.new inputs.now.controls.now g (λ w α cv.
        if words.is_number cv operand.source (fields_of w).m.dst_m then words.picks_leaf cv operand.word (Name names.m_valM)
        else (if words.is_number cv operand.source (fields_of w).m.dst_e then words.picks_leaf cv operand.word (Name names.M_valE)
        else (if words.is_number cv operand.source (fields_of w).w.dst_m then words.picks_leaf cv operand.word (Name names.W_valM)
        else (if words.is_number cv operand.source (fields_of w).w.dst_e then words.picks_leaf cv operand.word (Name names.W_valE)
        else words.picks_leaf cv operand.word (Name operand.rest)))))) }
{
    let ctl = inputs.controls;
    let file = picks_leaf(
        b,
        ctl,
        operand.word,
        ExpectedLeaf::This(Leaf::Name(operand.rest)),
    )?;
    let w_e = from_stage(b, ctl, operand, W_DST_E, signal::HELD_W_VAL_E, file)?;
    let w_m = from_stage(b, ctl, operand, W_DST_M, signal::HELD_W_VAL_M, w_e)?;
    let m_e = from_stage(b, ctl, operand, M_DST_E, signal::HELD_M_VAL_E, w_m)?;
    from_stage(b, ctl, operand, M_DST_M, signal::M_VAL_M, m_e)
}

/// The word takes the right value of a source.
fn takes_value(b: &mut NetBuilder, inputs: &RuleInputs<'_>, operand: Operand) -> Result<u64, Memory>
    requires has { HasInputs b.old inputs.now }
    requires word_known { IsTrue (has_picks inputs.now.controls.now operand.word) }
    requires source_known { IsTrue (has_picks inputs.now.controls.now operand.source) }
    ensures extends { ExtendsNet b.old b.new }
    ensures has_truth { IfOk result (λ g. IsControlGate b.new inputs.now.controls.now g (λ w α cv.
        words.picks_leaf cv operand.word (at_inputs spec.right_value b.old inputs.now w α cv operand.source operand.rest))) }
{
    let older = from_m_on(b, inputs, operand)?;
    let writes = late_destination_is(b, inputs.controls, inputs.variant, operand.source)?;
    let in_e = b.and(inputs.flow.e.good, writes)?;
    let taken = picks_leaf(
        b,
        inputs.controls,
        operand.word,
        ExpectedLeaf::This(Leaf::Name(signal::E_VAL_E)),
    )?;
    choose(b, in_e, taken, older)
}

/// The word takes the right value of a source; if the good instruction in E is loading it, `free` counts.
fn takes_ready(b: &mut NetBuilder, inputs: &RuleInputs<'_>, operand: Operand) -> Result<u64, Memory>
    requires has { HasInputs b.old inputs.now }
    requires word_known { IsTrue (has_picks inputs.now.controls.now operand.word) }
    requires source_known { IsTrue (has_picks inputs.now.controls.now operand.source) }
    requires free_in { operand.free < length b.old.gates }
    ensures extends { ExtendsNet b.old b.new }
    ensures has_truth { IfOk result (λ g. IsControlGate b.new inputs.now.controls.now g (λ w α cv.
        if at_inputs spec.loaded_in_e b.old inputs.now w α cv operand.source then truth b.old operand.free w
        else words.picks_leaf cv operand.word (at_inputs spec.right_value b.old inputs.now w α cv operand.source operand.rest))) }
{
    let right = takes_value(b, inputs, operand)?;
    let loads = picks_leaf(
        b,
        inputs.controls,
        operand.source,
        ExpectedLeaf::Field(E_DST_M),
    )?;
    let loaded = b.and(inputs.flow.e.good, loads)?;
    choose(b, loaded, operand.free, right)
}

/// There is no source, or the word takes its right value; if that value isn't known yet, `free` counts.
fn picks_right_value(
    b: &mut NetBuilder,
    inputs: &RuleInputs<'_>,
    operand: Operand,
) -> Result<u64, Memory>
    requires has { HasInputs b.old inputs.now }
    requires word_known { IsTrue (has_picks inputs.now.controls.now operand.word) }
    requires source_known { IsTrue (has_picks inputs.now.controls.now operand.source) }
    requires free_in { operand.free < length b.old.gates }
    ensures extends { ExtendsNet b.old b.new }
    ensures has_truth { IfOk result (λ g. IsControlGate b.new inputs.now.controls.now g (λ w α cv.
        at_inputs spec.picks_right_value b.old inputs.now w α cv (truth b.old operand.free w) operand.word operand.source operand.rest)) }
{
    let ready = takes_ready(b, inputs, operand)?;
    let none = picks_leaf(
        b,
        inputs.controls,
        operand.source,
        ExpectedLeaf::This(Leaf::Number(15)),
    )?;
    b.or(none, ready)
}

/// If the instruction in D carries valP in the place of valA, d_valA is D_valP.
fn takes_next_pc(b: &mut NetBuilder, inputs: &RuleInputs<'_>) -> Result<u64, Memory>
    requires has { HasInputs b.old inputs.now }
    requires known { IsTrue (has_picks inputs.now.controls.now names.d_valA) }
    ensures extends { ExtendsNet b.old b.new }
    ensures has_truth { IfOk result (λ g. IsControlGate b.new inputs.now.controls.now g (λ w α cv.
        not (select_a_is_val_p (row inputs.now.variant (fields_of w).d.icode)) || words.picks_leaf cv names.d_valA (Name names.D_valP))) }
{
    let carries = row_has(b, inputs.variant, D_ICODE, RowTest::CarriesP)?;
    let taken = picks_leaf(
        b,
        inputs.controls,
        signal::D_VAL_A,
        ExpectedLeaf::This(Leaf::Name(signal::HELD_D_VAL_P)),
    )?;
    implies(b, carries, taken)
}

/// The instruction in D needn't wait for the word that it stores.
fn stores_late(b: &mut NetBuilder, v: Variant, late: bool) -> Result<u64, Memory>
    requires vars { bit_count ≤ b.old.vars }
    ensures extends { ExtendsNet b.old b.new }
    ensures has_truth { IfOk result (λ g. IsGate b.new g (λ w. late && stores_val_a (row v (fields_of w).d.icode).memory)) }
{
    if late {
        row_has(b, v, D_ICODE, RowTest::StoresA)
    } else {
        b.constant(false)
    }
}

/// Obligation 10: if a good instruction leaves D, d_valA is valP for a call and a jump, and otherwise the right value
/// of its source.
pub fn obligation_10(b: &mut NetBuilder, inputs: &RuleInputs<'_>) -> Result<u64, Memory>
    requires ready { IsRuleReady b.old inputs.now }
    ensures extends { ExtendsNet b.old b.new }
    ensures has_truth { IfOk result (λ g. IsControlGate b.new inputs.now.controls.now g (at_inputs spec.o10 b.old inputs.now)) }
{
    let stays = none_leaves(b, inputs.controls, inputs.flow)?;
    let next_pc = takes_next_pc(b, inputs)?;
    let late = stores_late(b, inputs.variant, inputs.settings.lf)?;
    let operand = Operand {
        word: signal::D_VAL_A,
        source: signal::D_SRC_A,
        rest: signal::D_RVAL_A,
        free: late,
    };
    let right = picks_right_value(b, inputs, operand)?;
    let both = b.and(next_pc, right)?;
    b.or(stays, both)
}

/// Obligation 11: if a good instruction leaves D, d_valB is the right value of its source.
pub fn obligation_11(b: &mut NetBuilder, inputs: &RuleInputs<'_>) -> Result<u64, Memory>
    requires ready { IsRuleReady b.old inputs.now }
    ensures extends { ExtendsNet b.old b.new }
    ensures has_truth { IfOk result (λ g. IsControlGate b.new inputs.now.controls.now g (at_inputs spec.o11 b.old inputs.now)) }
{
    let stays = none_leaves(b, inputs.controls, inputs.flow)?;
    let never = b.constant(false)?;
    let operand = Operand {
        word: signal::D_VAL_B,
        source: signal::D_SRC_B,
        rest: signal::D_RVAL_B,
        free: never,
    };
    let right = picks_right_value(b, inputs, operand)?;
    b.or(stays, right)
}
