//! The obligations on the execute stage: 12 to 17, and the jump's target. `good` is the gate for "E holds a good
//! instruction".
#![tactic(auto, using(nets::proofs::Truths::begins_more, ctl_picks::proofs::Inside::inside_more, crate::proofs::Joined::ready_more), unfolding(pipe_fields::specs::Layout::fields_of))]

ghost use Rattle.std.specs.Prelude.{◌<◌, ◌≤◌, ◌==◌, ◌&&◌, ◌||◌, not, length, IfOk, IsTrue};
ghost use Rattle.nets.specs.Nets.{ExtendsNet, IsGate, truth};
ghost use Rattle.ctl_atoms.specs.declared.leaf.Leaf.TheVariants.{Name};
ghost use Rattle.ctl_picks.specs.Picks.{IsInside, has_gate, has_picks};
ghost use Rattle.dp_signals.specs.PipeNames as names;
ghost use Rattle.y86_base.specs.Words.{set};
ghost use Rattle.pipe_stage_gates.specs.Signals.{IsReady, demand_of_row};
ghost use Rattle.pipe_obligations.specs.StageFlows.{is_jump};
ghost use Rattle.pipe_fields.specs.Layout.{bit_count, fields_of};
ghost use Rattle.pipe_gates.specs.Inputs.{HasInputs, at_inputs};
ghost use Rattle.pipe_obligations.specs.Obligations as spec;
ghost use Rattle.ctl_rules.specs.ControlGates.{IsControlGate};
ghost use Rattle.ctl_rules.specs.ColumnDemands as words;
ghost use Rattle.y86_isa.specs.Blocks.{destination_e};
ghost use Rattle.y86_isa.specs.RowTests.{select_a_is_val_a, select_a_is_val_p, stores_val_a};
ghost use Rattle.y86_isa.specs.Table.{row};

use crate::row_rules::RowRule;
use ctl_picks::{Controls, Leaf};
use ctl_rules::{ExpectedLeaf, by_icode, picks_leaf, picks_leaf_if};
use dp_signals::pipe_row as signal;
use hcl_types::NameId;
use net_fields::{same, spells};
use nets::{NetBuilder, implies};
use pipe_fields::places::{E_CND, E_DST_E, E_ICODE, E_SRC_A, E_STAT, M_DST_M};
use pipe_gates::{RowTest, RuleInputs, row_has};
use y86_base::{Memory, Variant};

/// E holds a good instruction with status 1 (AOK).
fn works(b: &mut NetBuilder, good: u64) -> Result<u64, Memory>
    requires vars { bit_count ≤ b.old.vars }
    requires good { good < length b.old.gates }
    ensures extends { ExtendsNet b.old b.new }
    ensures has_truth { IfOk result (λ g. IsGate b.new g (λ w. truth b.old good w && (fields_of w).e.stat == 1)) }
{
    let fine = spells(b, E_STAT, 1)?;
    b.and(good, fine)
}

/// The demand of a row on E, for a good instruction with status 1 (AOK).
pub fn demand_in_e(
    b: &mut NetBuilder,
    inputs: &RuleInputs<'_>,
    rule: RowRule,
) -> Result<u64, Memory>
    requires has { HasInputs b.old inputs.now }
    requires ready { IsReady b.old.vars inputs.now.controls.now }
    ensures extends { ExtendsNet b.old b.new }
    ensures has_truth { IfOk result (λ g. IsControlGate b.new inputs.now.controls.now g (λ w α cv.
        not (at_inputs spec.works_in_e b.old inputs.now w α cv) || demand_of_row rule (row inputs.now.variant (fields_of w).e.icode) (fields_of w) cv)) }
{
    let works = works(b, inputs.flow.e.good)?;
    let asked = by_icode(b, inputs.controls, inputs.variant, E_ICODE, &rule)?;
    implies(b, works, asked)
}

/// Obligation 14: the function of the ALU, if the ALU is used.
pub fn obligation_14(b: &mut NetBuilder, inputs: &RuleInputs<'_>) -> Result<u64, Memory>
    requires has { HasInputs b.old inputs.now }
    requires ready { IsReady b.old.vars inputs.now.controls.now }
    ensures extends { ExtendsNet b.old b.new }
    ensures has_truth { IfOk result (λ g. IsControlGate b.new inputs.now.controls.now g (at_inputs spec.o14 b.old inputs.now)) }
{
    demand_in_e(b, inputs, RowRule::Function)
}

/// The signal is true exactly where both gates are.
pub fn truth_where(
    b: &mut NetBuilder,
    ctl: &Controls,
    name: NameId,
    good: u64,
    passed: u64,
) -> Result<u64, Memory>
    requires inside { IsInside b.old ctl.now }
    requires known { IsTrue (has_gate ctl.now name) }
    requires good { good < length b.old.gates }
    requires passed { passed < length b.old.gates }
    ensures extends { ExtendsNet b.old b.new }
    ensures has_truth { IfOk result (λ g. IsControlGate b.new ctl.now g (λ w α cv. words.is_truth α cv name (truth b.old good w && truth b.old passed w))) }
{
    let want = b.and(good, passed)?;
    let told = ctl.truth(name);
    b.equal(want, told)
}

/// Obligation 15: the flags are set exactly by a good instruction with status 1 (AOK) that sets flags.
pub fn obligation_15(b: &mut NetBuilder, inputs: &RuleInputs<'_>) -> Result<u64, Memory>
    requires has { HasInputs b.old inputs.now }
    requires ready { IsReady b.old.vars inputs.now.controls.now }
    ensures extends { ExtendsNet b.old b.new }
    ensures has_truth { IfOk result (λ g. IsControlGate b.new inputs.now.controls.now g (at_inputs spec.o15 b.old inputs.now)) }
{
    let works = works(b, inputs.flow.e.good)?;
    let sets = row_has(b, inputs.variant, E_ICODE, RowTest::SetsFlags)?;
    truth_where(b, inputs.controls, signal::SET_CC, works, sets)
}

/// The good instruction in E passes valA, or valP in its place, on to M.
fn alu_passes_target(b: &mut NetBuilder, v: Variant, good: u64) -> Result<u64, Memory>
    requires vars { bit_count ≤ b.old.vars }
    requires good { good < length b.old.gates }
    ensures extends { ExtendsNet b.old b.new }
    ensures has_truth { IfOk result (λ g. IsGate b.new g (λ w. truth b.old good w && (select_a_is_val_a (row v (fields_of w).e.icode) || select_a_is_val_p (row v (fields_of w).e.icode)))) }
{
    let own = row_has(b, v, E_ICODE, RowTest::CarriesA)?;
    let next = row_has(b, v, E_ICODE, RowTest::CarriesP)?;
    let any = b.or(own, next)?;
    b.and(good, any)
}

/// E stores the word that M loads, and `loads` holds: the instruction in M is good.
fn stores_loaded(b: &mut NetBuilder, v: Variant, loads: u64) -> Result<u64, Memory>
    requires vars { bit_count ≤ b.old.vars }
    requires loads { loads < length b.old.gates }
    ensures extends { ExtendsNet b.old b.new }
    ensures has_truth { IfOk result (λ g. IsGate b.new g (λ w. stores_val_a (row v (fields_of w).e.icode).memory && (truth b.old loads w && (fields_of w).m.dst_m == (fields_of w).e.src_a))) }
{
    let stores = row_has(b, v, E_ICODE, RowTest::StoresA)?;
    let one = same(b, M_DST_M, E_SRC_A)?;
    let both = b.and(loads, one)?;
    b.and(stores, both)
}

/// With load forwarding, a store takes the word that it stores from the load in M.
fn word_comes_late(b: &mut NetBuilder, lf: bool, v: Variant, loads: u64) -> Result<u64, Memory>
    requires vars { bit_count ≤ b.old.vars }
    requires loads { loads < length b.old.gates }
    ensures extends { ExtendsNet b.old b.new }
    ensures has_truth { IfOk result (λ g. IsGate b.new g (λ w. lf && (stores_val_a (row v (fields_of w).e.icode).memory && (truth b.old loads w && (fields_of w).m.dst_m == (fields_of w).e.src_a)))) }
{
    if lf {
        stores_loaded(b, v, loads)
    } else {
        b.constant(false)
    }
}

/// Obligation 16: e_valA is the value that the instruction passes on to M.
pub fn obligation_16(b: &mut NetBuilder, inputs: &RuleInputs<'_>) -> Result<u64, Memory>
    requires has { HasInputs b.old inputs.now }
    requires ready { IsReady b.old.vars inputs.now.controls.now }
    ensures extends { ExtendsNet b.old b.new }
    ensures has_truth { IfOk result (λ g. IsControlGate b.new inputs.now.controls.now g (at_inputs spec.o16 b.old inputs.now)) }
{
    let late = word_comes_late(b, inputs.settings.lf, inputs.variant, inputs.flow.m.good)?;
    let taken = picks_leaf_if(
        b,
        inputs.controls,
        signal::E_VAL_A,
        late,
        ExpectedLeaf::This(Leaf::Name(signal::M_VAL_M)),
        ExpectedLeaf::This(Leaf::Name(signal::HELD_E_VAL_A)),
    )?;
    let carried = alu_passes_target(b, inputs.variant, inputs.flow.e.good)?;
    implies(b, carried, taken)
}

/// The condition of the conditional move in E doesn't hold.
fn loses(b: &mut NetBuilder, v: Variant) -> Result<u64, Memory>
    requires vars { bit_count ≤ b.old.vars }
    ensures extends { ExtendsNet b.old b.new }
    ensures has_truth { IfOk result (λ g. IsGate b.new g (λ w. (row v (fields_of w).e.icode).conditional && (fields_of w).e.cnd == 0)) }
{
    let conditional = row_has(b, v, E_ICODE, RowTest::Conditional)?;
    let fails = spells(b, E_CND, 0)?;
    b.and(conditional, fails)
}

/// The signal is E's destination after the condition.
pub fn late_destination_is(
    b: &mut NetBuilder,
    ctl: &Controls,
    v: Variant,
    name: NameId,
) -> Result<u64, Memory>
    requires inside { IsInside b.old ctl.now }
    requires vars { bit_count ≤ b.old.vars }
    requires known { IsTrue (has_picks ctl.now name) }
    ensures extends { ExtendsNet b.old b.new }
    ensures has_truth { IfOk result (λ g. IsControlGate b.new ctl.now g (λ w α cv.
        words.is_number cv name (destination_e (row v (fields_of w).e.icode).conditional (set (fields_of w).e.cnd) (fields_of w).e.dst_e))) }
{
    let lost = loses(b, v)?;
    picks_leaf_if(
        b,
        ctl,
        name,
        lost,
        ExpectedLeaf::This(Leaf::Number(15)),
        ExpectedLeaf::Field(E_DST_E),
    )
}

/// Obligation 17: unless E holds a wrong instruction, e_dstE is E's destination after the condition.
pub fn obligation_17(b: &mut NetBuilder, inputs: &RuleInputs<'_>) -> Result<u64, Memory>
    requires has { HasInputs b.old inputs.now }
    requires ready { IsReady b.old.vars inputs.now.controls.now }
    ensures extends { ExtendsNet b.old b.new }
    ensures has_truth { IfOk result (λ g. IsControlGate b.new inputs.now.controls.now g (at_inputs spec.o17 b.old inputs.now)) }
{
    let told = late_destination_is(b, inputs.controls, inputs.variant, signal::E_DST_E)?;
    b.or(inputs.flow.e.wrong, told)
}

/// E holds a good jump with status 1 (AOK).
fn jumps(b: &mut NetBuilder, v: Variant, good: u64) -> Result<u64, Memory>
    requires vars { bit_count ≤ b.old.vars }
    requires good { good < length b.old.gates }
    ensures extends { ExtendsNet b.old b.new }
    ensures has_truth { IfOk result (λ g. IsGate b.new g (λ w. truth b.old good w && is_jump v (fields_of w).e.stat (fields_of w).e.icode)) }
{
    let fine = spells(b, E_STAT, 1)?;
    let branch = row_has(b, v, E_ICODE, RowTest::Jump)?;
    let jump = b.and(fine, branch)?;
    b.and(good, jump)
}

/// The ALU adds 0 to E_valC.
fn adds_target(b: &mut NetBuilder, ctl: &Controls) -> Result<u64, Memory>
    requires inside { IsInside b.old ctl.now }
    requires ready { IsReady b.old.vars ctl.now }
    ensures extends { ExtendsNet b.old b.new }
    ensures has_truth { IfOk result (λ g. IsControlGate b.new ctl.now g (λ w α cv.
        words.picks_leaf cv names.aluA (Name names.E_valC) && (words.is_number cv names.aluB 0 && words.is_number cv names.alufun 0))) }
{
    let target = picks_leaf(
        b,
        ctl,
        signal::ALU_A,
        ExpectedLeaf::This(Leaf::Name(signal::HELD_E_VAL_C)),
    )?;
    let zero = picks_leaf(b, ctl, signal::ALU_B, ExpectedLeaf::This(Leaf::Number(0)))?;
    let adds = picks_leaf(b, ctl, signal::ALUFUN, ExpectedLeaf::This(Leaf::Number(0)))?;
    let rest = b.and(zero, adds)?;
    b.and(target, rest)
}

/// A jump in E carries its target through the ALU.
pub fn target_gate(b: &mut NetBuilder, ctl: &Controls, v: Variant, good: u64) -> Result<u64, Memory>
    requires inside { IsInside b.old ctl.now }
    requires ready { IsReady b.old.vars ctl.now }
    requires good { good < length b.old.gates }
    ensures extends { ExtendsNet b.old b.new }
    ensures has_truth { IfOk result (λ g. IsControlGate b.new ctl.now g (λ w α cv.
        not (truth b.old good w && is_jump v (fields_of w).e.stat (fields_of w).e.icode)
        || (words.picks_leaf cv names.aluA (Name names.E_valC) && (words.is_number cv names.aluB 0 && words.is_number cv names.alufun 0)))) }
{
    let jump = jumps(b, v, good)?;
    let told = adds_target(b, ctl)?;
    implies(b, jump, told)
}
