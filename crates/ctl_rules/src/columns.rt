//! Gates of what the columns of a row demand of signals. A gate is true exactly if its function's comment is.
ghost use Rattle.std.specs.Prelude.{◌≡◌, ◌<◌, ◌≤◌, ◌+◌, false, if◌then◌else◌, length, IfOk, IsTrue};
ghost use Rattle.nets.specs.Nets.{ExtendsNet, truth};
ghost use Rattle.y86_base.specs.Stat.{stat_number};
ghost use Rattle.y86_isa.specs.Blocks.{alu_function, fetch_status, register_number};
ghost use Rattle.ctl_atoms.specs.declared.leaf.Leaf.{Leaf};
ghost use Rattle.ctl_picks.specs.Picks.{IsInside, has_picks};
ghost use Rattle.y86_base.specs.Words.{set};
ghost use Rattle.net_fields.specs.Spelling.{spelt};
ghost use Rattle.ctl_rules.specs.ControlGates.{IsControlGate, expected_register};
ghost use Rattle.ctl_rules.specs.ColumnDemands as spec;

use crate::expected_leaf::{ExpectedLeaf, picks_leaf, picks_leaf_if, picks_some_leaf};
use ctl_atoms::Leaf;
use ctl_picks::Controls;
use hcl_types::NameId;
use net_fields::{BitRange, spells};
use nets::NetBuilder;
use y86_base::Memory;
use y86_isa::{AluAColumn, AluBColumn, MemoryColumn, NextPcColumn, RegisterColumn};

/// The leaf of the first operand of the ALU, if there is one, from the signals valA and valC.
pub fn operand_leaf_a(column: AluAColumn, val_a: NameId, val_c: NameId) -> Option<Leaf>
    ensures { result ≡ spec.operand_leaf_a column val_a val_c }
{
    match column {
        AluAColumn::NoA => None,
        AluAColumn::ValA => Some(Leaf::Name(val_a)),
        AluAColumn::ValC => Some(Leaf::Name(val_c)),
        AluAColumn::Minus8 => Some(Leaf::Number(0u64.wrapping_sub(8))),
        AluAColumn::Plus8 => Some(Leaf::Number(8)),
    }
}

/// The leaf of the second operand of the ALU, if there is one, from the signal valB.
pub fn operand_leaf_b(column: AluBColumn, val_b: NameId) -> Option<Leaf>
    ensures { result ≡ spec.operand_leaf_b column val_b }
{
    match column {
        AluBColumn::NoB => None,
        AluBColumn::Zero => Some(Leaf::Number(0)),
        AluBColumn::ValB => Some(Leaf::Name(val_b)),
    }
}

/// The leaf of the address of the data, if there is an access, from the signals valA and valE.
pub fn address_leaf(column: MemoryColumn, val_a: NameId, val_e: NameId) -> Option<Leaf>
    ensures { result ≡ spec.address_leaf column val_a val_e }
{
    match column {
        MemoryColumn::NoMem => None,
        MemoryColumn::StoreA => Some(Leaf::Name(val_e)),
        MemoryColumn::StoreP => Some(Leaf::Name(val_e)),
        MemoryColumn::LoadE => Some(Leaf::Name(val_e)),
        MemoryColumn::LoadA => Some(Leaf::Name(val_a)),
    }
}

/// The leaf of the word that is stored, if one is, from the signals valA and valP.
pub fn word_leaf(column: MemoryColumn, val_a: NameId, val_p: NameId) -> Option<Leaf>
    ensures { result ≡ spec.word_leaf column val_a val_p }
{
    match column {
        MemoryColumn::NoMem => None,
        MemoryColumn::StoreA => Some(Leaf::Name(val_a)),
        MemoryColumn::StoreP => Some(Leaf::Name(val_p)),
        MemoryColumn::LoadE => None,
        MemoryColumn::LoadA => None,
    }
}

/// The register that a column names, by the fields rA and rB.
pub fn expected_register(column: RegisterColumn, r_a: BitRange, r_b: BitRange) -> ExpectedLeaf
    ensures { result ≡ expected_register column r_a r_b }
{
    match column {
        RegisterColumn::Dash => ExpectedLeaf::This(Leaf::Number(15)),
        RegisterColumn::FieldA => ExpectedLeaf::Field(r_a),
        RegisterColumn::FieldB => ExpectedLeaf::Field(r_b),
        RegisterColumn::Stack => ExpectedLeaf::This(Leaf::Number(4)),
    }
}

/// The signal is the number of the register that a column names.
pub fn register_is(
    b: &mut NetBuilder,
    ctl: &Controls,
    name: NameId,
    column: RegisterColumn,
    r_a: BitRange,
    r_b: BitRange,
) -> Result<u64, Memory>
    requires inside { IsInside b.old ctl.now }
    requires known { IsTrue (has_picks ctl.now name) }
    requires place_a { r_a.first + r_a.bits ≤ b.old.vars }
    requires place_b { r_b.first + r_b.bits ≤ b.old.vars }
    ensures extends { ExtendsNet b.old b.new }
    ensures has_truth { IfOk result (λ g. IsControlGate b.new ctl.now g (λ w α cv. spec.is_number cv name (register_number column (spelt w r_a.first r_a.bits) (spelt w r_b.first r_b.bits)))) }
{
    picks_leaf(b, ctl, name, expected_register(column, r_a, r_b))
}

/// The signal is the function of the ALU: the ifun if the row selects by it, else addition.
pub fn function_is(
    b: &mut NetBuilder,
    ctl: &Controls,
    name: NameId,
    selects: bool,
    ifun: BitRange,
) -> Result<u64, Memory>
    requires inside { IsInside b.old ctl.now }
    requires known { IsTrue (has_picks ctl.now name) }
    requires place { ifun.first + ifun.bits ≤ b.old.vars }
    ensures extends { ExtendsNet b.old b.new }
    ensures has_truth { IfOk result (λ g. IsControlGate b.new ctl.now g (λ w α cv. spec.is_number cv name (alu_function selects (spelt w ifun.first ifun.bits)))) }
{
    if selects {
        picks_leaf(b, ctl, name, ExpectedLeaf::Field(ifun))
    } else {
        picks_leaf(b, ctl, name, ExpectedLeaf::This(Leaf::Number(0)))
    }
}

/// The number of the status of an icode that was read without an error.
fn status_of(icode: u64) -> u64
    ensures { result ≡ stat_number (fetch_status false icode) }
{
    if icode == 15 {
        4
    } else if icode == 0 {
        2
    } else {
        1
    }
}

/// The signal is the status of an icode, or that of an address error if a gate is true.
pub fn status_is(
    b: &mut NetBuilder,
    ctl: &Controls,
    name: NameId,
    error: u64,
    icode: u64,
) -> Result<u64, Memory>
    requires inside { IsInside b.old ctl.now }
    requires known { IsTrue (has_picks ctl.now name) }
    requires gate { error < length b.old.gates }
    ensures extends { ExtendsNet b.old b.new }
    ensures has_truth { IfOk result (λ g. IsControlGate b.new ctl.now g (λ w α cv. spec.is_number cv name (stat_number (fetch_status (truth b.old error w) icode)))) }
{
    picks_leaf_if(
        b,
        ctl,
        name,
        error,
        ExpectedLeaf::This(Leaf::Number(3)),
        ExpectedLeaf::This(Leaf::Number(status_of(icode))),
    )
}

/// The sources of the next PC: the signals valP, valC and valM, and the bit that says whether the condition holds.
#[derive(Clone, Copy, Debug, PartialEq, Eq)]
pub struct NextPcInputs {
    pub val_p: NameId,
    pub val_c: NameId,
    pub val_m: NameId,
    pub cnd: BitRange,
}

/// The signal picks the next PC of a column, if one follows.
pub fn next_is(
    b: &mut NetBuilder,
    ctl: &Controls,
    name: NameId,
    column: NextPcColumn,
    inputs: NextPcInputs,
) -> Result<u64, Memory>
    requires inside { IsInside b.old ctl.now }
    requires known { IsTrue (has_picks ctl.now name) }
    requires place { inputs.cnd.first + inputs.cnd.bits ≤ b.old.vars }
    ensures extends { ExtendsNet b.old b.new }
    ensures has_truth { IfOk result (λ g. IsControlGate b.new ctl.now g (λ w α cv.
        spec.picks_some_leaf cv name (spec.next_leaf column inputs.val_p inputs.val_c inputs.val_m (set (spelt w inputs.cnd.first inputs.cnd.bits))))) }
{
    match column {
        NextPcColumn::Itself => picks_some_leaf(b, ctl, name, None),
        NextPcColumn::Fall => picks_some_leaf(b, ctl, name, Some(Leaf::Name(inputs.val_p))),
        NextPcColumn::Branch => jump_is(b, ctl, name, inputs),
        NextPcColumn::Target => picks_some_leaf(b, ctl, name, Some(Leaf::Name(inputs.val_c))),
        NextPcColumn::Loaded => picks_some_leaf(b, ctl, name, Some(Leaf::Name(inputs.val_m))),
    }
}

/// The signal picks valC if the condition holds, else valP.
fn jump_is(
    b: &mut NetBuilder,
    ctl: &Controls,
    name: NameId,
    inputs: NextPcInputs,
) -> Result<u64, Memory>
    requires inside { IsInside b.old ctl.now }
    requires known { IsTrue (has_picks ctl.now name) }
    requires place { inputs.cnd.first + inputs.cnd.bits ≤ b.old.vars }
    ensures extends { ExtendsNet b.old b.new }
    ensures has_truth { IfOk result (λ g. IsControlGate b.new ctl.now g (λ w α cv.
        spec.picks_leaf cv name (if set (spelt w inputs.cnd.first inputs.cnd.bits) then Leaf.Name inputs.val_c else Leaf.Name inputs.val_p))) }
{
    let fails = spells(b, inputs.cnd, 0)?;
    picks_leaf_if(
        b,
        ctl,
        name,
        fails,
        ExpectedLeaf::This(Leaf::Name(inputs.val_p)),
        ExpectedLeaf::This(Leaf::Name(inputs.val_c)),
    )
}
