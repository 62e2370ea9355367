//! Gates that say which valuations are legal.
#![tactic(auto, unfolding(pipe_fields::specs::Layout::fields_of), using(nets::proofs::Truths::begins_more, nets::proofs::Truths::begins_self, crate::proofs::Inputs::variables_stay))]

ghost use Rattle.std.specs.Prelude.{◌≡◌, ◌<◌, ◌≤◌, ◌+◌, ◌==◌, ◌&&◌, not, length, IfOk};
ghost use Rattle.nets.specs.Nets.{ExtendsNet, IsGate, truth};
ghost use Rattle.ctl_atoms.specs.declared.leaf.Atom.{Atom};
ghost use Rattle.net_fields.specs.Spelling.{spelt};
ghost use Rattle.pipe_fields.specs.Layout.{bit_count, fields_of};
ghost use Rattle.pipe_motion.specs.Gates.{flow_at, HasFlow};
ghost use Rattle.pipe_gates.specs.GateTruths.{IsAtomGate};
ghost use Rattle.pipe_motion_gates.specs.Legality as built;
ghost use Rattle.pipe_obligations.specs.StageFlows as spec;

use ctl_atoms::{Atom, AtomKind, Leaf, position};
use dp_signals::pipe_row as signal;
use hcl_types::NameId;
use net_fields::{BitRange, same, spells};
use nets::{NetBuilder, implies, without};
use pipe_fields::BIT_COUNT;
use pipe_fields::places::{
    D_BACK, D_ICODE, D_STAT, E_BACK, E_ICODE, E_SRC_A, E_SRC_B, E_STAT, F_BACK, F_ERROR, F_ICODE,
    M_BACK, M_DST_M, M_ICODE, M_STAT, W_KIND, W_STAT,
};
use pipe_gates::{RowTest, jump, row_has};
use pipe_motion::{FlowGates, Settings, flow_legal_gate};
use y86_base::{Memory, Variant};

/// The register that M loads is a source of E whose value E needs now.
fn awaits_load(b: &mut NetBuilder, v: Variant, lf: bool) -> Result<u64, Memory>
    requires { bit_count ≤ b.old.vars }
    ensures extends { ExtendsNet b.old b.new }
    ensures has_truth { IfOk result (λ g. IsGate b.new g (λ w. built.awaits_load v lf (fields_of w))) }
{
    let second = same(b, M_DST_M, E_SRC_B)?;
    let first = same(b, M_DST_M, E_SRC_A)?;
    if lf {
        let stores = row_has(b, v, E_ICODE, RowTest::StoresA)?;
        let early = without(b, first, stores)?;
        return b.or(second, early);
    }
    b.or(second, first)
}

/// A good instruction in E waits for the good one in M to load a register.
fn source_waits(b: &mut NetBuilder, v: Variant, lf: bool, y: &FlowGates) -> Result<u64, Memory>
    requires vars { bit_count ≤ b.old.vars }
    requires flow { HasFlow (length b.old.gates) y.now }
    ensures extends { ExtendsNet b.old b.new }
    ensures has_truth { IfOk result (λ g. IsGate b.new g (λ w.
        ((flow_at b.old w y.now).e.good && ((flow_at b.old w y.now).m.good && not ((fields_of w).m.dst_m == 15))) && built.awaits_load v lf (fields_of w))) }
{
    let waits = awaits_load(b, v, lf)?;
    let none = spells(b, M_DST_M, 15)?;
    let loads = without(b, y.m.good, none)?;
    let both = b.and(y.e.good, loads)?;
    b.and(both, waits)
}

/// No good instruction in E waits for a load in M.
fn no_load_use_in_e(b: &mut NetBuilder, v: Variant, lf: bool, y: &FlowGates) -> Result<u64, Memory>
    requires vars { bit_count ≤ b.old.vars }
    requires flow { HasFlow (length b.old.gates) y.now }
    ensures extends { ExtendsNet b.old b.new }
    ensures has_truth { IfOk result (λ g. IsGate b.new g (λ w. spec.no_load_use_in_e v lf (fields_of w) (flow_at b.old w y.now))) }
{
    let bad = source_waits(b, v, lf, y)?;
    b.not(bad)
}

/// If the stage has a jump, the atom that compares its two words is its back bit, provided that the file has this atom.
#[tactic(auto, using(nets::proofs::Truths::begins_more, nets::proofs::Truths::begins_self, crate::proofs::Atoms::has_at))]
fn back_matches(
    b: &mut NetBuilder,
    atoms: &[Atom],
    x: NameId,
    y: NameId,
    here: u64,
    back: BitRange,
) -> Result<u64, Memory>
    requires has { built.HasAtomVariables b.old atoms.now }
    requires here { here < length b.old.gates }
    requires place { back.first + back.bits ≤ b.old.vars }
    ensures extends { ExtendsNet b.old b.new }
    ensures has_truth { IfOk result (λ g. IsAtomGate b.new atoms.now g (λ w α. spec.back_matches atoms.now α x y (truth b.old here w) (spelt w back.first back.bits))) }
{
    let below = Atom {
        kind: AtomKind::Lt,
        left: Leaf::Name(x),
        right: Leaf::Name(y),
    };
    match position(atoms, below) {
        None => b.constant(true),
        Some(k) => {
            let atom = b.variable(BIT_COUNT + k as u32)?;
            let clear = spells(b, back, 0)?;
            let set = b.not(clear)?;
            let agrees = b.equal(atom, set)?;
            implies(b, here, agrees)
        }
    }
}

/// A jump is fetched.
pub fn fetched_jump(b: &mut NetBuilder, v: Variant) -> Result<u64, Memory>
    requires { bit_count ≤ b.old.vars }
    ensures extends { ExtendsNet b.old b.new }
    ensures has_truth { IfOk result (λ g. IsGate b.new g (λ w. spec.fetched_jump v (fields_of w))) }
{
    let clear = spells(b, F_ERROR, 0)?;
    let branch = row_has(b, v, F_ICODE, RowTest::Jump)?;
    b.and(clear, branch)
}

/// For the fetched jump, the atom is its back bit.
pub fn back_matches_in_f(b: &mut NetBuilder, v: Variant, atoms: &[Atom]) -> Result<u64, Memory>
    requires has { built.HasAtomVariables b.old atoms.now }
    ensures extends { ExtendsNet b.old b.new }
    ensures has_truth { IfOk result (λ g. IsAtomGate b.new atoms.now g (λ w α. spec.back_matches_in_f v atoms.now (fields_of w) α)) }
{
    let here = fetched_jump(b, v)?;
    back_matches(b, atoms, signal::F_VAL_C, signal::F_VAL_P, here, F_BACK)
}

/// A stage's words with a jump's target and with the PC after it, and the fields that say whether the stage has a jump
/// and whether it goes back.
#[derive(Clone, Copy, Debug)]
struct StageJump {
    target: NameId,
    next: NameId,
    stat: BitRange,
    icode: BitRange,
    back: BitRange,
}

const JUMP_IN_D: StageJump = StageJump {
    target: signal::HELD_D_VAL_C,
    next: signal::HELD_D_VAL_P,
    stat: D_STAT,
    icode: D_ICODE,
    back: D_BACK,
};

const JUMP_IN_E: StageJump = StageJump {
    target: signal::HELD_E_VAL_C,
    next: signal::HELD_E_VAL_A,
    stat: E_STAT,
    icode: E_ICODE,
    back: E_BACK,
};

const JUMP_IN_M: StageJump = StageJump {
    target: signal::HELD_M_VAL_E,
    next: signal::HELD_M_VAL_A,
    stat: M_STAT,
    icode: M_ICODE,
    back: M_BACK,
};

/// For the jump in a stage, the atom is its back bit.
fn stage_tells_back(
    b: &mut NetBuilder,
    v: Variant,
    atoms: &[Atom],
    good: u64,
    at: StageJump,
) -> Result<u64, Memory>
    requires has { built.HasAtomVariables b.old atoms.now }
    requires good { good < length b.old.gates }
    requires stat_place { at.stat.first + at.stat.bits ≤ b.old.vars }
    requires icode_place { at.icode.first + at.icode.bits ≤ b.old.vars }
    requires bits { at.icode.bits ≡ 4 }
    requires place { at.back.first + at.back.bits ≤ b.old.vars }
    ensures extends { ExtendsNet b.old b.new }
    ensures has_truth { IfOk result (λ g. IsAtomGate b.new atoms.now g (λ w α. spec.back_matches atoms.now α at.target at.next
        (truth b.old good w && spec.is_jump v (spelt w at.stat.first at.stat.bits) (spelt w at.icode.first at.icode.bits)) (spelt w at.back.first at.back.bits))) }
{
    let jump = jump(b, v, at.stat, at.icode)?;
    let here = b.and(good, jump)?;
    back_matches(b, atoms, at.target, at.next, here, at.back)
}

/// The atoms that compare a jump's valC and valP are its back bit, in D and E, and with `tv` in M.
fn stages_tell_back(
    b: &mut NetBuilder,
    v: Variant,
    tv: bool,
    atoms: &[Atom],
    y: &FlowGates,
) -> Result<u64, Memory>
    requires has { built.HasAtomVariables b.old atoms.now }
    requires flow { HasFlow (length b.old.gates) y.now }
    ensures extends { ExtendsNet b.old b.new }
    ensures has_truth { IfOk result (λ g. IsAtomGate b.new atoms.now g (λ w α. built.back_matches_in_stages v tv atoms.now (fields_of w) (flow_at b.old w y.now) α)) }
{
    let d = stage_tells_back(b, v, atoms, y.d.good, JUMP_IN_D)?;
    let e = stage_tells_back(b, v, atoms, y.e.good, JUMP_IN_E)?;
    if !tv {
        return b.and(d, e);
    }
    let m = stage_tells_back(b, v, atoms, y.m.good, JUMP_IN_M)?;
    let last_two = b.and(e, m)?;
    b.and(d, last_two)
}

/// The cycle stops: the instruction in W is good, and its status isn't 1.
pub fn stopping_gate(b: &mut NetBuilder) -> Result<u64, Memory>
    requires { bit_count ≤ b.old.vars }
    ensures extends { ExtendsNet b.old b.new }
    ensures has_truth { IfOk result (λ g. IsGate b.new g (λ w. spec.is_stopping (fields_of w))) }
{
    let good = spells(b, W_KIND, 1)?;
    let running = spells(b, W_STAT, 1)?;
    without(b, good, running)
}

/// The valuation is legal in a flow, at settings.
#[tactic(auto, unfolding(crate::specs::Legality::legal_with), using(nets::proofs::Truths::begins_more, nets::proofs::Truths::begins_self, crate::proofs::Inputs::variables_stay))]
pub fn legal_gate(
    b: &mut NetBuilder,
    v: Variant,
    s: &Settings,
    atoms: &[Atom],
    y: &FlowGates,
) -> Result<u64, Memory>
    requires has { built.HasAtomVariables b.old atoms.now }
    requires flow { HasFlow (length b.old.gates) y.now }
    ensures extends { ExtendsNet b.old b.new }
    ensures has_truth { IfOk result (λ g. IsAtomGate b.new atoms.now g (λ w α. built.legal_with v s.now atoms.now (fields_of w) (flow_at b.old w y.now) α)) }
{
    let lawful = flow_legal_gate(b, y, s.je, s.rm)?;
    let waits = no_load_use_in_e(b, v, s.lf, y)?;
    let in_f = back_matches_in_f(b, v, atoms)?;
    let in_stages = stages_tell_back(b, v, s.tv, atoms, y)?;
    let told = b.and(in_f, in_stages)?;
    let last_two = b.and(waits, told)?;
    b.and(lawful, last_two)
}
