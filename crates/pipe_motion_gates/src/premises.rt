//! Gates of the premises: the valuations at which each obligation is demanded.
ghost use Rattle.std.specs.Prelude.{◌≡◌, ◌≤◌, ◌==◌, ◌&&◌, IfOk};
ghost use Rattle.nets.specs.Nets.{ExtendsNet, IsGate, agree};
ghost use Rattle.y86_base.specs.Words.{set};
ghost use Rattle.pipe_fields.specs.Layout.{bit_count, fields_of};
ghost use Rattle.pipe_fields.specs.Allowed.{allowed};
ghost use Rattle.pipe_motion.specs.Gates.{IsFlow};
ghost use Rattle.pipe_gates.specs.GateTruths.{IsAtomGate};
ghost use Rattle.pipe_motion_gates.specs.Legality as built;
ghost use Rattle.pipe_obligations.specs.StageFlows as spec;
ghost use Rattle.pipe_obligations.specs.Rules as rules;

use crate::legality::{back_matches_in_f, fetched_jump, legal_gate, stopping_gate};
use ctl_atoms::Atom;
use net_fields::spells;
use nets::{NetBuilder, without};
use pipe_fields::places::{F_BACK, F_IFUN};
use pipe_motion::{FlowGates, Settings};
use y86_base::{Memory, Variant};

/// An allowed and legal valuation at settings, in a cycle that doesn't stop, or (`always`) in any.
pub fn premise_gate(
    b: &mut NetBuilder,
    v: Variant,
    s: &Settings,
    atoms: &[Atom],
    y: &FlowGates,
    always: bool,
) -> Result<u64, Memory>
    requires has { built.HasAtomVariables b.old atoms.now }
    requires flow { IsFlow b.old y.now (λ w. spec.flow_of v s.now (fields_of w)) }
    ensures extends { ExtendsNet b.old b.new }
    ensures has_truth { IfOk result (λ g. IsAtomGate b.new atoms.now g (λ w α. built.premise_when v s.now atoms.now always (fields_of w) α)) }
{
    let legal = legal_gate(b, v, s, atoms, y)?;
    let fits = pipe_fields::allowed(b, v)?;
    let both = b.and(fits, legal)?;
    if always {
        return Ok(both);
    }
    let stopping = stopping_gate(b)?;
    without(b, both, stopping)
}

/// A jump of this ifun is fetched that goes back, or (without `back`) doesn't.
#[tactic(auto, unfolding(pipe_fields::specs::Layout::fields_of), using(nets::proofs::Truths::begins_more, nets::proofs::Truths::begins_self))]
fn jump_of(b: &mut NetBuilder, v: Variant, ifun: u64, back: bool) -> Result<u64, Memory>
    requires { bit_count ≤ b.old.vars }
    ensures extends { ExtendsNet b.old b.new }
    ensures has_truth { IfOk result (λ g. IsGate b.new g (λ w. spec.fetched_jump v (fields_of w) && ((fields_of w).f.ifun == ifun && agree back (set (fields_of w).f.back)))) }
{
    let jump = fetched_jump(b, v)?;
    let named = spells(b, F_IFUN, ifun)?;
    let here = b.and(jump, named)?;
    let clear = spells(b, F_BACK, 0)?;
    if back {
        without(b, here, clear)
    } else {
        b.and(here, clear)
    }
}

/// The valuations at which a prediction is demanded: allowed ones (`fits` is their gate) with a fetched jump of this
/// kind whose atom is its back bit.
pub fn prediction_premise(
    b: &mut NetBuilder,
    v: Variant,
    atoms: &[Atom],
    fits: u64,
    ifun: u64,
    back: bool,
) -> Result<u64, Memory>
    requires has { built.HasAtomVariables b.old atoms.now }
    requires fits { IsGate b.old fits (λ w. allowed v (fields_of w)) }
    ensures extends { ExtendsNet b.old b.new }
    ensures has_truth { IfOk result (λ g. IsAtomGate b.new atoms.now g (λ w α. allowed v (fields_of w) && (spec.fetched_jump v (fields_of w)
        && ((fields_of w).f.ifun == ifun && (agree back (set (fields_of w).f.back) && spec.back_matches_in_f v atoms.now (fields_of w) α))))) }
{
    let jump = jump_of(b, v, ifun, back)?;
    let told = back_matches_in_f(b, v, atoms)?;
    let here = b.and(jump, told)?;
    b.and(fits, here)
}

/// The obligation on the flags.
const ON_FLAGS: u64 = 15;

/// The obligation on reads and writes of memory.
const ON_MEMORY: u64 = 19;

/// The obligation on the status of the machine.
const ON_STATUS: u64 = 22;

/// The obligations on the flags, memory and the status are demanded in cycles that stop too.
pub fn is_always_demanded(number: u64) -> bool
    ensures { result ≡ rules.is_always_demanded number }
{
    number == ON_FLAGS || number == ON_MEMORY || number == ON_STATUS
}
