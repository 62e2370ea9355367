//! Which changes of stall and bubble signals meet all obligations on motion.
ghost use Rattle.std.specs.Prelude.{◌≡◌, ◌&&◌, IfOk, filter};
ghost use Rattle.control_values.specs.Given.{at};
ghost use Rattle.pipe_requirements.specs.Requirements.{unread};
ghost use Rattle.pipe_requirements.specs.Flows.{as_register_control, as_register_controls, at_now};
ghost use Rattle.pipe_obligations.specs.Obligations as rule;
ghost use Rattle.motion_repairs.specs.Changes as spec;

use crate::fetch::{fetched, is_fetch_good, picks_leaf};
use crate::moves::registers_move_well;
use ctl_atoms::{Leaf, same_leaf};
use dp_signals::pipe_row as name;
use hcl_types::NameId;
use pipe_requirements::{Now, RegisterControlNow, RegisterControlsNow, is_number, leaf_at, leaves};
use std::alloc::Global;
use y86_base::{Memory, push};
use y86_isa::{row, select_a_is_val_p, stores_val_a};

/// A signal's truth, inverted if it has this name.
fn inverted(signal: NameId, own: NameId, b: bool) -> bool
    ensures { result ≡ spec.inverted signal own b }
{
    if signal == own { !b } else { b }
}

fn control_inverted(
    signal: NameId,
    stall: NameId,
    bubble: NameId,
    k: RegisterControlNow,
) -> RegisterControlNow
    ensures { as_register_control result ≡ spec.control_inverted signal stall bubble (as_register_control k) }
{
    RegisterControlNow {
        stall: inverted(signal, stall, k.stall),
        bubble: inverted(signal, bubble, k.bubble),
    }
}

/// The ten signals with one of them inverted.
pub fn with_inverted(signal: NameId, k: &RegisterControlsNow) -> RegisterControlsNow
    ensures { as_register_controls result ≡ spec.with_inverted signal (as_register_controls k.now) }
{
    RegisterControlsNow {
        f: control_inverted(signal, name::F_STALL, name::F_BUBBLE, k.f),
        d: control_inverted(signal, name::D_STALL, name::D_BUBBLE, k.d),
        e: control_inverted(signal, name::E_STALL, name::E_BUBBLE, k.e),
        m: control_inverted(signal, name::M_STALL, name::M_BUBBLE, k.m),
        w: control_inverted(signal, name::W_STALL, name::W_BUBBLE, k.w),
    }
}

/// The signal picks the right value of a source.
fn picks_right_value(n: &Now<'_>, free: bool, signal: NameId, source: NameId, rest: NameId) -> bool
    ensures { result ≡ at_now rule.picks_right_value n.now unread (at n.now.leaves.now) free signal source rest }
{
    is_number(n.leaves, source, 15)
        || (if n.loaded_in_e(source) {
            free
        } else {
            same_leaf(leaf_at(n.leaves, signal), n.right_value(source, rest))
        })
}

fn met_10(n: &Now<'_>) -> bool
    ensures { result ≡ at_now rule.o10 n.now unread (at n.now.leaves.now) }
{
    let here = row(n.v, n.l.d.icode);
    !leaves(n.mv, n.y)
        || ((!select_a_is_val_p(&here) || picks_leaf(n.leaves, name::D_VAL_A, name::HELD_D_VAL_P))
            && picks_right_value(
                n,
                n.s.lf && stores_val_a(here.memory),
                name::D_VAL_A,
                name::D_SRC_A,
                name::D_RVAL_A,
            ))
}

fn met_11(n: &Now<'_>) -> bool
    ensures { result ≡ at_now rule.o11 n.now unread (at n.now.leaves.now) }
{
    !leaves(n.mv, n.y) || picks_right_value(n, false, name::D_VAL_B, name::D_SRC_B, name::D_RVAL_B)
}

/// The obligations from 23 on are met.
fn moves_well(n: &Now<'_>) -> bool
    ensures { result ≡ (at_now rule.o23 n.now unread (at n.now.leaves.now)
        && (at_now rule.o24 n.now unread (at n.now.leaves.now)
        && (at_now rule.o25 n.now unread (at n.now.leaves.now)
        && (at_now rule.o26 n.now unread (at n.now.leaves.now)
        && at_now rule.o27 n.now unread (at n.now.leaves.now))))) }
{
    let facts = fetched(n);
    registers_move_well(n, is_fetch_good(n), &facts)
}

/// Whether all obligations on motion are met.
pub fn meets_motion(n: &Now<'_>) -> bool
    ensures { result ≡ at_now spec.meets_motion n.now unread (at n.now.leaves.now) }
{
    met_10(n) && (met_11(n) && moves_well(n))
}

/// Whether they are met with one of the signals inverted.
pub(crate) fn is_repaired(n: &Now<'_>, signal: NameId) -> bool
    ensures { result ≡ at_now spec.is_signal_repair n.now unread (at n.now.leaves.now) signal }
{
    let mv = with_inverted(signal, n.mv);
    let other = Now {
        v: n.v,
        s: n.s,
        l: n.l,
        y: n.y,
        mv: &mv,
        leaves: n.leaves,
    };
    meets_motion(&other)
}

/// The ten stall and bubble signals.
static SIGNALS: [NameId; 10] = [
    name::F_STALL,
    name::F_BUBBLE,
    name::D_STALL,
    name::D_BUBBLE,
    name::E_STALL,
    name::E_BUBBLE,
    name::M_STALL,
    name::M_BUBBLE,
    name::W_STALL,
    name::W_BUBBLE,
];

pub(crate) fn stall_bubble_signals() -> &'static [NameId]
    ensures { result.now ≡ spec.stall_bubble_signals }
{
    &SIGNALS
}

/// The signals that each, inverted alone, meet all obligations on motion.
#[tactic(auto, unfolding(crate::specs::Changes::signal_repairs))]
pub fn signal_repairs(alloc: Global, n: &Now<'_>) -> Result<Vec<NameId>, Memory>
    ensures { IfOk result (λ r. r.items ≡ at_now spec.signal_repairs n.now unread (at n.now.leaves.now)) }
{
    let mut out = Vec::new(alloc);
    for signal in stall_bubble_signals() {
        if is_repaired(n, *signal) {
            match push(&mut out, *signal) {
                Ok(()) => {}
                Err(e) => return Err(e),
            }
        }
    }
    Ok(out)
}

/// The control values, with another name picked by `f_pc`.
fn with_pc(alloc: Global, leaves: &[Leaf], source: NameId) -> Result<Vec<Leaf>, Memory>
    ensures { IfOk result (λ r. r.items ≡ spec.with_pc source leaves.now) }
{
    let Ok(mut copy) = Vec::from_slice(alloc, leaves) else {
        return Err(Memory);
    };
    let place = name::F_PC as usize;
    if place < copy.len() {
        copy[place] = Leaf::Name(source);
    }
    Ok(copy)
}

/// Whether the obligations on motion are met if `f_pc` picks this name.
#[tactic(auto, unfolding(crate::specs::Changes::is_pc_repair))]
pub(crate) fn is_repaired_by_pc(alloc: Global, n: &Now<'_>, source: NameId) -> Result<bool, Memory>
    ensures { IfOk result (λ met. met ≡ at_now spec.is_pc_repair n.now unread n.now.leaves.now source) }
{
    let leaves = with_pc(alloc, n.leaves, source)?;
    let other = Now {
        v: n.v,
        s: n.s,
        l: n.l,
        y: n.y,
        mv: n.mv,
        leaves: leaves.as_slice(),
    };
    Ok(meets_motion(&other))
}

/// The names that `f_pc` may pick.
static PC_SOURCES: [NameId; 7] = [
    name::HELD_F_PRED_PC,
    name::HELD_E_VAL_C,
    name::HELD_E_VAL_A,
    name::HELD_M_VAL_E,
    name::HELD_M_VAL_A,
    name::M_VAL_M,
    name::HELD_W_VAL_M,
];

pub(crate) fn pc_sources() -> &'static [NameId]
    ensures { result.now ≡ spec.pc_sources }
{
    &PC_SOURCES
}

/// The names that each, picked by `f_pc`, meet all obligations on motion.
#[tactic(auto, unfolding(crate::specs::Changes::pc_repairs))]
pub fn pc_repairs(alloc: Global, n: &Now<'_>) -> Result<Vec<NameId>, Memory>
    ensures { IfOk result (λ r. r.items ≡ at_now spec.pc_repairs n.now unread n.now.leaves.now) }
{
    let mut out = Vec::new(alloc);
    for source in pc_sources() {
        let met = match is_repaired_by_pc(alloc, n, *source) {
            Ok(met) => met,
            Err(e) => return Err(e),
        };
        if met {
            match push(&mut out, *source) {
                Ok(()) => {}
                Err(e) => return Err(e),
            }
        }
    }
    Ok(out)
}
