//! Two changes made together, and all changes that repair the motion.
ghost use Rattle.std.specs.Prelude.{◌≡◌, ◌++◌, IfOk, OnOk, filter, if◌then◌else◌};
ghost use Rattle.control_values.specs.Given.{at};
ghost use Rattle.pipe_requirements.specs.Requirements.{unread};
ghost use Rattle.pipe_requirements.specs.Flows.{at_now};
ghost use Rattle.motion_repairs.specs.Pairs as spec;

use crate::changes::{
    is_repaired, is_repaired_by_pc, pc_repairs, pc_sources, signal_repairs, stall_bubble_signals,
    with_inverted,
};
use hcl_types::NameId;
use pipe_requirements::Now;
use std::alloc::Global;
use y86_base::{Items, Memory, push};

/// Two changes made together: an inverted signal, and another one or a name that `f_pc` picks.
#[derive(Clone, Copy, Debug, PartialEq, Eq)]
pub struct Pair {
    pub first: NameId,
    pub second: NameId,
}

/// The changes that meet all obligations on motion. Pairs are listed only if no single change meets them.
#[derive(Drop)]
pub struct Repairs {
    /// The stall and bubble signals that each, inverted alone, meet them.
    pub invert: Items<NameId>,
    /// The names that each, picked by `f_pc`, meet them.
    pub f_pc: Items<NameId>,
    /// The pairs of signals that meet them, inverted together.
    pub invert_both: Items<Pair>,
    /// The signals that, inverted, meet them if `f_pc` picks the second name.
    pub invert_and_f_pc: Items<Pair>,
}

/// Adds a name with each of some others.
fn put_pairs(out: &mut Vec<Pair>, first: NameId, seconds: &[NameId]) -> Result<(), Memory>
    ensures { OnOk result (out.new.items ≡ out.old.items ++ spec.pairs_with first seconds.now) }
{
    for second in seconds {
        let pair = Pair {
            first,
            second: *second,
        };
        match push(out, pair) {
            Ok(()) => {}
            Err(e) => return Err(e),
        }
    }
    Ok(())
}

/// Each pair of two of the names.
#[tactic(auto, unfolding(crate::specs::Pairs::pairs_of))]
fn pairs_of(alloc: Global, names: &[NameId]) -> Result<Vec<Pair>, Memory>
    ensures { IfOk result (λ r. r.items ≡ spec.pairs_of names.now) }
{
    let mut out = Vec::new(alloc);
    let mut rest = names;
    'names: while let Some((first, others)) = rest.split_first() {
        match put_pairs(&mut out, *first, others) {
            Ok(()) => rest = others,
            Err(e) => return Err(e),
        }
    }
    Ok(out)
}

/// Each of the first names with each of the second ones.
#[tactic(auto, unfolding(crate::specs::Pairs::combinations))]
fn combinations(alloc: Global, firsts: &[NameId], seconds: &[NameId]) -> Result<Vec<Pair>, Memory>
    ensures { IfOk result (λ r. r.items ≡ spec.combinations firsts.now seconds.now) }
{
    let mut out = Vec::new(alloc);
    for first in firsts {
        match put_pairs(&mut out, *first, seconds) {
            Ok(()) => {}
            Err(e) => return Err(e),
        }
    }
    Ok(out)
}

/// Whether the obligations on motion are met with both signals inverted.
#[tactic(auto, unfolding(crate::specs::Pairs::is_met_by_both))]
fn is_met_by_both(n: &Now<'_>, pair: Pair) -> bool
    ensures { result ≡ at_now spec.is_met_by_both n.now unread n.now.leaves.now pair }
{
    let mv = with_inverted(pair.first, n.mv);
    let other = Now {
        v: n.v,
        s: n.s,
        l: n.l,
        y: n.y,
        mv: &mv,
        leaves: n.leaves,
    };
    is_repaired(&other, pair.second)
}

/// Whether they are met with the first name inverted, if `f_pc` picks the second one.
#[tactic(auto, unfolding(crate::specs::Pairs::is_met_with_pc))]
fn is_met_with_pc(alloc: Global, n: &Now<'_>, pair: Pair) -> Result<bool, Memory>
    ensures { IfOk result (λ met. met ≡ at_now spec.is_met_with_pc n.now unread n.now.leaves.now pair) }
{
    let mv = with_inverted(pair.first, n.mv);
    let other = Now {
        v: n.v,
        s: n.s,
        l: n.l,
        y: n.y,
        mv: &mv,
        leaves: n.leaves,
    };
    is_repaired_by_pc(alloc, &other, pair.second)
}

/// The pairs of signals that, inverted together, meet all obligations on motion.
#[tactic(auto, unfolding(crate::specs::Pairs::both_repairs))]
fn both_repairs(alloc: Global, n: &Now<'_>) -> Result<Vec<Pair>, Memory>
    ensures { IfOk result (λ r. r.items ≡ at_now spec.both_repairs n.now unread n.now.leaves.now) }
{
    let pairs = pairs_of(alloc, stall_bubble_signals())?;
    let mut out = Vec::new(alloc);
    for pair in pairs.as_slice() {
        if is_met_by_both(n, *pair) {
            match push(&mut out, *pair) {
                Ok(()) => {}
                Err(e) => return Err(e),
            }
        }
    }
    Ok(out)
}

/// The signals, each with a choice of `f_pc`, that meet all obligations on motion together.
#[tactic(auto, unfolding(crate::specs::Pairs::repairs_with_pc))]
fn repairs_with_pc(alloc: Global, n: &Now<'_>) -> Result<Vec<Pair>, Memory>
    ensures { IfOk result (λ r. r.items ≡ at_now spec.repairs_with_pc n.now unread n.now.leaves.now) }
{
    let pairs = combinations(alloc, stall_bubble_signals(), pc_sources())?;
    let mut out = Vec::new(alloc);
    for pair in pairs.as_slice() {
        let met = match is_met_with_pc(alloc, n, *pair) {
            Ok(met) => met,
            Err(e) => return Err(e),
        };
        if met {
            match push(&mut out, *pair) {
                Ok(()) => {}
                Err(e) => return Err(e),
            }
        }
    }
    Ok(out)
}

/// All changes that meet all obligations on motion.
#[tactic(auto, unfolding(crate::specs::Pairs::needs_two))]
pub fn repairs_of(alloc: Global, n: &Now<'_>) -> Result<Repairs, Memory>
    ensures { IfOk result (λ r. r ≡ at_now spec.repairs_of n.now unread n.now.leaves.now) }
{
    let invert = signal_repairs(alloc, n)?;
    let f_pc = pc_repairs(alloc, n)?;
    let needs_two = invert.as_slice().is_empty() && f_pc.as_slice().is_empty();
    let invert_both = if needs_two {
        both_repairs(alloc, n)?
    } else {
        Vec::new(alloc)
    };
    let invert_and_f_pc = if needs_two {
        repairs_with_pc(alloc, n)?
    } else {
        Vec::new(alloc)
    };
    Ok(Repairs {
        invert: Items::of(invert),
        f_pc: Items::of(f_pc),
        invert_both: Items::of(invert_both),
        invert_and_f_pc: Items::of(invert_and_f_pc),
    })
}
