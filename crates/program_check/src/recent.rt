//! The records of the last three steps, and what is fetched too soon after one of them.
ghost use Rattle.std.specs.Prelude.{◌≡◌, IfNone, IfSome};
ghost use Rattle.program_check.specs.Near.{IsNearest, StoredApart, StoredInto};

use crate::apart::lies_apart;
use y86_base::Variant;
use y86_isa::{Machine, Rec};

/// An instruction that fetches a byte which one of the three before it stored.
#[derive(Clone, Copy, Debug, PartialEq, Eq)]
pub struct NearFetch {
    /// How many steps precede it.
    pub steps: u64,
    /// Its address.
    pub pc: u64,
    /// How many steps before it the store took place, 1 to 3.
    pub distance: u64,
    /// The address of the instruction that stored.
    pub storer: u64,
    /// The address of the first of the 8 bytes that were stored.
    pub store: u64,
}

/// The records of the last three steps, the last one first; None if there was no such step.
#[derive(Clone, Copy, Debug)]
pub struct Recent {
    pub last: Option<Rec>,
    pub second: Option<Rec>,
    pub third: Option<Rec>,
}

/// If the record has a store that isn't apart from the instruction at a machine's PC, the address of its instruction,
/// and the address at which the store begins.
fn stored_into(v: Variant, m: &Machine, told: Option<Rec>) -> Option<(u64, u64)>
    ensures none { IfNone result (StoredApart v m.now told) }
    ensures some { IfSome result (λ x. StoredInto v m.now told x.0 x.1) }
{
    let Some(rec) = told else {
        return None;
    };
    let Some(store) = rec.store else {
        return None;
    };
    if lies_apart(v, m, store) {
        return None;
    }
    Some((rec.pc, store.addr))
}

/// The nearest of the last three steps whose store isn't apart from the instruction at a machine's PC. `steps` is the
/// number of steps so far.
pub fn near_fetch(v: Variant, m: &Machine, recent: &Recent, steps: u64) -> Option<NearFetch>
    ensures none { IfNone result (StoredApart v m.now recent.now.last × StoredApart v m.now recent.now.second × StoredApart v m.now recent.now.third) }
    ensures some { IfSome result (λ f. (f.steps ≡ steps) × (f.pc ≡ m.now.pc) × IsNearest v m.now recent.now f) }
{
    let pc = m.pc;
    if let Some((storer, store)) = stored_into(v, m, recent.last) {
        return Some(NearFetch {
            steps,
            pc,
            distance: 1,
            storer,
            store,
        });
    }
    if let Some((storer, store)) = stored_into(v, m, recent.second) {
        return Some(NearFetch {
            steps,
            pc,
            distance: 2,
            storer,
            store,
        });
    }
    if let Some((storer, store)) = stored_into(v, m, recent.third) {
        return Some(NearFetch {
            steps,
            pc,
            distance: 3,
            storer,
            store,
        });
    }
    None
}
