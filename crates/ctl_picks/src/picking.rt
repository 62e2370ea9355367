//! Lists of picks: finding a leaf, and joining a gate to its pick.
ghost use Rattle.std.specs.Prelude.{◌≡◌, ◌<◌, ◌&&◌, ◌||◌, length, List, Bool, IfOk, OnOk, MatchOption, false};
ghost use Rattle.ctl_atoms.specs.declared.leaf.Leaf.{Leaf};
ghost use Rattle.nets.specs.Nets.{ExtendsNet, truth};
ghost use Rattle.ctl_atoms.specs.Leaves.{leaf_eq};
ghost use Rattle.ctl_picks.specs.TakenPicks.{at, leaf_taken};
ghost use Rattle.ctl_picks.specs.Picks.{Within, IsPlace, leaves_of};
ghost use Rattle.ctl_atoms.specs.TermAtoms.{has_leaf, joined, once};

use crate::controls::Pick;
use ctl_atoms::{Leaf, same_leaf};
use nets::NetBuilder;
use std::alloc::Global;
use y86_base::{Memory, push};

/// The place of the pick of a leaf, if there is one.
#[tactic(auto, using(ctl_atoms::proofs::Same::leaf_eq_true))]
pub fn place_of(ps: &[Pick], leaf: Leaf) -> Option<usize>
    ensures { MatchOption result (has_leaf (leaves_of ps.now) leaf ≡ false) (λ k. IsPlace ps.now k leaf) }
{
    for (i, p) in ps.iter().enumerate() {
        if same_leaf(p.leaf, leaf) {
            return Some(i);
        }
    }
    None
}

/// A copy of the picks.
pub fn copy_picks(alloc: Global, ps: &[Pick]) -> Result<Vec<Pick>, Memory>
    ensures { IfOk result (λ out. out.items ≡ ps.now) }
{
    match Vec::from_slice(alloc, ps) {
        Ok(out) => Ok(out),
        Err(_) => Err(Memory),
    }
}

/// Joins a gate to the pick of a leaf, or adds the pick if the leaf has none.
pub fn add(b: &mut NetBuilder, out: &mut Vec<Pick>, leaf: Leaf, gate: u64) -> Result<(), Memory>
    requires within { Within (length b.old.gates) out.old.items }
    requires gate { gate < length b.old.gates }
    ensures extends { ExtendsNet b.old b.new }
    ensures within { OnOk result (Within (length b.new.gates) out.new.items) }
    ensures leaves { OnOk result (leaves_of out.new.items ≡ once (leaves_of out.old.items) leaf) }
    ensures is { (w : List Bool) (y : Leaf) →
        OnOk result (leaf_taken (at b.new w) out.new.items y ≡ leaf_taken (at b.old w) out.old.items y || (leaf_eq leaf y && truth b.old gate w)) }
{
    match place_of(out.as_slice(), leaf) {
        Some(k) => {
            let both = b.or(out[k].gate, gate)?;
            out[k] = Pick { leaf, gate: both };
            Ok(())
        }
        None => push(out, Pick { leaf, gate }),
    }
}

/// Adds each pick, under a further gate.
pub fn add_all(
    b: &mut NetBuilder,
    out: &mut Vec<Pick>,
    here: u64,
    ps: &[Pick],
) -> Result<(), Memory>
    requires within { Within (length b.old.gates) out.old.items }
    requires gate { here < length b.old.gates }
    requires more { Within (length b.old.gates) ps.now }
    ensures extends { ExtendsNet b.old b.new }
    ensures within { OnOk result (Within (length b.new.gates) out.new.items) }
    ensures leaves { OnOk result (leaves_of out.new.items ≡ joined (leaves_of out.old.items) (leaves_of ps.now)) }
    ensures is { (w : List Bool) (y : Leaf) →
        OnOk result (leaf_taken (at b.new w) out.new.items y ≡ leaf_taken (at b.old w) out.old.items y || (truth b.old here w && leaf_taken (at b.old w) ps.now y)) }
{
    for p in ps {
        let g = b.and(here, p.gate)?;
        match add(b, out, p.leaf, g) {
            Ok(()) => {}
            Err(e) => return Err(e),
        }
    }
    Ok(())
}
