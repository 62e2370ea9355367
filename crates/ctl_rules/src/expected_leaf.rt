//! Gates that are true if a signal takes the value that a rule demands.
ghost use Rattle.std.specs.Prelude.{◌≡◌, ◌<◌, ◌≤◌, ◌+◌, ◌==◌, ◌&&◌, ◌||◌, not, true, if◌then◌else◌, length, IfOk, IsTrue};
ghost use Rattle.nets.specs.Nets.{ExtendsNet, IsGate, truth};
ghost use Rattle.ctl_atoms.specs.Leaves.{leaf_eq};
ghost use Rattle.ctl_picks.specs.Picks.{IsInside, Within, has_gate, has_picks, some_pick};
ghost use Rattle.net_fields.specs.Spelling.{spelt};
ghost use Rattle.ctl_rules.specs.ControlGates.{IsControlGate, IsWithin, leaf_expected};
ghost use Rattle.ctl_rules.specs.ColumnDemands as spec;

use ctl_atoms::{Leaf, same_leaf};
use ctl_picks::{Controls, Pick};
use hcl_types::NameId;
use net_fields::{BitRange, spells};
use nets::{NetBuilder, choose};
use y86_base::Memory;

/// What a signal must be: a leaf, or the number of a field.
#[derive(Clone, Copy, Debug, PartialEq, Eq)]
pub enum ExpectedLeaf {
    This(Leaf),
    Field(BitRange),
}

/// A leaf is the wanted one.
fn leaf_is(b: &mut NetBuilder, leaf: Leaf, want: ExpectedLeaf) -> Result<u64, Memory>
    requires { IsWithin b.old.vars want }
    ensures extends { ExtendsNet b.old b.new }
    ensures has_truth { IfOk result (λ g. IsGate b.new g (λ w. leaf_eq leaf (leaf_expected w want))) }
{
    match want {
        ExpectedLeaf::This(other) => b.constant(same_leaf(leaf, other)),
        ExpectedLeaf::Field(place) => match leaf {
            Leaf::Name(_) => b.constant(false),
            Leaf::Number(n) => spells(b, place, n),
        },
    }
}

/// One of the picks has the wanted leaf and is taken.
fn one_taken(b: &mut NetBuilder, picks: &[Pick], want: ExpectedLeaf) -> Result<u64, Memory>
    requires place { IsWithin b.old.vars want }
    requires inside { Within (length b.old.gates) picks.now }
    ensures extends { ExtendsNet b.old b.new }
    ensures has_truth { IfOk result (λ g. IsGate b.new g (λ w. some_pick b.old w (λ leaf. leaf_eq leaf (leaf_expected w want)) picks.now)) }
{
    let mut any = b.constant(false)?;
    for pick in picks {
        let same = leaf_is(b, pick.leaf, want)?;
        let here = b.and(pick.gate, same)?;
        any = b.or(any, here)?;
    }
    Ok(any)
}

/// The signal picks the wanted word.
pub fn picks_leaf(
    b: &mut NetBuilder,
    ctl: &Controls,
    name: NameId,
    want: ExpectedLeaf,
) -> Result<u64, Memory>
    requires inside { IsInside b.old ctl.now }
    requires known { IsTrue (has_picks ctl.now name) }
    requires place { IsWithin b.old.vars want }
    ensures extends { ExtendsNet b.old b.new }
    ensures has_truth { IfOk result (λ g. IsControlGate b.new ctl.now g (λ w α cv. spec.picks_leaf cv name (leaf_expected w want))) }
{
    one_taken(b, ctl.picks(name), want)
}

/// The signal picks the leaf, if one is demanded.
pub fn picks_some_leaf(
    b: &mut NetBuilder,
    ctl: &Controls,
    name: NameId,
    leaf: Option<Leaf>,
) -> Result<u64, Memory>
    requires inside { IsInside b.old ctl.now }
    requires known { IsTrue (has_picks ctl.now name) }
    ensures extends { ExtendsNet b.old b.new }
    ensures has_truth { IfOk result (λ g. IsControlGate b.new ctl.now g (λ w α cv. spec.picks_some_leaf cv name leaf)) }
{
    match leaf {
        None => b.constant(true),
        Some(leaf) => picks_leaf(b, ctl, name, ExpectedLeaf::This(leaf)),
    }
}

/// The signal is the first wanted word if a gate is true, the second if it is false.
pub fn picks_leaf_if(
    b: &mut NetBuilder,
    ctl: &Controls,
    name: NameId,
    when: u64,
    yes: ExpectedLeaf,
    no: ExpectedLeaf,
) -> Result<u64, Memory>
    requires inside { IsInside b.old ctl.now }
    requires known { IsTrue (has_picks ctl.now name) }
    requires gate { when < length b.old.gates }
    requires place_yes { IsWithin b.old.vars yes }
    requires place_no { IsWithin b.old.vars no }
    ensures extends { ExtendsNet b.old b.new }
    ensures has_truth { IfOk result (λ g. IsControlGate b.new ctl.now g (λ w α cv. spec.picks_leaf cv name (if truth b.old when w then leaf_expected w yes else leaf_expected w no))) }
{
    let first = picks_leaf(b, ctl, name, yes)?;
    let second = picks_leaf(b, ctl, name, no)?;
    choose(b, when, first, second)
}

/// The signal, a truth, has this value.
pub fn is_truth(b: &mut NetBuilder, ctl: &Controls, name: NameId, want: bool) -> Result<u64, Memory>
    requires inside { IsInside b.old ctl.now }
    requires known { IsTrue (has_gate ctl.now name) }
    ensures extends { ExtendsNet b.old b.new }
    ensures has_truth { IfOk result (λ g. IsControlGate b.new ctl.now g (λ w α cv. spec.is_truth α cv name want)) }
{
    let g = ctl.truth(name);
    if want {
        return Ok(g);
    }
    b.not(g)
}
