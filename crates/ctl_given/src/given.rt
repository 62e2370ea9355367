//! The gates and picks of names without a definition: constants, state and hardware.
ghost use Rattle.std.specs.Prelude.{◌≡◌, ◌<◌, ◌≤◌, ◌+◌, ◌==◌, ◌∷◌, [], not, is_some, true, false, length, List, Bool, ℕ, IfOk, IsTrue, Some};
ghost use Rattle.std.specs.List.{AllByRecursion};
ghost use Rattle.nets.specs.Nets.{ExtendsNet, IsGate};
ghost use Rattle.net_fields.specs.Spelling.{spelt};
ghost use Rattle.hcl_types.specs.Tables.{is_constant, is_defined, is_number};
ghost use Rattle.ctl_atoms.specs.declared.leaf.Leaf.{Leaf};
ghost use Rattle.ctl_atoms.specs.declared.leaf.Leaf.TheVariants.{Number};
ghost use Rattle.ctl_atoms.specs.Leaves.{Assignment};
ghost use Rattle.ctl_atoms.specs.Rows.{codes, field_leaves, leaves_by_role};
ghost use Rattle.ctl_picks.specs.declared.controls.Entry.TheVariants as entry;
ghost use Rattle.ctl_picks.specs.Picks.{Within, leaves_of};
ghost use Rattle.ctl_equations.specs.Controls.{field_leaf, role_leaf};
ghost use Rattle.ctl_given.specs.Places.{IsInside, Spells, has_bits, is_field, place_of};
ghost use Rattle.ctl_picks.specs.TakenPicks.{IsOnlyTaken, at};
ghost use Rattle.ctl_picks.specs.Entries.{EntryEncodes, EntryWithin, IsEntryOf};

use crate::places::Place;
use ctl_atoms::Leaf;
use ctl_picks::{Entry, Pick};
use hcl_types::{Class, NameId, Role, Row};
use net_fields::spells;
use nets::NetBuilder;
use std::alloc::Global;
use y86_base::{Items, Memory, push};

fn find_place(places: &[Place], name: NameId) -> Place
    requires { IsTrue (is_some (place_of places.now name)) }
    ensures { place_of places.now name ≡ Some result }
{
    for place in places {
        if place.name == name {
            return *place;
        }
    }
    Place {
        name,
        first: 0,
        bits: 0,
    }
}

/// The single pick of one leaf.
fn one_pick(alloc: Global, b: &mut NetBuilder, leaf: Leaf) -> Result<Vec<Pick>, Memory>
    ensures extends { ExtendsNet b.old b.new }
    ensures within { IfOk result (λ ps. Within (length b.new.gates) ps.items) }
    ensures leaves { IfOk result (λ ps. leaves_of ps.items ≡ leaf ∷ []) }
    ensures is { (w : List Bool) → IfOk result (λ ps. IsOnlyTaken (at b.new w) ps.items leaf) }
{
    let gate = b.constant(true)?;
    let mut ps = Vec::new(alloc);
    push(&mut ps, Pick { leaf, gate })?;
    Ok(ps)
}

/// A gate that is true if the bits of a place spell a number.
fn spelling(b: &mut NetBuilder, place: Place, n: u64) -> Result<u64, Memory>
    requires { place.first + place.bits ≤ b.old.vars }
    ensures extends { ExtendsNet b.old b.new }
    ensures has_truth { IfOk result (λ g. IsGate b.new g (λ w. spelt w place.first place.bits == n)) }
{
    let first = place.first;
    let bits = place.bits;
    spells(b, net_fields::BitRange { first, bits }, n)
}

/// A gate that is true if the number at a place isn't 0.
#[tactic(auto, using(nets::proofs::Truths::begins_more))]
fn bit_gate(b: &mut NetBuilder, place: Place) -> Result<u64, Memory>
    requires { place.first + place.bits ≤ b.old.vars }
    ensures extends { ExtendsNet b.old b.new }
    ensures has_truth { IfOk result (λ g. IsGate b.new g (λ w. not (spelt w place.first place.bits == 0))) }
{
    let zero = spelling(b, place, 0)?;
    b.not(zero)
}

/// The picks of a code: each number of 4 bits, with a gate that is true if the bits of its place spell it.
fn code_picks(alloc: Global, b: &mut NetBuilder, place: Place) -> Result<Vec<Pick>, Memory>
    requires few { place.bits ≤ 4 }
    requires inside { place.first + place.bits ≤ b.old.vars }
    ensures extends { ExtendsNet b.old b.new }
    ensures within { IfOk result (λ ps. Within (length b.new.gates) ps.items) }
    ensures leaves { IfOk result (λ ps. leaves_of ps.items ≡ codes) }
    ensures is { (w : List Bool) → IfOk result (λ ps. IsOnlyTaken (at b.new w) ps.items (Number (spelt w place.first place.bits))) }
{
    let mut ps = Vec::new(alloc);
    for k in 0..16u64 {
        let gate = spelling(b, place, k)?;
        let leaf = Leaf::Number(k);
        match push(&mut ps, Pick { leaf, gate }) {
            Ok(()) => {}
            Err(e) => return Err(e),
        }
    }
    Ok(ps)
}

/// The entry of a name of the state or the hardware: the number at its place, or the name itself.
fn field_entry(
    alloc: Global,
    b: &mut NetBuilder,
    class: Class,
    id: NameId,
    places: &[Place],
) -> Result<Entry, Memory>
    requires placed { has_bits class ≡ true → IsTrue (is_some (place_of places.now id)) }
    requires inside { AllByRecursion (IsInside b.old.vars) places.now }
    ensures extends { ExtendsNet b.old b.new }
    ensures within { IfOk result (EntryWithin (length b.new.gates)) }
    ensures entry { IfOk result (IsEntryOf class (field_leaves class id)) }
    ensures is { (w : List Bool) (α : Assignment) (field : ℕ → ℕ) → Spells places.now w field → IfOk result (λ e. EntryEncodes (at b.new w) α e (field_leaf field id class)) }
{
    match class {
        Class::Number => {
            let ps = one_pick(alloc, b, Leaf::Name(id))?;
            Ok(Entry::Picks(Items::of(ps)))
        }
        Class::Value => {
            let ps = one_pick(alloc, b, Leaf::Name(id))?;
            Ok(Entry::Picks(Items::of(ps)))
        }
        Class::Code => {
            let ps = code_picks(alloc, b, find_place(places, id))?;
            Ok(Entry::Picks(Items::of(ps)))
        }
        Class::Truth => {
            let g = bit_gate(b, find_place(places, id))?;
            Ok(Entry::Truth(g))
        }
    }
}

/// The entry of a row that isn't defined, and `Absent` for one that is.
pub fn given_entry(
    alloc: Global,
    b: &mut NetBuilder,
    row: &Row,
    id: NameId,
    places: &[Place],
) -> Result<Entry, Memory>
    requires sound { is_number row.now.class ≡ is_constant row.now.role }
    requires placed { is_field row.now.role ≡ true → has_bits row.now.class ≡ true → IsTrue (is_some (place_of places.now id)) }
    requires inside { AllByRecursion (IsInside b.old.vars) places.now }
    ensures extends { ExtendsNet b.old b.new }
    ensures within { IfOk result (EntryWithin (length b.new.gates)) }
    ensures absent { is_defined row.now.role ≡ true → IfOk result (λ e. e ≡ entry.Absent) }
    ensures entry { is_defined row.now.role ≡ false → IfOk result (IsEntryOf row.now.class (leaves_by_role row.now.class id row.now.role [])) }
    ensures is { (w : List Bool) (α : Assignment) (field : ℕ → ℕ) (told : Leaf) → Spells places.now w field → IfOk result (λ e. EntryEncodes (at b.new w) α e (role_leaf field id row.now.class row.now.role told)) }
{
    match &row.role {
        Role::Constant(n) => {
            let ps = one_pick(alloc, b, Leaf::Number(*n))?;
            Ok(Entry::Picks(Items::of(ps)))
        }
        Role::State => field_entry(alloc, b, row.class, id, places),
        Role::Hardware(_) => field_entry(alloc, b, row.class, id, places),
        Role::Defined => Ok(Entry::Absent),
    }
}
