//! The gates and picks of all names of a table, along an order.
ghost use Rattle.std.specs.Prelude.{◌≡◌, ◌≤◌, ◌<◌, ◌-◌, true, ◌+◌, length, List, Bool, ℕ, IfOk, IfErr, OnOk, IsTrue, slice_get, slice_set, take, Some};
ghost use Rattle.std.specs.List.{AllByRecursion};
ghost use Rattle.nets.specs.Nets.{ExtendsNet};
ghost use Rattle.hcl_types.specs.declared.table.Row.{Row};
ghost use Rattle.hcl_types.specs.Equations.{IsSolution};
ghost use Rattle.hcl_types.specs.Tables.{IsBound, IsOrderOf, IsSound};
ghost use Rattle.hcl_types.specs.Tables as tables;
ghost use Rattle.hcl_types.specs.Terms.{names};
ghost use Rattle.ctl_atoms.specs.declared.leaf.Leaf.{Leaf};
ghost use Rattle.ctl_atoms.specs.declared.leaf.Atom.{Atom};
ghost use Rattle.ctl_atoms.specs.Atoms.{AreAtoms, IsCtlFault};
ghost use Rattle.ctl_atoms.specs.Leaves.{Assignment, AtomsAre};
ghost use Rattle.ctl_atoms.specs.Rows.{leaf_rule, row_term};
ghost use Rattle.ctl_equations.specs.Controls.{AreControls};
ghost use Rattle.ctl_picks.specs.Picks.{Covers, IsInside, EncodesControls};
ghost use Rattle.ctl_picks.specs.Laws.{AreApart};
ghost use Rattle.ctl_given.specs.Places.{HavePlaces, Spells};
ghost use Rattle.ctl_picks.specs.TakenPicks.{at};
ghost use Rattle.ctl_formula.specs.Encoding.{IsPartialEncoding, IsInputEncoding, IsEncoding, is_filled};

use ctl_atoms::{Atom, CtlFault, atoms, definitions_before};
use ctl_given::{Place, given_entry};
use ctl_picks::{Controls, Entry};
use ctl_terms::Scope;
use hcl_types::{NameId, Order, OrderedDesign, Row, Table, Term, is_defined};
use nets::NetBuilder;
use std::alloc::Global;
use y86_base::{Items, Memory, push};

/// The entries of all rows before any definition is translated.
fn given_entries(
    alloc: Global,
    b: &mut NetBuilder,
    rows: &[Row],
    places: &[Place],
) -> Result<Vec<Entry>, Memory>
    requires sound { IsSound rows.now }
    requires places { HavePlaces rows.now places.now b.old.vars }
    ensures extends { ExtendsNet b.old b.new }
    ensures given { IfOk result (λ es. IsInputEncoding rows.now places.now (length rows.now) b.new es.items) }
{
    let mut es = Vec::new(alloc);
    for id in 0..rows.len() {
        let e = given_entry(alloc, b, &rows[id], id as NameId, places)?;
        match push(&mut es, e) {
            Ok(()) => {}
            Err(fault) => return Err(fault),
        }
    }
    Ok(es)
}

/// Writes the entry of a name.
fn put_entry(es: &mut Vec<Entry>, id: usize, e: Entry)
    requires { id < length es.old.items }
    ensures { es.new.items ≡ slice_set es.old.items id e }
{
    es[id] = e;
}

/// Takes all entries as the control values of a design.
fn finished(es: Vec<Entry>) -> Controls
    ensures { result ≡ es.items }
{
    Controls::of(Items::of(es))
}

/// The definitions of a design, and its atoms, which are the variables from `first` on.
#[derive(Drop)]
struct Definitions<'a> {
    rows: &'a [Row],
    terms: &'a [Term],
    atoms: &'a [Atom],
    first: u32,
}

impl<'a> Definitions<'a> {
    /// The term of a defined row.
    fn term(&self, id: usize) -> &'a Term
        requires row { id < length self.now.rows.now }
        requires defined { length (tables.defined (take id self.now.rows.now)) < length self.now.terms.now }
        ensures { result.now ≡ row_term self.now.rows.now self.now.terms.now id }
    {
        &self.terms[definitions_before(self.rows, id)]
    }

    /// Makes the gates of a row if it is defined. Those of each name in its term must be there already.
    fn put_row(
        &self,
        alloc: Global,
        id: NameId,
        b: &mut NetBuilder,
        es: &mut Vec<Entry>,
    ) -> Result<(), Memory>
        requires row { id < length self.now.rows.now }
        requires bound { IsBound self.now.rows.now self.now.terms.now }
        requires atoms { AreAtoms self.now.rows.now self.now.terms.now self.now.atoms.now }
        requires vars { self.now.first + length self.now.atoms.now ≤ b.old.vars }
        requires leaves { (leaves : ℕ → List Leaf) × IsSolution (leaf_rule self.now.rows.now self.now.terms.now) leaves }
        requires filling { (places : List Place) × IsPartialEncoding self.now.rows.now self.now.terms.now places self.now.atoms.now self.now.first b.old es.old.items }
        requires needs { (row : Row) → slice_get self.now.rows.now id ≡ Some row → tables.is_defined row.role ≡ true →
            AllByRecursion (λ m. m < length self.now.rows.now → IsTrue (is_filled (slice_get es.old.items m))) (names (row_term self.now.rows.now self.now.terms.now id)) }
        ensures extends { ExtendsNet b.old b.new }
        ensures filling { (places : List Place) → IsPartialEncoding self.now.rows.now self.now.terms.now places self.now.atoms.now self.now.first b.old es.old.items →
            OnOk result (IsPartialEncoding self.now.rows.now self.now.terms.now places self.now.atoms.now self.now.first b.new es.new.items) }
        ensures filled { (row : Row) → slice_get self.now.rows.now id ≡ Some row → tables.is_defined row.role ≡ true → OnOk result (IsTrue (is_filled (slice_get es.new.items id))) }
        ensures kept { (n : ℕ) → IsTrue (is_filled (slice_get es.old.items n)) → OnOk result (IsTrue (is_filled (slice_get es.new.items n))) }
    {
        let rows = self.rows;
        let row = &rows[id as usize];
        if !is_defined(&row.role) {
            return Ok(());
        }
        let scope = Scope {
            entries: es.as_slice(),
            atoms: self.atoms,
            first: self.first,
        };
        let e = scope.defined_entry(alloc, b, row.class, self.term(id as usize))?;
        put_entry(es, id as usize, e);
        Ok(())
    }

    /// The gates and picks of all names, row by row along the order.
    fn told_entries(
        &self,
        alloc: Global,
        o: &Order,
        places: &[Place],
        b: &mut NetBuilder,
    ) -> Result<Vec<Entry>, Memory>
        requires sound { IsSound self.now.rows.now }
        requires bound { IsBound self.now.rows.now self.now.terms.now }
        requires ordered { IsOrderOf self.now.rows.now self.now.terms.now o.now.ids }
        requires places { HavePlaces self.now.rows.now places.now b.old.vars }
        requires atoms { AreAtoms self.now.rows.now self.now.terms.now self.now.atoms.now }
        requires vars { self.now.first + length self.now.atoms.now ≤ b.old.vars }
        ensures extends { ExtendsNet b.old b.new }
        ensures encodes { IfOk result (λ es. IsEncoding self.now.rows.now self.now.terms.now places.now self.now.atoms.now self.now.first b.new es.items) }
    {
        let mut es = given_entries(alloc, b, self.rows, places)?;
        for id in o.ids.items() {
            match self.put_row(alloc, *id, b, &mut es) {
                Ok(()) => {}
                Err(e) => return Err(e),
            }
        }
        Ok(es)
    }

    /// Like `translate`, for atoms that are known.
    fn controls(
        &self,
        alloc: Global,
        o: &Order,
        places: &[Place],
        b: &mut NetBuilder,
    ) -> Result<Controls, Memory>
        requires sound { IsSound self.now.rows.now }
        requires bound { IsBound self.now.rows.now self.now.terms.now }
        requires ordered { IsOrderOf self.now.rows.now self.now.terms.now o.now.ids }
        requires places { HavePlaces self.now.rows.now places.now b.old.vars }
        requires atoms { AreAtoms self.now.rows.now self.now.terms.now self.now.atoms.now }
        requires vars { self.now.first + length self.now.atoms.now ≤ b.old.vars }
        ensures extends { ExtendsNet b.old b.new }
        ensures inside { IfOk result (λ ctl. IsInside b.new ctl) }
        ensures covers { IfOk result (λ ctl. Covers self.now.rows.now ctl) }
        ensures apart { IfOk result (λ ctl. AreApart ctl) }
        ensures encodes { (w : List Bool) (α : Assignment) (field : ℕ → ℕ) (cv : ℕ → Leaf) →
            AtomsAre self.now.atoms.now self.now.first w α → Spells places.now w field → AreControls self.now.rows.now self.now.terms.now field α cv →
            IfOk result (λ ctl. EncodesControls b.new ctl w α cv) }
    {
        let es = self.told_entries(alloc, o, places, b)?;
        Ok(finished(es))
    }
}

/// The gates of the control values of a design's signals. Code and Truth names of the state and the hardware are the
/// bits of `places`; the atoms are the last variables of `b`, in the order that `atoms` gives. New gates are added
/// after those of `b`. The variables and earlier gates of `b` stay, whatever the result.
///
/// Errors: `Mixed` of the first definition, in table order, that mixes Code with Value; if there is none,
/// `AtomsOver64`, if the definitions have more than 64 different atoms; `Memory`.
pub fn translate(
    alloc: Global,
    ordered: &OrderedDesign,
    t: &Table,
    places: &[Place],
    b: &mut NetBuilder,
) -> Result<Controls, CtlFault>
    requires sound { IsSound t.now.rows }
    requires bound { IsBound t.now.rows ordered.now.design.terms }
    requires ordered { IsOrderOf t.now.rows ordered.now.design.terms ordered.now.order.ids }
    requires places { HavePlaces t.now.rows places.now b.old.vars }
    requires vars { (listed : List Atom) → AreAtoms t.now.rows ordered.now.design.terms listed → length listed ≤ b.old.vars }
    ensures extends { ExtendsNet b.old b.new }
    ensures inside { IfOk result (λ ctl. IsInside b.new ctl) }
    ensures covers { IfOk result (λ ctl. Covers t.now.rows ctl) }
    ensures apart { IfOk result (λ ctl. AreApart ctl) }
    ensures encodes { (w : List Bool) (α : Assignment) (field : ℕ → ℕ) (cv : ℕ → Leaf) (listed : List Atom) → AreAtoms t.now.rows ordered.now.design.terms listed →
        AtomsAre listed (b.old.vars - length listed) w α → Spells places.now w field → AreControls t.now.rows ordered.now.design.terms field α cv →
        IfOk result (λ ctl. EncodesControls b.new ctl w α cv) }
    // So there is a result only if nothing is Mixed and there are at most 64 atoms.
    ensures listed { IfOk result (λ ctl. (listed : List Atom) × AreAtoms t.now.rows ordered.now.design.terms listed) }
    ensures fault { IfErr result (IsCtlFault t.now.rows ordered.now.design.terms) }
{
    match atoms(alloc, ordered, t) {
        Err(e) => Err(e),
        Ok(listed) => {
            let atoms = listed.as_slice();
            let definitions = Definitions {
                rows: t.rows.items(),
                terms: ordered.design.terms.items(),
                atoms,
                first: b.vars() - atoms.len() as u32,
            };
            match definitions.controls(alloc, &ordered.order, places, b) {
                Ok(ctl) => Ok(ctl),
                Err(_) => Err(CtlFault::Memory),
            }
        }
    }
}
