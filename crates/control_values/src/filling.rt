//! The control values of all names at a valuation, along an order.
ghost use Rattle.std.specs.Prelude.{◌≡◌, ◌≤◌, ◌<◌, ◌^◌, ℕ, IfOk, length, slice_get, slice_set};
ghost use Rattle.std.specs.List.{AllByRecursion};
ghost use Rattle.net_fields.specs.Spelling.{spelt};
ghost use Rattle.hcl_types.specs.Tables.{IsOrderOf, IsSound};
ghost use Rattle.hcl_types.specs.Terms.{value};
ghost use Rattle.ctl_atoms.specs.declared.leaf.Leaf.TheVariants.{Number};
ghost use Rattle.ctl_atoms.specs.Leaves.{leaf_meaning};
ghost use Rattle.ctl_atoms.specs.Rows.{row_term};
ghost use Rattle.ctl_equations.specs.Controls.{AreControls, control_rule, field_leaf, role_leaf};
ghost use Rattle.ctl_equations.specs.Controls as spec;
ghost use Rattle.control_values.specs.Given.{AreNear, assigned, at, field_at, given_leaf};

use crate::scope::{Scope, bit_at};
use ctl_atoms::{Atom, Leaf, definitions_before};
use hcl_types::{Class, NameId, OrderedDesign, Role, Row, Table, Term};
use net_fields::{FieldSpec, place_in};
use std::alloc::Global;
use y86_base::{Memory, push};

/// A valuation: its bits, the table of its fields, and the atoms, whose truths are the bits from `first` on.
#[derive(Clone, Copy)]
pub struct Situation<'a> {
    pub fields: &'a [FieldSpec],
    pub atoms: &'a [Atom],
    pub first: usize,
    pub bits: &'a [bool],
}

/// The number that some bits of a valuation spell, the most significant one first.
#[tactic(auto, using(net_fields::proofs::Loops::number_none, net_fields::proofs::Loops::number_more, net_fields::proofs::Loops::number_small))]
pub fn number_at(bits: &[bool], first: usize, count: usize) -> u64
    requires few { count ≤ 4 }
    requires near { first ≤ 1000 }
    ensures { result ≡ spelt bits.now first count }
{
    let mut n = 0;
    for k in 0..count {
        n = 2 * n + u64::from(bit_at(bits, first + k));
    }
    n
}

/// The number of the field with this name, or 0 if it is no field.
#[tactic(auto, using(crate::proofs::Fields::few_bits, crate::proofs::Fields::near_first, crate::proofs::Fields::number_there, crate::proofs::Fields::number_nowhere))]
fn field_number(fields: &[FieldSpec], bits: &[bool], id: NameId) -> u64
    requires { AreNear fields.now }
    ensures { result ≡ field_at fields.now bits.now id }
{
    match place_in(fields, id) {
        Some(place) => number_at(bits, place.first as usize, place.bits as usize),
        None => 0,
    }
}

/// The leaf of a name of the state or the hardware.
fn leaf_of_field(s: &Situation<'_>, class: Class, id: NameId) -> Leaf
    requires { AreNear s.now.fields.now }
    ensures { result ≡ field_leaf (field_at s.now.fields.now s.now.bits.now) id class }
{
    match class {
        Class::Number => Leaf::Name(id),
        Class::Code => Leaf::Number(field_number(s.fields, s.bits, id)),
        Class::Value => Leaf::Name(id),
        Class::Truth => Leaf::Number(field_number(s.fields, s.bits, id)),
    }
}

/// The leaf of a row whose definition, if it has one, has the leaf `told`.
fn leaf_by_role(s: &Situation<'_>, row: &Row, id: NameId, told: Leaf) -> Leaf
    requires { AreNear s.now.fields.now }
    ensures { result ≡ role_leaf (field_at s.now.fields.now s.now.bits.now) id row.now.class row.now.role told }
{
    match &row.role {
        Role::Constant(n) => Leaf::Number(*n),
        Role::State => leaf_of_field(s, row.class, id),
        Role::Hardware(_) => leaf_of_field(s, row.class, id),
        Role::Defined => told,
    }
}

/// The leaf that the term of a defined row picks.
fn told_leaf(s: &Situation<'_>, rows: &[Row], terms: &[Term], id: usize, leaves: &[Leaf]) -> Leaf
    requires near { s.now.first ≤ 1000 }
    requires row { id ≤ length rows.now }
    ensures { result ≡ value (leaf_meaning (assigned s.now.atoms.now s.now.first s.now.bits.now)) (at leaves.now) (row_term rows.now terms.now id) }
{
    let scope = Scope {
        atoms: s.atoms,
        first: s.first,
        bits: s.bits,
        leaves,
    };
    match terms.get(definitions_before(rows, id)) {
        Some(t) => scope.leaf_of(t),
        None => scope.leaf_of(&Term::Num(0)),
    }
}

/// The leaf of a row, given the leaves of the names that it needs.
#[tactic(auto, unfolding(ctl_equations::specs::Controls::control_rule))]
fn leaf_of_row(s: &Situation<'_>, rows: &[Row], terms: &[Term], id: NameId, leaves: &[Leaf]) -> Leaf
    requires near { s.now.first ≤ 1000 }
    requires places { AreNear s.now.fields.now }
    ensures { result ≡ control_rule rows.now terms.now (field_at s.now.fields.now s.now.bits.now) (assigned s.now.atoms.now s.now.first s.now.bits.now) id (at leaves.now) }
{
    match rows.get(id as usize) {
        None => Leaf::Number(0),
        Some(row) => {
            let told = told_leaf(s, rows, terms, id as usize, leaves);
            leaf_by_role(s, row, id, told)
        }
    }
}

/// The leaf of a row that isn't defined, and 0 for any other.
fn given_at(s: &Situation<'_>, rows: &[Row], id: usize) -> Leaf
    requires few { length rows.now < 2 ^ 32 }
    requires places { AreNear s.now.fields.now }
    ensures { result ≡ given_leaf (field_at s.now.fields.now s.now.bits.now) rows.now id }
{
    match rows.get(id) {
        None => Leaf::Number(0),
        Some(row) => leaf_by_role(s, row, id as NameId, Leaf::Number(0)),
    }
}

/// The leaf of each row that isn't defined, and 0 for the others.
fn given_leaves(alloc: Global, s: &Situation<'_>, rows: &[Row]) -> Result<Vec<Leaf>, Memory>
    requires few { length rows.now < 2 ^ 32 }
    requires places { AreNear s.now.fields.now }
    ensures whole { IfOk result (λ leaves. length leaves.items ≡ length rows.now) }
    ensures given { IfOk result (λ leaves. (n : ℕ) → at leaves.items n ≡ given_leaf (field_at s.now.fields.now s.now.bits.now) rows.now n) }
{
    let mut leaves = Vec::new(alloc);
    for id in 0..rows.len() {
        let leaf = given_at(s, rows, id);
        match push(&mut leaves, leaf) {
            Ok(()) => {}
            Err(_) => return Err(Memory),
        }
    }
    Ok(leaves)
}

/// The control value of each row of a table at a valuation: they solve the equations of the design.
pub fn control_values(
    alloc: Global,
    ordered: &OrderedDesign,
    t: &Table,
    s: &Situation<'_>,
) -> Result<Vec<Leaf>, Memory>
    requires sound { IsSound t.now.rows }
    requires ordered { IsOrderOf t.now.rows ordered.now.design.terms ordered.now.order.ids }
    requires near { s.now.first ≤ 1000 }
    requires places { AreNear s.now.fields.now }
    ensures whole { IfOk result (λ leaves. length leaves.items ≡ length t.now.rows) }
    ensures solved { IfOk result (λ leaves. AreControls t.now.rows ordered.now.design.terms (field_at s.now.fields.now s.now.bits.now)
        (assigned s.now.atoms.now s.now.first s.now.bits.now) (at leaves.items)) }
{
    let rows = t.rows.items();
    let mut leaves = given_leaves(alloc, s, rows)?;
    for id in ordered.order.ids.items() {
        let leaf = leaf_of_row(
            s,
            rows,
            ordered.design.terms.items(),
            *id,
            leaves.as_slice(),
        );
        leaves[*id as usize] = leaf;
    }
    Ok(leaves)
}
