//! The binding of a file to a table, item by item.
ghost use Rattle.std.specs.Prelude.{◌≡◌, ◌≢◌, ◌<◌, ◌^◌, [], IfErr, IfOk, length, slice_get};
ghost use Rattle.hcl_binding.specs.Binding.{IsBindAnswer, bound, declared, defined_as, is_of, of_kind, place, row_named};
ghost use Rattle.hcl_binding.specs.BindSteps as steps;
ghost use Rattle.hcl_types.specs.Lists.{IsApart};
ghost use Rattle.hcl_types.specs.Tables.{IsBound, IsSound, row_names};
ghost use Rattle.hcl_types.specs.Tables as tables;
ghost use Rattle.hcl_binding.specs.declared.fault.BindWhy.TheVariants.{Memory as OutOfMemory};

use crate::expressions::bind_term;
use crate::fault::{BindFault, BindWhy};
use crate::places::NameIndex;
use hcl_tree::{Expr, File, Item, Kind, Text};
use hcl_types::{Class, Design, NameId, Role, Row, Table, Term, can_be, is_boolean, is_defined};
use std::alloc::{AllocError, Global};
use y86_base::Items;

/// A definition of a file.
#[derive(Clone, Copy)]
struct Definition<'a> {
    kind: Kind,
    name: &'a Text,
    body: &'a Expr,
}

/// Whether a signal of the kind can be of the class.
fn fits(kind: Kind, class: Class) -> bool
    ensures { result ≡ is_of kind class }
{
    match kind {
        Kind::Word => !is_boolean(class),
        Kind::Bool => is_boolean(class),
    }
}

/// Whether a row has its term.
fn is_taken(bodies: &[Option<Term>], id: NameId) -> bool
    ensures { result ≡ steps.is_taken (slice_get bodies.now id) }
{
    match bodies.get(id as usize) {
        Some(Some(_)) => true,
        Some(None) => false,
        None => false,
    }
}

/// Checks a declaration of a name.
fn declare(
    alloc: Global,
    rows: &[Row],
    places: &NameIndex,
    kind: Kind,
    name: &Text,
) -> Result<(), BindFault>
    requires { places.now ≡ row_names rows.now }
    ensures { IsBindAnswer result (declared (row_named rows.now name.now) kind name.now) }
{
    let Some(id) = places.find(name.bytes()) else {
        return Err(BindFault::of(alloc, BindWhy::Unknown, name));
    };
    match rows.get(id as usize) {
        None => Err(BindFault::of(alloc, BindWhy::Unknown, name)),
        Some(row) => {
            if fits(kind, row.class) {
                Ok(())
            } else {
                Err(BindFault::of(alloc, BindWhy::KindMismatch, name))
            }
        }
    }
}

/// The term by which a file defines a row. `before` says whether the row has its term already.
fn define(
    alloc: Global,
    rows: &[Row],
    places: &NameIndex,
    before: bool,
    row: &Row,
    definition: Definition,
) -> Result<Term, BindFault>
    requires { places.now ≡ row_names rows.now }
    ensures { IsBindAnswer result (defined_as rows.now before (Some row.now) definition.entry.kind definition.entry.name.now definition.entry.body.now) }
{
    let Definition { kind, name, body } = definition;
    if !is_defined(&row.role) {
        return Err(BindFault::of(alloc, BindWhy::Redefines, name));
    }
    if before {
        return Err(BindFault::of(alloc, BindWhy::Twice, name));
    }
    let t = bind_term(alloc, places, body)?;
    if fits(kind, row.class) && can_be(rows, row.class, &t) {
        Ok(t)
    } else {
        Err(BindFault::of(alloc, BindWhy::KindMismatch, name))
    }
}

/// Stores the term of a definition in the place of its row.
fn put_definition(
    alloc: Global,
    rows: &[Row],
    places: &NameIndex,
    bodies: &mut Vec<Option<Term>>,
    definition: Definition,
) -> Result<(), BindFault>
    requires places { places.now ≡ row_names rows.now }
    requires whole { length bodies.old.items ≡ length rows.now }
    ensures { steps.IsStepAnswer result bodies.new.items (steps.put_definition rows.now bodies.old.items (place places.now definition.entry.name.now) definition.entry.kind definition.entry.name.now definition.entry.body.now) }
{
    let Some(id) = places.find(definition.name.bytes()) else {
        return Err(BindFault::of(alloc, BindWhy::Unknown, definition.name));
    };
    let before = is_taken(bodies, id);
    match rows.get(id as usize) {
        None => Err(BindFault::of(alloc, BindWhy::Unknown, definition.name)),
        Some(row) => {
            let t = define(alloc, rows, places, before, row, definition)?;
            bodies[id as usize] = Some(t);
            Ok(())
        }
    }
}

/// Handles an item: it stores the term of a definition, and only checks a declaration.
fn put_item(
    alloc: Global,
    rows: &[Row],
    places: &NameIndex,
    bodies: &mut Vec<Option<Term>>,
    item: &Item,
) -> Result<(), BindFault>
    requires places { places.now ≡ row_names rows.now }
    requires whole { length bodies.old.items ≡ length rows.now }
    ensures { steps.IsStepAnswer result bodies.new.items (steps.put_item rows.now bodies.old.items item.now) }
{
    match item {
        Item::Quote(_) => Ok(()),
        Item::Decl {
            kind,
            name,
            text: _,
        } => declare(alloc, rows, places, *kind, name),
        Item::Def { kind, name, body } => {
            let kind = *kind;
            put_definition(alloc, rows, places, bodies, Definition { kind, name, body })
        }
    }
}

/// Handles the items in text order, up to the first fault.
fn put_items(
    alloc: Global,
    rows: &[Row],
    places: &NameIndex,
    bodies: &mut Vec<Option<Term>>,
    items: &[Item],
) -> Result<(), BindFault>
    requires places { places.now ≡ row_names rows.now }
    requires whole { length bodies.old.items ≡ length rows.now }
    ensures { steps.IsStepAnswer result bodies.new.items (steps.put_items rows.now bodies.old.items items.now) }
{
    for item in items {
        match put_item(alloc, rows, places, bodies, item) {
            Ok(()) => {}
            Err(e) => return Err(e),
        }
    }
    Ok(())
}

/// A place for the term of each row.
fn no_terms(alloc: Global, rows: &[Row]) -> Result<Vec<Option<Term>>, AllocError>
    ensures { IfOk result (λ bodies. bodies.items ≡ steps.no_terms rows.now) }
{
    let mut bodies = Vec::new(alloc);
    for _ in rows {
        bodies.push(None)?;
    }
    Ok(bodies)
}

/// Appends the term of a row, if the file has to define it.
fn put_row(
    alloc: Global,
    terms: &mut Vec<Term>,
    row: &Row,
    body: Option<Term>,
) -> Result<(), BindFault>
    ensures { steps.IsStepAnswer result terms.new.items (steps.put_row terms.old.items row.now body) }
{
    if !is_defined(&row.role) {
        return Ok(());
    }
    match body {
        None => Err(BindFault::of(alloc, BindWhy::Missing, &row.name)),
        Some(t) => match terms.push(t) {
            Ok(()) => Ok(()),
            Err(_) => Err(BindFault::memory(alloc)),
        },
    }
}

/// The terms of the rows that the file has to define, in table order.
fn put_rows(
    alloc: Global,
    rows: &[Row],
    bodies: Vec<Option<Term>>,
) -> Result<Items<Term>, BindFault>
    ensures { IsBindAnswer result (steps.put_rows [] rows.now bodies.items) }
{
    let mut terms = Vec::new(alloc);
    let mut left = bodies.into_iter();
    for row in rows {
        match left.next() {
            None => return Ok(Items::of(terms)),
            Some(body) => put_row(alloc, &mut terms, row, body)?,
        }
    }
    Ok(Items::of(terms))
}

/// The terms of the rows that the file has to define, in table order, from the definitions among the items.
#[tactic(auto, unfolding(crate::specs::BindSteps::bound_in_steps))]
fn bind_items(alloc: Global, rows: &[Row], items: &[Item]) -> Result<Items<Term>, BindFault>
    requires few { length rows.now < 2 ^ 32 }
    requires apart { IsApart (row_names rows.now) }
    ensures { IsBindAnswer result (steps.bound_in_steps rows.now items.now) }
{
    match NameIndex::of(alloc, rows) {
        Err(_) => Err(BindFault::memory(alloc)),
        Ok(places) => match no_terms(alloc, rows) {
            Err(_) => Err(BindFault::memory(alloc)),
            Ok(mut bodies) => {
                put_items(alloc, rows, &places, &mut bodies, items)?;
                put_rows(alloc, rows, bodies)
            }
        },
    }
}

/// Binds a file to a table: returns the design, or the first fault in text order. If one item has several faults, the
/// first of this list counts: its own name is unknown; it redefines; it is the second definition; a name in its body is
/// unknown; a kind is wrong. A missing definition is reported only if nothing else is wrong, for the first row without
/// one. The time is linear in the length of the file.
///
/// Errors: each `BindWhy`, with the name that it is about.
pub fn bind(alloc: Global, f: &File, t: &Table) -> Result<Design, BindFault>
    requires { IsSound t.now.rows }
    ensures design { IfOk result (λ d. bound t.now.rows f.now.items ≡ Ok d.terms) }
    ensures belongs { IfOk result (λ d. IsBound t.now.rows d.terms) }
    ensures fault { IfErr result (λ e. e.why ≢ OutOfMemory → bound t.now.rows f.now.items ≡ Err e) }
    ensures nameless { IfErr result (λ e. e.why ≡ OutOfMemory → e.name ≡ []) }
{
    match bind_items(alloc, t.rows.items(), f.items.items()) {
        Ok(terms) => Ok(Design { terms }),
        Err(fault) => match fault.why {
            BindWhy::Memory => Err(BindFault::memory(alloc)),
            _ => Err(fault),
        },
    }
}
