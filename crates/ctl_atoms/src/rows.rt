//! The leaves that each name of a table can pick.
ghost use Rattle.std.specs.Prelude.{◌≡◌, ◌≤◌, ◌<◌, ◌^◌, ◌∷◌, IfOk, [], length, slice_get, take, ℕ};
ghost use Rattle.hcl_types.specs.Equations.{IsSolution};
ghost use Rattle.hcl_types.specs.Tables.{IsOrderOf, IsSound, defined};
ghost use Rattle.ctl_atoms.specs.TermAtoms.{term_atoms};
ghost use Rattle.ctl_atoms.specs.Rows.{codes, defined_leaves, field_leaves, leaf_rule, leaves_at, leaves_by_role, row_term};
ghost use Rattle.ctl_atoms.specs.Rows as specs;

use crate::leaf::Leaf;
use crate::leaves::term_leaves;
use hcl_types::{Class, NameId, OrderedDesign, Role, Row, Table, Term, is_defined};
use std::alloc::{AllocError, Global};
use y86_base::Items;

/// The number of defined rows before this one: the place of its term in a design, if it is defined itself.
pub fn definitions_before(rows: &[Row], id: usize) -> usize
    requires { id ≤ length rows.now }
    ensures { result ≡ length (defined (take id rows.now)) }
{
    let mut count = 0;
    for row in &rows[..id] {
        if is_defined(&row.role) {
            count += 1;
        }
    }
    count
}

fn one_leaf(alloc: Global, leaf: Leaf) -> Result<Vec<Leaf>, AllocError>
    ensures { IfOk result (λ out. out.items ≡ leaf ∷ []) }
{
    let mut out = Vec::new(alloc);
    out.push(leaf)?;
    Ok(out)
}

/// The numbers of 4 bits.
fn all_codes(alloc: Global) -> Result<Vec<Leaf>, AllocError>
    ensures { IfOk result (λ out. out.items ≡ codes) }
{
    let all = [
        Leaf::Number(0),
        Leaf::Number(1),
        Leaf::Number(2),
        Leaf::Number(3),
        Leaf::Number(4),
        Leaf::Number(5),
        Leaf::Number(6),
        Leaf::Number(7),
        Leaf::Number(8),
        Leaf::Number(9),
        Leaf::Number(10),
        Leaf::Number(11),
        Leaf::Number(12),
        Leaf::Number(13),
        Leaf::Number(14),
        Leaf::Number(15),
    ];
    Vec::from_slice(alloc, &all)
}

/// The leaves of a name of the state or the hardware.
fn leaves_of_field(alloc: Global, class: Class, id: NameId) -> Result<Vec<Leaf>, AllocError>
    ensures { IfOk result (λ out. out.items ≡ field_leaves class id) }
{
    match class {
        Class::Number => one_leaf(alloc, Leaf::Name(id)),
        Class::Code => all_codes(alloc),
        Class::Value => one_leaf(alloc, Leaf::Name(id)),
        Class::Truth => Ok(Vec::new(alloc)),
    }
}

/// The leaves of a row that isn't defined; none for one that is.
fn leaves_of_given(alloc: Global, row: &Row, id: NameId) -> Result<Vec<Leaf>, AllocError>
    ensures { IfOk result (λ out. out.items ≡ leaves_by_role row.now.class id row.now.role []) }
{
    match &row.role {
        Role::Constant(n) => one_leaf(alloc, Leaf::Number(*n)),
        Role::State => leaves_of_field(alloc, row.class, id),
        Role::Hardware(_) => leaves_of_field(alloc, row.class, id),
        Role::Defined => Ok(Vec::new(alloc)),
    }
}

/// The leaves of a row whose term can pick those in `own`.
fn leaves_of_class(alloc: Global, class: Class, own: Vec<Leaf>) -> Vec<Leaf>
    ensures { result.items ≡ defined_leaves class own.items }
{
    match class {
        Class::Number => own,
        Class::Code => own,
        Class::Value => own,
        Class::Truth => Vec::new(alloc),
    }
}

/// The leaves that the term of a defined row can pick.
fn leaves_of_term(
    alloc: Global,
    rows: &[Row],
    terms: &[Term],
    lists: &[Items<Leaf>],
    id: usize,
) -> Result<Vec<Leaf>, AllocError>
    requires { id ≤ length rows.now }
    ensures { IfOk result (λ out. out.items ≡ (term_atoms (leaves_at lists.now) (row_term rows.now terms.now id)).leaves) }
{
    match terms.get(definitions_before(rows, id)) {
        Some(t) => term_leaves(alloc, lists, t),
        None => one_leaf(alloc, Leaf::Number(0)),
    }
}

/// The leaves of a row, if `lists` has those of each name that it needs.
fn leaves_of_row(
    alloc: Global,
    rows: &[Row],
    terms: &[Term],
    lists: &[Items<Leaf>],
    id: NameId,
) -> Result<Vec<Leaf>, AllocError>
    ensures { IfOk result (λ out. out.items ≡ leaf_rule rows.now terms.now id (leaves_at lists.now)) }
{
    match rows.get(id as usize) {
        None => Ok(Vec::new(alloc)),
        Some(row) => {
            if is_defined(&row.role) {
                let own = leaves_of_term(alloc, rows, terms, lists, id as usize)?;
                Ok(leaves_of_class(alloc, row.class, own))
            } else {
                leaves_of_given(alloc, row, id)
            }
        }
    }
}

/// The leaves of each row that isn't defined, and none for those that are.
fn given_lists(alloc: Global, rows: &[Row]) -> Result<Vec<Items<Leaf>>, AllocError>
    requires { length rows.now < 2 ^ 32 }
    ensures whole { IfOk result (λ lists. length lists.items ≡ length rows.now) }
    ensures given { IfOk result (λ lists. (n : ℕ) → leaves_at lists.items n ≡ specs.leaves_of_row (slice_get rows.now n) n []) }
{
    let mut lists = Vec::new(alloc);
    for id in 0..rows.len() {
        let leaves = leaves_of_given(alloc, &rows[id], id as NameId)?;
        lists.push(Items::of(leaves))?;
    }
    Ok(lists)
}

/// For each row, the leaves that its name can pick, each once, in order of first appearance: those of a Code name of
/// the state or the hardware are the numbers of 4 bits, those of a defined name the leaves of its term.
pub fn leaves_by_name(
    alloc: Global,
    ordered: &OrderedDesign,
    t: &Table,
) -> Result<Vec<Items<Leaf>>, AllocError>
    requires sound { IsSound t.now.rows }
    requires ordered { IsOrderOf t.now.rows ordered.now.design.terms ordered.now.order.ids }
    ensures whole { IfOk result (λ lists. length lists.items ≡ length t.now.rows) }
    ensures solved { IfOk result (λ lists. IsSolution (leaf_rule t.now.rows ordered.now.design.terms) (leaves_at lists.items)) }
{
    let rows = t.rows.items();
    let mut lists = given_lists(alloc, rows)?;
    for id in ordered.order.ids.items() {
        let leaves = leaves_of_row(
            alloc,
            rows,
            ordered.design.terms.items(),
            lists.as_slice(),
            *id,
        )?;
        lists[*id as usize] = Items::of(leaves);
    }
    Ok(lists)
}
