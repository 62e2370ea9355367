//! What the rows of a design need, and which rows are known from the start.
ghost use Rattle.std.specs.Prelude.{◌≡◌, ◌++◌, OnOk, IfOk, if◌then◌else◌};
ghost use Rattle.hcl_types.specs.Tables.{inputs, is_defined, is_given, known, needs, term_at};
ghost use Rattle.hcl_types.specs.Terms.{names};

use hcl_types::{NameId, Role, Row, Term, is_defined, put_names};
use std::alloc::{AllocError, Global};
use y86_base::Items;

/// Appends what a row needs. If it is a defined row, `k` is the number of its term.
fn put_needs(role: &Role, terms: &[Term], k: usize, own: &mut Vec<NameId>) -> Result<(), AllocError>
    ensures { OnOk result (own.new.items ≡ own.old.items ++ (if is_defined role.now then names (term_at terms.now k) else inputs role.now)) }
{
    match role {
        Role::Defined => match terms.get(k) {
            Some(term) => put_names(term, own),
            None => Ok(()),
        },
        Role::Hardware(ids) => own.extend_from_slice(ids.items()),
        Role::Constant(_) | Role::State => Ok(()),
    }
}

/// Whether a row is a constant or a field of the state.
fn is_from_start(role: &Role) -> bool
    ensures { result ≡ is_given role.now }
{
    match role {
        Role::Constant(_) | Role::State => true,
        Role::Hardware(_) | Role::Defined => false,
    }
}

/// What each row needs.
pub fn needs_of_rows(
    alloc: Global,
    rows: &[Row],
    terms: &[Term],
) -> Result<Vec<Items<NameId>>, AllocError>
    ensures { IfOk result (λ all. all.items ≡ needs rows.now terms.now) }
{
    let mut all = Vec::new(alloc);
    let mut k = 0;
    for row in rows {
        let mut own = Vec::new(alloc);
        put_needs(&row.role, terms, k, &mut own)?;
        all.push(Items::of(own))?;
        if is_defined(&row.role) {
            k += 1;
        }
    }
    Ok(all)
}

/// For each row, whether its value is known when a cycle begins.
pub fn given_rows(alloc: Global, rows: &[Row]) -> Result<Vec<bool>, AllocError>
    ensures { IfOk result (λ all. all.items ≡ known rows.now) }
{
    let mut all = Vec::new(alloc);
    for row in rows {
        all.push(is_from_start(&row.role))?;
    }
    Ok(all)
}
