//! Binding of an expression to a table.
ghost use Rattle.std.specs.Prelude.{◌≡◌, ◌≢◌, map};
ghost use Rattle.hcl_binding.specs.Binding.{IsBindAnswer, all_ok, branch_of, fault, named, place, term_of};

use crate::fault::{BindFault, BindWhy};
use crate::places::NameIndex;
use hcl_tree::{Branch, Expr, Text};
use hcl_types::{Term, TermBranch};
use std::alloc::Global;
use y86_base::{Boxed, Items};

/// Moves a term into memory of its own.
fn boxed(alloc: Global, t: Term) -> Result<Boxed<Term>, BindFault>
    ensures { IsBindAnswer result (Ok t) }
{
    match Boxed::of(alloc, t) {
        Ok(inner) => Ok(inner),
        Err(_) => Err(BindFault::memory(alloc)),
    }
}

/// A name as a term: the row that has it.
fn bind_name(alloc: Global, places: &NameIndex, name: &Text) -> Result<Term, BindFault>
    ensures { IsBindAnswer result (named name.now (place places.now name.now)) }
{
    match places.find(name.bytes()) {
        Some(id) => Ok(Term::Name(id)),
        None => Err(BindFault::of(alloc, BindWhy::Unknown, name)),
    }
}

/// An expression as a term, in which each name is the row that has it.
#[cycle(binding)]
pub fn bind_term(alloc: Global, places: &NameIndex, e: &Expr) -> Result<Term, BindFault>
    ensures { IsBindAnswer result (term_of places.now e.now) }
{
    match e {
        Expr::Num(n) => Ok(Term::Num(*n)),
        Expr::Name(name) => bind_name(alloc, places, name),
        Expr::Not(x) => {
            let t = bind_term(alloc, places, x.get())?;
            let inner = boxed(alloc, t)?;
            Ok(Term::Not(inner))
        }
        Expr::And(all) => {
            let terms = bind_terms(alloc, places, all.items())?;
            Ok(Term::And(terms))
        }
        Expr::Or(all) => {
            let terms = bind_terms(alloc, places, all.items())?;
            Ok(Term::Or(terms))
        }
        Expr::Cmp(op, x, y) => {
            let left = bind_term(alloc, places, x.get())?;
            let right = bind_term(alloc, places, y.get())?;
            let left = boxed(alloc, left)?;
            let right = boxed(alloc, right)?;
            Ok(Term::Cmp(*op, left, right))
        }
        Expr::In(x, all) => {
            let left = bind_term(alloc, places, x.get())?;
            let members = bind_terms(alloc, places, all.items())?;
            let left = boxed(alloc, left)?;
            Ok(Term::In(left, members))
        }
        Expr::Case(all) => {
            let branches = bind_branches(alloc, places, all.items())?;
            Ok(Term::Case(branches))
        }
    }
}

#[cycle(binding)]
pub fn bind_terms(alloc: Global, places: &NameIndex, all: &[Expr]) -> Result<Items<Term>, BindFault>
    ensures { IsBindAnswer result (all_ok (map (term_of places.now) all.now)) }
{
    let mut terms = Vec::new(alloc);
    for e in all {
        let t = bind_term(alloc, places, e)?;
        if terms.push(t).is_err() {
            return Err(BindFault::memory(alloc));
        }
    }
    Ok(Items::of(terms))
}

#[cycle(binding)]
fn bind_branches(
    alloc: Global,
    places: &NameIndex,
    all: &[Branch],
) -> Result<Items<TermBranch>, BindFault>
    ensures { IsBindAnswer result (all_ok (map (branch_of places.now) all.now)) }
{
    let mut branches = Vec::new(alloc);
    for branch in all {
        let guard = bind_term(alloc, places, &branch.guard)?;
        let value = bind_term(alloc, places, &branch.value)?;
        if branches.push(TermBranch { guard, value }).is_err() {
            return Err(BindFault::memory(alloc));
        }
    }
    Ok(Items::of(branches))
}
