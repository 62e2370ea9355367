//! Copies terms: nodes that evaluate a whole term keep a copy of it.
ghost use Rattle.std.specs.Prelude.{◌≡◌, IfOk};

use hcl_types::{Term, TermBranch};
use std::alloc::Global;
use y86_base::{Boxed, Items, Memory};

/// A copy of a term.
#[cycle(copying)]
pub fn copy_term(alloc: Global, t: &Term) -> Result<Term, Memory>
    ensures { IfOk result (λ copy. copy ≡ t.now) }
{
    match t {
        Term::Num(n) => Ok(Term::Num(*n)),
        Term::Name(id) => Ok(Term::Name(*id)),
        Term::Not(x) => {
            let inner = copy_term(alloc, x.get())?;
            Ok(Term::Not(Boxed::of(alloc, inner)?))
        }
        Term::And(all) => Ok(Term::And(copy_terms(alloc, all.items())?)),
        Term::Or(all) => Ok(Term::Or(copy_terms(alloc, all.items())?)),
        Term::Cmp(op, x, y) => {
            let left = copy_term(alloc, x.get())?;
            let right = copy_term(alloc, y.get())?;
            let left = Boxed::of(alloc, left)?;
            let right = Boxed::of(alloc, right)?;
            Ok(Term::Cmp(*op, left, right))
        }
        Term::In(x, all) => {
            let left = copy_term(alloc, x.get())?;
            let members = copy_terms(alloc, all.items())?;
            let left = Boxed::of(alloc, left)?;
            Ok(Term::In(left, members))
        }
        Term::Case(all) => Ok(Term::Case(copy_branches(alloc, all.items())?)),
    }
}

#[cycle(copying)]
fn copy_terms(alloc: Global, all: &[Term]) -> Result<Items<Term>, Memory>
    ensures { IfOk result (λ copies. copies ≡ all.now) }
{
    let mut copies = Vec::new(alloc);
    for t in all {
        let copy = copy_term(alloc, t)?;
        if copies.push(copy).is_err() {
            return Err(Memory);
        }
    }
    Ok(Items::of(copies))
}

#[cycle(copying)]
fn copy_branches(alloc: Global, all: &[TermBranch]) -> Result<Items<TermBranch>, Memory>
    ensures { IfOk result (λ copies. copies ≡ all.now) }
{
    let mut copies = Vec::new(alloc);
    for branch in all {
        let guard = copy_term(alloc, &branch.guard)?;
        let value = copy_term(alloc, &branch.value)?;
        if copies.push(TermBranch { guard, value }).is_err() {
            return Err(Memory);
        }
    }
    Ok(Items::of(copies))
}
