//! The leaves that a term can pick.
ghost use Rattle.std.specs.Prelude.{◌≡◌, IfOk, List, OnOk, [], map, ℕ};
ghost use Rattle.ctl_atoms.specs.TermAtoms.{branch_plan, joined, once, term_atoms};
ghost use Rattle.ctl_atoms.specs.TermAtoms as plans;
ghost use Rattle.ctl_atoms.specs.Rows.{leaves_at};
ghost use Rattle.ctl_atoms.specs.declared.leaf.Leaf.{Leaf};

use crate::leaf::{Leaf, same_leaf};
use hcl_types::{NameId, Term, TermBranch};
use std::alloc::{AllocError, Global};
use y86_base::Items;

fn has_leaf(leaves: &[Leaf], leaf: Leaf) -> bool
    ensures { result ≡ plans.has_leaf leaves.now leaf }
{
    for other in leaves {
        if same_leaf(*other, leaf) {
            return true;
        }
    }
    false
}

/// Adds a leaf at the end of the list, if it isn't there yet.
fn put_leaf(out: &mut Vec<Leaf>, leaf: Leaf) -> Result<(), AllocError>
    ensures { OnOk result (out.new.items ≡ once out.old.items leaf) }
{
    if has_leaf(out.as_slice(), leaf) {
        Ok(())
    } else {
        out.push(leaf)?;
        Ok(())
    }
}

/// Adds each leaf that isn't there yet.
fn put_leaves(out: &mut Vec<Leaf>, leaves: &[Leaf]) -> Result<(), AllocError>
    ensures { OnOk result (out.new.items ≡ joined out.old.items leaves.now) }
{
    for leaf in leaves {
        match put_leaf(out, *leaf) {
            Ok(()) => {}
            Err(e) => return Err(e),
        }
    }
    Ok(())
}

/// The leaves that a name can pick.
fn leaves_of_name(alloc: Global, lists: &[Items<Leaf>], id: NameId) -> Result<Vec<Leaf>, AllocError>
    ensures { IfOk result (λ leaves. leaves.items ≡ leaves_at lists.now id) }
{
    match lists.get(id as usize) {
        Some(leaves) => Vec::from_slice(alloc, leaves.items()),
        None => Ok(Vec::new(alloc)),
    }
}

/// Whether a term is the number 1.
pub fn is_one(t: &Term) -> bool
    ensures { (leaves : ℕ → List Leaf) → result ≡ (term_atoms leaves t.now).one }
{
    match t {
        Term::Num(n) => *n == 1,
        Term::Name(_) => false,
        Term::Not(_) => false,
        Term::And(_) => false,
        Term::Or(_) => false,
        Term::Cmp(_, _, _) => false,
        Term::In(_, _) => false,
        Term::Case(_) => false,
    }
}

/// The leaves that a term can pick, each once, in order of first appearance. `lists` has those of each name.
#[cycle(leaves)]
pub fn term_leaves(alloc: Global, lists: &[Items<Leaf>], t: &Term) -> Result<Vec<Leaf>, AllocError>
    ensures { IfOk result (λ leaves. leaves.items ≡ (term_atoms (leaves_at lists.now) t.now).leaves) }
{
    match t {
        Term::Num(n) => {
            let mut leaves = Vec::new(alloc);
            leaves.push(Leaf::Number(*n))?;
            Ok(leaves)
        }
        Term::Name(id) => leaves_of_name(alloc, lists, *id),
        Term::Case(all) => case_leaves(alloc, lists, all.items()),
        Term::Not(_) => Ok(Vec::new(alloc)),
        Term::And(_) => Ok(Vec::new(alloc)),
        Term::Or(_) => Ok(Vec::new(alloc)),
        Term::Cmp(_, _, _) => Ok(Vec::new(alloc)),
        Term::In(_, _) => Ok(Vec::new(alloc)),
    }
}

/// The leaves of a case list: those of its branches up to a guard that is the number 1. If there is no such guard, the
/// number 0 comes last.
#[cycle(leaves)]
fn case_leaves(
    alloc: Global,
    lists: &[Items<Leaf>],
    all: &[TermBranch],
) -> Result<Vec<Leaf>, AllocError>
    ensures { IfOk result (λ leaves. leaves.items ≡ plans.case_leaves [] (map (branch_plan (leaves_at lists.now)) all.now)) }
{
    let mut out = Vec::new(alloc);
    for branch in all {
        let leaves = term_leaves(alloc, lists, &branch.value)?;
        put_leaves(&mut out, leaves.as_slice())?;
        if is_one(&branch.guard) {
            return Ok(out);
        }
    }
    put_leaf(&mut out, Leaf::Number(0))?;
    Ok(out)
}
