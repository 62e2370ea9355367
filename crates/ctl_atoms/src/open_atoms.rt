//! The atoms of a term: the comparisons that it leaves open.
ghost use Rattle.std.specs.Prelude.{◌≡◌, OnOk, map};
ghost use Rattle.ctl_atoms.specs.Leaves.{open_atom};
ghost use Rattle.ctl_atoms.specs.Leaves as leaves;
ghost use Rattle.ctl_atoms.specs.TermAtoms.{atoms_of_all, branch_plan, branch_atoms, member_atoms, pair_atoms, term_atoms};
ghost use Rattle.ctl_atoms.specs.Rows.{leaves_at};
ghost use Rattle.ctl_atoms.specs.Atoms.{added, with_atom};

use crate::leaf::{Atom, Leaf, atom_at, same_atom};
use crate::leaves::term_leaves;
use hcl_types::{CmpOp, Term, TermBranch};
use std::alloc::{AllocError, Global};
use y86_base::Items;

fn has_atom(atoms: &[Atom], atom: Atom) -> bool
    ensures { result ≡ leaves.has_atom atoms.now atom }
{
    for other in atoms {
        if same_atom(*other, atom) {
            return true;
        }
    }
    false
}

/// Adds an atom, if there is one, at the end of the list, if it isn't there yet.
fn put_atom(out: &mut Vec<Atom>, atom: Option<Atom>) -> Result<(), AllocError>
    ensures { OnOk result (out.new.items ≡ with_atom out.old.items atom) }
{
    match atom {
        None => Ok(()),
        Some(a) => {
            if has_atom(out.as_slice(), a) {
                Ok(())
            } else {
                out.push(a)?;
                Ok(())
            }
        }
    }
}

/// Adds the atoms of the comparisons of one left leaf.
fn put_row(out: &mut Vec<Atom>, op: CmpOp, left: Leaf, rights: &[Leaf]) -> Result<(), AllocError>
    ensures { OnOk result (out.new.items ≡ added out.old.items (map (open_atom op left) rights.now)) }
{
    for right in rights {
        match put_atom(out, atom_at(op, left, *right)) {
            Ok(()) => {}
            Err(e) => return Err(e),
        }
    }
    Ok(())
}

/// Adds the atoms of the comparisons of each left leaf with each right leaf.
fn put_pairs(
    out: &mut Vec<Atom>,
    op: CmpOp,
    lefts: &[Leaf],
    rights: &[Leaf],
) -> Result<(), AllocError>
    ensures { OnOk result (out.new.items ≡ added out.old.items (pair_atoms op lefts.now rights.now)) }
{
    for left in lefts {
        match put_row(out, op, *left, rights) {
            Ok(()) => {}
            Err(e) => return Err(e),
        }
    }
    Ok(())
}

/// Adds the atoms of a term. `lists` has the leaves of each name.
#[cycle(asking)]
#[tactic(auto, using(crate::proofs::Added::added_append, crate::proofs::Added::added_nil))]
fn put_asked(
    alloc: Global,
    lists: &[Items<Leaf>],
    out: &mut Vec<Atom>,
    t: &Term,
) -> Result<(), AllocError>
    ensures { OnOk result (out.new.items ≡ added out.old.items (term_atoms (leaves_at lists.now) t.now).asks) }
{
    match t {
        Term::Num(_) => Ok(()),
        Term::Name(_) => Ok(()),
        Term::Not(a) => put_asked(alloc, lists, out, a.get()),
        Term::And(all) => put_open_atoms(alloc, lists, out, all.items()),
        Term::Or(all) => put_open_atoms(alloc, lists, out, all.items()),
        Term::Cmp(op, x, y) => {
            put_asked(alloc, lists, out, x.get())?;
            put_asked(alloc, lists, out, y.get())?;
            let lefts = term_leaves(alloc, lists, x.get())?;
            let rights = term_leaves(alloc, lists, y.get())?;
            put_pairs(out, *op, lefts.as_slice(), rights.as_slice())?;
            Ok(())
        }
        Term::In(x, all) => {
            put_asked(alloc, lists, out, x.get())?;
            let lefts = term_leaves(alloc, lists, x.get())?;
            put_members_asked(alloc, lists, out, lefts.as_slice(), all.items())?;
            Ok(())
        }
        Term::Case(all) => put_branches_asked(alloc, lists, out, all.items()),
    }
}

/// Adds the atoms of each term.
#[cycle(asking)]
pub fn put_open_atoms(
    alloc: Global,
    lists: &[Items<Leaf>],
    out: &mut Vec<Atom>,
    all: &[Term],
) -> Result<(), AllocError>
    ensures { OnOk result (out.new.items ≡ added out.old.items (atoms_of_all (map (term_atoms (leaves_at lists.now)) all.now))) }
{
    for t in all {
        put_asked(alloc, lists, out, t)?;
    }
    Ok(())
}

/// Adds the atoms of each member of an `in`, and those of its comparison with the left side.
#[cycle(asking)]
fn put_members_asked(
    alloc: Global,
    lists: &[Items<Leaf>],
    out: &mut Vec<Atom>,
    lefts: &[Leaf],
    all: &[Term],
) -> Result<(), AllocError>
    ensures { OnOk result (out.new.items ≡ added out.old.items (member_atoms lefts.now (map (term_atoms (leaves_at lists.now)) all.now))) }
{
    for t in all {
        put_asked(alloc, lists, out, t)?;
        let rights = term_leaves(alloc, lists, t)?;
        put_pairs(out, CmpOp::Eq, lefts, rights.as_slice())?;
    }
    Ok(())
}

/// Adds the atoms of each branch.
#[cycle(asking)]
fn put_branches_asked(
    alloc: Global,
    lists: &[Items<Leaf>],
    out: &mut Vec<Atom>,
    all: &[TermBranch],
) -> Result<(), AllocError>
    ensures { OnOk result (out.new.items ≡ added out.old.items (branch_atoms (map (branch_plan (leaves_at lists.now)) all.now))) }
{
    for branch in all {
        put_asked(alloc, lists, out, &branch.guard)?;
        put_asked(alloc, lists, out, &branch.value)?;
    }
    Ok(())
}
