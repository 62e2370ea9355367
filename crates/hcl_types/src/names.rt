//! The names in a term, from which the dependences between signals follow.
ghost use Rattle.std.specs.Prelude.{◌≡◌, ◌++◌, map, OnOk};
ghost use Rattle.hcl_types.specs.Terms.{branch_names, joined, names};

use crate::term::{NameId, Term, TermBranch};
use std::alloc::AllocError;

/// Appends the names in a term, in text order and with repetitions.
#[cycle(naming)]
pub fn put_names(t: &Term, out: &mut Vec<NameId>) -> Result<(), AllocError>
    ensures { OnOk result (out.new.items ≡ out.old.items ++ names t.now) }
{
    match t {
        Term::Num(_) => Ok(()),
        Term::Name(id) => {
            out.push(*id)?;
            Ok(())
        }
        Term::Not(x) => put_names(x.get(), out),
        Term::And(all) => put_all_names(all.items(), out),
        Term::Or(all) => put_all_names(all.items(), out),
        Term::Cmp(_, x, y) => {
            put_names(x.get(), out)?;
            put_names(y.get(), out)
        }
        Term::In(x, all) => {
            put_names(x.get(), out)?;
            put_all_names(all.items(), out)
        }
        Term::Case(all) => put_branch_names(all.items(), out),
    }
}

#[cycle(naming)]
fn put_all_names(all: &[Term], out: &mut Vec<NameId>) -> Result<(), AllocError>
    ensures { OnOk result (out.new.items ≡ out.old.items ++ joined (map names all.now)) }
{
    for t in all {
        put_names(t, out)?;
    }
    Ok(())
}

#[cycle(naming)]
fn put_branch_names(all: &[TermBranch], out: &mut Vec<NameId>) -> Result<(), AllocError>
    ensures { OnOk result (out.new.items ≡ out.old.items ++ joined (map branch_names all.now)) }
{
    for branch in all {
        put_names(&branch.guard, out)?;
        put_names(&branch.value, out)?;
    }
    Ok(())
}
