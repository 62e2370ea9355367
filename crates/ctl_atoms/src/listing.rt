//! The atoms of a design.
ghost use Rattle.std.specs.Prelude.{◌≡◌, IfOk, List, MatchResult, ℕ};
ghost use Rattle.hcl_types.specs.Equations.{IsSolution};
ghost use Rattle.hcl_types.specs.Tables.{IsBound, IsOrderOf, IsSound};
ghost use Rattle.ctl_atoms.specs.Atoms.{AreAtoms, IsCtlFault, atoms_of};
ghost use Rattle.ctl_atoms.specs.Rows.{leaf_rule};
ghost use Rattle.ctl_atoms.specs.declared.leaf.Leaf.{Leaf};

use crate::fault::CtlFault;
use crate::leaf::Atom;
use crate::mixing::first_mixed;
use crate::open_atoms::put_open_atoms;
use crate::rows::leaves_by_name;
use hcl_types::{OrderedDesign, Table};
use std::alloc::{AllocError, Global};

/// The atoms of the definitions, without the limit of 64.
fn all_atoms(alloc: Global, ordered: &OrderedDesign, t: &Table) -> Result<Vec<Atom>, AllocError>
    requires sound { IsSound t.now.rows }
    requires ordered { IsOrderOf t.now.rows ordered.now.design.terms ordered.now.order.ids }
    ensures { IfOk result (λ out. (leaves : ℕ → List Leaf) → IsSolution (leaf_rule t.now.rows ordered.now.design.terms) leaves → out.items ≡ atoms_of leaves ordered.now.design.terms) }
{
    let lists = leaves_by_name(alloc, ordered, t)?;
    let mut out = Vec::new(alloc);
    put_open_atoms(
        alloc,
        lists.as_slice(),
        &mut out,
        ordered.design.terms.items(),
    )?;
    Ok(out)
}

/// The atoms of a design in order of first appearance: the definitions in table order, each from left to right, the
/// atoms inside an operand before those of its comparison, and these by the leaf on the left, then the leaf on the
/// right. Comparisons on which no value depends count too.
///
/// Errors: `Mixed` of the first definition, in table order, that mixes Code with Value; if there is none,
/// `AtomsOver64`; `Memory`.
pub fn atoms(alloc: Global, ordered: &OrderedDesign, t: &Table) -> Result<Vec<Atom>, CtlFault>
    requires sound { IsSound t.now.rows }
    requires bound { IsBound t.now.rows ordered.now.design.terms }
    requires ordered { IsOrderOf t.now.rows ordered.now.design.terms ordered.now.order.ids }
    ensures { MatchResult result (λ out. AreAtoms t.now.rows ordered.now.design.terms out.items) (IsCtlFault t.now.rows ordered.now.design.terms) }
{
    match first_mixed(t.rows.items(), ordered.design.terms.items()) {
        Some(id) => Err(CtlFault::Mixed(id)),
        None => match all_atoms(alloc, ordered, t) {
            Err(_) => Err(CtlFault::Memory),
            Ok(out) => {
                if out.len() > 64 {
                    Err(CtlFault::AtomsOver64)
                } else {
                    Ok(out)
                }
            }
        },
    }
}
