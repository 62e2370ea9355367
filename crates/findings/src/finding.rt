//! Findings: what the file picks for a signal at a valuation, and whether that is right.
ghost use Rattle.std.specs.Prelude.{◌≡◌, ◌≤◌, ◌-◌, IfOk, map, slice_get};
ghost use Rattle.control_values.specs.Given.{assigned, at};
ghost use Rattle.ctl_atoms.specs.Leaves.{leaf_holds};
ghost use Rattle.ctl_rules.specs.ColumnDemands as words;
ghost use Rattle.findings.specs.Findings as spec;
ghost use Rattle.findings.specs.Requirements.{is_met};

use crate::requirement::{Requirement, Wanted};
use control_values::{Scope, holds, taken_case};
use ctl_atoms::{Leaf, same_leaf};
use hcl_types::{NameId, Term};
use std::alloc::Global;
use y86_base::{Memory, push};

/// What a requirement demands of a signal, what the file picks, and whether that is right.
#[derive(Clone, Copy)]
pub struct Finding {
    pub requirement: Requirement,
    pub picked: Leaf,
    pub is_right: bool,
    /// The case that the signal's definition takes, counted from 0.
    pub taken_case: Option<usize>,
}

/// The control value of a name.
pub fn leaf_at(leaves: &[Leaf], n: NameId) -> Leaf
    ensures { result ≡ at leaves.now n }
{
    match leaves.get(n as usize) {
        Some(leaf) => *leaf,
        None => Leaf::Number(0),
    }
}

/// The signal picks this number.
pub fn is_number(leaves: &[Leaf], n: NameId, number: u64) -> bool
    ensures { result ≡ words.is_number (at leaves.now) n number }
{
    same_leaf(leaf_at(leaves, n), Leaf::Number(number))
}

fn meets(scope: &Scope<'_>, requirement: Requirement) -> bool
    requires { scope.now.first ≤ 1000 }
    ensures { result ≡ is_met (assigned scope.now.atoms.now scope.now.first scope.now.bits.now) (at scope.now.leaves.now) requirement }
{
    match requirement.wanted {
        Wanted::Word(leaf) => same_leaf(leaf_at(scope.leaves, requirement.signal), leaf),
        Wanted::Truth(truth) => truth == holds(scope, leaf_at(scope.leaves, requirement.signal)),
        Wanted::Nothing => false,
    }
}

/// The case that the definition of a signal takes. The definitions are those of the rows from `defined` on.
fn case_of(scope: &Scope<'_>, terms: &[Term], defined: NameId, id: NameId) -> Option<usize>
    requires { scope.now.first ≤ 1000 }
    ensures { result ≡ spec.case_of defined terms.now (assigned scope.now.atoms.now scope.now.first scope.now.bits.now) (at scope.now.leaves.now) id }
{
    match terms.get((id as usize).saturating_sub(defined as usize)) {
        Some(term) => taken_case(scope, term),
        None => None,
    }
}

fn finding_of(
    scope: &Scope<'_>,
    terms: &[Term],
    defined: NameId,
    requirement: Requirement,
) -> Finding
    requires { scope.now.first ≤ 1000 }
    ensures { result ≡ spec.finding defined terms.now (assigned scope.now.atoms.now scope.now.first scope.now.bits.now) (at scope.now.leaves.now) requirement }
{
    Finding {
        requirement,
        picked: leaf_at(scope.leaves, requirement.signal),
        is_right: meets(scope, requirement),
        taken_case: case_of(scope, terms, defined, requirement.signal),
    }
}

/// The findings on requirements. The definitions are those of the rows from `defined` on.
pub fn findings_of(
    alloc: Global,
    scope: &Scope<'_>,
    terms: &[Term],
    defined: NameId,
    all: &[Requirement],
) -> Result<Vec<Finding>, Memory>
    requires { scope.now.first ≤ 1000 }
    ensures { IfOk result (λ r. r.items ≡ map (spec.finding defined terms.now (assigned scope.now.atoms.now scope.now.first scope.now.bits.now) (at scope.now.leaves.now)) all.now) }
{
    let mut out = Vec::new(alloc);
    for requirement in all {
        match push(&mut out, finding_of(scope, terms, defined, *requirement)) {
            Ok(()) => {}
            Err(e) => return Err(e),
        }
    }
    Ok(out)
}
