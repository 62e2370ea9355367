//! Where a definition mixes codes (icodes, register numbers, statuses) with words of the datapath.
ghost use Rattle.std.specs.Prelude.{◌≡◌, ◌<◌, ◌^◌, MatchOption, false, length, map, slice_get, ℕ};
ghost use Rattle.ctl_atoms.specs.Atoms.{IsFirstMixed};
ghost use Rattle.ctl_atoms.specs.Mixing.{any, branch_sort, guards, is_code, is_value, mixes, mixes_as, row_sort, sort, values};
ghost use Rattle.ctl_atoms.specs.Mixing as mixing;
ghost use Rattle.ctl_atoms.specs.Rows.{row_term};

use crate::rows::definitions_before;
use hcl_types::{Class, NameId, Row, Term, TermBranch, is_defined};

/// The classes of values that a term can have, and whether the term mixes them.
#[derive(Clone, Copy, Debug)]
pub struct InferredSort {
    /// It can be a Code name's.
    pub code: bool,
    /// It can be a Value name's.
    pub value: bool,
    /// Something in the term joins Code with Value.
    pub mixed: bool,
}

fn truth_sort(mixed: bool) -> InferredSort
    ensures { result ≡ mixing.truth_sort mixed }
{
    InferredSort {
        code: false,
        value: false,
        mixed,
    }
}

fn either(a: InferredSort, b: InferredSort) -> InferredSort
    ensures { result ≡ mixing.either a b }
{
    InferredSort {
        code: a.code || b.code,
        value: a.value || b.value,
        mixed: a.mixed || b.mixed,
    }
}

fn joins(s: InferredSort) -> bool
    ensures { result ≡ mixing.joins s }
{
    s.mixed || (s.code && s.value)
}

fn is_code_class(class: Class) -> bool
    ensures { result ≡ is_code class }
{
    match class {
        Class::Number => false,
        Class::Code => true,
        Class::Value => false,
        Class::Truth => false,
    }
}

fn is_value_class(class: Class) -> bool
    ensures { result ≡ is_value class }
{
    match class {
        Class::Number => false,
        Class::Code => false,
        Class::Value => true,
        Class::Truth => false,
    }
}

fn sort_of_name(rows: &[Row], id: NameId) -> InferredSort
    ensures { result ≡ row_sort (slice_get rows.now id) }
{
    match rows.get(id as usize) {
        Some(row) => InferredSort {
            code: is_code_class(row.class),
            value: is_value_class(row.class),
            mixed: false,
        },
        None => truth_sort(false),
    }
}

/// The classes of values that a term can have, and whether the term mixes Code with Value.
#[cycle(sorting)]
#[tactic(auto, using(crate::proofs::Sorts::either_assoc, crate::proofs::Sorts::either_none))]
fn sort_of(rows: &[Row], t: &Term) -> InferredSort
    ensures { result ≡ sort rows.now t.now }
{
    match t {
        Term::Num(_) => truth_sort(false),
        Term::Name(id) => sort_of_name(rows, *id),
        Term::Not(x) => {
            let inner = sort_of(rows, x.get());
            truth_sort(inner.mixed)
        }
        Term::And(all) => {
            let inner = sort_of_all(rows, all.items());
            truth_sort(inner.mixed)
        }
        Term::Or(all) => {
            let inner = sort_of_all(rows, all.items());
            truth_sort(inner.mixed)
        }
        Term::Cmp(_, x, y) => {
            let left = sort_of(rows, x.get());
            let right = sort_of(rows, y.get());
            truth_sort(joins(either(left, right)))
        }
        Term::In(x, all) => {
            let left = sort_of(rows, x.get());
            let members = sort_of_all(rows, all.items());
            truth_sort(joins(either(left, members)))
        }
        Term::Case(all) => {
            let guards = sort_of_guards(rows, all.items());
            let values = sort_of_values(rows, all.items());
            InferredSort {
                code: values.code,
                value: values.value,
                mixed: guards.mixed || joins(values),
            }
        }
    }
}

#[cycle(sorting)]
#[tactic(auto, using(crate::proofs::Sorts::either_assoc, crate::proofs::Sorts::either_none))]
fn sort_of_all(rows: &[Row], all: &[Term]) -> InferredSort
    ensures { result ≡ any (map (sort rows.now) all.now) }
{
    let mut out = truth_sort(false);
    for t in all {
        out = either(out, sort_of(rows, t));
    }
    out
}

#[cycle(sorting)]
#[tactic(auto, using(crate::proofs::Sorts::either_assoc, crate::proofs::Sorts::either_none))]
fn sort_of_guards(rows: &[Row], all: &[TermBranch]) -> InferredSort
    ensures { result ≡ any (guards (map (branch_sort rows.now) all.now)) }
{
    let mut out = truth_sort(false);
    for branch in all {
        out = either(out, sort_of(rows, &branch.guard));
    }
    out
}

#[cycle(sorting)]
#[tactic(auto, using(crate::proofs::Sorts::either_assoc, crate::proofs::Sorts::either_none))]
fn sort_of_values(rows: &[Row], all: &[TermBranch]) -> InferredSort
    ensures { result ≡ any (values (map (branch_sort rows.now) all.now)) }
{
    let mut out = truth_sort(false);
    for branch in all {
        out = either(out, sort_of(rows, &branch.value));
    }
    out
}

/// The classes of values that a defined row can have.
fn sort_of_definition(rows: &[Row], terms: &[Term], id: usize) -> InferredSort
    requires { id < length rows.now }
    ensures { result ≡ sort rows.now (row_term rows.now terms.now id) }
{
    match terms.get(definitions_before(rows, id)) {
        Some(t) => sort_of(rows, t),
        None => truth_sort(false),
    }
}

/// Whether the value of a term with this sort is of another class than its name, or the term mixes the two.
fn mixes_class(class: Class, s: InferredSort) -> bool
    ensures { result ≡ mixes_as class s }
{
    s.mixed || (is_code_class(class) && s.value) || (is_value_class(class) && s.code)
}

/// Whether a row is defined and its definition mixes Code with Value.
#[tactic(auto, unfolding(crate::specs::Mixing::mixes))]
fn row_mixes(rows: &[Row], terms: &[Term], id: usize) -> bool
    requires { id < length rows.now }
    ensures { result ≡ mixes rows.now terms.now id }
{
    let row = &rows[id];
    is_defined(&row.role) && mixes_class(row.class, sort_of_definition(rows, terms, id))
}

/// The first row whose definition mixes Code with Value.
pub fn first_mixed(rows: &[Row], terms: &[Term]) -> Option<NameId>
    requires { length rows.now < 2 ^ 32 }
    ensures { MatchOption result ((n : ℕ) → mixes rows.now terms.now n ≡ false) (IsFirstMixed rows.now terms.now) }
{
    for id in 0..rows.len() {
        if row_mixes(rows, terms, id) {
            return Some(id as u32);
        }
    }
    None
}
