//! Where a term may be used: as a word, as a Boolean, or as both.
ghost use Rattle.std.specs.Prelude.{◌≡◌, ◌&&◌, Bool, map, slice_get};
ghost use Rattle.hcl_types.specs.Lists.{each};
ghost use Rattle.hcl_types.specs.Kinds.{branch_kinds, has_class, is_truth, kinds, kinds_of_row};

use crate::table::{Class, Row};
use crate::term::{NameId, Term, TermBranch};

/// Whether a term may be used as a word, and whether as a Boolean.
#[derive(Clone, Copy, Debug, PartialEq, Eq)]
pub struct Kinds {
    pub word: bool,
    pub truth: bool,
}

/// Whether the values of a class are Booleans.
pub fn is_boolean(class: Class) -> bool
    ensures { result ≡ is_truth class }
{
    match class {
        Class::Number => false,
        Class::Code => false,
        Class::Value => false,
        Class::Truth => true,
    }
}

/// Whether a term may be the body of a row of the class.
pub fn can_be(rows: &[Row], class: Class, t: &Term) -> bool
    ensures { result ≡ has_class rows.now class t.now }
{
    let kinds = kinds_of(rows, t);
    match class {
        Class::Number => kinds.word,
        Class::Code => kinds.word,
        Class::Value => kinds.word,
        Class::Truth => kinds.truth,
    }
}

/// Where a name may be used.
fn kinds_of_name(rows: &[Row], id: NameId) -> Kinds
    ensures { result ≡ kinds_of_row (slice_get rows.now id) }
{
    match rows.get(id as usize) {
        Some(row) => {
            let truth = is_boolean(row.class);
            Kinds {
                word: !truth,
                truth,
            }
        }
        None => Kinds {
            word: false,
            truth: false,
        },
    }
}

/// Where a term over a table may be used.
#[cycle(kinds)]
pub fn kinds_of(rows: &[Row], t: &Term) -> Kinds
    ensures { result ≡ kinds rows.now t.now }
{
    match t {
        Term::Num(n) => Kinds {
            word: true,
            truth: *n < 2,
        },
        Term::Name(id) => kinds_of_name(rows, *id),
        Term::Not(x) => {
            let inner = kinds_of(rows, x.get());
            Kinds {
                word: false,
                truth: inner.truth,
            }
        }
        Term::And(all) => Kinds {
            word: false,
            truth: all_truths(rows, all.items()),
        },
        Term::Or(all) => Kinds {
            word: false,
            truth: all_truths(rows, all.items()),
        },
        Term::Cmp(_, x, y) => {
            let left = kinds_of(rows, x.get());
            let right = kinds_of(rows, y.get());
            Kinds {
                word: false,
                truth: left.word && right.word,
            }
        }
        Term::In(x, all) => {
            let left = kinds_of(rows, x.get());
            Kinds {
                word: false,
                truth: left.word && all_words(rows, all.items()),
            }
        }
        Term::Case(all) => Kinds {
            word: all_branches(rows, all.items()),
            truth: false,
        },
    }
}

#[cycle(kinds)]
fn all_truths(rows: &[Row], all: &[Term]) -> bool
    ensures { result ≡ each (λ (x : Kinds). x.truth) (map (kinds rows.now) all.now) }
{
    for t in all {
        if !kinds_of(rows, t).truth {
            return false;
        }
    }
    true
}

#[cycle(kinds)]
fn all_words(rows: &[Row], all: &[Term]) -> bool
    ensures { result ≡ each (λ (x : Kinds). x.word) (map (kinds rows.now) all.now) }
{
    for t in all {
        if !kinds_of(rows, t).word {
            return false;
        }
    }
    true
}

#[cycle(kinds)]
fn all_branches(rows: &[Row], all: &[TermBranch]) -> bool
    ensures { result ≡ each (λ (b : Kinds × Kinds). b.0.truth && b.1.word) (map (branch_kinds rows.now) all.now) }
{
    for branch in all {
        if !kinds_of(rows, &branch.guard).truth || !kinds_of(rows, &branch.value).word {
            return false;
        }
    }
    true
}
