//! The value of a term under a list of numbers, one for each row of the table.
ghost use Rattle.std.specs.Prelude.{◌≡◌, map, if◌then◌else◌};
ghost use Rattle.hcl_types.specs.Lists.{each, some};
ghost use Rattle.hcl_tree.specs.declared.tree.CmpOp.TheVariants.{Eq};
ghost use Rattle.hcl_types.specs.Terms.{Interpretation, at, branch_value, compare_words, picked, signed_below, value, word_meaning};

use crate::term::{Term, TermBranch};
use hcl_tree::CmpOp;

/// A truth as a word: 1 or 0.
fn truth(holds: bool) -> u64
    ensures { result ≡ (if holds then 1 else 0) }
{
    if holds { 1 } else { 0 }
}

/// Whether one word is below another, both as signed numbers.
pub fn is_below(x: u64, y: u64) -> bool
    ensures { result ≡ signed_below x y }
{
    x.cast_signed() < y.cast_signed()
}

/// Whether a comparison of two words, as signed numbers, is true.
pub fn compare(op: CmpOp, x: u64, y: u64) -> bool
    ensures { result ≡ compare_words op x y }
{
    match op {
        CmpOp::Eq => x == y,
        CmpOp::Ne => x != y,
        CmpOp::Lt => is_below(x, y),
        CmpOp::Le => !is_below(y, x),
        CmpOp::Gt => is_below(y, x),
        CmpOp::Ge => !is_below(x, y),
    }
}

/// The value of a term. A name past the end of the list is 0.
#[cycle(evaluation)]
pub fn value_of(t: &Term, vals: &[u64]) -> u64
    ensures { result ≡ value word_meaning (at vals.now) t.now }
{
    match t {
        Term::Num(n) => *n,
        Term::Name(id) => match vals.get(*id as usize) {
            Some(x) => *x,
            None => 0,
        },
        Term::Not(x) => truth(value_of(x.get(), vals) == 0),
        Term::And(all) => truth(each_holds(all.items(), vals)),
        Term::Or(all) => truth(some_holds(all.items(), vals)),
        Term::Cmp(op, x, y) => {
            let left = value_of(x.get(), vals);
            let right = value_of(y.get(), vals);
            truth(compare(*op, left, right))
        }
        Term::In(x, all) => {
            let left = value_of(x.get(), vals);
            truth(some_equals(left, all.items(), vals))
        }
        Term::Case(all) => first_taken(all.items(), vals),
    }
}

#[cycle(evaluation)]
fn each_holds(all: &[Term], vals: &[u64]) -> bool
    ensures { result ≡ each word_meaning.holds (map (value word_meaning (at vals.now)) all.now) }
{
    for t in all {
        if value_of(t, vals) == 0 {
            return false;
        }
    }
    true
}

#[cycle(evaluation)]
fn some_holds(all: &[Term], vals: &[u64]) -> bool
    ensures { result ≡ some word_meaning.holds (map (value word_meaning (at vals.now)) all.now) }
{
    for t in all {
        if value_of(t, vals) != 0 {
            return true;
        }
    }
    false
}

#[cycle(evaluation)]
fn some_equals(left: u64, all: &[Term], vals: &[u64]) -> bool
    ensures { result ≡ some (compare_words Eq left) (map (value word_meaning (at vals.now)) all.now) }
{
    for t in all {
        if value_of(t, vals) == left {
            return true;
        }
    }
    false
}

/// The value of the first branch whose guard isn't 0, or 0.
#[cycle(evaluation)]
fn first_taken(all: &[TermBranch], vals: &[u64]) -> u64
    ensures { result ≡ picked word_meaning.holds 0 (map (branch_value word_meaning (at vals.now)) all.now) }
{
    for branch in all {
        if value_of(&branch.guard, vals) != 0 {
            return value_of(&branch.value, vals);
        }
    }
    0
}
