//! Terms at a valuation, given the control values of their names.
ghost use Rattle.std.specs.Prelude.{◌≡◌, ◌≤◌, false, get_or, if◌then◌else◌, map};
ghost use Rattle.hcl_tree.specs.declared.tree.CmpOp.TheVariants.{Eq};
ghost use Rattle.hcl_types.specs.Lists.{each, some};
ghost use Rattle.hcl_types.specs.Terms.{branch_value, picked, value};
ghost use Rattle.ctl_atoms.specs.declared.leaf.Leaf.TheVariants.{Number};
ghost use Rattle.ctl_atoms.specs.Leaves.{open_atom, open_lt, open_eq, leaf_cmp, leaf_holds, leaf_lt, leaf_same, leaf_meaning};
ghost use Rattle.control_values.specs.Given.{at, taken, taken_from, truth_from, truths_in};

use ctl_atoms::{Atom, Leaf, atom_at, is_decided_below, same_atom, same_leaf};
use hcl_types::{CmpOp, Term, TermBranch};

/// The input of a term at a valuation: the atoms, whose truths are the bits from `first` on, and the control value of
/// each name.
#[derive(Clone, Copy)]
pub struct Scope<'a> {
    pub atoms: &'a [Atom],
    pub first: usize,
    pub bits: &'a [bool],
    pub leaves: &'a [Leaf],
}

/// A bit of a valuation; false past its end.
pub(crate) fn bit_at(bits: &[bool], i: usize) -> bool
    ensures { result ≡ get_or bits.now i false }
{
    bits.get(i).copied().unwrap_or(false)
}

/// The truth that the bits give an atom: the bit of its place in the list, and false if it isn't listed.
fn truth_of(atoms: &[Atom], first: usize, bits: &[bool], atom: Atom) -> bool
    requires { first ≤ 1000 }
    ensures { result ≡ truth_from first atoms.now bits.now atom }
{
    for i in 0..atoms.len() {
        if same_atom(atoms[i], atom) {
            return bit_at(bits, first + i);
        }
    }
    false
}

/// A truth as a leaf.
fn truth_leaf(holds: bool) -> Leaf
    ensures { result ≡ Number (if holds then 1 else 0) }
{
    if holds {
        Leaf::Number(1)
    } else {
        Leaf::Number(0)
    }
}

impl<'a> Scope<'a> {
    /// Whether `x < y`.
    fn less(&self, x: Leaf, y: Leaf) -> bool
        requires { self.now.first ≤ 1000 }
        ensures { result ≡ leaf_lt (truths_in self.now) x y }
    {
        match atom_at(CmpOp::Lt, x, y) {
            Some(atom) => truth_of(self.atoms, self.first, self.bits, atom),
            None => is_decided_below(x, y),
        }
    }

    /// Whether `x == y`.
    fn same(&self, x: Leaf, y: Leaf) -> bool
        requires { self.now.first ≤ 1000 }
        ensures { result ≡ leaf_same (truths_in self.now) x y }
    {
        match atom_at(CmpOp::Eq, x, y) {
            Some(atom) => truth_of(self.atoms, self.first, self.bits, atom),
            None => same_leaf(x, y),
        }
    }

    /// A comparison of two leaves.
    fn compare(&self, op: CmpOp, x: Leaf, y: Leaf) -> bool
        requires { self.now.first ≤ 1000 }
        ensures { result ≡ leaf_cmp (truths_in self.now) op x y }
    {
        match op {
            CmpOp::Eq => self.same(x, y),
            CmpOp::Ne => !self.same(x, y),
            CmpOp::Lt => self.less(x, y),
            CmpOp::Le => !self.less(y, x),
            CmpOp::Gt => self.less(y, x),
            CmpOp::Ge => !self.less(x, y),
        }
    }

    /// Whether a leaf isn't 0.
    fn isnt_zero(&self, x: Leaf) -> bool
        requires { self.now.first ≤ 1000 }
        ensures { result ≡ leaf_holds (truths_in self.now) x }
    {
        !self.same(x, Leaf::Number(0))
    }

    /// The leaf that a term picks. A name past the end of the list is 0.
    #[cycle(evaluation)]
    pub fn leaf_of(&self, t: &Term) -> Leaf
        requires { self.now.first ≤ 1000 }
        ensures { result ≡ value (leaf_meaning (truths_in self.now)) (at self.now.leaves.now) t.now }
    {
        match t {
            Term::Num(n) => Leaf::Number(*n),
            Term::Name(id) => match self.leaves.get(*id as usize) {
                Some(x) => *x,
                None => Leaf::Number(0),
            },
            Term::Not(x) => truth_leaf(!self.term_holds(x.get())),
            Term::And(all) => truth_leaf(self.each_holds(all.items())),
            Term::Or(all) => truth_leaf(self.some_holds(all.items())),
            Term::Cmp(op, x, y) => {
                let left = self.leaf_of(x.get());
                let right = self.leaf_of(y.get());
                truth_leaf(self.compare(*op, left, right))
            }
            Term::In(x, all) => {
                let left = self.leaf_of(x.get());
                truth_leaf(self.some_equals(left, all.items()))
            }
            Term::Case(all) => self.first_taken(all.items()),
        }
    }

    /// Whether the leaf that a term picks isn't 0.
    #[cycle(evaluation)]
    fn term_holds(&self, t: &Term) -> bool
        requires { self.now.first ≤ 1000 }
        ensures { result ≡ leaf_holds (truths_in self.now) (value (leaf_meaning (truths_in self.now)) (at self.now.leaves.now) t.now) }
    {
        let x = self.leaf_of(t);
        self.isnt_zero(x)
    }

    /// Whether a term picks a leaf that equals `left`.
    #[cycle(evaluation)]
    fn term_equals(&self, left: Leaf, t: &Term) -> bool
        requires { self.now.first ≤ 1000 }
        ensures { result ≡ leaf_cmp (truths_in self.now) Eq left (value (leaf_meaning (truths_in self.now)) (at self.now.leaves.now) t.now) }
    {
        let x = self.leaf_of(t);
        self.same(left, x)
    }

    #[cycle(evaluation)]
    fn each_holds(&self, all: &[Term]) -> bool
        requires { self.now.first ≤ 1000 }
        ensures { result ≡ each (leaf_holds (truths_in self.now))
            (map (value (leaf_meaning (truths_in self.now)) (at self.now.leaves.now)) all.now) }
    {
        for t in all {
            if !self.term_holds(t) {
                return false;
            }
        }
        true
    }

    #[cycle(evaluation)]
    fn some_holds(&self, all: &[Term]) -> bool
        requires { self.now.first ≤ 1000 }
        ensures { result ≡ some (leaf_holds (truths_in self.now))
            (map (value (leaf_meaning (truths_in self.now)) (at self.now.leaves.now)) all.now) }
    {
        for t in all {
            if self.term_holds(t) {
                return true;
            }
        }
        false
    }

    #[cycle(evaluation)]
    fn some_equals(&self, left: Leaf, all: &[Term]) -> bool
        requires { self.now.first ≤ 1000 }
        ensures { result ≡ some (leaf_cmp (truths_in self.now) Eq left)
            (map (value (leaf_meaning (truths_in self.now)) (at self.now.leaves.now)) all.now) }
    {
        for t in all {
            if self.term_equals(left, t) {
                return true;
            }
        }
        false
    }

    #[cycle(evaluation)]
    fn first_taken(&self, all: &[TermBranch]) -> Leaf
        requires { self.now.first ≤ 1000 }
        ensures { result ≡ picked (leaf_holds (truths_in self.now)) (Number 0)
            (map (branch_value (leaf_meaning (truths_in self.now)) (at self.now.leaves.now)) all.now) }
    {
        for branch in all {
            if self.term_holds(&branch.guard) {
                return self.leaf_of(&branch.value);
            }
        }
        Leaf::Number(0)
    }
}

/// Whether a signal that picks this leaf is true.
pub fn holds(scope: &Scope<'_>, x: Leaf) -> bool
    requires { scope.now.first ≤ 1000 }
    ensures { result ≡ leaf_holds (truths_in scope.now) x }
{
    scope.isnt_zero(x)
}

/// The case of a case list that is taken, counted from 0: the first whose guard is true.
fn taken_branch(scope: &Scope<'_>, all: &[TermBranch]) -> Option<usize>
    requires { scope.now.first ≤ 1000 }
    ensures { result ≡ taken_from (truths_in scope.now) (at scope.now.leaves.now) 0 all.now }
{
    for k in 0..all.len() {
        if scope.term_holds(&all[k].guard) {
            return Some(k);
        }
    }
    None
}

/// The case that a definition takes, counted from 0. `None` if no guard is true, and for a definition without cases.
pub fn taken_case(scope: &Scope<'_>, term: &Term) -> Option<usize>
    requires { scope.now.first ≤ 1000 }
    ensures { result ≡ taken (truths_in scope.now) (at scope.now.leaves.now) term.now }
{
    match term {
        Term::Case(all) => taken_branch(scope, all.items()),
        Term::Num(_) => None,
        Term::Name(_) => None,
        Term::Not(_) => None,
        Term::And(_) => None,
        Term::Or(_) => None,
        Term::Cmp(_, _, _) => None,
        Term::In(_, _) => None,
    }
}
