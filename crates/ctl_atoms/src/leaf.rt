//! Atoms: comparisons of words that are left open.
ghost use Rattle.std.specs.Prelude.{◌≡◌, false, slice_get, MatchOption, Some};
ghost use Rattle.ctl_atoms.specs.Leaves.{open_atom, open_eq, open_lt, atom_eq, decided_lt, has_atom, kind_eq, leaf_eq};

use hcl_types::{CmpOp, NameId, is_below};

/// The value of a word while comparisons are left open: a Value name of the state or the hardware, or a constant.
#[derive(Clone, Copy, Debug, PartialEq, Eq)]
pub enum Leaf {
    /// The value of a row of the table.
    Name(NameId),
    /// A word of 64 bits.
    Number(u64),
}

/// The comparison of an atom.
#[derive(Clone, Copy, Debug, PartialEq, Eq)]
pub enum AtomKind {
    /// `left < right`, as signed words.
    Lt,
    /// `left == right`.
    Eq,
}

/// A comparison of two leaves that is left open: of two different names, or of a name and a constant.
#[derive(Clone, Copy, Debug, PartialEq, Eq)]
pub struct Atom {
    pub kind: AtomKind,
    pub left: Leaf,
    pub right: Leaf,
}

/// Whether two leaves are the same.
pub fn same_leaf(a: Leaf, b: Leaf) -> bool
    ensures { result ≡ leaf_eq a b }
{
    match a {
        Leaf::Name(x) => match b {
            Leaf::Name(y) => x == y,
            Leaf::Number(_) => false,
        },
        Leaf::Number(x) => match b {
            Leaf::Name(_) => false,
            Leaf::Number(y) => x == y,
        },
    }
}

fn same_kind(a: AtomKind, b: AtomKind) -> bool
    ensures { result ≡ kind_eq a b }
{
    match a {
        AtomKind::Lt => match b {
            AtomKind::Lt => true,
            AtomKind::Eq => false,
        },
        AtomKind::Eq => match b {
            AtomKind::Lt => false,
            AtomKind::Eq => true,
        },
    }
}

/// Whether two atoms are the same.
pub fn same_atom(a: Atom, b: Atom) -> bool
    ensures { result ≡ atom_eq a b }
{
    same_kind(a.kind, b.kind) && same_leaf(a.left, b.left) && same_leaf(a.right, b.right)
}

/// The place of an atom in a list, if it is there.
#[tactic(auto, using(crate::proofs::Same::atom_eq_true))]
pub fn position(atoms: &[Atom], atom: Atom) -> Option<usize>
    ensures { MatchOption result (has_atom atoms.now atom ≡ false) (λ k. slice_get atoms.now k ≡ Some atom) }
{
    for (i, a) in atoms.iter().enumerate() {
        if same_atom(*a, atom) {
            return Some(i);
        }
    }
    None
}

/// An atom of two leaves.
fn asks(kind: AtomKind, left: Leaf, right: Leaf) -> Option<Atom>
    ensures { result ≡ Some (record { kind = kind; left = left; right = right }) }
{
    Some(Atom { kind, left, right })
}

/// The atom of `x < y`, if the comparison isn't decided at once.
fn ask_lt(x: Leaf, y: Leaf) -> Option<Atom>
    ensures { result ≡ open_lt x y }
{
    match x {
        Leaf::Number(_) => match y {
            Leaf::Number(_) => None,
            Leaf::Name(_) => asks(AtomKind::Lt, x, y),
        },
        Leaf::Name(p) => match y {
            Leaf::Number(_) => asks(AtomKind::Lt, x, y),
            Leaf::Name(q) => {
                if p == q {
                    None
                } else {
                    asks(AtomKind::Lt, x, y)
                }
            }
        },
    }
}

/// The atom of `x == y`, if the comparison isn't decided at once.
fn ask_eq(x: Leaf, y: Leaf) -> Option<Atom>
    ensures { result ≡ open_eq x y }
{
    match x {
        Leaf::Number(_) => match y {
            Leaf::Number(_) => None,
            Leaf::Name(_) => asks(AtomKind::Eq, y, x),
        },
        Leaf::Name(p) => match y {
            Leaf::Number(_) => asks(AtomKind::Eq, x, y),
            Leaf::Name(q) => {
                if p == q {
                    None
                } else if p < q {
                    asks(AtomKind::Eq, x, y)
                } else {
                    asks(AtomKind::Eq, y, x)
                }
            }
        },
    }
}

/// Whether `x < y`, if that is decided at once.
pub fn is_decided_below(x: Leaf, y: Leaf) -> bool
    ensures { result ≡ decided_lt x y }
{
    match x {
        Leaf::Number(p) => match y {
            Leaf::Number(q) => is_below(p, q),
            Leaf::Name(_) => false,
        },
        Leaf::Name(_) => false,
    }
}

/// The atom of a comparison of two leaves, if it isn't decided at once.
pub fn atom_at(op: CmpOp, x: Leaf, y: Leaf) -> Option<Atom>
    ensures { result ≡ open_atom op x y }
{
    match op {
        CmpOp::Eq => ask_eq(x, y),
        CmpOp::Ne => ask_eq(x, y),
        CmpOp::Lt => ask_lt(x, y),
        CmpOp::Le => ask_lt(y, x),
        CmpOp::Gt => ask_lt(y, x),
        CmpOp::Ge => ask_lt(x, y),
    }
}
