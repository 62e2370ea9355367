//! The input of a translation, and the gates of atoms and comparisons.
ghost use Rattle.std.specs.Prelude.{◌≡◌, ◌<◌, length, List, Bool, IfOk, IsTrue};
ghost use Rattle.nets.specs.Nets.{ExtendsNet, truth};
ghost use Rattle.ctl_atoms.specs.Leaves.{has_atom, Assignment, open_lt, open_eq, open_atom, is_listed, leaf_lt, leaf_same, leaf_cmp};
ghost use Rattle.ctl_atoms.specs.declared.leaf.Leaf.{Leaf};
ghost use Rattle.ctl_picks.specs.TakenPicks.{IsOnlyTaken, at};
ghost use Rattle.ctl_terms.specs.Translatable.{HasScopeAtoms, ScopeAtomsAre};
ghost use Rattle.ctl_terms.specs.Pairs.{row_listed, row_holds, pairs_listed, pairs_hold, leaves_listed};
ghost use Rattle.ctl_picks.specs.Picks.{Within, leaves_of};
ghost use Rattle.hcl_types.specs.Lists.{each};

use ctl_atoms::{Atom, Leaf, atom_at, is_decided_below, position, same_leaf};
use ctl_picks::{Entry, Pick};
use hcl_types::CmpOp;
use nets::NetBuilder;
use y86_base::Memory;

/// The input of a translation: the entry of each name, and the atoms, which are the variables from `first` on.
#[derive(Drop)]
pub struct Scope<'a> {
    pub entries: &'a [Entry],
    pub atoms: &'a [Atom],
    pub first: u32,
}

impl<'a> Scope<'a> {
    /// The gate of an atom.
    fn atom(&self, b: &mut NetBuilder, atom: Atom) -> Result<u64, Memory>
        requires listed { IsTrue (has_atom self.now.atoms.now atom) }
        requires vars { HasScopeAtoms b.old self.now }
        ensures extends { ExtendsNet b.old b.new }
        ensures within { IfOk result (λ g. g < length b.new.gates) }
        ensures is { (w : List Bool) (α : Assignment) → ScopeAtomsAre self.now w α →
            IfOk result (λ g. truth b.new g w ≡ α atom.kind atom.left atom.right) }
    {
        let vars = b.vars();
        match position(self.atoms, atom) {
            Some(k) => b.variable(self.first + k as u32),
            None => b.constant(false),
        }
    }

    /// The gate of `x < y`.
    fn less(&self, b: &mut NetBuilder, x: Leaf, y: Leaf) -> Result<u64, Memory>
        requires listed { IsTrue (is_listed self.now.atoms.now (open_lt x y)) }
        requires vars { HasScopeAtoms b.old self.now }
        ensures extends { ExtendsNet b.old b.new }
        ensures within { IfOk result (λ g. g < length b.new.gates) }
        ensures is { (w : List Bool) (α : Assignment) → ScopeAtomsAre self.now w α →
            IfOk result (λ g. truth b.new g w ≡ leaf_lt α x y) }
    {
        match atom_at(CmpOp::Lt, x, y) {
            Some(atom) => self.atom(b, atom),
            None => b.constant(is_decided_below(x, y)),
        }
    }

    /// The gate of `x == y`.
    fn same(&self, b: &mut NetBuilder, x: Leaf, y: Leaf) -> Result<u64, Memory>
        requires listed { IsTrue (is_listed self.now.atoms.now (open_eq x y)) }
        requires vars { HasScopeAtoms b.old self.now }
        ensures extends { ExtendsNet b.old b.new }
        ensures within { IfOk result (λ g. g < length b.new.gates) }
        ensures is { (w : List Bool) (α : Assignment) → ScopeAtomsAre self.now w α →
            IfOk result (λ g. truth b.new g w ≡ leaf_same α x y) }
    {
        match atom_at(CmpOp::Eq, x, y) {
            Some(atom) => self.atom(b, atom),
            None => b.constant(same_leaf(x, y)),
        }
    }

    /// The gate of a comparison of two leaves.
    pub fn leaf_cmp(&self, b: &mut NetBuilder, op: CmpOp, x: Leaf, y: Leaf) -> Result<u64, Memory>
        requires listed { IsTrue (is_listed self.now.atoms.now (open_atom op x y)) }
        requires vars { HasScopeAtoms b.old self.now }
        ensures extends { ExtendsNet b.old b.new }
        ensures within { IfOk result (λ g. g < length b.new.gates) }
        ensures is { (w : List Bool) (α : Assignment) → ScopeAtomsAre self.now w α →
            IfOk result (λ g. truth b.new g w ≡ leaf_cmp α op x y) }
    {
        match op {
            CmpOp::Eq => self.same(b, x, y),
            CmpOp::Ne => {
                let g = self.same(b, x, y)?;
                b.not(g)
            }
            CmpOp::Lt => self.less(b, x, y),
            CmpOp::Ge => {
                let g = self.less(b, x, y)?;
                b.not(g)
            }
            CmpOp::Gt => self.less(b, y, x),
            CmpOp::Le => {
                let g = self.less(b, y, x)?;
                b.not(g)
            }
        }
    }

    /// A gate that is true if the leaf has this comparison with a pick whose gate is true.
    fn against(&self, b: &mut NetBuilder, op: CmpOp, x: Leaf, qs: &[Pick]) -> Result<u64, Memory>
        requires listed { IsTrue (row_listed self.now.atoms.now op x qs.now) }
        requires vars { HasScopeAtoms b.old self.now }
        requires gates { Within (length b.old.gates) qs.now }
        ensures extends { ExtendsNet b.old b.new }
        ensures within { IfOk result (λ g. g < length b.new.gates) }
        ensures is { (w : List Bool) (α : Assignment) → ScopeAtomsAre self.now w α →
            IfOk result (λ g. truth b.new g w ≡ row_holds (at b.old w) α op x qs.now) }
    {
        let mut g = b.constant(false)?;
        for q in qs {
            let c = self.leaf_cmp(b, op, x, q.leaf)?;
            let here = b.and(q.gate, c)?;
            g = b.or(g, here)?;
        }
        Ok(g)
    }

    /// A gate that is true if a pick of the first list whose gate is true has this comparison with one of the second.
    fn pairs(&self, b: &mut NetBuilder, op: CmpOp, ps: &[Pick], qs: &[Pick]) -> Result<u64, Memory>
        requires listed { IsTrue (pairs_listed self.now.atoms.now op ps.now qs.now) }
        requires vars { HasScopeAtoms b.old self.now }
        requires left { Within (length b.old.gates) ps.now }
        requires right { Within (length b.old.gates) qs.now }
        ensures extends { ExtendsNet b.old b.new }
        ensures within { IfOk result (λ g. g < length b.new.gates) }
        ensures is { (w : List Bool) (α : Assignment) → ScopeAtomsAre self.now w α →
            IfOk result (λ g. truth b.new g w ≡ pairs_hold (at b.old w) α op ps.now qs.now) }
    {
        let mut g = b.constant(false)?;
        for p in ps {
            let row = self.against(b, op, p.leaf, qs)?;
            let here = b.and(p.gate, row)?;
            g = b.or(g, here)?;
        }
        Ok(g)
    }

    /// The gate of a comparison of the leaves that two lists of picks pick.
    #[tactic(auto, using(crate::proofs::Pairs::pairs_from_leaves))]
    pub fn compare(
        &self,
        b: &mut NetBuilder,
        op: CmpOp,
        ps: &[Pick],
        qs: &[Pick],
    ) -> Result<u64, Memory>
        requires listed { IsTrue (leaves_listed self.now.atoms.now op (leaves_of ps.now) (leaves_of qs.now)) }
        requires vars { HasScopeAtoms b.old self.now }
        requires left { Within (length b.old.gates) ps.now }
        requires right { Within (length b.old.gates) qs.now }
        ensures extends { ExtendsNet b.old b.new }
        ensures within { IfOk result (λ g. g < length b.new.gates) }
        ensures is { (w : List Bool) (α : Assignment) (x y : Leaf) → ScopeAtomsAre self.now w α →
            IsOnlyTaken (at b.old w) ps.now x → IsOnlyTaken (at b.old w) qs.now y →
            IfOk result (λ g. truth b.new g w ≡ leaf_cmp α op x y) }
    {
        self.pairs(b, op, ps, qs)
    }
}
