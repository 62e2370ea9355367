//! The gates and picks of terms.
#![tactic(auto, using(crate::proofs::Opened::open_kept, nets::proofs::Truths::begins_more))]

ghost use Rattle.std.specs.Prelude.{◌≡◌, ◌<◌, ◌&&◌, ◌||◌, [], ℕ, length, List, Bool, IfOk, OnOk, IsTrue, true, if◌then◌else◌, slice_get, Some, false, map};
ghost use Rattle.ctl_atoms.specs.declared.leaf.Leaf.{Leaf};
ghost use Rattle.ctl_picks.specs.declared.controls.Entry.TheVariants.{Truth, Picks};
ghost use Rattle.ctl_picks.specs.declared.controls.Entry.{Entry};
ghost use Rattle.ctl_atoms.specs.declared.leaf.Atom.{Atom};
ghost use Rattle.hcl_types.specs.declared.term.Term.TheVariants.{Num};
ghost use Rattle.nets.specs.Nets.{ExtendsNet, truth};
ghost use Rattle.ctl_atoms.specs.Leaves.{Assignment, leaf_eq, leaf_holds, leaf_cmp, leaf_meaning};
ghost use Rattle.ctl_picks.specs.TakenPicks.{IsOnlyTaken, at, leaf_taken};
ghost use Rattle.ctl_picks.specs.Picks.{Within, leaves_of, entry_truth, entry_word};
ghost use Rattle.ctl_terms.specs.Translatable.{IsScopeIn, EncodesScope, translatable, translatable_in, truths, members, branches, branch_ready_in, case_leaves};
ghost use Rattle.ctl_atoms.specs.TermAtoms.{joined};
ghost use Rattle.hcl_types.specs.Lists.{each, some};
ghost use Rattle.hcl_types.specs.Terms.{picked, value, branch_value};
ghost use Rattle.hcl_tree.specs.declared.tree.CmpOp.TheVariants.{Eq};
ghost use Rattle.ctl_atoms.specs.declared.leaf.Leaf.TheVariants.{Number};

use crate::scope::Scope;
use ctl_atoms::Leaf;
use ctl_picks::{Entry, Pick, add, add_all, copy_picks};
use hcl_types::{CmpOp, Term, TermBranch};
use nets::NetBuilder;
use std::alloc::Global;
use y86_base::{Memory, push};

/// Whether a term is the number 1.
pub fn is_one(t: &Term) -> bool
    ensures one { (es : List Entry) (atoms : List Atom) → result ≡ (translatable es atoms t.now).one }
    ensures is { IsTrue result → t.now ≡ Num 1 }
{
    match t {
        Term::Num(n) => *n == 1,
        Term::Name(_) => false,
        Term::Not(_) => false,
        Term::And(_) => false,
        Term::Or(_) => false,
        Term::Cmp(_, _, _) => false,
        Term::In(_, _) => false,
        Term::Case(_) => false,
    }
}

impl<'a> Scope<'a> {
    /// The gate of a name that has one.
    fn gate_of(&self, id: u32) -> u64
        requires { IsTrue (entry_truth (slice_get self.now.entries.now id)) }
        ensures { slice_get self.now.entries.now id ≡ Some (Truth result) }
    {
        match &self.entries[id as usize] {
            Entry::Truth(g) => *g,
            Entry::Absent | Entry::Picks(_) => 0,
        }
    }

    /// The picks of a name that has them.
    fn picks_of(&self, id: u32) -> &[Pick]
        requires { IsTrue (entry_word (slice_get self.now.entries.now id)) }
        ensures { slice_get self.now.entries.now id ≡ Some (Picks result.now) }
    {
        match &self.entries[id as usize] {
            Entry::Picks(ps) => ps.items(),
            Entry::Absent | Entry::Truth(_) => &[],
        }
    }

    /// The gate of a term that is a truth.
    #[cycle(translation)]
    pub fn truth(&self, alloc: Global, b: &mut NetBuilder, t: &Term) -> Result<u64, Memory>
        requires open { IsScopeIn b.old self.now }
        requires planned { IsTrue (translatable_in self.now t.now).truth }
        ensures extends { ExtendsNet b.old b.new }
        ensures within { IfOk result (λ g. g < length b.new.gates) }
        ensures is { (w : List Bool) (α : Assignment) (cv : ℕ → Leaf) → EncodesScope b.old self.now w α cv →
            IfOk result (λ g. truth b.new g w ≡ leaf_holds α (value (leaf_meaning α) cv t.now)) }
    {
        match t {
            Term::Num(n) => b.constant(*n != 0),
            Term::Name(id) => Ok(self.gate_of(*id)),
            Term::Not(a) => {
                let x = self.truth(alloc, b, a.get())?;
                b.not(x)
            }
            Term::And(all) => self.all_of(alloc, b, all.items()),
            Term::Or(all) => self.any_of(alloc, b, all.items()),
            Term::Cmp(op, x, y) => {
                let ps = self.word(alloc, b, x.get())?;
                let qs = self.word(alloc, b, y.get())?;
                self.compare(b, *op, ps.as_slice(), qs.as_slice())
            }
            Term::In(x, all) => {
                let ps = self.word(alloc, b, x.get())?;
                self.member_of(alloc, b, ps.as_slice(), all.items())
            }
            Term::Case(_) => b.constant(false),
        }
    }

    /// The picks of a term that is a word.
    #[cycle(translation)]
    pub fn word(&self, alloc: Global, b: &mut NetBuilder, t: &Term) -> Result<Vec<Pick>, Memory>
        requires open { IsScopeIn b.old self.now }
        requires planned { IsTrue (translatable_in self.now t.now).word }
        ensures extends { ExtendsNet b.old b.new }
        ensures within { IfOk result (λ ps. Within (length b.new.gates) ps.items) }
        ensures leaves { IfOk result (λ ps. leaves_of ps.items ≡ (translatable_in self.now t.now).leaves) }
        ensures is { (w : List Bool) (α : Assignment) (cv : ℕ → Leaf) → EncodesScope b.old self.now w α cv →
            IfOk result (λ ps. IsOnlyTaken (at b.new w) ps.items (value (leaf_meaning α) cv t.now)) }
    {
        match t {
            Term::Num(n) => {
                let gate = b.constant(true)?;
                let mut ps = Vec::new(alloc);
                let leaf = Leaf::Number(*n);
                push(&mut ps, Pick { leaf, gate })?;
                Ok(ps)
            }
            Term::Name(id) => copy_picks(alloc, self.picks_of(*id)),
            Term::Case(all) => self.case_of(alloc, b, all.items()),
            Term::Not(_) | Term::And(_) | Term::Or(_) | Term::Cmp(..) | Term::In(..) => {
                Ok(Vec::new(alloc))
            }
        }
    }

    /// A gate that is true if each term is.
    #[cycle(translation)]
    fn all_of(&self, alloc: Global, b: &mut NetBuilder, all: &[Term]) -> Result<u64, Memory>
        requires open { IsScopeIn b.old self.now }
        requires planned { IsTrue (truths (map (translatable_in self.now) all.now)) }
        ensures extends { ExtendsNet b.old b.new }
        ensures within { IfOk result (λ g. g < length b.new.gates) }
        ensures is { (w : List Bool) (α : Assignment) (cv : ℕ → Leaf) → EncodesScope b.old self.now w α cv →
            IfOk result (λ g. truth b.new g w ≡ each (leaf_holds α) (map (value (leaf_meaning α) cv) all.now)) }
    {
        let mut g = b.constant(true)?;
        for t in all {
            let x = self.truth(alloc, b, t)?;
            g = b.and(g, x)?;
        }
        Ok(g)
    }

    /// A gate that is true if some term is.
    #[cycle(translation)]
    fn any_of(&self, alloc: Global, b: &mut NetBuilder, all: &[Term]) -> Result<u64, Memory>
        requires open { IsScopeIn b.old self.now }
        requires planned { IsTrue (truths (map (translatable_in self.now) all.now)) }
        ensures extends { ExtendsNet b.old b.new }
        ensures within { IfOk result (λ g. g < length b.new.gates) }
        ensures is { (w : List Bool) (α : Assignment) (cv : ℕ → Leaf) → EncodesScope b.old self.now w α cv →
            IfOk result (λ g. truth b.new g w ≡ some (leaf_holds α) (map (value (leaf_meaning α) cv) all.now)) }
    {
        let mut g = b.constant(false)?;
        for t in all {
            let x = self.truth(alloc, b, t)?;
            g = b.or(g, x)?;
        }
        Ok(g)
    }

    /// A gate that is true if the picked leaf equals some member.
    #[cycle(translation)]
    fn member_of(
        &self,
        alloc: Global,
        b: &mut NetBuilder,
        ps: &[Pick],
        all: &[Term],
    ) -> Result<u64, Memory>
        requires open { IsScopeIn b.old self.now }
        requires within { Within (length b.old.gates) ps.now }
        requires planned { IsTrue (members self.now.atoms.now (leaves_of ps.now) (map (translatable_in self.now) all.now)) }
        ensures extends { ExtendsNet b.old b.new }
        ensures within { IfOk result (λ g. g < length b.new.gates) }
        ensures is { (w : List Bool) (α : Assignment) (cv : ℕ → Leaf) (x : Leaf) → EncodesScope b.old self.now w α cv → IsOnlyTaken (at b.old w) ps.now x →
            IfOk result (λ g. truth b.new g w ≡ some (leaf_cmp α Eq x) (map (value (leaf_meaning α) cv) all.now)) }
    {
        let mut g = b.constant(false)?;
        for t in all {
            let qs = self.word(alloc, b, t)?;
            let here = self.compare(b, CmpOp::Eq, ps, qs.as_slice())?;
            g = b.or(g, here)?;
        }
        Ok(g)
    }

    /// The picks of a case list.
    #[cycle(translation)]
    fn case_of(
        &self,
        alloc: Global,
        b: &mut NetBuilder,
        all: &[TermBranch],
    ) -> Result<Vec<Pick>, Memory>
        requires open { IsScopeIn b.old self.now }
        requires planned { IsTrue (branches (map (branch_ready_in self.now) all.now)) }
        ensures extends { ExtendsNet b.old b.new }
        ensures within { IfOk result (λ ps. Within (length b.new.gates) ps.items) }
        ensures leaves { IfOk result (λ ps. leaves_of ps.items ≡ case_leaves [] (map (branch_ready_in self.now) all.now)) }
        ensures is { (w : List Bool) (α : Assignment) (cv : ℕ → Leaf) → EncodesScope b.old self.now w α cv →
            IfOk result (λ ps. IsOnlyTaken (at b.new w) ps.items (picked (leaf_holds α) (Number 0) (map (branch_value (leaf_meaning α) cv) all.now))) }
    {
        let mut out = Vec::new(alloc);
        let mut open = b.constant(true)?;
        for branch in all {
            open = self.branch_of(alloc, b, &mut out, open, branch)?;
            if is_one(&branch.guard) {
                return Ok(out);
            }
        }
        add(b, &mut out, Leaf::Number(0), open)?;
        Ok(out)
    }

    /// Adds the picks of a branch, and returns a gate that is true if no branch so far was taken.
    #[cycle(translation)]
    fn branch_of(
        &self,
        alloc: Global,
        b: &mut NetBuilder,
        out: &mut Vec<Pick>,
        free: u64,
        branch: &TermBranch,
    ) -> Result<u64, Memory>
        requires open { IsScopeIn b.old self.now }
        requires within { Within (length b.old.gates) out.old.items }
        requires gate { free < length b.old.gates }
        requires guard { IsTrue (translatable_in self.now branch.now.guard).truth }
        requires value { IsTrue (translatable_in self.now branch.now.value).word }
        ensures extends { ExtendsNet b.old b.new }
        ensures within { OnOk result (Within (length b.new.gates) out.new.items) }
        ensures gate { IfOk result (λ g. g < length b.new.gates) }
        ensures leaves { OnOk result (leaves_of out.new.items ≡ joined (leaves_of out.old.items) (translatable_in self.now branch.now.value).leaves) }
        ensures shut { (w : List Bool) (α : Assignment) (cv : ℕ → Leaf) → EncodesScope b.old self.now w α cv → leaf_holds α (value (leaf_meaning α) cv branch.now.guard) ≡ true →
            IfOk result (λ g. truth b.new g w ≡ false) }
        ensures is { (w : List Bool) (α : Assignment) (cv : ℕ → Leaf) → EncodesScope b.old self.now w α cv → (r y : Leaf) →
            IfOk result (λ g. leaf_taken (at b.new w) out.new.items y || (truth b.new g w && leaf_eq r y) ≡
            leaf_taken (at b.old w) out.old.items y || (truth b.old free w && leaf_eq (if leaf_holds α (value (leaf_meaning α) cv branch.now.guard) then value (leaf_meaning α) cv branch.now.value else r) y)) }
    {
        let guard = self.truth(alloc, b, &branch.guard)?;
        let ps = self.word(alloc, b, &branch.value)?;
        let here = b.and(free, guard)?;
        add_all(b, out, here, ps.as_slice())?;
        let past = b.not(guard)?;
        b.and(free, past)
    }
}
