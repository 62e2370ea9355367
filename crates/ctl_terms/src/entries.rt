//! The entry of a name, from its definition.
ghost use Rattle.std.specs.Prelude.{◌≡◌, ◌<◌, ◌-◌, true, false, length, List, Bool, ℕ, IfOk, IsTrue};
ghost use Rattle.nets.specs.Nets.{ExtendsNet};
ghost use Rattle.hcl_types.specs.Kinds.{is_truth};
ghost use Rattle.hcl_types.specs.Terms.{value};
ghost use Rattle.ctl_atoms.specs.declared.leaf.Leaf.{Leaf};
ghost use Rattle.ctl_atoms.specs.Leaves.{Assignment, leaf_meaning};
ghost use Rattle.ctl_atoms.specs.Rows.{defined_leaves};
ghost use Rattle.ctl_picks.specs.TakenPicks.{at};
ghost use Rattle.ctl_picks.specs.Entries.{EntryEncodes, EntryWithin, IsEntryOf};
ghost use Rattle.ctl_terms.specs.Translatable.{IsScopeIn, EncodesScope, translatable_in};

use crate::scope::Scope;
use ctl_picks::Entry;
use hcl_types::{Class, Term};
use nets::NetBuilder;
use std::alloc::Global;
use y86_base::{Items, Memory};

impl<'a> Scope<'a> {
    /// The entry of a name of the class, from the term that defines it.
    pub fn defined_entry(
        &self,
        alloc: Global,
        b: &mut NetBuilder,
        class: Class,
        t: &Term,
    ) -> Result<Entry, Memory>
        requires open { IsScopeIn b.old self.now }
        requires truth { is_truth class ≡ true → IsTrue (translatable_in self.now t.now).truth }
        requires word { is_truth class ≡ false → IsTrue (translatable_in self.now t.now).word }
        ensures extends { ExtendsNet b.old b.new }
        ensures within { IfOk result (EntryWithin (length b.new.gates)) }
        ensures entry { IfOk result (IsEntryOf class (defined_leaves class (translatable_in self.now t.now).leaves)) }
        ensures is { (w : List Bool) (α : Assignment) (cv : ℕ → Leaf) → EncodesScope b.old self.now w α cv →
            IfOk result (λ e. EntryEncodes (at b.new w) α e (value (leaf_meaning α) cv t.now)) }
    {
        match class {
            Class::Truth => {
                let g = self.truth(alloc, b, t)?;
                Ok(Entry::Truth(g))
            }
            Class::Number => {
                let ps = self.word(alloc, b, t)?;
                Ok(Entry::Picks(Items::of(ps)))
            }
            Class::Code => {
                let ps = self.word(alloc, b, t)?;
                Ok(Entry::Picks(Items::of(ps)))
            }
            Class::Value => {
                let ps = self.word(alloc, b, t)?;
                Ok(Entry::Picks(Items::of(ps)))
            }
        }
    }
}
