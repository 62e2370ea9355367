//! The labels of a source, with their addresses.
ghost use Rattle.std.specs.Prelude.{◌≡◌, ◌∷◌, ◌++◌, [], length, map, OnOk, None};
ghost use Rattle.yas_asm.specs.LabelMap.{named};
ghost use Rattle.y86_base.specs.Keyword.{meaning_of};
ghost use Rattle.yas_asm.specs.Assembly as assembly;

use indexmap::IndexMap;
use std::alloc::{AllocError, Global};
use std::marker::Model;

/// The largest number of labels.
pub const LABEL_LIMIT: usize = 65_535;

/// The table of labels by their names.
type Table = IndexMap<Vec<u8>, u64>;

/// The address of a name in a table.
#[tactic(auto, using(crate::proofs::LabelLemmas::lookup_named))]
fn find(table: &Table, name: &[u8]) -> Option<u64>
    ensures { result ≡ meaning_of (map named table.now.entries) name.now }
{
    table.get(name).copied()
}

/// Puts a name that isn't in a table into it.
fn put(table: &mut Table, name: Vec<u8>, address: u64) -> Result<(), AllocError>
    requires { meaning_of (map named table.old.entries) name.items ≡ None }
    ensures { OnOk result (map named table.new.entries ≡ map named table.old.entries ++ (name.items, address) ∷ []) }
{
    table.insert(name, address)?;
    Ok(())
}

/// The labels of a source with their addresses, in the order of their definitions.
#[derive(Drop)]
pub struct Labels {
    table: IndexMap<Vec<u8>, u64>,
}

impl Model for Labels {
    ghost use Rattle.std.specs.Prelude.{List, ℕ, map};
    ghost use Rattle.yas_asm.specs.LabelMap.{named};

    ghost Value = { List (List ℕ × ℕ) };

    ghost view = { λ labels. map named labels.table.entries };
}

impl Labels {
    /// No labels.
    pub fn new(alloc: Global) -> Labels
        ensures { result ≡ [] }
    {
        Labels {
            table: IndexMap::new(alloc),
        }
    }

    /// How many labels there are.
    pub fn len(&self) -> usize
        ensures { result ≡ length self.now }
    {
        self.table.len()
    }

    /// The address of a label, if it is defined.
    pub fn address_of(&self, name: &[u8]) -> Option<u64>
        ensures { result ≡ meaning_of self.now name.now }
    {
        find(&self.table, name)
    }

    /// Defines a label, unless it is defined already or the number of labels is at its limit.
    #[tactic(auto, unfolding(crate::specs::Assembly::with_name))]
    pub fn define(&mut self, alloc: Global, name: &[u8], address: u64) -> Result<(), AllocError>
        ensures { OnOk result (self.new ≡ assembly.with_name self.old name.now address) }
    {
        if self.table.len() < LABEL_LIMIT && find(&self.table, name).is_none() {
            let key = Vec::from_slice(alloc, name)?;
            put(&mut self.table, key, address)?;
        }
        Ok(())
    }
}
