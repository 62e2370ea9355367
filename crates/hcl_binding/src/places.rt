//! The positions of the names of a table.
ghost use Rattle.std.specs.Prelude.{◌≡◌, ◌<◌, ◌^◌, IfOk, length};
ghost use Rattle.hcl_binding.specs.Binding.{place};
ghost use Rattle.hcl_types.specs.Lists.{IsApart};
ghost use Rattle.hcl_types.specs.Tables.{row_names};

use hcl_types::{NameId, Row};
use indexmap::IndexSet;
use std::alloc::{AllocError, Global};
use std::marker::Model;

/// The names of a table, each at the position of its row.
#[derive(Drop)]
pub struct NameIndex {
    names: IndexSet<Vec<u8>>,
}

impl Model for NameIndex {
    ghost use Rattle.std.specs.Prelude.{◌<◌, ◌^◌, List, ℕ, length, map};
    ghost use Rattle.hcl_binding.specs.Places.{bytes_of};

    ghost Value = { List (List ℕ) };

    ghost view = { λ places. map bytes_of places.names.keys };

    ghost invariant = { λ places. length places.names.keys < 2 ^ 32 };
}

impl NameIndex {
    /// The names of these rows.
    pub fn of(alloc: Global, rows: &[Row]) -> Result<NameIndex, AllocError>
        requires few { length rows.now < 2 ^ 32 }
        requires apart { IsApart (row_names rows.now) }
        ensures { IfOk result (λ places. places ≡ row_names rows.now) }
    {
        let mut names = IndexSet::new(alloc);
        for row in rows {
            let name = Vec::from_slice(alloc, row.name.bytes())?;
            names.insert(name)?;
        }
        Ok(NameIndex { names })
    }

    /// The position of the row of a name.
    pub fn find(&self, name: &[u8]) -> Option<NameId>
        ensures { result ≡ place self.now name.now }
    {
        match self.names.get_index_of(name) {
            Some(index) => Some(index as u32),
            None => None,
        }
    }
}
