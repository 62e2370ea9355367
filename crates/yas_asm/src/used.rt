//! The addresses to which bytes were emitted, so that no two lines emit to the same address.
ghost use Rattle.std.specs.Prelude.{◌≡◌, ◌++◌, ◌∷◌, ◌+◌, ◌^◌, ◌<◌, [], OnOk};
ghost use Rattle.std.specs.List.{list_any, range_with_len};
ghost use Rattle.std.specs.Prelude.{false, nat_eq};
ghost use Rattle.yas_asm.specs.Assembly as assembly;

use indexmap::IndexSet;
use std::alloc::{AllocError, Global};
use std::marker::Model;

/// The addresses that have a byte, in the order in which the bytes were emitted.
#[derive(Drop)]
pub struct UsedRanges {
    set: IndexSet<u64>,
}

impl Model for UsedRanges {
    ghost use Rattle.std.specs.Prelude.{List, ℕ};

    ghost Value = { List ℕ };

    ghost view = { λ used. used.set.keys };
}

impl UsedRanges {
    /// No addresses.
    pub fn new(alloc: Global) -> UsedRanges
        ensures { result ≡ [] }
    {
        UsedRanges {
            set: IndexSet::new(alloc),
        }
    }

    /// Whether an address has a byte.
    fn has(&self, address: u64) -> bool
        ensures { result ≡ list_any (nat_eq address) self.now }
    {
        self.set.contains(&address)
    }

    /// Adds an address that has no byte yet.
    fn add(&mut self, address: u64) -> Result<(), AllocError>
        requires { list_any (nat_eq address) self.old ≡ false }
        ensures { OnOk result (self.new ≡ self.old ++ address ∷ []) }
    {
        self.set.insert(address)?;
        Ok(())
    }
}

/// Whether at least one of `count` bytes from an address on is at an address that has a byte.
#[tactic(auto, using(crate::proofs::UsedLemmas::overlapping))]
pub fn overlaps(used: &UsedRanges, address: u64, count: u64) -> bool
    requires { address + count < 2 ^ 64 }
    ensures { result ≡ assembly.overlaps used.now address count }
{
    let mut at = address;
    let mut left = count;
    while left > 0 {
        if used.has(at) {
            return true;
        }
        at += 1;
        left -= 1;
    }
    false
}

/// Adds the addresses of `count` bytes from an address on, none of which has a byte yet.
#[tactic(auto, using(crate::proofs::UsedLemmas::adding))]
pub fn add_range(used: &mut UsedRanges, address: u64, count: u64) -> Result<(), AllocError>
    requires fits { address + count < 2 ^ 64 }
    requires free { assembly.overlaps used.old address count ≡ false }
    ensures { OnOk result (used.new ≡ used.old ++ range_with_len address count) }
{
    let mut at = address;
    let mut left = count;
    while left > 0 {
        used.add(at)?;
        at += 1;
        left -= 1;
    }
    Ok(())
}
