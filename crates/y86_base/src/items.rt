//! Lists: one more element at the end, and lists that contracts see as their elements, so that proofs needn't mention
//! memory.
ghost use Rattle.std.specs.Prelude.{◌≡◌, ◌++◌, ◌∷◌, [], OnOk};

use crate::parts::Memory;
use std::marker::Model;

/// Adds an element at the end of a list.
pub fn push<T: Drop>(list: &mut Vec<T>, last: T) -> Result<(), Memory>
    ensures { OnOk result (list.new.items ≡ list.old.items ++ last ∷ []) }
{
    match list.push(last) {
        Ok(()) => Ok(()),
        Err(_) => Err(Memory),
    }
}

/// A `Vec` that contracts see as the list of its elements. Values are compared by their elements, all the way down:
/// neither capacity nor allocator counts.
#[derive(Debug, Drop)]
pub struct Items<T> {
    inner: Vec<T>,
}

impl<T> Model for Items<T> {
    ghost use Rattle.std.specs.Prelude.{List};
    ghost use Rattle.std.specs.Coded.{coded_list};

    ghost Value = { List T };

    ghost coded = { coded_list T.code };

    ghost view = { λ it. it.inner.items };
}

impl<T> Items<T> {
    ghost use Rattle.std.specs.Borrow.{sem};
    ghost use Rattle.y86_base.specs.Lending.{LendsItems};

    /// Wraps a `Vec`.
    pub fn of(v: Vec<T>) -> Items<T>
        ensures { result ≡ v.items }
    {
        Items { inner: v }
    }

    /// Borrows the elements.
    pub fn items(&self) -> &[T]
        ensures { result.now ≡ self.now }
    {
        self.inner.as_slice()
    }

    /// Borrows the elements to write them one by one.
    pub fn items_mut(&mut self) -> &mut [T]
        ensures* writes_back { sem 𝓛 (LendsItems T.row self.entry result) }
        ensures value { result.now ≡ self.old }
    {
        self.inner.as_mut_slice()
    }

    /// Unwraps the `Vec`.
    pub fn into_vec(self) -> Vec<T>
        ensures { result.items ≡ self }
    {
        let Items { inner } = self;
        inner
    }
}

impl<T: PartialEq> PartialEq for Items<T> {
    ghost use Rattle.std.specs.Cmp.Lexicographic.{lists_per, pointwise};

    ghost eq = { pointwise T.eq };

    ghost laws = { lists_per T.laws };

    fn eq(&self, other: &Items<T>) -> bool {
        self.inner.as_slice() == other.inner.as_slice()
    }
}
