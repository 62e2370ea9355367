//! Boxes that contracts see as their values, so that proofs about trees needn't mention memory.
ghost use Rattle.std.specs.Prelude.{◌≡◌, IfOk};

use crate::parts::Memory;
use std::alloc::Global;
use std::marker::Model;

/// A `Box` that contracts see as its value. Trees are compared by their contents, all the way down: neither address
/// nor allocator counts.
#[derive(Debug, Drop)]
pub struct Boxed<T> {
    inner: Box<T>,
}

impl<T> Model for Boxed<T> {
    ghost Value = { T };

    ghost coded = { T.code };

    ghost view = { λ it. it.inner.value };
}

impl<T: Drop> Boxed<T> {
    /// Puts a value into memory of its own.
    pub fn of(alloc: Global, value: T) -> Result<Boxed<T>, Memory>
        ensures { IfOk result (λ it. it ≡ value) }
    {
        match Box::new(alloc, value) {
            Ok(inner) => Ok(Boxed { inner }),
            Err(_) => Err(Memory),
        }
    }
}

impl<T> Boxed<T> {
    /// Borrows the value.
    pub fn get(&self) -> &T
        ensures { result.now ≡ self.now }
    {
        &self.inner
    }

    /// Moves the value out.
    pub fn into_inner(self) -> T
        ensures { result ≡ self }
    {
        let Boxed { inner } = self;
        Box::into_inner(inner)
    }
}

impl<T: PartialEq> PartialEq for Boxed<T> {
    ghost eq = { T.eq };

    ghost laws = { T.laws };

    fn eq(&self, other: &Boxed<T>) -> bool {
        self.get() == other.get()
    }
}
