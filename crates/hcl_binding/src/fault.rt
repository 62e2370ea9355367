//! Why a file can't be bound to a table.
ghost use Rattle.std.specs.Prelude.{◌≡◌, ◌≢◌, []};
ghost use Rattle.hcl_binding.specs.Binding.{fault};
ghost use Rattle.hcl_binding.specs.declared.fault.BindWhy.TheVariants.{Memory as OutOfMemory};

use hcl_tree::Text;
use std::alloc::Global;
use thiserror::Error;

/// Why a file gives no design over a table.
#[derive(Clone, Copy, Debug, PartialEq, Eq, Error)]
pub enum BindWhy {
    /// A name that isn't in the table is declared, defined or used.
    #[error("Unknown")]
    Unknown,
    /// A name is defined a second time.
    #[error("Twice")]
    Twice,
    /// A name that the file must define has no definition.
    #[error("Missing")]
    Missing,
    /// A declaration, a definition or its body has another kind than the row.
    #[error("KindMismatch")]
    KindMismatch,
    /// A definition of a constant, a field of the state or a hardware name.
    #[error("Redefines")]
    Redefines,
    /// An allocation was refused.
    #[error("Memory")]
    Memory,
}

/// The first fault of a file over a table, and the name that it is about. For `KindMismatch` this is the name that
/// is declared or defined. If memory runs out, it is empty.
#[derive(Debug, PartialEq, Drop)]
pub struct BindFault {
    pub why: BindWhy,
    pub name: Text,
}

impl BindFault {
    /// Out of memory.
    pub fn memory(alloc: Global) -> BindFault
        ensures { result ≡ fault OutOfMemory [] }
    {
        BindFault {
            why: BindWhy::Memory,
            name: Text::empty(alloc),
        }
    }

    /// A fault about a name, or out of memory for the copy of the name.
    pub fn of(alloc: Global, why: BindWhy, name: &Text) -> BindFault
        ensures { result.why ≢ OutOfMemory → result ≡ fault why name.now }
    {
        match name.copy(alloc) {
            Ok(name) => BindFault { why, name },
            Err(_) => BindFault::memory(alloc),
        }
    }
}
