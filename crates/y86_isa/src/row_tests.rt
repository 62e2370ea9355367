//! Tests on the columns of a row of the instruction table, for the datapaths.
ghost use Rattle.std.specs.Prelude.{◌≡◌};
ghost use Rattle.y86_isa.specs.Blocks as blocks;
ghost use Rattle.y86_isa.specs.RowTests as tests;

use crate::columns::{AluAColumn, MemoryColumn, NextPcColumn, RegisterColumn, Row};

/// Whether an instruction with this column reads or writes a word of memory.
pub fn accesses(memory: MemoryColumn) -> bool
    ensures { result ≡ tests.accesses memory }
{
    !matches!(memory, MemoryColumn::NoMem)
}

/// Whether an instruction with this column reads a word of memory.
pub fn is_load(memory: MemoryColumn) -> bool
    ensures { result ≡ blocks.is_load memory }
{
    matches!(memory, MemoryColumn::LoadE | MemoryColumn::LoadA)
}

/// Whether an instruction with this column writes a word of memory.
pub fn is_store(memory: MemoryColumn) -> bool
    ensures { result ≡ blocks.is_store memory }
{
    matches!(memory, MemoryColumn::StoreA | MemoryColumn::StoreP)
}

/// Whether the word that is written is valA.
pub fn stores_val_a(memory: MemoryColumn) -> bool
    ensures { result ≡ tests.stores_val_a memory }
{
    matches!(memory, MemoryColumn::StoreA)
}

/// Whether the word that is written is valP, as in a `call`.
pub fn stores_val_p(memory: MemoryColumn) -> bool
    ensures { result ≡ tests.stores_val_p memory }
{
    matches!(memory, MemoryColumn::StoreP)
}

/// Whether the word that is read is at valA, as in a `ret` or a `popq`.
pub fn address_is_val_a(memory: MemoryColumn) -> bool
    ensures { result ≡ tests.address_is_val_a memory }
{
    matches!(memory, MemoryColumn::LoadA)
}

/// Whether an instruction with this column is a jump.
pub fn next_is_branch(next: NextPcColumn) -> bool
    ensures { result ≡ tests.next_is_branch next }
{
    matches!(next, NextPcColumn::Branch)
}

/// Whether an instruction with this column takes its next PC from memory, as a `ret` does.
pub fn next_is_val_m(next: NextPcColumn) -> bool
    ensures { result ≡ tests.next_is_val_m next }
{
    matches!(next, NextPcColumn::Loaded)
}

/// Whether the column names the register field `rB`.
pub fn is_field_b(field: RegisterColumn) -> bool
    ensures { result ≡ tests.is_field_b field }
{
    matches!(field, RegisterColumn::FieldB)
}

/// Whether the ALU has a first operand.
pub fn has_operand_a(column: AluAColumn) -> bool
    ensures { result ≡ tests.has_operand_a column }
{
    !matches!(column, AluAColumn::NoA)
}

/// Whether a pipeline carries valP on to the memory stage in the place of valA, for a `call` or a jump.
pub fn select_a_is_val_p(row: &Row) -> bool
    ensures { result ≡ tests.select_a_is_val_p row.now }
{
    stores_val_p(row.memory) || next_is_branch(row.next)
}

/// Whether a pipeline carries valA itself on to the memory stage.
pub fn select_a_is_val_a(row: &Row) -> bool
    ensures { result ≡ tests.select_a_is_val_a row.now }
{
    stores_val_a(row.memory) || address_is_val_a(row.memory)
}
