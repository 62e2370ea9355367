//! SEQ+'s table of signals, to which an HCL file for SEQ+ is bound.
ghost use Rattle.std.specs.Prelude.{◌≡◌, IfOk};
ghost use Rattle.seq_plus.specs.PlusTable as spec;

use crate::row::PLUS;
use dp_signals::{RowSource, TableRow, hardware_lines, sequential_table};
use hcl_types::{Class, Table};
use std::alloc::Global;
use y86_base::Memory;

static STATE: &[TableRow] = &[
    TableRow(b"pIcode", Class::Code, RowSource::State),
    TableRow(b"pCnd", Class::Truth, RowSource::State),
    TableRow(b"pValM", Class::Value, RowSource::State),
    TableRow(b"pValC", Class::Value, RowSource::State),
    TableRow(b"pValP", Class::Value, RowSource::State),
];

static HARDWARE: &[TableRow] = &hardware_lines!(PLUS, [PLUS.pc]);

static PC: &[TableRow] = &[TableRow(b"pc", Class::Value, RowSource::Defined)];

/// The table of SEQ+'s signals: the constants, the signals that the state holds, those that hardware computes, and those that an HCL file
/// defines.
#[tactic(auto, unfolding(crate::specs::PlusTable::plus_rows, crate::specs::PlusTable::plus_state, crate::specs::PlusTable::plus_hardware, crate::specs::PlusTable::plus_defined, dp_signals::specs::SequentialTables::control_rows))]
pub fn plus_table(alloc: Global) -> Result<Table, Memory>
    ensures { IfOk result (λ table. table.rows ≡ spec.plus_rows) }
{
    sequential_table(alloc, STATE, HARDWARE, PC, &[])
}
