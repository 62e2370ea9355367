//! The tables of signals of sequential datapaths.
ghost use Rattle.std.specs.Prelude.{◌≡◌, ◌++◌, IfOk, OnOk, map};
ghost use Rattle.dp_signals.specs.Lines.{row_of};
ghost use Rattle.dp_signals.specs.SequentialTables as spec;

use crate::tables::{RowSource, TableRow, put_constants, put_lines};
use hcl_types::{Class, Row, Table};
use std::alloc::Global;
use y86_base::{Items, Memory};

/// The lines for what hardware computes, in a table with the rows `$rows`. The fields that are read after an
/// instruction's first byte also depend on the rows in brackets.
#[macro_export]
macro_rules! hardware_lines {
    ($rows:expr, [$($pc:expr),*]) => {
        [
            TableRow(b"imem_icode", Class::Code, RowSource::Hardware(&[$rows.pc])),
            TableRow(b"imem_ifun", Class::Code, RowSource::Hardware(&[$rows.pc])),
            TableRow(b"imem_error", Class::Truth, RowSource::Hardware(&[$rows.pc])),
            TableRow(b"rA", Class::Code, RowSource::Hardware(&[$($pc,)* $rows.need_regids])),
            TableRow(b"rB", Class::Code, RowSource::Hardware(&[$($pc,)* $rows.need_regids])),
            TableRow(b"valC", Class::Value, RowSource::Hardware(&[$($pc,)* $rows.need_regids, $rows.need_val_c])),
            TableRow(b"valP", Class::Value, RowSource::Hardware(&[$($pc,)* $rows.need_regids, $rows.need_val_c])),
            TableRow(b"valA", Class::Value, RowSource::Hardware(&[$rows.src_a])),
            TableRow(b"valB", Class::Value, RowSource::Hardware(&[$rows.src_b])),
            TableRow(b"valE", Class::Value, RowSource::Hardware(&[$rows.alu_a, $rows.alu_b, $rows.alufun])),
            TableRow(b"Cnd", Class::Truth, RowSource::Hardware(&[$rows.ifun])),
            TableRow(b"valM", Class::Value, RowSource::Hardware(&[$rows.mem_addr, $rows.mem_read])),
            TableRow(b"dmem_error", Class::Truth, RowSource::Hardware(&[$rows.mem_addr, $rows.mem_read, $rows.mem_write])),
        ]
    };
}

static CONTROL: &[TableRow] = &[
    TableRow(b"icode", Class::Code, RowSource::Defined),
    TableRow(b"ifun", Class::Code, RowSource::Defined),
    TableRow(b"instr_valid", Class::Truth, RowSource::Defined),
    TableRow(b"need_regids", Class::Truth, RowSource::Defined),
    TableRow(b"need_valC", Class::Truth, RowSource::Defined),
    TableRow(b"srcA", Class::Code, RowSource::Defined),
    TableRow(b"srcB", Class::Code, RowSource::Defined),
    TableRow(b"dstE", Class::Code, RowSource::Defined),
    TableRow(b"dstM", Class::Code, RowSource::Defined),
    TableRow(b"aluA", Class::Value, RowSource::Defined),
    TableRow(b"aluB", Class::Value, RowSource::Defined),
    TableRow(b"alufun", Class::Code, RowSource::Defined),
    TableRow(b"set_cc", Class::Truth, RowSource::Defined),
    TableRow(b"mem_addr", Class::Value, RowSource::Defined),
    TableRow(b"mem_read", Class::Truth, RowSource::Defined),
    TableRow(b"mem_write", Class::Truth, RowSource::Defined),
    TableRow(b"mem_data", Class::Value, RowSource::Defined),
    TableRow(b"Stat", Class::Code, RowSource::Defined),
];

/// Adds the rows that a file defines for the instruction's control.
#[tactic(auto, unfolding(crate::specs::SequentialTables::control_rows))]
fn put_control(alloc: Global, rows: &mut Vec<Row>) -> Result<(), Memory>
    ensures { OnOk result (rows.new.items ≡ rows.old.items ++ spec.control_rows) }
{
    put_lines(alloc, rows, CONTROL)
}

/// The table of a sequential datapath: the constants, the signals of the state, those that hardware computes, and those
/// that a file defines: the ones before the instruction's control, the control, and the ones after it.
pub fn sequential_table(
    alloc: Global,
    held: &[TableRow],
    hardware: &[TableRow],
    before: &[TableRow],
    behind: &[TableRow],
) -> Result<Table, Memory>
    ensures { IfOk result (λ table. table.rows
        ≡ spec.table_of (map row_of held.now) (map row_of hardware.now) (map row_of before.now) (map row_of behind.now)) }
{
    let mut rows = Vec::new(alloc);
    put_constants(alloc, &mut rows)?;
    put_lines(alloc, &mut rows, held)?;
    put_lines(alloc, &mut rows, hardware)?;
    put_lines(alloc, &mut rows, before)?;
    put_control(alloc, &mut rows)?;
    put_lines(alloc, &mut rows, behind)?;
    Ok(Table {
        rows: Items::of(rows),
    })
}
