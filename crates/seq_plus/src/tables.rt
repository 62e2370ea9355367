//! The tables of the two sequential datapaths.
ghost use Rattle.std.specs.Prelude.{◌≡◌, IfOk};
ghost use Rattle.hcl_types.specs.Tables.{IsSound};
ghost use Rattle.seq_plus.specs.Datapaths.{rows_of};

use crate::laws::law_of_table;
use crate::table::plus_table;
use dp_signals::{law_of_tables, seq_table};
use hcl_types::{SequentialDatapath, Table};
use std::alloc::Global;
use y86_base::Memory;

/// The table of a sequential datapath.
pub fn table_of(alloc: Global, which: SequentialDatapath) -> Result<Table, Memory>
    ensures rows { IfOk result (λ table. table.rows ≡ rows_of which) }
    ensures sound { IfOk result (λ table. IsSound table.rows) }
{
    law_of_tables();
    law_of_table();
    match which {
        SequentialDatapath::Seq => seq_table(alloc),
        SequentialDatapath::SeqPlus => plus_table(alloc),
    }
}
