//! The tables of signals of the three datapaths.
ghost use Rattle.std.specs.Prelude.{◌≡◌, IfOk};
ghost use Rattle.fault_report.specs.Told.{rows_in};
ghost use Rattle.hcl_types.specs.Tables.{IsSound};
ghost use Rattle.hcl_types.specs.declared.table.Datapath.{Datapath};
ghost use Rattle.seq_plus.specs.Datapaths.{table_rows};

use dp_signals::{law_of_tables, pipe_table};
use fault_report::Tables;
use hcl_types::{Datapath, SequentialDatapath, Table};
use std::alloc::Global;
use y86_base::Memory;

/// The table of a datapath.
pub fn table_of(alloc: Global, path: Datapath) -> Result<Table, Memory>
    ensures rows { IfOk result (λ table. table.rows ≡ table_rows path) }
    ensures sound { IfOk result (λ table. IsSound table.rows) }
{
    law_of_tables();
    match path {
        Datapath::Seq => seq_plus::table_of(alloc, SequentialDatapath::Seq),
        Datapath::SeqPlus => seq_plus::table_of(alloc, SequentialDatapath::SeqPlus),
        Datapath::Pipe => pipe_table(alloc),
    }
}

/// The tables of the three datapaths.
#[tactic(auto, using(crate::proofs::Faultless::each_table))]
pub fn tables(alloc: Global) -> Result<Tables, Memory>
    ensures seq { IfOk result (λ t. IsSound t.seq.rows) }
    ensures seq_plus { IfOk result (λ t. IsSound t.seq_plus.rows) }
    ensures pipe { IfOk result (λ t. IsSound t.pipe.rows) }
    ensures rows { IfOk result (λ t. (path : Datapath) → rows_in t path ≡ table_rows path) }
{
    let seq = table_of(alloc, Datapath::Seq)?;
    let seq_plus = table_of(alloc, Datapath::SeqPlus)?;
    let pipe = table_of(alloc, Datapath::Pipe)?;
    Ok(Tables {
        seq,
        seq_plus,
        pipe,
    })
}
