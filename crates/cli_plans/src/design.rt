//! The design stage: reads an HCL text, binds it over a table, and finds an order of its signals; and names of rows for
//! messages.
ghost use Rattle.std.specs.Prelude.{◌≡◌, ◌≢◌, ◌++◌, ◌∷◌, [], List, ℕ, IfOk, OnOk, map};
ghost use Rattle.dp_signals.specs.PipeTable.{pipe_rows};
ghost use Rattle.hcl_types.specs.Tables.{IsBoundDesign, IsSound, row_names};
ghost use Rattle.hcl_binding.specs.declared.fault.BindWhy.TheVariants.{Memory as OutOfMemory};
ghost use Rattle.cli_plans.specs.Stages.{hcl_limit};
ghost use Rattle.seq_plus.specs.Datapaths.{rows_of};
ghost use Rattle.hcl_design.specs.Designs.{IsDesign};
ghost use Rattle.cli_plans.specs.Designs.{RefusesDesign};
ghost use Rattle.cli_plans.specs.PlanFollowing.{IsStageResultIn, IsReadResultIn, OnFiles, RefusesWith};
ghost use Rattle.cli_plans.specs.Lines as text;
ghost use Rattle.cli_plans.specs.Plan.{refused};

use crate::stages::{HCL_LIMIT, read_file, read_hcl};
use crate::stop_reason::{InputFault, StopReason};
use dp_signals::{law_of_tables, pipe_table};
use hcl_binding::{BindFault, BindWhy, bind};
use hcl_order::{OrderFault, order};
use hcl_types::{BoundDesign, OrderedDesign, Row, SequentialDatapath, Table};
use seq_plus::table_of;
use std::alloc::{AllocError, Global};
use wb_io::Files;

/// The name of a reason of binding.
fn reason(why: BindWhy) -> &'static [u8]
    ensures { result.now ≡ text.bind_reason why }
{
    match why {
        BindWhy::Unknown => b"Unknown",
        BindWhy::Twice => b"Twice",
        BindWhy::Missing => b"Missing",
        BindWhy::KindMismatch => b"KindMismatch",
        BindWhy::Redefines => b"Redefines",
        BindWhy::Memory => b"Memory",
    }
}

/// Puts a blank and a name after other names.
fn put_name(names: &mut Vec<u8>, name: &[u8]) -> Result<(), AllocError>
    ensures { OnOk result (names.new.items ≡ names.old.items ++ (32 ∷ name.now)) }
{
    if names.push(b' ').is_err() {
        return Err(AllocError);
    }
    match names.extend_from_slice(name) {
        Ok(()) => Ok(()),
        Err(_) => Err(AllocError),
    }
}

/// One name after a blank.
fn one_name(alloc: Global, name: &[u8]) -> Result<Vec<u8>, AllocError>
    ensures { IfOk result (λ names. names.items ≡ text.blank_names (name.now ∷ [])) }
{
    let mut names = Vec::new(alloc);
    put_name(&mut names, name)?;
    Ok(names)
}

/// The name of a row.
fn name_at(rows: &[Row], id: u32) -> &[u8]
    ensures { text.names_at (row_names rows.now) (id ∷ []) ≡ result.now ∷ [] }
{
    match rows.get(id as usize) {
        Some(row) => row.name.bytes(),
        None => b"",
    }
}

/// The names of rows, each after a blank.
pub fn all_names(alloc: Global, rows: &[Row], ids: &[u32]) -> Result<Vec<u8>, AllocError>
    ensures { IfOk result (λ names. names.items ≡ text.blank_names (text.names_at (row_names rows.now) ids.now)) }
{
    let mut names = Vec::new(alloc);
    for id in ids {
        match put_name(&mut names, name_at(rows, *id)) {
            Ok(()) => {}
            Err(_) => return Err(AllocError),
        }
    }
    Ok(names)
}

/// The stop at a fault of binding.
fn bind_stop<'a>(alloc: Global, name: &'a str, fault: BindFault) -> StopReason<'a>
    ensures { RefusesWith (λ a. (fault.why ≢ OutOfMemory) × (a ≡ refused 5 (text.bind_fault_line name.now fault))) result }
{
    let why = match fault.why {
        BindWhy::Memory => return StopReason::Memory,
        why => reason(why),
    };
    match one_name(alloc, fault.name.bytes()) {
        Ok(names) => StopReason::Refused(name, InputFault::OfNames { why, names }),
        Err(_) => StopReason::Memory,
    }
}

/// The stop at a cycle of rows.
fn cycle_stop<'a>(alloc: Global, name: &'a str, rows: &[Row], ids: &[u32]) -> StopReason<'a>
    ensures { RefusesWith (λ a. a ≡ refused 5 (text.cycle_line name.now (text.names_at (row_names rows.now) ids.now))) result }
{
    match all_names(alloc, rows, ids) {
        Ok(names) => StopReason::Refused(
            name,
            InputFault::OfNames {
                why: b"Cycle",
                names,
            },
        ),
        Err(_) => StopReason::Memory,
    }
}

/// The design of an HCL text over a table, with an order of its signals. `name` is the file's name, for messages.
#[tactic(auto, using(crate::proofs::Designs::unread, crate::proofs::Designs::unbound, crate::proofs::Designs::unordered, crate::proofs::Designs::ordered))]
pub fn ordered_design<'a>(
    alloc: Global,
    name: &'a str,
    source: &[u8],
    table: Table,
) -> Result<BoundDesign, StopReason<'a>>
    requires { IsSound table.rows }
    ensures design { IsStageResultIn (IsDesign table.rows source.now) (RefusesDesign name.now table.rows source.now) (λ bound. bound.ordered.design.terms) result }
    ensures ordered { IfOk result (IsBoundDesign table.rows) }
{
    let file = match read_hcl(alloc, name, source) {
        Ok(file) => file,
        Err(stop) => return Err(stop),
    };
    let design = match bind(alloc, &file, &table) {
        Ok(design) => design,
        Err(fault) => return Err(bind_stop(alloc, name, fault)),
    };
    match order(alloc, &design, &table) {
        Ok(order) => Ok(BoundDesign {
            table,
            ordered: OrderedDesign { design, order },
        }),
        Err(OrderFault::Cycle(ids)) => {
            Err(cycle_stop(alloc, name, table.rows.items(), ids.items()))
        }
        Err(OrderFault::Memory) => Err(StopReason::Memory),
    }
}

/// The design of an HCL text over the table of a sequential datapath, with an order of its signals. `name` is the
/// file's name, for messages.
pub fn seq_design<'a>(
    alloc: Global,
    which: SequentialDatapath,
    name: &'a str,
    source: &[u8],
) -> Result<BoundDesign, StopReason<'a>>
    ensures design { IsStageResultIn (IsDesign (rows_of which) source.now) (RefusesDesign name.now (rows_of which) source.now) (λ bound. bound.ordered.design.terms) result }
    ensures ordered { IfOk result (IsBoundDesign (rows_of which)) }
{
    let Ok(table) = table_of(alloc, which) else {
        return Err(StopReason::Memory);
    };
    ordered_design(alloc, name, source, table)
}

/// The design of an HCL text over PIPE's table, with an order of its signals. `name` is the file's name, for messages.
pub fn pipe_design<'a>(
    alloc: Global,
    name: &'a str,
    source: &[u8],
) -> Result<BoundDesign, StopReason<'a>>
    ensures design { IsStageResultIn (IsDesign pipe_rows source.now) (RefusesDesign name.now pipe_rows source.now) (λ bound. bound.ordered.design.terms) result }
    ensures ordered { IfOk result (IsBoundDesign pipe_rows) }
{
    law_of_tables();
    let Ok(table) = pipe_table(alloc) else {
        return Err(StopReason::Memory);
    };
    ordered_design(alloc, name, source, table)
}

/// The design of an HCL file over the table of a sequential datapath, with the table and an order of its signals.
pub fn seq_file<'a, F: Files>(
    alloc: Global,
    which: SequentialDatapath,
    name: &'a str,
    files: &mut F,
) -> Result<BoundDesign, StopReason<'a>>
    ensures design { OnFiles F.told F.faults (IsReadResultIn name.now hcl_limit (IsDesign (rows_of which)) (RefusesDesign name.now (rows_of which)) (λ bound. bound.ordered.design.terms))
        files.old files.new result }
    ensures ordered { IfOk result (IsBoundDesign (rows_of which)) }
{
    match read_file(alloc, name, HCL_LIMIT, files) {
        Ok(source) => seq_design(alloc, which, name, source.as_slice()),
        Err(stop) => Err(stop),
    }
}

/// The design of an HCL file over PIPE's table, with the table and an order of its signals.
pub fn pipe_file<'a, F: Files>(
    alloc: Global,
    name: &'a str,
    files: &mut F,
) -> Result<BoundDesign, StopReason<'a>>
    ensures design { OnFiles F.told F.faults (IsReadResultIn name.now hcl_limit (IsDesign pipe_rows) (RefusesDesign name.now pipe_rows) (λ bound. bound.ordered.design.terms))
        files.old files.new result }
    ensures ordered { IfOk result (IsBoundDesign pipe_rows) }
{
    match read_file(alloc, name, HCL_LIMIT, files) {
        Ok(source) => pipe_design(alloc, name, source.as_slice()),
        Err(stop) => Err(stop),
    }
}
