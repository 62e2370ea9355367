//! The faults of an HCL text, for a given datapath or for the one whose names fit best.
ghost use Rattle.std.specs.Prelude.{◌≡◌, ◌↔◌, [], IfOk, true};
ghost use Rattle.hcl_types.specs.Tables.{IsSound};
ghost use Rattle.hcl_types.specs.declared.table.Datapath.{Datapath};
ghost use Rattle.hcl_design.specs.Designs.{HasDesign};
ghost use Rattle.hcl_faults.specs.Stops.{IsStopped};
ghost use Rattle.fault_report.specs.declared.facts.Tables.{Tables};
ghost use Rattle.fault_report.specs.Told.{IsWanted, ReportsHcl, rows_in};

use crate::binding_faults::{Source, count_unknown, datapath_fault, table_faults};
use crate::facts::{Fault, Report, Tables};
use crate::hcl_reading::reading_fault;
use hcl_design::{NoDesign, design_of};
use hcl_faults::{Stopped, TokenAt, stop_in, token_list};
use hcl_read::read;
use hcl_types::{Datapath, Table};
use std::alloc::Global;
use y86_base::{Items, Memory, push};

/// The table of a datapath.
fn table_of(tables: &Tables, datapath: Datapath) -> &Table
    requires seq { IsSound tables.now.seq.rows }
    requires seq_plus { IsSound tables.now.seq_plus.rows }
    requires pipe { IsSound tables.now.pipe.rows }
    ensures sound { IsSound result.now.rows }
    ensures rows { result.now.rows ≡ rows_in tables.now datapath }
{
    match datapath {
        Datapath::Seq => &tables.seq,
        Datapath::SeqPlus => &tables.seq_plus,
        Datapath::Pipe => &tables.pipe,
    }
}

/// The faults of a text that the HCL reader accepts, over the names of a datapath.
#[tactic(auto, using(hcl_design::proofs::Faults::of_file, hcl_design::proofs::Faults::of_text))]
fn faults_over<'a>(
    alloc: Global,
    text: &'a [u8],
    tokens: &'a [TokenAt],
    tables: &Tables,
    datapath: Datapath,
) -> Result<Vec<Fault>, Memory>
    requires seq { IsSound tables.now.seq.rows }
    requires seq_plus { IsSound tables.now.seq_plus.rows }
    requires pipe { IsSound tables.now.pipe.rows }
    ensures { IfOk result (λ faults. (faults.items ≡ []) ↔ HasDesign (rows_in tables.now datapath) text.now) }
{
    let source = Source {
        text,
        tokens,
        datapath,
    };
    match read(alloc, text) {
        Err(_) => Err(Memory),
        Ok(file) => table_faults(alloc, &source, file, table_of(tables, datapath)),
    }
}

/// The number of names in a text that a datapath lacks.
fn lacks(text: &[u8], tokens: &[TokenAt], tables: &Tables, datapath: Datapath) -> u64
    requires seq { IsSound tables.now.seq.rows }
    requires seq_plus { IsSound tables.now.seq_plus.rows }
    requires pipe { IsSound tables.now.pipe.rows }
{
    count_unknown(text, tokens, table_of(tables, datapath).rows.items())
}

/// The datapath that lacks the fewest names of a text: of several the first of PIPE, SEQ and SEQ+.
fn nearest(text: &[u8], tokens: &[TokenAt], tables: &Tables) -> Datapath
    requires seq { IsSound tables.now.seq.rows }
    requires seq_plus { IsSound tables.now.seq_plus.rows }
    requires pipe { IsSound tables.now.pipe.rows }
{
    let pipe = lacks(text, tokens, tables, Datapath::Pipe);
    let seq = lacks(text, tokens, tables, Datapath::Seq);
    let seq_plus = lacks(text, tokens, tables, Datapath::SeqPlus);
    if pipe <= seq && pipe <= seq_plus {
        Datapath::Pipe
    } else if seq <= seq_plus {
        Datapath::Seq
    } else {
        Datapath::SeqPlus
    }
}

/// The faults over the names of a datapath that was asked for. If it lacks names and another datapath has all of them,
/// this is the only fault.
fn faults_of_asked<'a>(
    alloc: Global,
    text: &'a [u8],
    tokens: &'a [TokenAt],
    tables: &Tables,
    asked: Datapath,
) -> Result<Vec<Fault>, Memory>
    requires seq { IsSound tables.now.seq.rows }
    requires seq_plus { IsSound tables.now.seq_plus.rows }
    requires pipe { IsSound tables.now.pipe.rows }
    ensures { IfOk result (λ faults. (faults.items ≡ []) ↔ HasDesign (rows_in tables.now asked) text.now) }
{
    let faults = faults_over(alloc, text, tokens, tables, asked)?;
    if faults.is_empty() || lacks(text, tokens, tables, asked) == 0 {
        return Ok(faults);
    }
    let other = nearest(text, tokens, tables);
    if lacks(text, tokens, tables, other) > 0 {
        return Ok(faults);
    }
    let source = Source {
        text,
        tokens,
        datapath: asked,
    };
    let rows = table_of(tables, asked).rows.items();
    let mut out = Vec::new(alloc);
    push(&mut out, datapath_fault(alloc, &source, rows, other)?)?;
    Ok(out)
}

/// Whether a text is a design for a datapath.
fn is_design(
    alloc: Global,
    text: &[u8],
    tables: &Tables,
    datapath: Datapath,
) -> Result<bool, Memory>
    requires seq { IsSound tables.now.seq.rows }
    requires seq_plus { IsSound tables.now.seq_plus.rows }
    requires pipe { IsSound tables.now.pipe.rows }
    ensures { IfOk result (λ yes. (yes ≡ true) ↔ HasDesign (rows_in tables.now datapath) text.now) }
{
    match design_of(alloc, text, table_of(tables, datapath)) {
        Ok(_) => Ok(true),
        Err(NoDesign::Refused) => Ok(false),
        Err(NoDesign::Memory) => Err(Memory),
    }
}

/// The datapath to report on: the one that is asked for. If none is, the first of PIPE, SEQ and SEQ+ for which the text
/// is a design, and otherwise the one that lacks the fewest of its names.
fn chosen(
    alloc: Global,
    text: &[u8],
    tokens: &[TokenAt],
    tables: &Tables,
    asked: Option<Datapath>,
) -> Result<Datapath, Memory>
    requires seq { IsSound tables.now.seq.rows }
    requires seq_plus { IsSound tables.now.seq_plus.rows }
    requires pipe { IsSound tables.now.pipe.rows }
    ensures wanted { IfOk result (IsWanted asked) }
    ensures fits { IfOk result (λ path. (other : Datapath) → IsWanted asked other → HasDesign (rows_in tables.now other) text.now → HasDesign (rows_in tables.now path) text.now) }
{
    if let Some(datapath) = asked {
        return Ok(datapath);
    }
    if is_design(alloc, text, tables, Datapath::Pipe)? {
        return Ok(Datapath::Pipe);
    }
    if is_design(alloc, text, tables, Datapath::Seq)? {
        return Ok(Datapath::Seq);
    }
    if is_design(alloc, text, tables, Datapath::SeqPlus)? {
        return Ok(Datapath::SeqPlus);
    }
    Ok(nearest(text, tokens, tables))
}

/// The faults of a text that the HCL reader accepts, for a datapath, or for the one that `chosen` chooses.
#[tactic(auto, using(crate::proofs::Reported::reports))]
fn bound_report(
    alloc: Global,
    text: &[u8],
    tables: &Tables,
    asked: Option<Datapath>,
) -> Result<Report, Memory>
    requires seq { IsSound tables.now.seq.rows }
    requires seq_plus { IsSound tables.now.seq_plus.rows }
    requires pipe { IsSound tables.now.pipe.rows }
    ensures { IfOk result (ReportsHcl tables.now asked text.now) }
{
    let tokens = token_list(alloc, text)?;
    let datapath = chosen(alloc, text, tokens.as_slice(), tables, asked)?;
    let faults = faults_of_asked(alloc, text, tokens.as_slice(), tables, datapath)?;
    Ok(Report {
        datapath: Some(datapath),
        faults: Items::of(faults),
    })
}

/// The report on a text that isn't HCL: the reader's fault alone.
fn stop_report(
    alloc: Global,
    text: &[u8],
    asked: Option<Datapath>,
    stop: &Stopped,
) -> Result<Report, Memory>
    requires { IsStopped text.now stop.now }
    ensures { IfOk result (λ report. (tables : Tables) → ReportsHcl tables asked text.now report) }
{
    let mut out = Vec::new(alloc);
    push(&mut out, reading_fault(alloc, text, stop)?)?;
    Ok(Report {
        datapath: asked,
        faults: Items::of(out),
    })
}

/// The faults of an HCL text for a datapath, or for the one whose names fit best: if it isn't HCL, the reader's fault
/// alone; otherwise every fault of binding, or a cycle. It has no fault exactly if it is a design for the datapath.
pub fn hcl_report(
    alloc: Global,
    text: &[u8],
    tables: &Tables,
    asked: Option<Datapath>,
) -> Result<Report, Memory>
    requires seq { IsSound tables.now.seq.rows }
    requires seq_plus { IsSound tables.now.seq_plus.rows }
    requires pipe { IsSound tables.now.pipe.rows }
    ensures { IfOk result (ReportsHcl tables.now asked text.now) }
{
    match stop_in(alloc, text) {
        Err(memory) => Err(memory),
        Ok(None) => bound_report(alloc, text, tables, asked),
        Ok(Some(stop)) => stop_report(alloc, text, asked, &stop),
    }
}
