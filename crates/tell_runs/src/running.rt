//! `run`: runs a program under an HCL file for PIPE and by its instructions, side by side.
ghost use Rattle.std.specs.Prelude.{◌≡◌, ◌≢◌, ◌↔◌, ◌<◌, ◌≤◌, ◌^◌, IfErr, IfOk, true};
ghost use Rattle.run_report.specs.Outcome.{is_same};
ghost use Rattle.run_report.specs.declared.outcome.Outcome.{Outcome};
ghost use Rattle.y86_base.specs.Image.{IsSize};
ghost use Rattle.tell_faults.specs.Stops.{status_of};
ghost use Rattle.tell_faults.specs.Told.{HasBothWith};
ghost use Rattle.tell_runs.specs.Running.{EndsAlike, EndsApart, HasNoRun, IsNoRun, IsRun};
ghost use Rattle.wb_io.specs.Files.{HasBytes};

use fault_report::has_bytes;
use hcl_design::NoDesign;
use hcl_types::{BoundDesign, Datapath, Row, Table};
use json::Writer;
use run_report::{
    Judged, Outcome, OutcomeRequest, object_outcome, outcome_status, put_outcome, put_outcome_json,
};
use std::alloc::{AllocError, Global};
use tell_faults::{
    HCL_LIMIT, OBJECT_LIMIT, Said, Stop, design_of, fault_stop, json_text, object_stop, text_stop,
    unread,
};
use tell_words::RunQuestion;
use wb_io::Files;
use yo_object::YoFault;

/// Why there is no run.
#[derive(Clone, Copy, Debug)]
enum NoRun {
    Design(NoDesign),
    Object(YoFault),
    /// No line puts a byte: the text is a source that wasn't assembled, or what is left of one that was refused.
    Empty,
}

/// A run, and the names of its signals.
#[derive(Drop)]
struct Run {
    table: Table,
    outcome: Outcome,
}

/// Runs an object text under an HCL text, and by its instructions.
#[tactic(auto, using(crate::proofs::Status::is_empty))]
fn run_texts(alloc: Global, source: &[u8], object: &[u8], asked: &RunQuestion) -> Result<Run, NoRun>
    requires size { IsSize asked.now.size }
    requires limit { asked.now.limit < 2 ^ 63 }
    ensures run { IfOk result (λ run. IsRun asked.now.variant source.now object.now asked.now.size asked.now.limit run.outcome) }
    ensures asked { IfOk result (λ run. (asked.now.checked ≡ true) ↔ (run.outcome.judged ≢ Judged.Unasked)) }
    ensures none { IfErr result (IsNoRun asked.now.size source.now object.now) }
{
    let bound = match design_of(alloc, Datapath::Pipe, source) {
        Ok(bound) => bound,
        Err(fault) => return Err(NoRun::Design(fault)),
    };
    if !has_bytes(object) {
        return Err(NoRun::Empty);
    }
    let BoundDesign { table, ordered } = bound;
    let request = OutcomeRequest {
        variant: asked.variant,
        ordered,
        limit: asked.limit,
        checked: asked.checked,
    };
    match object_outcome(alloc, request, object, asked.size) {
        Ok(outcome) => Ok(Run { table, outcome }),
        Err(fault) => Err(NoRun::Object(fault)),
    }
}

/// The output for an outcome.
fn outcome_text(
    alloc: Global,
    asked: &RunQuestion,
    rows: &[Row],
    outcome: &Outcome,
) -> Result<Vec<u8>, AllocError> {
    if asked.json {
        let mut out = Writer::new(Vec::new(alloc));
        put_outcome_json(alloc, &mut out, asked.limit, outcome)?;
        return json_text(out);
    }
    let mut out = Vec::new(alloc);
    match put_outcome(alloc, &mut out, asked.variant, rows, asked.limit, outcome) {
        Ok(()) => Ok(out),
        Err(_) => Err(AllocError),
    }
}

/// The output for a run, and the status, which is 0 exactly if both runs ended alike.
fn said_of(alloc: Global, asked: &RunQuestion, run: &Run) -> Result<Said, AllocError>
    ensures same { IfOk result (λ said. (said.status ≡ 0) ↔ (is_same run.now.outcome.compared ≡ true)) }
    ensures low { IfOk result (λ said. said.status ≤ 1) }
{
    Ok(Said {
        status: outcome_status(&run.outcome.compared),
        text: outcome_text(alloc, asked, run.table.rows.items(), &run.outcome)?,
    })
}

/// Runs the program of an object text under an HCL text for PIPE and by its instructions. The names of their files are
/// for the reports of faults.
#[tactic(auto, using(crate::proofs::Status::runs_apart))]
fn report_run<'a>(
    alloc: Global,
    hcl: &'a str,
    obj: &'a str,
    source: &[u8],
    object: &[u8],
    asked: &RunQuestion,
) -> Result<Said, Stop<'a>>
    requires size { IsSize asked.now.size }
    requires limit { asked.now.limit < 2 ^ 63 }
    ensures alike { IfOk result (λ said. said.status ≡ 0 → EndsAlike asked.now.variant asked.now.size asked.now.limit source.now object.now) }
    ensures apart { IfOk result (λ said. said.status ≡ 1 → EndsApart asked.now.variant asked.now.size asked.now.limit source.now object.now) }
    ensures low { IfOk result (λ said. said.status ≤ 1) }
    ensures faulty { IfErr result (λ stop. status_of stop ≡ 5 → HasNoRun asked.now.size source.now object.now) }
{
    match run_texts(alloc, source, object, asked) {
        Ok(run) => match said_of(alloc, asked, &run) {
            Ok(said) => Ok(said),
            Err(_) => Err(Stop::Memory),
        },
        Err(NoRun::Design(fault)) => { Err(fault_stop(alloc, hcl, source, Datapath::Pipe, &fault)) }
        Err(NoRun::Object(fault)) => Err(object_stop(alloc, obj, object, asked.size, &fault)),
        Err(NoRun::Empty) => Err(text_stop(alloc, obj, object, asked.size)),
    }
}

/// The bytes of an HCL file and of an object file.
#[tactic(auto, using(crate::proofs::Status::told_before))]
fn bytes_of<'a, F: Files>(
    alloc: Global,
    hcl: &'a str,
    obj: &'a str,
    files: &mut F,
) -> Result<(Vec<u8>, Vec<u8>), Stop<'a>>
    ensures hcl { IfOk result (λ read. HasBytes (F.told files.old hcl.now) read.0.items) }
    ensures obj { IfOk result (λ read. HasBytes (F.told files.old obj.now) read.1.items) }
    ensures stops { IfErr result (λ stop. status_of stop ≢ 5) }
{
    let source = match files.read(alloc, hcl, HCL_LIMIT) {
        Ok(source) => source,
        Err(error) => return Err(unread(hcl, error)),
    };
    match files.read(alloc, obj, OBJECT_LIMIT) {
        Ok(object) => Ok((source, object)),
        Err(error) => Err(unread(obj, error)),
    }
}

/// Runs a program under an HCL file for PIPE and by its instructions, and reports where they differ. The status is 0 if
/// both runs ended alike, and otherwise 1.
#[tactic(auto, using(crate::proofs::Status::of_both))]
pub fn tell_run<'a, F: Files>(
    alloc: Global,
    hcl: &'a str,
    obj: &'a str,
    asked: &RunQuestion,
    files: &mut F,
) -> Result<Said, Stop<'a>>
    requires size { IsSize asked.now.size }
    requires limit { asked.now.limit < 2 ^ 63 }
    ensures alike { IfOk result (λ said. said.status ≡ 0 → HasBothWith (F.told files.old hcl.now) (F.told files.old obj.now) (EndsAlike asked.now.variant asked.now.size asked.now.limit)) }
    ensures apart { IfOk result (λ said. said.status ≡ 1 → HasBothWith (F.told files.old hcl.now) (F.told files.old obj.now) (EndsApart asked.now.variant asked.now.size asked.now.limit)) }
    ensures low { IfOk result (λ said. said.status ≤ 1) }
    ensures faulty { IfErr result (λ stop. status_of stop ≡ 5 → HasBothWith (F.told files.old hcl.now) (F.told files.old obj.now) (HasNoRun asked.now.size)) }
{
    let (source, object) = bytes_of(alloc, hcl, obj, files)?;
    report_run(alloc, hcl, obj, source.as_slice(), object.as_slice(), asked)
}
