//! Runs an object file on a processor under an HCL file, and shows its cycles.
ghost use Rattle.std.specs.Prelude.{◌≡◌, ◌≤◌, IfOk};
ghost use Rattle.hcl_types.specs.Tables.{IsBoundDesign};
ghost use Rattle.y86_base.specs.Image.{IsSize};
ghost use Rattle.pipe_stage_text.specs.Listed.{listed};
ghost use Rattle.seq_plus.specs.Datapaths.{table_rows};
ghost use Rattle.cli_plans.specs.Stages.{hcl_limit};
ghost use Rattle.hcl_design.specs.Designs.{IsDesign};
ghost use Rattle.cli_plans.specs.Designs.{RefusesDesign};
ghost use Rattle.cli_plans.specs.PlanFollowing.{FollowsPlanOver, IsReadResultIn, OnFiles, WritesAnswerOn};
ghost use Rattle.y86_stages.specs.ShowAnswers.{ShownAnswers, Shows, object_plan, stages_plan};

use crate::request::ShowRequest;
use cli_plans::{
    FILE_LIMIT, StopReason, load_image, pipe_file, read_file, seq_file, status, write_answer,
};
use dp_signals::{SEQ_ROWS, SeqState, constant_words};
use hcl_compile::compile;
use hcl_types::{BoundDesign, Datapath, SequentialDatapath};
use pipe_stage_text::{ObservedRun, ProcessorDesign, WatchRequest, watch_run};
use seq_plus::{PLUS_ROWS, PlusState};
use seq_text::watch_sequential;
use std::alloc::Global;
use wb_io::{Files, Sink};
use y86_base::{Image, Memory};

/// The design of an HCL file for a processor.
fn design_file<'a, F: Files>(
    alloc: Global,
    processor: Datapath,
    name: &'a str,
    files: &mut F,
) -> Result<BoundDesign, StopReason<'a>>
    ensures design { OnFiles F.told F.faults (IsReadResultIn name.now hcl_limit (IsDesign (table_rows processor)) (RefusesDesign name.now (table_rows processor)) (λ bound. bound.ordered.design.terms))
        files.old files.new result }
    ensures ordered { IfOk result (IsBoundDesign (table_rows processor)) }
{
    match processor {
        Datapath::Pipe => pipe_file(alloc, name, files),
        Datapath::Seq => seq_file(alloc, SequentialDatapath::Seq, name, files),
        Datapath::SeqPlus => seq_file(alloc, SequentialDatapath::SeqPlus, name, files),
    }
}

/// Runs the image of an object text, and returns what is shown of it.
#[tactic(auto, unfolding(crate::specs::ShowAnswers::Shows))]
fn watch(
    alloc: Global,
    request: ShowRequest<'_>,
    bound: &BoundDesign,
    object: &[u8],
    image: Image,
) -> Result<ObservedRun, Memory>
    requires ordered { IsBoundDesign (table_rows request.processor) bound.now }
    requires limit { request.run.limit ≤ 100000000 }
    ensures { IfOk result (λ w. Shows request.entry.processor request.entry.run.variant bound.now.ordered.design.terms (listed object.now)
        request.entry.run.limit request.entry.window image w.text.items w.end) }
{
    let Ok(mut compiled) = compile(alloc, &bound.ordered, &constant_words()) else {
        return Err(Memory);
    };
    let processor = ProcessorDesign {
        variant: request.run.variant,
        rows: bound.table.rows.items(),
        ordered: &bound.ordered,
    };
    let watched = WatchRequest {
        image,
        limit: request.run.limit,
        window: request.window,
    };
    match request.processor {
        Datapath::Pipe => watch_run(alloc, &processor, &mut compiled, object, watched),
        Datapath::Seq => {
            watch_sequential::<SeqState, _, SEQ_ROWS>(alloc, &processor, &mut compiled, watched)
        }
        Datapath::SeqPlus => {
            watch_sequential::<PlusState, _, PLUS_ROWS>(alloc, &processor, &mut compiled, watched)
        }
    }
}

/// Runs the image of an object text, and writes what is shown of it.
fn show_image<'a, O: Sink>(
    alloc: Global,
    request: ShowRequest<'_>,
    bound: &BoundDesign,
    object: &[u8],
    image: Image,
    out: &mut O,
) -> Result<u8, StopReason<'a>>
    requires ordered { IsBoundDesign (table_rows request.processor) bound.now }
    requires limit { request.run.limit ≤ 100000000 }
    ensures { WritesAnswerOn O.taken O.faults (ShownAnswers request.entry.processor request.entry.run.variant bound.now.ordered.design.terms (listed object.now)
        request.entry.run.limit request.entry.window image) out.old out.new result }
{
    match watch(alloc, request, bound, object, image) {
        Ok(watched) => write_answer(status(watched.end), watched.text.as_slice(), out),
        Err(_) => Err(StopReason::Memory),
    }
}

/// Reads an object file, and shows its run under a design.
fn show_object<'a, F: Files, O: Sink>(
    alloc: Global,
    request: ShowRequest<'a>,
    bound: &BoundDesign,
    files: &mut F,
    out: &mut O,
) -> Result<u8, StopReason<'a>>
    requires size { IsSize request.run.memory }
    requires limit { request.run.limit ≤ 100000000 }
    requires ordered { IsBoundDesign (table_rows request.processor) bound.now }
    ensures { FollowsPlanOver F.told F.faults O.taken O.faults (object_plan request.entry.processor bound.now.ordered.design.terms
        request.entry.run.object.now request.entry.run.memory request.entry.run.limit request.entry.run.variant request.entry.window)
        files.old files.new out.old out.new result }
{
    let run = request.run;
    let bytes = match read_file(alloc, run.object, FILE_LIMIT, files) {
        Ok(bytes) => bytes,
        Err(stop) => return Err(stop),
    };
    let object = bytes.as_slice();
    let image = match load_image(alloc, run.object, object, run.memory) {
        Ok(image) => image,
        Err(stop) => return Err(stop),
    };
    show_image(alloc, request, bound, object, image, out)
}

/// Reads an HCL file and an object file, and shows the run.
pub fn show<'a, F: Files, O: Sink>(
    alloc: Global,
    request: ShowRequest<'a>,
    files: &mut F,
    out: &mut O,
) -> Result<u8, StopReason<'a>>
    requires size { IsSize request.run.memory }
    requires limit { request.run.limit ≤ 100000000 }
    ensures { FollowsPlanOver F.told F.faults O.taken O.faults (stages_plan request.entry.processor request.entry.run.hcl.now
        request.entry.run.object.now request.entry.run.memory request.entry.run.limit request.entry.run.variant request.entry.window)
        files.old files.new out.old out.new result }
{
    let bound = match design_file(alloc, request.processor, request.run.hcl, files) {
        Ok(bound) => bound,
        Err(stop) => return Err(stop),
    };
    show_object(alloc, request, &bound, files, out)
}
