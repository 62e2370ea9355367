//! `psim`: runs an object file on PIPE under an HCL file.
ghost use Rattle.std.specs.Prelude.{◌≡◌, ◌<◌, ◌≤◌, ◌^◌, ◌++◌, List, ℕ, length};
ghost use Rattle.dp_signals.specs.PipeTable.{pipe_rows};
ghost use Rattle.hcl_types.specs.Tables.{IsBound, IsBoundDesign, IsOrderOf};
ghost use Rattle.pipe_path.specs.Pipe as pipe;
ghost use Rattle.wb_io.specs.Causes.{CountsFaults};
ghost use Rattle.wb_io.specs.Sinks.{AppendsText};
ghost use Rattle.y86_base.specs.Image.{IsSize};
ghost use Rattle.cli_runs.specs.Answers.{PipeAnswers, checked_plan, pipe_plan, psim_plan};
ghost use Rattle.cli_plans.specs.PlanFollowing.{FollowsPlanOver, WritesAnswerOn};
ghost use Rattle.cli_runs.specs.PipeRuns.{ran_line};
ghost use Rattle.yis_run.specs.Report as text;

use crate::request::PipeRequest;
use cli_plans::{FILE_LIMIT, StopReason, load_image, pipe_file, read_file, status, write_answer};
use cli_verdicts::{PipeVerdictText, pipe_verdict};
use dp_signals::constant_words;
use hcl_compile::compile;
use hcl_types::{BoundDesign, SignalEval};
use pipe_path::Pipe;
use retire_trace::{Drove, drive};
use std::alloc::Global;
use wb_io::{Failed, Files, Sink, put_all, put_pieces};
use y86_base::{Image, Numeral};
use yis_run::{End, report};

/// Writes the line of the counts.
fn put_ran<O: Sink>(cycles: u64, retired: u64, out: &mut O) -> Result<(), Failed>
    ensures puts { AppendsText (O.taken out.old) (O.taken out.new) result (ran_line cycles retired) }
    ensures counts { CountsFaults (O.faults out.old) (O.faults out.new) result }
{
    let cycles = Numeral::decimal(cycles);
    let retired = Numeral::decimal(retired);
    put_pieces(
        out,
        &[
            b"Ran ",
            cycles.as_bytes(),
            b" cycles, retired ",
            retired.as_bytes(),
            b" instructions\n",
        ],
    )
}

/// Writes the line of the counts and the report.
fn put_end<O: Sink>(drove: Drove, first: &Image, end: &End<'_>, out: &mut O) -> Result<(), Failed>
    requires one_size { length first.now ≡ length end.now.mem.now }
    ensures puts { AppendsText (O.taken out.old) (O.taken out.new) result
        (ran_line drove.cycles drove.retired ++ text.report first.now (text.ended end.now) drove.retired) }
    ensures counts { CountsFaults (O.faults out.old) (O.faults out.new) result }
{
    put_ran(drove.cycles, drove.retired, out)?;
    report(first, end, drove.retired, out)
}

/// Writes the text of a verdict, runs a new machine, with a trace if it is asked for, and writes the counts and the
/// report. It allocates no memory.
#[inline(always)]
fn run_machine<'a, C: SignalEval, O: Sink>(
    machine: &mut Pipe<C>,
    first: &Image,
    request: PipeRequest<'_>,
    verdict: &[u8],
    out: &mut O,
) -> Result<u8, StopReason<'a>>
    requires started { machine.old ≡ pipe.started machine.old.variant machine.old.terms machine.old.order first.now }
    requires bound { IsBound pipe_rows machine.old.terms }
    requires ordered { IsOrderOf pipe_rows machine.old.terms machine.old.order }
    requires limit { request.run.limit < 2 ^ 63 }
    ensures { WritesAnswerOn O.taken O.faults (PipeAnswers machine.old.variant machine.old.terms request.entry.run.limit request.entry.trace verdict.now first.now)
        out.old out.new result }
{
    match put_all(out, verdict) {
        Ok(()) => {}
        Err(_) => return Err(StopReason::Write),
    }
    let drove = match drive(machine, request.run.limit, request.trace, out) {
        Ok(drove) => drove,
        Err(_) => return Err(StopReason::Write),
    };
    let end = machine.end();
    match put_end(drove, first, &end, out) {
        Ok(()) => Ok(status(drove.end)),
        Err(_) => Err(StopReason::Write),
    }
}

/// Writes the text of a verdict, runs an image on PIPE, with a trace if it is asked for, and writes the counts and the
/// report. All memory is allocated before anything is written. The loop has a function of its own, so that it can use
/// all registers of the processor.
#[inline(never)]
pub fn run_pipe<'a, O: Sink>(
    alloc: Global,
    request: PipeRequest<'_>,
    bound: BoundDesign,
    image: Image,
    verdict: &[u8],
    out: &mut O,
) -> Result<u8, StopReason<'a>>
    requires ordered { IsBoundDesign pipe_rows bound }
    requires limit { request.run.limit < 2 ^ 63 }
    ensures { WritesAnswerOn O.taken O.faults (PipeAnswers request.entry.run.variant bound.ordered.design.terms request.entry.run.limit request.entry.trace verdict.now image)
        out.old out.new result }
{
    let Ok(first) = image.copy(alloc) else {
        return Err(StopReason::Memory);
    };
    let BoundDesign { ordered, .. } = bound;
    let Ok(compiled) = compile(alloc, &ordered, &constant_words()) else {
        return Err(StopReason::Memory);
    };
    let mut machine = Pipe::new(request.run.variant, ordered, compiled, image);
    run_machine(&mut machine, &first, request, verdict, out)
}

/// Reads an object file and runs it on PIPE under a design, after the text of a verdict.
fn run_object<'a, F: Files, O: Sink>(
    alloc: Global,
    request: PipeRequest<'a>,
    bound: BoundDesign,
    verdict: &[u8],
    files: &mut F,
    out: &mut O,
) -> Result<u8, StopReason<'a>>
    requires size { IsSize request.run.memory }
    requires limit { request.run.limit ≤ 100000000 }
    requires ordered { IsBoundDesign pipe_rows bound }
    ensures { FollowsPlanOver F.told F.faults O.taken O.faults (pipe_plan verdict.now bound.ordered.design.terms
        request.entry.run.object.now request.entry.run.memory request.entry.run.limit request.entry.trace request.entry.run.variant)
        files.old files.new out.old out.new result }
{
    let run = request.run;
    let bytes = match read_file(alloc, run.object, FILE_LIMIT, files) {
        Ok(bytes) => bytes,
        Err(stop) => return Err(stop),
    };
    let image = match load_image(alloc, run.object, bytes.as_slice(), run.memory) {
        Ok(image) => image,
        Err(stop) => return Err(stop),
    };
    run_pipe(alloc, request, bound, image, verdict, out)
}

/// Reads an object file and runs it on PIPE under a design. If a check is asked for, the design is checked first; after
/// a `no` nothing is read or run.
fn run_checked<'a, F: Files, O: Sink>(
    alloc: Global,
    request: PipeRequest<'a>,
    bound: BoundDesign,
    files: &mut F,
    out: &mut O,
) -> Result<u8, StopReason<'a>>
    requires size { IsSize request.run.memory }
    requires limit { request.run.limit ≤ 100000000 }
    requires ordered { IsBoundDesign pipe_rows bound }
    ensures { FollowsPlanOver F.told F.faults O.taken O.faults (checked_plan request.entry.hcl.now bound.ordered.design.terms
        request.entry.run.object.now request.entry.run.memory request.entry.run.limit request.entry.trace request.entry.checked request.entry.run.variant)
        files.old files.new out.old out.new result }
{
    if !request.checked {
        return run_object(alloc, request, bound, b"", files, out);
    }
    match pipe_verdict(alloc, request.hcl, request.run.variant, &bound) {
        Ok(PipeVerdictText::Yes(text)) => {
            run_object(alloc, request, bound, text.as_slice(), files, out)
        }
        Ok(PipeVerdictText::No(text)) => write_answer(1, text.as_slice(), out),
        Err(stop) => Err(stop),
    }
}

/// `psim`: runs an object file on PIPE under an HCL file, which is checked first if that is asked for.
pub fn psim_file<'a, F: Files, O: Sink>(
    alloc: Global,
    request: PipeRequest<'a>,
    files: &mut F,
    out: &mut O,
) -> Result<u8, StopReason<'a>>
    requires size { IsSize request.run.memory }
    requires limit { request.run.limit ≤ 100000000 }
    ensures { FollowsPlanOver F.told F.faults O.taken O.faults (psim_plan request.entry.hcl.now
        request.entry.run.object.now request.entry.run.memory request.entry.run.limit request.entry.trace request.entry.checked request.entry.run.variant)
        files.old files.new out.old out.new result }
{
    let bound = match pipe_file(alloc, request.hcl, files) {
        Ok(bound) => bound,
        Err(stop) => return Err(stop),
    };
    run_checked(alloc, request, bound, files, out)
}
