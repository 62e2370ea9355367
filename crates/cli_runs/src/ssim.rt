//! `ssim`: runs an object file on SEQ under an HCL file.
ghost use Rattle.std.specs.Prelude.{◌≡◌, List, ℕ};
ghost use Rattle.dp_signals.specs.SeqTable.{seq_rows};
ghost use Rattle.hcl_types.specs.Tables.{IsBoundDesign};
ghost use Rattle.seq_path.specs.Seq as seq;
ghost use Rattle.seq_plus.specs.Plus as plus;
ghost use Rattle.seq_plus.specs.PlusTable.{plus_rows};
ghost use Rattle.y86_base.specs.Image.{IsSize};
ghost use Rattle.cli_runs.specs.Answers.{SeqAnswers, seq_plan, ssim_plan};
ghost use Rattle.seq_plus.specs.Datapaths.{rows_of};
ghost use Rattle.cli_plans.specs.PlanFollowing.{FollowsPlanOver, WritesAnswerOn};
ghost use Rattle.hcl_types.specs.declared.table.SequentialDatapath.TheVariants.{Seq as OnSeq, SeqPlus as OnPlus};

use crate::request::RunRequest;
use cli_plans::{FILE_LIMIT, StopReason, load_image, read_file, seq_file, status};
use dp_signals::constant_words;
use hcl_compile::compile;
use hcl_types::{BoundDesign, SequentialDatapath, SignalEval};
use seq_path::Seq;
use seq_plus::Plus;
use std::alloc::Global;
use wb_io::{Files, Sink};
use y86_base::{Image, Variant};
use yis_run::{End, report};

/// Runs a new machine of SEQ and writes the report. It allocates no memory.
#[inline(always)]
fn run_seq_machine<'a, C: SignalEval, O: Sink>(
    machine: &mut Seq<C>,
    limit: u64,
    first: &Image,
    out: &mut O,
) -> Result<u8, StopReason<'a>>
    requires { machine.old ≡ seq.started machine.old.variant machine.old.terms machine.old.order first.now }
    ensures { WritesAnswerOn O.taken O.faults (SeqAnswers OnSeq machine.old.variant machine.old.terms limit first.now) out.old out.new result }
{
    let ran = seq_path::run(machine, limit);
    let end = End::of(machine.state());
    match report(first, &end, ran.steps, out) {
        Ok(()) => Ok(status(end.stat)),
        Err(_) => Err(StopReason::Write),
    }
}

/// Runs an image on SEQ and writes the report. All memory is allocated before the first cycle. The loops of SEQ and
/// SEQ+ are separate functions, so that each can use all registers of the processor.
#[inline(never)]
fn run_seq<'a, O: Sink>(
    alloc: Global,
    variant: Variant,
    bound: BoundDesign,
    image: Image,
    limit: u64,
    out: &mut O,
) -> Result<u8, StopReason<'a>>
    requires { IsBoundDesign seq_rows bound }
    ensures { WritesAnswerOn O.taken O.faults (SeqAnswers OnSeq variant bound.ordered.design.terms limit image) out.old out.new result }
{
    let Ok(first) = image.copy(alloc) else {
        return Err(StopReason::Memory);
    };
    let BoundDesign { ordered, .. } = bound;
    let Ok(compiled) = compile(alloc, &ordered, &constant_words()) else {
        return Err(StopReason::Memory);
    };
    let mut machine = Seq::new(variant, ordered, compiled, image);
    run_seq_machine(&mut machine, limit, &first, out)
}

/// Runs a new machine of SEQ+ and writes the report. It allocates no memory.
#[inline(always)]
fn run_plus_machine<'a, C: SignalEval, O: Sink>(
    machine: &mut Plus<C>,
    limit: u64,
    first: &Image,
    out: &mut O,
) -> Result<u8, StopReason<'a>>
    requires { machine.old ≡ plus.started machine.old.variant machine.old.terms machine.old.order first.now }
    ensures { WritesAnswerOn O.taken O.faults (SeqAnswers OnPlus machine.old.variant machine.old.terms limit first.now) out.old out.new result }
{
    let ran = seq_plus::run(machine, limit);
    let pc = machine.pc();
    let end = machine.end(pc);
    match report(first, &end, ran.steps, out) {
        Ok(()) => Ok(status(end.stat)),
        Err(_) => Err(StopReason::Write),
    }
}

/// Runs an image on SEQ+ and writes the report. All memory is allocated before the first cycle.
#[inline(never)]
fn run_plus<'a, O: Sink>(
    alloc: Global,
    variant: Variant,
    bound: BoundDesign,
    image: Image,
    limit: u64,
    out: &mut O,
) -> Result<u8, StopReason<'a>>
    requires { IsBoundDesign plus_rows bound }
    ensures { WritesAnswerOn O.taken O.faults (SeqAnswers OnPlus variant bound.ordered.design.terms limit image) out.old out.new result }
{
    let Ok(first) = image.copy(alloc) else {
        return Err(StopReason::Memory);
    };
    let BoundDesign { ordered, .. } = bound;
    let Ok(compiled) = compile(alloc, &ordered, &constant_words()) else {
        return Err(StopReason::Memory);
    };
    let mut machine = Plus::new(variant, ordered, compiled, image);
    run_plus_machine(&mut machine, limit, &first, out)
}

/// Runs an image on a sequential datapath and writes the report.
fn run_image<'a, O: Sink>(
    alloc: Global,
    which: SequentialDatapath,
    request: RunRequest<'_>,
    bound: BoundDesign,
    image: Image,
    out: &mut O,
) -> Result<u8, StopReason<'a>>
    requires { IsBoundDesign (rows_of which) bound }
    ensures { WritesAnswerOn O.taken O.faults (SeqAnswers which request.entry.variant bound.ordered.design.terms request.entry.limit image) out.old out.new result }
{
    match which {
        SequentialDatapath::Seq => run_seq(
            alloc,
            request.variant,
            bound,
            image,
            request.limit,
            out,
        ),
        SequentialDatapath::SeqPlus => run_plus(
            alloc,
            request.variant,
            bound,
            image,
            request.limit,
            out,
        ),
    }
}

/// Reads an object file and runs it on a sequential datapath under a design.
fn run_object<'a, F: Files, O: Sink>(
    alloc: Global,
    which: SequentialDatapath,
    request: RunRequest<'a>,
    bound: BoundDesign,
    files: &mut F,
    out: &mut O,
) -> Result<u8, StopReason<'a>>
    requires size { IsSize request.memory }
    requires ordered { IsBoundDesign (rows_of which) bound }
    ensures { FollowsPlanOver F.told F.faults O.taken O.faults (seq_plan which bound.ordered.design.terms request.entry.object.now request.entry.memory request.entry.limit request.entry.variant)
        files.old files.new out.old out.new result }
{
    let bytes = match read_file(alloc, request.object, FILE_LIMIT, files) {
        Ok(bytes) => bytes,
        Err(stop) => return Err(stop),
    };
    let image = match load_image(alloc, request.object, bytes.as_slice(), request.memory) {
        Ok(image) => image,
        Err(stop) => return Err(stop),
    };
    run_image(alloc, which, request, bound, image, out)
}

/// `ssim` and `ssimp`: runs an object file on SEQ or SEQ+ under an HCL file.
pub fn ssim_file<'a, F: Files, O: Sink>(
    alloc: Global,
    which: SequentialDatapath,
    hcl: &'a str,
    request: RunRequest<'a>,
    files: &mut F,
    out: &mut O,
) -> Result<u8, StopReason<'a>>
    requires { IsSize request.memory }
    ensures { FollowsPlanOver F.told F.faults O.taken O.faults (ssim_plan which hcl.now request.entry.object.now request.entry.memory request.entry.limit request.entry.variant)
        files.old files.new out.old out.new result }
{
    let bound = match seq_file(alloc, which, hcl, files) {
        Ok(bound) => bound,
        Err(stop) => return Err(stop),
    };
    run_object(alloc, which, request, bound, files, out)
}
