//! `yis`: runs an object file at the level of instructions.
ghost use Rattle.std.specs.Prelude.{◌≡◌, List, ℕ};
ghost use Rattle.y86_base.specs.Image.{IsSize};
ghost use Rattle.cli_runs.specs.Answers.{yis_plan, yis_run};
ghost use Rattle.cli_plans.specs.PlanFollowing.{FollowsPlanOver, WritesAnswerOn};

use crate::request::RunRequest;
use cli_plans::{FILE_LIMIT, StopReason, load_image, read_file, status};
use std::alloc::Global;
use wb_io::{Files, Sink};
use y86_base::{Image, Variant};
use y86_isa::Machine;
use yis_run::{End, report, run};

/// Runs an image and writes the report. All memory is allocated before the first step.
#[tactic(auto, unfolding(crate::specs::Answers::yis_run))]
fn run_image<'a, O: Sink>(
    alloc: Global,
    variant: Variant,
    image: Image,
    limit: u64,
    out: &mut O,
) -> Result<u8, StopReason<'a>>
    ensures { WritesAnswerOn O.taken O.faults (λ a. a ≡ yis_run variant image limit) out.old out.new result }
{
    let Ok(first) = image.copy(alloc) else {
        return Err(StopReason::Memory);
    };
    let mut machine = Machine::start(image);
    let ran = run(variant, &mut machine, limit);
    let end = End::of(&machine);
    match report(&first, &end, ran.steps, out) {
        Ok(()) => Ok(status(machine.stat)),
        Err(_) => Err(StopReason::Write),
    }
}

/// `yis`: runs an object file at the level of instructions.
#[tactic(auto, unfolding(crate::specs::Answers::yis_plan), using(cli_plans::proofs::Does::gives_it, cli_plans::proofs::Does::read_goes_on, cli_plans::proofs::Does::read_stops, cli_plans::proofs::Does::stage_goes_on, cli_plans::proofs::Does::stage_refuses))]
pub fn yis_file<'a, F: Files, O: Sink>(
    alloc: Global,
    request: RunRequest<'a>,
    files: &mut F,
    out: &mut O,
) -> Result<u8, StopReason<'a>>
    requires { IsSize request.memory }
    ensures { FollowsPlanOver F.told F.faults O.taken O.faults (yis_plan request.entry.object.now request.entry.memory request.entry.limit request.entry.variant)
        files.old files.new out.old out.new result }
{
    let bytes = match read_file(alloc, request.object, FILE_LIMIT, files) {
        Ok(bytes) => bytes,
        Err(stop) => return Err(stop),
    };
    let image = match load_image(alloc, request.object, bytes.as_slice(), request.memory) {
        Ok(image) => image,
        Err(stop) => return Err(stop),
    };
    run_image(alloc, request.variant, image, request.limit, out)
}
