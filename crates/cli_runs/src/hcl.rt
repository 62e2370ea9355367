//! `hcl`: reads and prints an HCL file.
ghost use Rattle.std.specs.Prelude.{◌≡◌, List, ℕ};
ghost use Rattle.cli_runs.specs.Answers.{hcl_plan};
ghost use Rattle.cli_plans.specs.PlanFollowing.{FollowsPlanOver};

use cli_plans::{HCL_LIMIT, StopReason, read_file, read_hcl, write_answer};
use hcl_print::print;
use std::alloc::Global;
use wb_io::{Files, Sink};

/// `hcl`: reads and prints an HCL file.
#[tactic(auto, unfolding(crate::specs::Answers::hcl_plan), using(cli_plans::proofs::Does::gives_it, cli_plans::proofs::Does::read_goes_on, cli_plans::proofs::Does::read_stops, cli_plans::proofs::Does::one_goes_on, cli_plans::proofs::Does::one_refuses))]
pub fn hcl_file<'a, F: Files, O: Sink>(
    alloc: Global,
    name: &'a str,
    files: &mut F,
    out: &mut O,
) -> Result<u8, StopReason<'a>>
    ensures { FollowsPlanOver F.told F.faults O.taken O.faults (hcl_plan name.now) files.old files.new out.old out.new result }
{
    let text = match read_file(alloc, name, HCL_LIMIT, files) {
        Ok(text) => text,
        Err(stop) => return Err(stop),
    };
    let file = match read_hcl(alloc, name, text.as_slice()) {
        Ok(file) => file,
        Err(stop) => return Err(stop),
    };
    match print(alloc, &file) {
        Ok(printed) => write_answer(0, printed.as_slice(), out),
        Err(_) => Err(StopReason::Memory),
    }
}
