//! `program`: whether the theorem on accepted HCL files covers a program.
ghost use Rattle.std.specs.Prelude.{◌≡◌, ◌≤◌, IfErr, IfOk};
ghost use Rattle.tell_faults.specs.Told.{HasBytesWith};
ghost use Rattle.tell_faults.specs.Faultless.{IsLoadable};
ghost use Rattle.tell_faults.specs.Stops.{status_of};
ghost use Rattle.tell_runs.specs.Covered.{IsCoveredText, IsUncoveredText};
ghost use Rattle.y86_base.specs.Image.{IsSize};

use fault_report::has_bytes;
use program_report::{put_watched, watch_object, watched_status};
use std::alloc::Global;
use tell_faults::{OBJECT_LIMIT, Stop, object_stop, text_stop, unread};
use tell_words::ProgramQuestion;
use wb_io::{Files, Sink};

/// Reports whether the theorem covers the program of an object file. The status is 0 if the program stops within the
/// limit, and no instruction fetches a byte that one of the three before it stored; otherwise 1.
#[tactic(auto, using(crate::proofs::Status::covered, crate::proofs::Status::uncovered, crate::proofs::Status::empty))]
pub fn report_program<'a, F: Files, O: Sink>(
    alloc: Global,
    file: &'a str,
    asked: ProgramQuestion,
    files: &mut F,
    out: &mut O,
) -> Result<u8, Stop<'a>>
    requires { IsSize asked.size }
    ensures covered { IfOk result (λ status. status ≡ 0 → HasBytesWith (F.told files.old file.now) (IsCoveredText asked.variant asked.size asked.limit)) }
    ensures uncovered { IfOk result (λ status. status ≡ 1 → HasBytesWith (F.told files.old file.now) (IsUncoveredText asked.variant asked.size asked.limit)) }
    ensures low { IfOk result (λ status. status ≤ 1) }
    ensures faulty { IfErr result (λ stop. status_of stop ≡ 5 → HasBytesWith (F.told files.old file.now) (λ object. IsLoadable asked.size object → ⊥)) }
{
    let text = match files.read(alloc, file, OBJECT_LIMIT) {
        Ok(text) => text,
        Err(error) => return Err(unread(file, error)),
    };
    if !has_bytes(text.as_slice()) {
        return Err(text_stop(alloc, file, text.as_slice(), asked.size));
    }
    let watched = match watch_object(
        alloc,
        asked.variant,
        text.as_slice(),
        asked.size,
        asked.limit,
    ) {
        Ok(watched) => watched,
        Err(fault) => return Err(object_stop(alloc, file, text.as_slice(), asked.size, &fault)),
    };
    match put_watched(watched, out) {
        Ok(()) => Ok(watched_status(watched)),
        Err(_) => Err(Stop::Write),
    }
}
