//! `yas`: prints the object text of an assembly file.
ghost use Rattle.std.specs.Prelude.{◌≡◌, List, ℕ};
ghost use Rattle.yas_asm.specs.Assembly.{assembled};
ghost use Rattle.cli_runs.specs.Answers.{text_of_listing, yas_plan};
ghost use Rattle.cli_plans.specs.PlanFollowing.{FollowsPlanOver, IsStageResult};
ghost use Rattle.cli_plans.specs.Lines.{assembly_reason};

use cli_plans::{FILE_LIMIT, InputFault, StopReason, read_file, write_answer};
use std::alloc::Global;
use wb_io::{Files, Sink};
use y86_base::Variant;
use yas_asm::{AsmWhy, assemble};
use yo_object::print;

/// The name of a reason for which the assembler refuses a source.
fn reason(why: AsmWhy) -> &'static [u8]
    ensures { result.now ≡ assembly_reason why }
{
    match why {
        AsmWhy::Syntax => b"Syntax",
        AsmWhy::BadByte => b"BadByte",
        AsmWhy::NumberTooWide => b"NumberTooWide",
        AsmWhy::LabelTwice => b"LabelTwice",
        AsmWhy::LabelUnknown => b"LabelUnknown",
        AsmWhy::OutsideMemory => b"OutsideMemory",
        AsmWhy::Overlap => b"Overlap",
        AsmWhy::LabelLimit => b"LabelLimit",
        AsmWhy::Memory => b"Memory",
    }
}

/// The object text of a source. `name` is the file's name, for messages.
#[tactic(auto, using(crate::proofs::Listings::source_refused, crate::proofs::Listings::source_listed))]
fn object_text<'a>(
    alloc: Global,
    variant: Variant,
    name: &'a str,
    source: &[u8],
    size: u64,
) -> Result<Vec<u8>, StopReason<'a>>
    ensures { IsStageResult (λ text. text.items) (text_of_listing name.now source.now (assembled variant source.now size)) result }
{
    let listing = match assemble(alloc, variant, source, size) {
        Ok(listing) => listing,
        Err(fault) => {
            return match fault.why {
                AsmWhy::Memory => Err(StopReason::Memory),
                why => Err(StopReason::Refused(
                    name,
                    InputFault::AtLine {
                        line: fault.line,
                        why: reason(why),
                    },
                )),
            };
        }
    };
    match print(alloc, &listing) {
        Ok(text) => Ok(text),
        Err(_) => Err(StopReason::Memory),
    }
}

/// `yas`: prints the object text of an assembly file.
#[tactic(auto, unfolding(crate::specs::Answers::yas_plan), using(cli_plans::proofs::Does::gives_it, cli_plans::proofs::Does::read_goes_on, cli_plans::proofs::Does::read_stops, cli_plans::proofs::Does::stage_goes_on, cli_plans::proofs::Does::stage_refuses))]
pub fn yas_file<'a, F: Files, O: Sink>(
    alloc: Global,
    asm: &'a str,
    mem: u64,
    variant: Variant,
    files: &mut F,
    out: &mut O,
) -> Result<u8, StopReason<'a>>
    ensures { FollowsPlanOver F.told F.faults O.taken O.faults (yas_plan asm.now mem variant)
        files.old files.new out.old out.new result }
{
    let bytes = match read_file(alloc, asm, FILE_LIMIT, files) {
        Ok(bytes) => bytes,
        Err(stop) => return Err(stop),
    };
    let text = match object_text(alloc, variant, asm, bytes.as_slice(), mem) {
        Ok(text) => text,
        Err(stop) => return Err(stop),
    };
    write_answer(0, text.as_slice(), out)
}
