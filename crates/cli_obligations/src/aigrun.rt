//! `aigrun`: counts, for each output of an AIGER text, at how many of 512 vectors it is 1.
ghost use Rattle.std.specs.Prelude.{◌≡◌, IfErr, IfOk, List, ℕ};
ghost use Rattle.aiger_run.specs.PrintedCounts.{PrintsCounts};
ghost use Rattle.cli_obligations.specs.AigerTexts.{AigrunAnswers, RefusesAag, aag_reason};
ghost use Rattle.cli_obligations.specs.Answers.{aigrun_plan};
ghost use Rattle.cli_plans.specs.PlanFollowing.{FollowsPlanOver, RefusesWith, WritesAnswerOn};

use aiger_out::{AagError, AagWhy};
use aiger_run::count_outputs;
use cli_plans::{InputFault, StopReason, read_file, write_answer};
use std::alloc::Global;
use wb_io::{Files, Sink};

/// The most bytes of an AIGER text.
const AAG_LIMIT: u64 = 33_554_432;

/// The name of a reason for which an AIGER text is refused.
fn reason(why: AagWhy) -> &'static [u8]
    ensures { result.now ≡ aag_reason why }
{
    match why {
        AagWhy::Syntax => b"Syntax",
        AagWhy::Latches => b"Latches",
        AagWhy::TooMany => b"TooMany",
        AagWhy::Literal => b"Literal",
        AagWhy::Twice => b"Twice",
        AagWhy::Undefined => b"Undefined",
    }
}

/// The counts of a text. `name` is the file's name, for messages.
#[tactic(auto, using(crate::proofs::AigerTexts::refuses_aag))]
fn counts_of<'a>(
    alloc: Global,
    name: &'a str,
    bytes: &[u8],
    seed: u64,
) -> Result<Vec<u8>, StopReason<'a>>
    ensures text { IfOk result (λ text. PrintsCounts bytes.now seed text.items) }
    ensures refused { IfErr result (RefusesWith (RefusesAag name.now bytes.now)) }
{
    match count_outputs(alloc, bytes, seed) {
        Ok(text) => Ok(text),
        Err(AagError::Fault(fault)) => Err(StopReason::Refused(
            name,
            InputFault::AtLine {
                line: fault.line,
                why: reason(fault.why),
            },
        )),
        Err(AagError::Memory) => Err(StopReason::Memory),
    }
}

/// Writes the counts of a text.
#[tactic(auto, using(crate::proofs::AigerTexts::said_counts, crate::proofs::AigerTexts::said_aag_refusal))]
fn say_counts<'a, O: Sink>(
    alloc: Global,
    name: &'a str,
    bytes: &[u8],
    seed: u64,
    out: &mut O,
) -> Result<u8, StopReason<'a>>
    ensures { WritesAnswerOn O.taken O.faults (AigrunAnswers name.now bytes.now seed) out.old out.new result }
{
    match counts_of(alloc, name, bytes, seed) {
        Ok(text) => write_answer(0, text.as_slice(), out),
        Err(stop) => Err(stop),
    }
}

/// `aigrun`: reads an AIGER text, and writes for each output at how many of the vectors 0 to 511 of a seed it is 1.
pub fn aigrun_file<'a, F: Files, O: Sink>(
    alloc: Global,
    name: &'a str,
    seed: u64,
    files: &mut F,
    out: &mut O,
) -> Result<u8, StopReason<'a>>
    ensures { FollowsPlanOver F.told F.faults O.taken O.faults (aigrun_plan name.now seed)
        files.old files.new out.old out.new result }
{
    let bytes = match read_file(alloc, name, AAG_LIMIT, files) {
        Ok(bytes) => bytes,
        Err(stop) => return Err(stop),
    };
    say_counts(alloc, name, bytes.as_slice(), seed, out)
}
