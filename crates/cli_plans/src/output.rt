//! The text of an answer on standard output.
ghost use Rattle.std.specs.Prelude.{◌≡◌, ◌≤◌};
ghost use Rattle.cli_plans.specs.PlanFollowing.{WritesAnswerOn};
ghost use Rattle.cli_plans.specs.Plan.{done};

use crate::stop_reason::StopReason;
use wb_io::{Sink, put_all};

/// Writes the text of an answer with a status, when there is nothing for standard error.
pub fn write_answer<'a, O: Sink>(status: u8, text: &[u8], out: &mut O) -> Result<u8, StopReason<'a>>
    requires { status ≤ 1 }
    ensures { WritesAnswerOn O.taken O.faults (λ a. a ≡ done status text.now) out.old out.new result }
{
    match put_all(out, text) {
        Ok(()) => Ok(status),
        Err(_) => Err(StopReason::Write),
    }
}
