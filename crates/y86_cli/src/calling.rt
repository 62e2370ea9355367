//! The top call, on the words as the system passes them, the program's own name first.
ghost use Rattle.std.specs.Prelude.{◌≡◌, ◌↔◌, None, IfErr, IfOk};
ghost use Rattle.std.specs.IoError.{error_kind};
ghost use Rattle.cli_plans.specs.Calls.{words_behind};
ghost use Rattle.cli_plans.specs.PlanFollowing.{OnCall};
ghost use Rattle.y86_cli.specs.CallContract.{CallContract};
ghost use Rattle.y86_words.specs.Forms.{form_of};

use crate::running::run;
use cli_plans::{Status, StopReason, report_stop, unreadable, words_behind};
use std::alloc::Global;
use std::env::Args;
use std::io;
use std::io::ErrorKind;
use wb_io::{Files, Sink};

#[tactic(auto, using(crate::proofs::Ran::memory_ran))]
/// Does what the words of a call say, over any files and sinks. The first word is the program's own name. Returns the
/// status that the program ends with.
pub fn call<F: Files, O: Sink, E: Sink>(
    alloc: Global,
    args: io::Result<Args>,
    files: &mut F,
    out: &mut O,
    err: &mut E,
) -> Status
    ensures ran { IfOk args (λ read. OnCall F.told F.faults O.taken O.faults E.taken E.faults (CallContract (form_of (words_behind read)))
        files.old files.new out.old out.new err.old err.new result) }
    // Words that can't be read form no command.
    ensures unread { IfErr args (λ error. OnCall F.told F.faults O.taken O.faults E.taken E.faults (CallContract None)
        files.old files.new out.old out.new err.old err.new result) }
    ensures unread_memory { IfErr args (λ error. (result ≡ 6) ↔ (error_kind error ≡ ErrorKind.OutOfMemory)) }
{
    let args = match args {
        Ok(args) => args,
        Err(error) => return report_stop(&unreadable(&error), err),
    };
    match words_behind(alloc, args) {
        Ok(words) => run(alloc, words.as_slice(), files, out, err),
        Err(_) => report_stop(&StopReason::Memory, err),
    }
}
