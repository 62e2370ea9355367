//! What every call has apart from its command: the words after the program's own name, and a stop on standard error.
ghost use Rattle.std.specs.Prelude.{◌≡◌, ◌⊎◌, ◌↔◌, ◌≢◌, drop, IfOk};
ghost use Rattle.std.specs.IoError.{error_kind};
ghost use Rattle.std.specs.Vec.Iter.{into_iter_items};
ghost use Rattle.cli_plans.specs.Calls.{WroteError};
ghost use Rattle.cli_plans.specs.PlanFollowing.{OnSink};
ghost use Rattle.cli_plans.specs.Stops.{line_of, status_of};
ghost use Rattle.cli_plans.specs.declared.stop_reason.StopReason.TheVariants.{Memory, Usage};

use crate::stop_reason::StopReason;
use std::alloc::{AllocError, Global};
use std::env::Args;
use std::io;
use std::io::ErrorKind;
use wb_io::Sink;

/// The status that the program ends with, from 0 to 7.
///
/// 0: done, and a run ended at a halt. 1: a run ended otherwise. 2: the words form no command. 3: a read of a file that
/// the command needs failed. 4: a write on standard output failed. 5: a file was refused. 6: out of memory. 7: a file
/// has more bytes than its limit.
pub type Status = u8;

/// The words after the program's own name, in their order.
pub fn words_behind(alloc: Global, mut args: Args) -> Result<Vec<String>, AllocError>
    ensures { IfOk result (λ words. words.items ≡ drop 1 (into_iter_items args)) }
{
    let _ = args.next();
    let mut words = Vec::new(alloc);
    'words: while let Some(word) = args.next() {
        if words.push(word).is_err() {
            return Err(AllocError);
        }
    }
    Ok(words)
}

/// Why the words of a call can't be read: out of memory, or a word that isn't valid text.
pub fn unreadable(error: &io::Error) -> StopReason<'static>
    ensures memory { (result ≡ Memory) ↔ (error_kind error.now ≡ ErrorKind.OutOfMemory) }
    ensures usage { (result ≡ Usage) ↔ (error_kind error.now ≢ ErrorKind.OutOfMemory) }
    ensures either { (result ≡ Memory) ⊎ (result ≡ Usage) }
{
    if error.kind() == ErrorKind::OutOfMemory {
        StopReason::Memory
    } else {
        StopReason::Usage
    }
}

/// Reports a stop on standard error, and returns its status. A write that fails there changes no status. A failed write
/// on standard output isn't reported.
#[tactic(auto, using(crate::proofs::Told::told_whole, crate::proofs::Told::told_part))]
pub fn report_stop<E: Sink>(stop: &StopReason<'_>, err: &mut E) -> Status
    ensures status { result ≡ status_of stop.now }
    ensures line { OnSink E.taken E.faults WroteError err.old err.new (line_of stop.now) }
    ensures nothing_for_a_write { status_of stop.now ≡ 4 → err.new ≡ err.old }
{
    match stop.put(err) {
        Ok(()) => {}
        Err(_) => {}
    }
    stop.status()
}
