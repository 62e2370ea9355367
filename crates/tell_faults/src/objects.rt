//! The stops at object texts: every fault of one.
ghost use Rattle.std.specs.Prelude.{◌≡◌, ◌≢◌};
ghost use Rattle.y86_base.specs.Image.{IsSize};
ghost use Rattle.tell_faults.specs.Stops.{status_of};

use crate::faulty::report_stop;
use crate::stop::Stop;
use fault_report::object_report;
use std::alloc::Global;
use yo_object::{YoFault, YoWhy};

/// The stop at a text that is no object text: every fault of it.
pub fn text_stop<'a>(alloc: Global, file: &'a str, text: &[u8], size: u64) -> Stop<'a>
    requires { IsSize size }
{
    report_stop(alloc, file, object_report(alloc, text, size))
}

/// The stop at an object text with a fault.
pub fn object_stop<'a>(
    alloc: Global,
    file: &'a str,
    text: &[u8],
    size: u64,
    fault: &YoFault,
) -> Stop<'a>
    requires { IsSize size }
    ensures { status_of result ≡ 5 → fault.now.why ≢ YoWhy.Memory }
{
    if fault.why == YoWhy::Memory {
        return Stop::Memory;
    }
    text_stop(alloc, file, text, size)
}
