//! Writes a report as lines of text, in the form `FILE:LINE:COLUMN: SENTENCE`.
ghost use Rattle.std.specs.Prelude.{◌≡◌, ◌++◌, IfOk, OnOk};
ghost use Rattle.fault_output.specs.Lines as spec;

use fault_report::{Fault, Report};
use std::alloc::Global;
use y86_base::{Memory, put, put_decimal};

/// Adds a line or a column, if there is one.
#[tactic(auto, unfolding(crate::specs::Lines::place_text))]
fn put_place(out: &mut Vec<u8>, number: u64) -> Result<(), Memory>
    ensures { OnOk result (out.new.items ≡ out.old.items ++ spec.place_text number) }
{
    if number == 0 {
        return Ok(());
    }
    put_decimal(out, number)?;
    put(out, b":")
}

/// Adds where a fault is.
#[tactic(auto, unfolding(crate::specs::Lines::front_text))]
fn put_front(out: &mut Vec<u8>, file: &[u8], fault: &Fault) -> Result<(), Memory>
    ensures { OnOk result (out.new.items ≡ out.old.items ++ spec.front_text file.now fault.now) }
{
    put(out, file)?;
    put(out, b":")?;
    put_place(out, fault.line)?;
    put_place(out, fault.column)
}

/// Adds the line of a fault.
#[tactic(auto, unfolding(crate::specs::Lines::fault_line))]
fn put_fault(out: &mut Vec<u8>, file: &[u8], fault: &Fault) -> Result<(), Memory>
    ensures { OnOk result (out.new.items ≡ out.old.items ++ spec.fault_line file.now fault.now) }
{
    put_front(out, file, fault)?;
    put(out, b" ")?;
    put(out, fault.sentence.bytes())?;
    put(out, b"\n")
}

/// A line for each fault: `FILE:LINE:COLUMN: SENTENCE`. The column or the line is left out if there is none.
pub fn report_text(alloc: Global, file: &[u8], report: &Report) -> Result<Vec<u8>, Memory>
    ensures { IfOk result (λ text. text.items ≡ spec.report_lines file.now report.now.faults) }
{
    let mut out = Vec::new(alloc);
    for fault in report.faults.items() {
        match put_fault(&mut out, file, fault) {
            Err(memory) => return Err(memory),
            Ok(()) => {}
        }
    }
    Ok(out)
}
