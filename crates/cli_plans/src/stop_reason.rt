//! Why the program stops before its work is done: the status of each stop, and its line on standard error.
ghost use Rattle.wb_io.specs.Causes.{CountsFaults};
ghost use Rattle.wb_io.specs.Sinks.{AppendsText};
ghost use Rattle.cli_plans.specs.Lines as text;
ghost use Rattle.cli_plans.specs.Stops.{refusal_line};

use wb_io::{Failed, Sink, put_all, put_pieces};
use y86_base::Numeral;

/// Why a file was refused.
#[derive(Debug, Drop)]
pub enum InputFault {
    /// A line of it, counted from 1, has a fault.
    AtLine {
        line: u64,
        why: &'static [u8],
    },
    /// A place in it, counted from line 1 and column 1, has a fault.
    AtPlace {
        line: u64,
        column: u64,
        why: &'static [u8],
    },
    /// Names in it have a fault. Each has a blank before it.
    OfNames {
        why: &'static [u8],
        names: Vec<u8>,
    },
}

/// Why the program stopped before its work was done.
#[derive(Debug, Drop)]
pub enum StopReason<'a> {
    /// The words form no command.
    Usage,
    /// A read of the named file failed.
    Read(&'a str),
    /// A write on standard output failed.
    Write,
    /// The named file was refused.
    Refused(&'a str, InputFault),
    /// Out of memory.
    Memory,
    /// The named file has more bytes than its limit.
    TooLong(&'a str, u64),
}

/// Writes the line of a read that failed.
#[tactic(auto, unfolding(crate::specs::Lines::read_fault_line))]
fn put_read_fault<E: Sink>(name: &str, err: &mut E) -> Result<(), Failed>
    ensures puts { AppendsText (E.taken err.old) (E.taken err.new) result (text.read_fault_line name.now) }
    ensures counts { CountsFaults (E.faults err.old) (E.faults err.new) result }
{
    put_pieces(err, &[b"read fault ", name.as_bytes(), b"\n"])
}

/// Writes the line of a file that is too long.
#[tactic(auto, unfolding(crate::specs::Lines::too_long_line))]
fn put_too_long<E: Sink>(name: &str, limit: u64, err: &mut E) -> Result<(), Failed>
    ensures puts { AppendsText (E.taken err.old) (E.taken err.new) result (text.too_long_line name.now limit) }
    ensures counts { CountsFaults (E.faults err.old) (E.faults err.new) result }
{
    let limit = Numeral::decimal(limit);
    put_pieces(
        err,
        &[name.as_bytes(), b": TooLong ", limit.as_bytes(), b"\n"],
    )
}

/// Writes the line of a fault at a line of a file.
fn put_fault<E: Sink>(name: &[u8], line: u64, why: &[u8], err: &mut E) -> Result<(), Failed>
    ensures puts { AppendsText (E.taken err.old) (E.taken err.new) result (text.fault_line name.now line why.now) }
    ensures counts { CountsFaults (E.faults err.old) (E.faults err.new) result }
{
    let line = Numeral::decimal(line);
    put_pieces(err, &[name, b":", line.as_bytes(), b": ", why, b"\n"])
}

/// Writes the line of a fault at a line and a column of a file.
fn put_place<E: Sink>(
    name: &[u8],
    line: u64,
    column: u64,
    why: &[u8],
    err: &mut E,
) -> Result<(), Failed>
    ensures puts { AppendsText (E.taken err.old) (E.taken err.new) result (text.place_line name.now line column why.now) }
    ensures counts { CountsFaults (E.faults err.old) (E.faults err.new) result }
{
    let line = Numeral::decimal(line);
    let column = Numeral::decimal(column);
    put_pieces(
        err,
        &[
            name,
            b":",
            line.as_bytes(),
            b":",
            column.as_bytes(),
            b": ",
            why,
            b"\n",
        ],
    )
}

/// Writes the line of a fault about names of a file.
fn put_names<E: Sink>(name: &[u8], why: &[u8], names: &[u8], err: &mut E) -> Result<(), Failed>
    ensures puts { AppendsText (E.taken err.old) (E.taken err.new) result (text.names_line name.now why.now names.now) }
    ensures counts { CountsFaults (E.faults err.old) (E.faults err.new) result }
{
    put_pieces(err, &[name, b": ", why, names, b"\n"])
}

/// Writes the line of a file that was refused.
fn put_refusal<E: Sink>(name: &str, refusal: &InputFault, err: &mut E) -> Result<(), Failed>
    ensures puts { AppendsText (E.taken err.old) (E.taken err.new) result (refusal_line name.now refusal.now) }
    ensures counts { CountsFaults (E.faults err.old) (E.faults err.new) result }
{
    match refusal {
        InputFault::AtLine { line, why } => put_fault(name.as_bytes(), *line, why, err),
        InputFault::AtPlace { line, column, why } => {
            put_place(name.as_bytes(), *line, *column, why, err)
        }
        InputFault::OfNames { why, names } => {
            put_names(name.as_bytes(), why, names.as_slice(), err)
        }
    }
}

impl StopReason<'_> {
    ghost use Rattle.std.specs.Prelude.{◌≡◌};
    ghost use Rattle.wb_io.specs.Causes.{CountsFaults};
    ghost use Rattle.wb_io.specs.Sinks.{AppendsText};
    ghost use Rattle.cli_plans.specs.Stops.{line_of, status_of};

    /// The status that the program ends with.
    pub fn status(&self) -> u8
        ensures { result ≡ status_of self.now }
    {
        match self {
            StopReason::Usage => 2,
            StopReason::Read(_) => 3,
            StopReason::Write => 4,
            StopReason::Refused(_, _) => 5,
            StopReason::Memory => 6,
            StopReason::TooLong(_, _) => 7,
        }
    }

    /// Writes the line of the stop on standard error. A failed write on standard output has no line.
    pub fn put<E: Sink>(&self, err: &mut E) -> Result<(), Failed>
        ensures puts { AppendsText (E.taken err.old) (E.taken err.new) result (line_of self.now) }
        ensures counts { CountsFaults (E.faults err.old) (E.faults err.new) result }
        ensures nothing_for_a_write { status_of self.now ≡ 4 → err.new ≡ err.old }
    {
        match self {
            StopReason::Usage => put_all(
                err,
                b"usage: y86 yas|yis|hcl|ssim|psim|check|sample|big|recheck|ssimp|aig|aigrun\n",
            ),
            StopReason::Read(name) => put_read_fault(name, err),
            StopReason::Write => Ok(()),
            StopReason::Refused(name, refusal) => put_refusal(name, refusal, err),
            StopReason::Memory => put_all(err, b"out of memory\n"),
            StopReason::TooLong(name, limit) => put_too_long(name, *limit, err),
        }
    }
}
