//! Calls the program in memory, and records what each call did.
use crate::files::{Entry, in_memory};
use cli_plans::Status;
use std::alloc::{AllocError, Global};
use wb_io::{DripSink, MemSink};
use y86_cli::run;

/// The space of standard output in bytes. No answer to a row is longer.
const ROOM: u64 = 1 << 17;

/// The space of standard error in bytes.
const LINE: u64 = 1 << 10;

/// What a call did: its status, and the bytes on standard output and on standard error.
#[derive(Drop)]
pub struct Done {
    pub status: Status,
    pub out: Vec<u8>,
    pub err: Vec<u8>,
}

/// The faults of a call: the reads and the writes of each stream with these numbers, counted from 0, fail, and standard
/// output has space for a number of bytes.
#[derive(Clone, Copy)]
pub struct Trouble<'a> {
    pub reads: &'a [u64],
    pub out: &'a [u64],
    pub err: &'a [u64],
    pub room: u64,
}

impl Trouble<'_> {
    /// No faults.
    pub fn none() -> Trouble<'static> {
        Trouble {
            reads: &[],
            out: &[],
            err: &[],
            room: ROOM,
        }
    }
}

/// A sink with space for `room` bytes, whose writes with these numbers fail.
fn sink(alloc: Global, fail: &[u64], room: u64) -> Result<MemSink, AllocError> {
    let mut sink = MemSink::new(alloc, Vec::from_slice(alloc, fail)?);
    match sink.reserve(room) {
        Ok(()) => Ok(sink),
        Err(_) => Err(AllocError),
    }
}

/// One call over the files.
pub fn call(
    alloc: Global,
    entries: &[Entry],
    words: &[String],
    trouble: Trouble<'_>,
) -> Result<Done, AllocError> {
    let mut files = in_memory(alloc, entries, trouble.reads)?;
    let mut out = sink(alloc, trouble.out, trouble.room)?;
    let mut err = sink(alloc, trouble.err, LINE)?;
    let status = run(alloc, words, &mut files, &mut out, &mut err);
    Ok(Done {
        status,
        out: Vec::from_slice(alloc, out.bytes())?,
        err: Vec::from_slice(alloc, err.bytes())?,
    })
}

/// One call over the files with a standard output that takes one byte at a time and fails at the write with this
/// number.
pub fn dripping(
    alloc: Global,
    entries: &[Entry],
    words: &[String],
    number: u64,
) -> Result<Done, AllocError> {
    let mut files = in_memory(alloc, entries, &[])?;
    let mut out = DripSink::over(sink(alloc, &[number], ROOM)?, 1);
    let mut err = sink(alloc, &[], LINE)?;
    let status = run(alloc, words, &mut files, &mut out, &mut err);
    Ok(Done {
        status,
        out: Vec::from_slice(alloc, out.inner().bytes())?,
        err: Vec::from_slice(alloc, err.bytes())?,
    })
}
