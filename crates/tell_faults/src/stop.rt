//! Why a call ends without an answer: the status of each stop, and its message on standard error.
ghost use Rattle.std.specs.Prelude.{◌≡◌, ◌≢◌};
ghost use Rattle.tell_faults.specs.Stops as spec;

use std::alloc::AllocError;
use wb_io::ReadErr;

/// Why a call ends without an answer.
#[derive(Drop)]
pub enum Stop<'a> {
    /// The arguments aren't a valid command line.
    Usage(&'static str),
    /// A read of the named file failed.
    Read(&'a str),
    /// A write on standard output failed.
    Write,
    /// The file has a fault.
    Fault(Vec<u8>),
    /// The named file has more bytes than its limit.
    TooLong(&'a str),
    /// Out of memory.
    Memory,
}

impl From<AllocError> for Stop<'_> {
    fn from(_error: AllocError) -> Self
        ensures { result ≡ Stop.Memory }
    {
        Stop::Memory
    }
}

/// The stop at a read of a file that failed.
pub fn unread(file: &str, error: ReadErr) -> Stop<'_>
    ensures unread { spec.IsUnread file.now error result }
    ensures status { spec.status_of result ≢ 5 }
{
    match error {
        ReadErr::Failed => Stop::Read(file),
        ReadErr::TooLong => Stop::TooLong(file),
        ReadErr::Memory => Stop::Memory,
    }
}

impl Stop<'_> {
    /// The status that the program ends with.
    pub fn status(&self) -> u8
        ensures { result ≡ spec.status_of self.now }
    {
        match self {
            Stop::Usage(_) => 2,
            Stop::Read(_) => 3,
            Stop::Write => 4,
            Stop::Fault(_) => 5,
            Stop::Memory => 6,
            Stop::TooLong(_) => 7,
        }
    }
}
