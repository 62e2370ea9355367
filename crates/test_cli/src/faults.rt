//! Calls in which each write or read fails in turn, until a call has no fault. Each is compared with the call without
//! faults.
use crate::calls::{Done, Trouble, call, dripping};
use crate::files::Entry;
use std::alloc::{AllocError, Global};

/// The most writes that fail in turn.
const MOST_WRITES: u64 = 1 << 17;

/// Whether a text is a proper prefix of another.
fn is_part(text: &[u8], whole: &[u8]) -> bool {
    text.len() < whole.len() && whole.starts_with(text)
}

/// Whether two calls did the same.
fn is_same(done: &Done, whole: &Done) -> bool {
    done.status == whole.status
        && done.out.as_slice() == whole.out.as_slice()
        && done.err.as_slice() == whole.err.as_slice()
}

/// Whether a call with a failed write on standard output ended as it should: 4, a proper prefix, and nothing on standard error.
fn is_broken(done: &Done, whole: &Done) -> bool {
    done.status == 4 && is_part(done.out.as_slice(), whole.out.as_slice()) && done.err.is_empty()
}

/// The number of the first write, each `step`-th in turn, at which a call had no fault, or none if an earlier one ended
/// otherwise.
fn broken_writes(
    alloc: Global,
    entries: &[Entry],
    words: &[String],
    whole: &Done,
    step: u64,
) -> Result<Option<u64>, AllocError> {
    let mut next = 0;
    for number in 0..MOST_WRITES {
        if number != next {
            continue;
        }
        next = next.saturating_add(step);
        let trouble = Trouble {
            out: &[number],
            ..Trouble::none()
        };
        let done = call(alloc, entries, words, trouble)?;
        if is_same(&done, whole) {
            return Ok(Some(number));
        }
        if !is_broken(&done, whole) {
            return Ok(None);
        }
    }
    Ok(None)
}

/// Each `step`-th write on standard output fails in turn.
pub fn writes(
    alloc: Global,
    entries: &[Entry],
    words: &[String],
    step: u64,
) -> Result<String, AllocError> {
    let whole = call(alloc, entries, words, Trouble::none())?;
    match broken_writes(alloc, entries, words, &whole, step)? {
        None => String::from_str(alloc, "a write that fails is answered otherwise\n"),
        Some(0) => String::from_str(alloc, "no write\n"),
        Some(_) => String::from_str(
            alloc,
            "each write that fails: 4, a proper prefix, nothing on standard error\n",
        ),
    }
}

/// Whether each failed write of one byte, each `step`-th in turn, leaves just the bytes before it, and a fault after
/// the last byte changes nothing.
fn drips_well(
    alloc: Global,
    entries: &[Entry],
    words: &[String],
    whole: &Done,
    step: u64,
) -> Result<bool, AllocError> {
    let length = whole.out.len() as u64;
    let mut next = 0;
    for number in 0..length {
        if number != next {
            continue;
        }
        next = next.saturating_add(step);
        let done = dripping(alloc, entries, words, number)?;
        if !is_broken(&done, whole) || done.out.len() as u64 != number {
            return Ok(false);
        }
    }
    Ok(is_same(&dripping(alloc, entries, words, length)?, whole))
}

/// Each `step`-th write of one byte fails in turn, and at the end none.
pub fn drips(
    alloc: Global,
    entries: &[Entry],
    words: &[String],
    step: u64,
) -> Result<String, AllocError> {
    let whole = call(alloc, entries, words, Trouble::none())?;
    let bytes = whole.out.len();
    if drips_well(alloc, entries, words, &whole, step)? {
        format!(in alloc;
            "of {bytes} writes of one byte each that fails: 4, the bytes before it, nothing on standard error\n"
        )
    } else {
        String::from_str(alloc, "a write that fails is answered otherwise\n")
    }
}

/// Each write on standard error fails in turn: the status and standard output are as before, and standard error has a
/// proper prefix of the line.
pub fn lines(alloc: Global, entries: &[Entry], words: &[String]) -> Result<String, AllocError> {
    let whole = call(alloc, entries, words, Trouble::none())?;
    let status = whole.status;
    for number in 0..MOST_WRITES {
        let trouble = Trouble {
            err: &[number],
            ..Trouble::none()
        };
        let done = call(alloc, entries, words, trouble)?;
        if is_same(&done, &whole) {
            return match number {
                0 => String::from_str(alloc, "no write\n"),
                _ => format!(in alloc;
                    "each write of the line that fails: {status}, a proper prefix of it\n"
                ),
            };
        }
        if done.status != status
            || done.out.as_slice() != whole.out.as_slice()
            || !is_part(done.err.as_slice(), whole.err.as_slice())
        {
            break;
        }
    }
    String::from_str(
        alloc,
        "a write of the line that fails is answered otherwise\n",
    )
}

/// What a call does if the read with this number fails.
pub fn read(
    alloc: Global,
    entries: &[Entry],
    words: &[String],
    number: u64,
) -> Result<Done, AllocError> {
    let trouble = Trouble {
        reads: &[number],
        ..Trouble::none()
    };
    call(alloc, entries, words, trouble)
}
