//! Whether the theorem covers a run, in sentences.
use crate::outcome::{Judged, is_covered};
use ctl_atoms::CtlFault;
use hcl_types::{NameId, Row};
use pipe_stage_text::{put_address, put_number_pair};
use program_check::{NearFetch, Watched};
use y86_base::{Memory, Variant, put};

/// Writes the name of a signal.
fn put_name(out: &mut Vec<u8>, rows: &[Row], id: NameId) -> Result<(), Memory> {
    match rows.get(id as usize) {
        Some(row) => put(out, row.name.bytes()),
        None => Ok(()),
    }
}

/// Writes the answer of the check.
fn put_judged(
    out: &mut Vec<u8>,
    variant: Variant,
    rows: &[Row],
    judged: Judged,
) -> Result<(), Memory> {
    put(out, b"The check ")?;
    if variant == Variant::Full {
        put(out, b"with --full ")?;
    }
    match judged {
        Judged::Yes => put(out, b"says yes to this file: all 27 obligations hold.\n"),
        Judged::No(rule) => {
            put_number_pair(out, b"says no to this file: O", u64::from(rule))?;
            put(out, b" is false somewhere. `y86-tell check pipe")?;
            if variant == Variant::Full {
                put(out, b" --full")?;
            }
            put(out, b"` explains it.\n")
        }
        Judged::Unknown(CtlFault::Mixed(id)) => {
            put(out, b"has no answer for this file: ")?;
            put_name(out, rows, id)?;
            put(out, b" joins a code with a word of the datapath.\n")
        }
        Judged::Unknown(_) => put(
            out,
            b"has no answer for this file: its definitions compare more than 64 different pairs of words.\n",
        ),
        Judged::Unasked => put(out, b"wasn't asked.\n"),
    }
}

/// A distance in steps, in words.
fn distance_word(distance: u64) -> &'static [u8] {
    match distance {
        1 => b"one step",
        2 => b"two steps",
        _ => b"three steps",
    }
}

/// Writes that an instruction fetches what was just stored.
fn put_near(out: &mut Vec<u8>, found: &NearFetch) -> Result<(), Memory> {
    put(out, b"The instruction at ")?;
    put_address(out, found.pc)?;
    put(out, b" fetches a byte that the instruction at ")?;
    put_address(out, found.storer)?;
    put(out, b" stored ")?;
    put(out, distance_word(found.distance))?;
    put(out, b" before.\n")
}

/// Writes whether the program fetches what it has just stored.
fn put_premise(out: &mut Vec<u8>, watched: Watched) -> Result<(), Memory> {
    match watched {
        Watched::Apart(_, true) => put(
            out,
            b"No instruction of the program fetches a byte that one of the three instructions before it stored.\n",
        ),
        Watched::Apart(steps, false) => {
            put_number_pair(out, b"The first ", steps)?;
            put(
                out,
                b" instructions of the program fetch no byte that one of the three instructions before stored.\n",
            )
        }
        Watched::Meets(found) => put_near(out, &found),
    }
}

/// Writes the conclusion: whether the theorem covers the run.
fn put_conclusion(out: &mut Vec<u8>, judged: Judged, watched: Watched) -> Result<(), Memory> {
    if is_covered(judged, watched) {
        return put(
            out,
            b"So the theorem covers this run: it says beforehand that nothing differs.\n",
        );
    }
    match (judged, watched) {
        (Judged::Yes, Watched::Apart(_, false)) => put(
            out,
            b"So the theorem covers this run as far as the program has been followed.\n",
        ),
        (_, Watched::Meets(_)) => put(out, b"So the theorem doesn't cover this run.\n"),
        _ => put(
            out,
            b"The theorem doesn't cover this run: it needs a yes from the check.\n",
        ),
    }
}

/// Writes whether the theorem covers a run, and why, after an empty line. If the check wasn't asked, it only reports a
/// program that the theorem doesn't cover.
pub fn put_coverage(
    out: &mut Vec<u8>,
    variant: Variant,
    rows: &[Row],
    judged: Judged,
    watched: Watched,
) -> Result<(), Memory> {
    match (judged, watched) {
        (Judged::Unasked, Watched::Apart(_, _)) => return Ok(()),
        (Judged::Unasked, Watched::Meets(_)) => put(out, b"\n")?,
        _ => {
            put(out, b"\n")?;
            put_judged(out, variant, rows, judged)?
        }
    }
    put_premise(out, watched)?;
    put_conclusion(out, judged, watched)
}
