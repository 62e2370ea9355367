//! The outcome of a run as JSON: the same facts as its page, with stable names.
use crate::outcome::{Judged, Outcome, is_covered};
use crate::written::{Line, lines_of, lines_of_part, put_text, same_instruction};
use cosimulation::{Compared, Part, RecordDiffers};
use ctl_atoms::CtlFault;
use json::Writer;
use pipe_stage_text::{put_address, put_number_pair, put_word_pair};
use program_check::{NearFetch, Watched};
use std::alloc::{AllocError, Global};
use y86_base::{Flags, Image, Regs};
use y86_isa::{Rec, Store};

type Out = Writer<Global>;

const NO_REGISTER: u64 = 15;

/// Writes a member whose value is a text.
fn put_bytes(out: &mut Out, name: &str, text: &[u8]) -> Result<(), AllocError> {
    out.key(name)?;
    out.string(std::str::from_utf8(text).unwrap_or(""))
}

/// Writes a member whose value is a number.
fn put_number(out: &mut Out, name: &str, n: u64) -> Result<(), AllocError> {
    out.key(name)?;
    out.u64(n)
}

/// Writes a member whose value is a truth.
fn put_truth(out: &mut Out, name: &str, truth: bool) -> Result<(), AllocError> {
    out.key(name)?;
    out.boolean(truth)
}

/// Writes a member without a value.
fn put_null(out: &mut Out, name: &str) -> Result<(), AllocError> {
    out.key(name)?;
    out.null()
}

/// Writes an address in hexadecimal.
fn put_place(alloc: Global, out: &mut Out, name: &str, address: u64) -> Result<(), AllocError> {
    let mut text = Vec::new(alloc);
    let Ok(()) = put_address(&mut text, address) else {
        return Err(AllocError);
    };
    put_bytes(out, name, text.as_slice())
}

/// Writes a word in hexadecimal.
fn put_word(alloc: Global, out: &mut Out, name: &str, word: u64) -> Result<(), AllocError> {
    let mut text = Vec::new(alloc);
    let Ok(()) = put_word_pair(&mut text, b"", word) else {
        return Err(AllocError);
    };
    put_bytes(out, name, text.as_slice())
}

/// Writes a register with its new word.
fn put_register(
    alloc: Global,
    out: &mut Out,
    name: &str,
    number: u64,
    word: u64,
) -> Result<(), AllocError> {
    if number >= NO_REGISTER {
        return put_null(out, name);
    }
    out.key(name)?;
    out.begin_object()?;
    put_bytes(out, "register", Regs::name(number))?;
    put_word(alloc, out, "word", word)?;
    out.end_object()
}

/// Writes the word of memory that is stored, or null.
fn put_stored(alloc: Global, out: &mut Out, store: Option<Store>) -> Result<(), AllocError> {
    let Some(it) = store else {
        return put_null(out, "memory");
    };
    out.key("memory")?;
    out.begin_object()?;
    put_place(alloc, out, "address", it.addr)?;
    put_word(alloc, out, "word", it.word)?;
    out.end_object()
}

/// Writes flags.
fn put_flags(out: &mut Out, flags: Flags) -> Result<(), AllocError> {
    out.key("flags")?;
    out.begin_object()?;
    put_truth(out, "ZF", flags.zf)?;
    put_truth(out, "SF", flags.sf)?;
    put_truth(out, "OF", flags.of)?;
    out.end_object()
}

/// Writes an instruction and what it does.
fn put_instruction(
    alloc: Global,
    out: &mut Out,
    name: &str,
    memory: &Image,
    r: &Rec,
) -> Result<(), AllocError> {
    let mut text = Vec::new(alloc);
    let Ok(()) = put_text(&mut text, memory, r) else {
        return Err(AllocError);
    };
    out.key(name)?;
    out.begin_object()?;
    put_place(alloc, out, "address", r.pc)?;
    put_bytes(out, "instruction", text.as_slice())?;
    put_number(out, "icode", r.icode)?;
    put_number(out, "ifun", r.ifun)?;
    put_register(alloc, out, "valE", r.dst_e, r.val_e)?;
    put_register(alloc, out, "valM", r.dst_m, r.val_m)?;
    put_stored(alloc, out, r.store)?;
    put_flags(out, r.flags)?;
    put_bytes(out, "status", r.stat.name())?;
    out.end_object()
}

/// Writes the names of the wrong parts.
fn put_wrong(out: &mut Out, is_same: bool, lines: &[Line]) -> Result<(), AllocError> {
    out.key("wrong")?;
    out.begin_array()?;
    if !is_same {
        out.string("instruction")?;
    }
    for line in lines {
        if !line.is_right {
            out.string(std::str::from_utf8(line.name.as_slice()).unwrap_or(""))?;
        }
    }
    out.end_array()
}

/// Writes a record that differs.
fn put_record(
    alloc: Global,
    out: &mut Out,
    memory: &Image,
    d: &RecordDiffers,
) -> Result<(), AllocError> {
    let Some(wanted) = d.wanted else {
        put_wrong(out, false, &[])?;
        put_instruction(alloc, out, "retired", memory, &d.retired)?;
        return put_null(out, "wanted");
    };
    let Ok(lines) = lines_of(alloc, &d.retired, &wanted) else {
        return Err(AllocError);
    };
    put_wrong(out, same_instruction(&d.retired, &wanted), lines.as_slice())?;
    put_instruction(alloc, out, "retired", memory, &d.retired)?;
    put_instruction(alloc, out, "wanted", memory, &wanted)
}

/// Writes a part in which the final states differ.
fn put_part(alloc: Global, out: &mut Out, part: Part) -> Result<(), AllocError> {
    let Ok(lines) = lines_of_part(alloc, part) else {
        return Err(AllocError);
    };
    put_wrong(out, true, lines.as_slice())?;
    for line in lines.as_slice() {
        put_bytes(out, "is", line.is.as_slice())?;
        put_bytes(out, "should_be", line.wanted.as_slice())?;
    }
    Ok(())
}

/// Writes the outcome, the number of right instructions, and the cycles.
fn put_head(out: &mut Out, outcome: &[u8], steps: u64, cycles: u64) -> Result<(), AllocError> {
    put_bytes(out, "outcome", outcome)?;
    put_number(out, "instructions", steps)?;
    put_number(out, "cycles", cycles)
}

/// Writes the result of the comparison.
fn put_compared(
    alloc: Global,
    out: &mut Out,
    limit: u64,
    outcome: &Outcome,
) -> Result<(), AllocError> {
    match outcome.compared {
        Compared::Same(steps, cycles) => {
            put_head(out, b"same", steps, cycles)?;
            put_bytes(out, "status", outcome.machine.stat.name())
        }
        Compared::Open(steps) => put_head(out, b"limit", steps, limit),
        Compared::Record(d) => {
            put_head(out, b"instruction", d.before, d.cycle)?;
            put_record(alloc, out, &outcome.machine.mem, &d)
        }
        Compared::State(steps, cycles, part) => {
            put_head(out, b"state", steps, cycles)?;
            put_part(alloc, out, part)
        }
    }
}

/// Writes the check's answer.
fn put_judged(alloc: Global, out: &mut Out, judged: Judged) -> Result<(), AllocError> {
    match judged {
        Judged::Yes => put_bytes(out, "verdict", b"yes"),
        Judged::No(rule) => {
            let mut label = Vec::new(alloc);
            let Ok(()) = put_number_pair(&mut label, b"O", u64::from(rule)) else {
                return Err(AllocError);
            };
            put_bytes(out, "verdict", b"no")?;
            put_bytes(out, "obligation", label.as_slice())
        }
        Judged::Unknown(CtlFault::Mixed(_)) => put_bytes(out, "verdict", b"mixed"),
        Judged::Unknown(_) => put_bytes(out, "verdict", b"too many comparisons"),
        Judged::Unasked => put_null(out, "verdict"),
    }
}

/// Writes an instruction that fetches what was just stored.
fn put_near(alloc: Global, out: &mut Out, found: &NearFetch) -> Result<(), AllocError> {
    put_bytes(out, "premise", b"fails")?;
    put_number(out, "steps", found.steps)?;
    out.key("near")?;
    out.begin_object()?;
    put_place(alloc, out, "fetched", found.pc)?;
    put_place(alloc, out, "stored_by", found.storer)?;
    put_place(alloc, out, "stored_at", found.store)?;
    put_number(out, "distance", found.distance)?;
    out.end_object()
}

/// Writes whether the program fetches what it has just stored.
fn put_premise(alloc: Global, out: &mut Out, watched: Watched) -> Result<(), AllocError> {
    match watched {
        Watched::Apart(steps, stopped) => {
            put_bytes(out, "premise", if stopped { b"holds" } else { b"open" })?;
            put_number(out, "steps", steps)
        }
        Watched::Meets(found) => put_near(alloc, out, &found),
    }
}

/// Writes the outcome of a run of at most `limit` cycles.
pub fn put_outcome_json(
    alloc: Global,
    out: &mut Out,
    limit: u64,
    outcome: &Outcome,
) -> Result<(), AllocError> {
    out.begin_object()?;
    put_compared(alloc, out, limit, outcome)?;
    put_judged(alloc, out, outcome.judged)?;
    put_premise(alloc, out, outcome.watched)?;
    put_truth(out, "covered", is_covered(outcome.judged, outcome.watched))?;
    out.end_object()
}
