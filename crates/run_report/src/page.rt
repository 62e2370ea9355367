//! The outcome of a run, in sentences.
use crate::coverage::put_coverage;
use crate::outcome::Outcome;
use crate::written::{Line, lines_of, lines_of_part, put_place, same_instruction};
use cosimulation::{Compared, Part, RecordDiffers};
use hcl_types::Row;
use pipe_stage_text::put_number_pair;
use program_check::Watched;
use std::alloc::Global;
use y86_base::{Memory, Stat, Variant, put};
use y86_isa::{Machine, Rec};

/// The widths of the columns: the names, and what the pipeline has.
const NAME_WIDTH: usize = 8;

const IS_WIDTH: usize = 28;

/// Writes a text, filled with blanks to a width.
fn put_column(out: &mut Vec<u8>, text: &[u8], width: usize) -> Result<(), Memory> {
    put(out, text)?;
    for _ in text.len()..width {
        put(out, b" ")?;
    }
    Ok(())
}

/// Writes lines as a table, under its heading.
fn put_table(out: &mut Vec<u8>, is: &[u8], wanted: &[u8], lines: &[Line]) -> Result<(), Memory> {
    put(out, b"\n    ")?;
    put_column(out, b"", 7)?;
    put_column(out, b"", NAME_WIDTH)?;
    put_column(out, is, IS_WIDTH)?;
    put(out, wanted)?;
    put(out, b"\n")?;
    for line in lines {
        put(
            out,
            if line.is_right {
                b"    right  "
            } else {
                b"    WRONG  "
            },
        )?;
        put_column(out, line.name.as_slice(), NAME_WIDTH)?;
        put_column(out, line.is.as_slice(), IS_WIDTH)?;
        put(out, line.wanted.as_slice())?;
        put(out, b"\n")?;
    }
    Ok(())
}

/// Writes a number of instructions.
fn put_count(out: &mut Vec<u8>, count: u64) -> Result<(), Memory> {
    put_number_pair(out, b"", count)?;
    put(
        out,
        if count == 1 {
            b" instruction"
        } else {
            b" instructions"
        },
    )
}

/// Writes that the instructions before a wrong one are right.
fn put_before(out: &mut Vec<u8>, count: u64) -> Result<(), Memory> {
    if count == 0 {
        return Ok(());
    }
    if count == 1 {
        return put(out, b"\nThe instruction before is right.\n");
    }
    put_number_pair(out, b"\nThe ", count)?;
    put(out, b" instructions before are right.\n")
}

/// Writes an instruction that retires, and the one that should have.
fn put_both(
    out: &mut Vec<u8>,
    machine: &Machine,
    retired: &Rec,
    wanted: &Rec,
) -> Result<(), Memory> {
    put(out, b"\n    it retires        ")?;
    put_place(out, &machine.mem, retired)?;
    put(out, b"\n    it should retire  ")?;
    put_place(out, &machine.mem, wanted)?;
    put(out, b"\n")
}

/// Writes an instruction that retires after the program has stopped.
fn put_behind_the_end(
    out: &mut Vec<u8>,
    machine: &Machine,
    d: &RecordDiffers,
) -> Result<(), Memory> {
    put_number_pair(out, b"In cycle ", d.cycle)?;
    put(
        out,
        b" the pipeline retires an instruction, but the program has stopped with status ",
    )?;
    put(out, machine.stat.name())?;
    put(out, b":\n\n    ")?;
    put_place(out, &machine.mem, &d.retired)?;
    put(out, b"\n")?;
    put_before(out, d.before)
}

/// Writes a record that differs.
fn put_record(
    alloc: Global,
    out: &mut Vec<u8>,
    machine: &Machine,
    d: &RecordDiffers,
) -> Result<(), Memory> {
    let Some(wanted) = d.wanted else {
        return put_behind_the_end(out, machine, d);
    };
    put_number_pair(out, b"In cycle ", d.cycle)?;
    if same_instruction(&d.retired, &wanted) {
        put_number_pair(
            out,
            b" the pipeline retires instruction ",
            d.before.wrapping_add(1),
        )?;
        put(out, b" of the program, and does it wrong:\n\n    ")?;
        put_place(out, &machine.mem, &wanted)?;
        put(out, b"\n")?;
    } else {
        put_number_pair(
            out,
            b" the pipeline retires another instruction in place of instruction ",
            d.before.wrapping_add(1),
        )?;
        put(out, b" of the program:\n")?;
        put_both(out, machine, &d.retired, &wanted)?;
    }
    let lines = lines_of(alloc, &d.retired, &wanted)?;
    put_table(out, b"it does", b"it should do", lines.as_slice())?;
    put_before(out, d.before)
}

/// Writes a final state that differs.
fn put_state(
    alloc: Global,
    out: &mut Vec<u8>,
    steps: u64,
    cycles: u64,
    part: Part,
) -> Result<(), Memory> {
    put_number_pair(out, b"The pipeline stops in cycle ", cycles)?;
    put(out, b", in a wrong state:\n")?;
    let lines = lines_of_part(alloc, part)?;
    put_table(out, b"it has", b"it should have", lines.as_slice())?;
    match part {
        Part::Stat(Stat::Pip, _) => put(
            out,
            b"\nPIP: a pipeline register is stalled and bubbled at once.\n",
        )?,
        _ => {}
    }
    put_before(out, steps)
}

/// Writes that nothing differs.
fn put_same(out: &mut Vec<u8>, steps: u64, cycles: u64, stat: Stat) -> Result<(), Memory> {
    put(out, b"The pipeline does what the instructions say: ")?;
    put_count(out, steps)?;
    put_number_pair(out, b" in ", cycles)?;
    put(out, b" cycles, and status ")?;
    put(out, stat.name())?;
    put(out, b".\n")
}

/// Writes that nothing differs up to the limit.
fn put_open(out: &mut Vec<u8>, steps: u64, limit: u64, watched: Watched) -> Result<(), Memory> {
    put_number_pair(
        out,
        b"The pipeline hasn't stopped by the end of cycle ",
        limit,
    )?;
    put(out, b". So far it has retired ")?;
    put_count(out, steps)?;
    put(out, b", all right.\n")?;
    match watched {
        Watched::Apart(all, true) => {
            put_number_pair(out, b"By its instructions the program stops in step ", all)?;
            put(
                out,
                b". A pipeline that the check accepts needs at most five cycles for each step.\n",
            )
        }
        _ => put(out, b"A larger --limit may decide.\n"),
    }
}

/// Writes the outcome of a run of at most `limit` cycles.
pub fn put_outcome(
    alloc: Global,
    out: &mut Vec<u8>,
    variant: Variant,
    rows: &[Row],
    limit: u64,
    outcome: &Outcome,
) -> Result<(), Memory> {
    match outcome.compared {
        Compared::Same(steps, cycles) => put_same(out, steps, cycles, outcome.machine.stat)?,
        Compared::Open(steps) => put_open(out, steps, limit, outcome.watched)?,
        Compared::Record(d) => put_record(alloc, out, &outcome.machine, &d)?,
        Compared::State(steps, cycles, part) => put_state(alloc, out, steps, cycles, part)?,
    }
    put_coverage(out, variant, rows, outcome.judged, outcome.watched)
}
