//! The diagram of a run: a line for each row, with a column for each cycle (CS:APP 3e, figures 4.43 and 4.54).
ghost use Rattle.std.specs.Prelude.{◌≡◌, ◌++◌, ◌<◌, ◌^◌, OnOk};
ghost use Rattle.yis_run.specs.Report.{each_below};
ghost use Rattle.pipe_stage_text.specs.Diagram as text;
ghost use Rattle.pipe_stage_text.specs.Listed.{text_in};

use crate::instruction::put_instruction;
use crate::listed::{Listing, text_in};
use crate::numbers::put_address;
use crate::stage_content::StageContent;
use crate::stage_contents::StageContents;
use dp_signals::{RegisterUpdate, RegisterUpdates};
use y86_base::{Memory, put};

/// What the diagram shows of a cycle: what each stage holds, and whether it is cancelled at the end of the cycle.
#[derive(Clone, Copy, Debug)]
pub struct DiagramCycle {
    pub number: u64,
    pub f: StageContent,
    pub d: StageContent,
    pub e: StageContent,
    pub m: StageContent,
    pub w: StageContent,
    pub f_lost: bool,
    pub d_lost: bool,
    pub e_lost: bool,
    pub m_lost: bool,
}

/// Whether what a stage holds is cancelled: the stage doesn't keep it, and the next one doesn't load it.
fn lost(update: RegisterUpdate, next: RegisterUpdate) -> bool
    ensures { result ≡ text.lost update next }
{
    !matches!(update, RegisterUpdate::Stay) && !matches!(next, RegisterUpdate::Load)
}

/// Whether what is fetched is cancelled: D takes a bubble instead, or stays while F goes on.
fn fetch_lost(f: RegisterUpdate, d: RegisterUpdate) -> bool
    ensures { result ≡ text.fetch_lost f d }
{
    match d {
        RegisterUpdate::Load => false,
        RegisterUpdate::Bubble => true,
        RegisterUpdate::Stay => !matches!(f, RegisterUpdate::Stay),
    }
}

/// What the diagram shows of a cycle. If the machine ends with it, nothing is cancelled.
#[tactic(auto, unfolding(crate::specs::Diagram::shown_cycle))]
pub(crate) fn shown_cycle(
    number: u64,
    watch: &StageContents,
    fetch: StageContent,
    movers: &RegisterUpdates,
    going: bool,
) -> DiagramCycle
    ensures { result ≡ text.shown_cycle number watch.now fetch movers.now going }
{
    DiagramCycle {
        number,
        f: fetch,
        d: watch.d,
        e: watch.e,
        m: watch.m,
        w: watch.w,
        f_lost: going && fetch_lost(movers.f, movers.d),
        d_lost: going && lost(movers.d, movers.e),
        e_lost: going && lost(movers.e, movers.m),
        m_lost: going && lost(movers.m, movers.w),
    }
}

/// The letter of a stage: small if what it holds is cancelled.
fn letter(lost: bool, small: u8, capital: u8) -> u8
    ensures { result ≡ text.letter lost small capital }
{
    if lost { small } else { capital }
}

/// The letter of the stage that holds a row in a cycle, or a blank. If two stages hold it, it is the later one's.
fn letter_of(row: u64, shown: &DiagramCycle) -> u8
    ensures { result ≡ text.letter_of row shown.now }
{
    if shown.w.row == row {
        b'W'
    } else if shown.m.row == row {
        letter(shown.m_lost, b'm', b'M')
    } else if shown.e.row == row {
        letter(shown.e_lost, b'e', b'E')
    } else if shown.d.row == row {
        letter(shown.d_lost, b'd', b'D')
    } else if shown.f.row == row {
        letter(shown.f_lost, b'f', b'F')
    } else {
        b' '
    }
}

/// What a row is, if a stage holds it in a cycle.
fn held_in(row: u64, shown: &DiagramCycle) -> Option<StageContent>
    ensures { result ≡ text.held_in row shown.now }
{
    if shown.w.row == row {
        Some(shown.w)
    } else if shown.m.row == row {
        Some(shown.m)
    } else if shown.e.row == row {
        Some(shown.e)
    } else if shown.d.row == row {
        Some(shown.d)
    } else if shown.f.row == row {
        Some(shown.f)
    } else {
        None
    }
}

/// What a row is, if a stage holds it in one of the cycles.
#[tactic(auto, unfolding(crate::specs::Diagram::held_of))]
fn held_of(row: u64, cycles: &[DiagramCycle]) -> Option<StageContent>
    ensures { result ≡ text.held_of row cycles.now }
{
    for one in cycles {
        if let Some(held) = held_in(row, one) {
            return Some(held);
        }
    }
    None
}

/// Appends the last two digits of a cycle's number.
#[tactic(auto, unfolding(crate::specs::Diagram::column))]
fn put_column(out: &mut Vec<u8>, number: u64) -> Result<(), Memory>
    ensures { OnOk result (out.new.items ≡ out.old.items ++ text.column number) }
{
    let tens = number / 10 % 10;
    let ones = number % 10;
    put(out, &[b' ', b'0' + tens as u8, b'0' + ones as u8])
}

/// Appends the line of the cycles' numbers.
fn put_columns(out: &mut Vec<u8>, cycles: &[DiagramCycle]) -> Result<(), Memory>
    ensures { OnOk result (out.new.items ≡ out.old.items ++ text.columns cycles.now) }
{
    for one in cycles {
        match put_column(out, one.number) {
            Ok(()) => {}
            Err(_) => return Err(Memory),
        }
    }
    Ok(())
}

/// Appends the letters of a row.
fn put_letters(out: &mut Vec<u8>, row: u64, cycles: &[DiagramCycle]) -> Result<(), Memory>
    ensures { OnOk result (out.new.items ≡ out.old.items ++ text.letters row cycles.now) }
{
    for one in cycles {
        match put(out, &[b' ', b' ', letter_of(row, one)]) {
            Ok(()) => {}
            Err(_) => return Err(Memory),
        }
    }
    Ok(())
}

/// Appends what the object text lists at the address of an instruction.
fn put_note(out: &mut Vec<u8>, listing: &Listing, held: &StageContent) -> Result<(), Memory>
    ensures { OnOk result (out.new.items ≡ out.old.items ++ text.row_note (text_in listing.now.entries) held.now) }
{
    if !held.live {
        return Ok(());
    }
    match text_in(listing, held.addr) {
        None => Ok(()),
        Some(listed) => {
            put(out, b" | ")?;
            put(out, listed)
        }
    }
}

/// Appends what a row is: the address, the instruction and what is listed there, or a bubble.
#[tactic(auto, unfolding(crate::specs::Diagram::row_tail))]
fn put_row_tail(out: &mut Vec<u8>, listing: &Listing, held: &StageContent) -> Result<(), Memory>
    ensures { OnOk result (out.new.items ≡ out.old.items ++ text.row_tail (text_in listing.now.entries) held.now) }
{
    put(out, b" | ")?;
    if held.live {
        put_address(out, held.addr)?;
        put(out, b" ")?;
    }
    put_instruction(out, held)?;
    put_note(out, listing, held)?;
    put(out, b"\n")
}

/// Appends the line of a row, if a stage holds it in one of the cycles.
#[tactic(auto, unfolding(crate::specs::Diagram::row_line))]
fn put_row(
    out: &mut Vec<u8>,
    listing: &Listing,
    row: u64,
    cycles: &[DiagramCycle],
) -> Result<(), Memory>
    ensures { OnOk result (out.new.items ≡ out.old.items ++ text.row_line (text_in listing.now.entries) row cycles.now) }
{
    match held_of(row, cycles) {
        None => Ok(()),
        Some(held) => {
            put_letters(out, row, cycles)?;
            put_row_tail(out, listing, &held)
        }
    }
}

/// Appends the lines of the rows, from row 1 on.
fn put_rows(
    out: &mut Vec<u8>,
    listing: &Listing,
    rows: u64,
    cycles: &[DiagramCycle],
) -> Result<(), Memory>
    requires { rows < 2 ^ 63 }
    ensures { OnOk result (out.new.items ≡ out.old.items ++ each_below rows (text.nth_line (text_in listing.now.entries) cycles.now)) }
{
    for before in 0..rows {
        match put_row(out, listing, before + 1, cycles) {
            Ok(()) => {}
            Err(_) => return Err(Memory),
        }
    }
    Ok(())
}

/// Appends the diagram of cycles of a run with this number of rows.
#[tactic(auto, unfolding(crate::specs::Diagram::diagram))]
pub(crate) fn put_diagram(
    out: &mut Vec<u8>,
    listing: &Listing,
    rows: u64,
    cycles: &[DiagramCycle],
) -> Result<(), Memory>
    requires { rows < 2 ^ 63 }
    ensures { OnOk result (out.new.items ≡ out.old.items ++ text.diagram (text_in listing.now.entries) rows cycles.now) }
{
    put_columns(out, cycles)?;
    put(out, b"\n")?;
    put_rows(out, listing, rows, cycles)
}
