//! The output of the verdicts on PIPE.
ghost use Rattle.std.specs.Prelude.{◌≡◌, ◌≤◌, ◌++◌, Bool, List, true, IfOk, OnOk, length};
ghost use Rattle.hcl_types.specs.Tables.{row_names};
ghost use Rattle.net_fields.specs.Spelling.{spelt};
ghost use Rattle.pipe_fields.specs.Layout.{fields_of};
ghost use Rattle.verdict_text.specs.Fields.{labelled_line};
ghost use Rattle.verdict_text.specs.PipeLines.{digit, digits, kind_word, line_numbers, pipe_lines, pipe_no, pipe_yes};
ghost use Rattle.verdict_text.specs.Views.{are_few, shown};

use crate::atoms::put_atoms;
use crate::numbers::{ShownField, number_at, put_line};
use ctl_atoms::Atom;
use hcl_types::Row;
use net_fields::BitRange;
use nets::Valuation;
use pipe_fields::{
    BIT_COUNT, D_FIRST, E_FIRST, F_FIRST, FIELD_COUNT, M_FIRST, StageLine, W_FIRST, field_table,
    places as place,
};
use pipe_motion::Settings;
use std::alloc::Global;
use y86_base::{Memory, put, put_decimal};

/// The word for what a stage holds.
fn word_of(kind: u64) -> &'static [u8]
    ensures { result.now ≡ kind_word kind }
{
    if kind == 1 {
        b" good"
    } else if kind == 2 {
        b" wrong"
    } else {
        b" bubble"
    }
}

macro_rules! shown_fields {
    ($($place:ident $label:literal $($signal:ident)?),*) => {
        [$(ShownField { label: $label, place: place::$place }),*]
    };
}

static FIELDS: [ShownField; FIELD_COUNT] = field_table!(shown_fields);

/// The fields of a line of PIPE in the output, without the kind of what a stage holds.
#[tactic(auto, unfolding(crate::specs::PipeLines::line_numbers, pipe_fields::specs::Layout::fields_of))]
pub fn line_fields(line: StageLine) -> &'static [ShownField]
    ensures shown { (w : List Bool) → shown w result.now ≡ line_numbers line (fields_of w) }
    ensures few { are_few result.now ≡ true }
{
    match line {
        StageLine::F => &FIELDS[F_FIRST..D_FIRST],
        StageLine::D => &FIELDS[D_FIRST..E_FIRST],
        StageLine::E => &FIELDS[E_FIRST..M_FIRST],
        StageLine::M => &FIELDS[M_FIRST..W_FIRST],
        StageLine::W => &FIELDS[W_FIRST..],
    }
}

/// Puts the line of a stage, with the kind of what it holds.
fn put_stage(
    out: &mut Vec<u8>,
    letter: &[u8],
    bits: &[bool],
    kind: BitRange,
    line: StageLine,
) -> Result<(), Memory>
    requires kind { kind.bits ≤ 4 }
    ensures { OnOk result (out.new.items ≡ out.old.items
        ++ labelled_line (letter.now ++ kind_word (spelt bits.now kind.first kind.bits)) (line_numbers line (fields_of bits.now))) }
{
    put(out, letter)?;
    put_line(out, word_of(number_at(bits, kind)), bits, line_fields(line))
}

/// Puts the five lines of a valuation.
#[tactic(auto, unfolding(crate::specs::PipeLines::pipe_lines, pipe_fields::specs::Layout::fields_of))]
fn put_lines(out: &mut Vec<u8>, bits: &[bool]) -> Result<(), Memory>
    ensures { OnOk result (out.new.items ≡ out.old.items ++ pipe_lines (fields_of bits.now)) }
{
    put_line(out, b"F", bits, line_fields(StageLine::F))?;
    put_stage(out, b"D", bits, place::D_KIND, StageLine::D)?;
    put_stage(out, b"E", bits, place::E_KIND, StageLine::E)?;
    put_stage(out, b"M", bits, place::M_KIND, StageLine::M)?;
    put_stage(out, b"W", bits, place::W_KIND, StageLine::W)
}

/// The output of a `no` of PIPE: the obligation that is false, the valuation at which it is, by the names of the rows
/// of PIPE's table, and the truths of its atoms.
#[tactic(auto, unfolding(crate::specs::PipeLines::pipe_no))]
pub fn pipe_refusal(
    alloc: Global,
    rows: &[Row],
    rule: u32,
    valuation: &Valuation,
    atoms: &[Atom],
) -> Result<Vec<u8>, Memory>
    requires few { length atoms.now ≤ 64 }
    ensures { IfOk result (λ text. text.items ≡ pipe_no (row_names rows.now) rule valuation.now.bits atoms.now) }
{
    let mut out = Vec::new(alloc);
    let bits = valuation.bits.items();
    put(&mut out, b"no O")?;
    put_decimal(&mut out, rule as u64)?;
    put(&mut out, b"\n")?;
    put_lines(&mut out, bits)?;
    put_atoms(&mut out, rows, bits, BIT_COUNT as usize, atoms)?;
    Ok(out)
}

/// A truth as a digit.
fn digit_of(truth: bool) -> &'static [u8]
    ensures { result.now ≡ digit truth }
{
    if truth { b"1" } else { b"0" }
}

/// Puts truths as digits.
fn put_digits(out: &mut Vec<u8>, truths: &[bool]) -> Result<(), Memory>
    ensures { OnOk result (out.new.items ≡ out.old.items ++ digits truths.now) }
{
    for truth in truths {
        match put(out, digit_of(*truth)) {
            Ok(()) => {}
            Err(_) => return Err(Memory),
        }
    }
    Ok(())
}

/// Puts a label, and a truth as a digit.
fn put_truth(out: &mut Vec<u8>, label: &[u8], truth: bool) -> Result<(), Memory>
    ensures { OnOk result (out.new.items ≡ out.old.items ++ label.now ++ digit truth) }
{
    put(out, label)?;
    put(out, digit_of(truth))
}

/// The output of a `yes` of PIPE: the file's settings, those of jumps by their ifun.
#[tactic(auto, unfolding(crate::specs::PipeLines::pipe_yes))]
pub fn pipe_acceptance(alloc: Global, settings: &Settings) -> Result<Vec<u8>, Memory>
    ensures { IfOk result (λ text. text.items ≡ pipe_yes settings.now) }
{
    let mut out = Vec::new(alloc);
    put(&mut out, b"yes pt=")?;
    put_digits(&mut out, &settings.pt)?;
    put(&mut out, b" pb=")?;
    put_digits(&mut out, &settings.pb)?;
    put_truth(&mut out, b" tv=", settings.tv)?;
    put_truth(&mut out, b" lf=", settings.lf)?;
    put_truth(&mut out, b" je=", settings.je)?;
    put_truth(&mut out, b" rm=", settings.rm)?;
    put(&mut out, b"\n")?;
    Ok(out)
}
