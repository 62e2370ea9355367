//! The answer of `show`, in sentences.
use crate::found::{Demanded, Kind, ShowMatches};
use crate::instructions::Instruction;
use crate::stages::{STAGES, Stage, put_layout, stage_name, steps_of};
use explanations::Staged;
use fault_report::sentences_of;
use finding_text::{put_lines, put_paragraph};
use hcl_types::Datapath;
use std::alloc::{AllocError, Global};
use y86_base::Memory;

/// The languages that have faults.
pub static LANGUAGES: [&str; 3] = ["HCL", "assembly", "object text"];

/// The name of a datapath.
fn path_name(path: Datapath) -> &'static str {
    match path {
        Datapath::Seq => "SEQ",
        Datapath::SeqPlus => "SEQ+",
        Datapath::Pipe => "PIPE",
    }
}

/// Writes an obligation. SEQ and SEQ+ each have an S16 of their own.
fn put_obligation(alloc: Global, out: &mut String, it: &Demanded) -> Result<(), AllocError> {
    let o = it.obligation;
    let mut said = String::from_str(alloc, o.label)?;
    if o.label == "S16" {
        said.push_str(" of ")?;
        said.push_str(path_name(it.path))?;
    }
    said.push_str(": ")?;
    said.push_str(o.demand)?;
    put_paragraph(alloc, out, "", "", said.as_str())?;
    put_paragraph(alloc, out, "Why: ", "", o.reason)?;
    put_paragraph(alloc, out, "Signals: ", "", o.signals)?;
    out.push_str("See CS:APP 3e, ")?;
    out.push_str(o.book)?;
    out.push_str(".\n")
}

/// Writes a signal.
fn put_signal(alloc: Global, out: &mut String, it: &Staged) -> Result<(), AllocError> {
    let mut said = String::from_str(alloc, it.signal.name)?;
    said.push_str(" (")?;
    said.push_str(it.stage)?;
    said.push_str("): ")?;
    said.push_str(it.signal.meaning)?;
    put_paragraph(alloc, out, "", "", said.as_str())
}

/// Writes what a stage does.
fn put_stage(
    alloc: Global,
    out: &mut String,
    it: &Instruction,
    stage: Stage,
) -> Result<(), AllocError> {
    let steps = steps_of(alloc, it, stage)?;
    let mut name = stage_name(stage);
    if steps.as_slice().is_empty() {
        return write!(out, "    {name:<12}nothing\n");
    }
    for step in steps.as_slice() {
        let does = step.as_str();
        write!(out, "    {name:<12}{does}\n")?;
        name = "";
    }
    Ok(())
}

/// Writes an instruction: what it does, its bytes, and what each stage does.
fn put_instruction(alloc: Global, out: &mut String, it: &Instruction) -> Result<(), AllocError> {
    out.push_str(it.name)?;
    if !it.usage.is_empty() {
        out.push_str(" ")?;
        out.push_str(it.usage)?;
    }
    let mut meaning = String::from_str(
        alloc,
        explanations::instruction_meaning(it.icode, it.ifun),
    )?;
    meaning.push_str(".")?;
    if it.is_full {
        meaning.push_str(" This instruction is there with --full alone.")?;
    }
    put_paragraph(alloc, out, ": ", "", meaning.as_str())?;
    out.push_str("Bytes: ")?;
    put_layout(out, it)?;
    if it.row.has_const {
        out.push_str(" (the constant has 8 bytes, the lowest first)")?;
    }
    out.push_str("\n\n")?;
    for stage in STAGES {
        put_stage(alloc, out, it, *stage)?;
    }
    Ok(())
}

/// Writes a text, each line after four blanks.
fn put_block(out: &mut String, text: &str) -> Result<(), AllocError> {
    out.push_str("\n")?;
    for line in text.split('\n') {
        out.push_str("    ")?;
        out.push_str(line)?;
        out.push_str("\n")?;
    }
    Ok(())
}

/// Writes a sentence with `<found>` and the like in the places that are filled in.
fn put_sentence(
    alloc: Global,
    out: &mut String,
    sentence: &'static [u8],
) -> Result<(), AllocError> {
    let pattern = std::str::from_utf8(sentence).unwrap_or("");
    let mut said = String::new(alloc);
    let mut is_place = false;
    for part in pattern.split('~') {
        if is_place {
            write!(said, "<{part}>")?;
        } else {
            said.push_str(part)?;
        }
        is_place = !is_place;
    }
    put_lines(out, "    ", "    ", said.as_str())
}

/// The sentences on a kind of fault, each once.
pub fn sentences(alloc: Global, code: &str) -> Result<Vec<&'static [u8]>, AllocError> {
    let all = match sentences_of(alloc, code.as_bytes()) {
        Ok(all) => all,
        Err(Memory) => return Err(AllocError),
    };
    let mut once: Vec<&'static [u8]> = Vec::new(alloc);
    for sentence in all.as_slice() {
        if !once.as_slice().contains(sentence) {
            once.push(*sentence)?;
        }
    }
    Ok(once)
}

/// Writes a kind of fault: what is wrong, an example, its correction, and the sentences that `fault` prints.
fn put_fault(alloc: Global, out: &mut String, it: &Kind) -> Result<(), AllocError> {
    let kind = it.kind;
    let mut first = String::from_str(alloc, kind.code)?;
    first.push_str(" (")?;
    first.push_str(LANGUAGES.get(it.language).copied().unwrap_or(""))?;
    first.push_str("): ")?;
    put_lines(out, first.as_str(), "", kind.meaning)?;
    if !kind.example.is_empty() {
        out.push_str("\nAn example:\n")?;
        put_block(out, kind.example)?;
    }
    if !kind.mend.is_empty() {
        out.push_str("\nThe correction:\n")?;
        put_block(out, kind.mend)?;
    }
    out.push_str("\nWhat y86-tell says of it:\n\n")?;
    let said = sentences(alloc, kind.code)?;
    for sentence in said.as_slice() {
        put_sentence(alloc, out, *sentence)?;
    }
    Ok(())
}

/// Writes an empty line between two entries.
fn put_gap(out: &mut String, is_first: bool) -> Result<(), AllocError> {
    if is_first { Ok(()) } else { out.push_str("\n") }
}

/// Writes everything that was found.
pub fn put_found(alloc: Global, out: &mut String, found: &ShowMatches) -> Result<(), AllocError> {
    let mut is_first = true;
    for it in found.obligations.as_slice() {
        put_gap(out, is_first)?;
        put_obligation(alloc, out, it)?;
        is_first = false;
    }
    for it in found.instructions.as_slice() {
        put_gap(out, is_first)?;
        put_instruction(alloc, out, it)?;
        is_first = false;
    }
    for it in found.signals.as_slice() {
        put_gap(out, is_first)?;
        put_signal(alloc, out, it)?;
        is_first = false;
    }
    for it in found.faults.as_slice() {
        put_gap(out, is_first)?;
        put_fault(alloc, out, it)?;
        is_first = false;
    }
    Ok(())
}

/// Adds a name to a list.
fn put_name(out: &mut String, name: &str) -> Result<(), AllocError> {
    if !out.as_str().is_empty() {
        out.push_str(" ")?;
    }
    out.push_str(name)
}

/// Writes a heading and a row of names.
fn put_row(
    alloc: Global,
    out: &mut String,
    heading: &str,
    names: &String,
) -> Result<(), AllocError> {
    put_paragraph(alloc, out, heading, "                ", names.as_str())
}

/// Writes the names of everything that can be shown.
pub fn put_names(alloc: Global, out: &mut String, all: &ShowMatches) -> Result<(), AllocError> {
    out.push_str("y86-tell show WORD explains\n\n")?;
    let mut names = String::new(alloc);
    for it in all.obligations.as_slice() {
        if it.path != Datapath::SeqPlus {
            put_name(&mut names, it.obligation.label)?;
        }
    }
    put_row(alloc, out, "  obligations   ", &names)?;
    let mut names = String::new(alloc);
    for it in all.instructions.as_slice() {
        put_name(&mut names, it.name)?;
    }
    put_row(alloc, out, "  instructions  ", &names)?;
    let mut names = String::new(alloc);
    for it in all.signals.as_slice() {
        put_name(&mut names, it.signal.name)?;
    }
    put_row(alloc, out, "  signals       ", &names)?;
    let mut names = String::new(alloc);
    for it in all.faults.as_slice() {
        put_name(&mut names, it.kind.code)?;
    }
    put_row(alloc, out, "  faults        ", &names)
}
