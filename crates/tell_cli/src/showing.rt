//! `show`: what an obligation, an instruction, a signal or a kind of fault is.
use json::Writer;
use show_text::{ShowMatches, found_of, put_found, put_found_json, put_names};
use std::alloc::{AllocError, Global};
use tell_faults::{Said, Stop, json_text, tables};
use y86_base::Memory;

/// The JSON of what was found.
fn found_json(alloc: Global, found: &ShowMatches) -> Result<Vec<u8>, AllocError> {
    let tables = match tables(alloc) {
        Ok(tables) => tables,
        Err(Memory) => return Err(AllocError),
    };
    let mut out = Writer::new(Vec::new(alloc));
    put_found_json(alloc, &mut out, &tables, found)?;
    json_text(out)
}

/// The sentences on what was found; the names of everything if no word is given.
fn found_text(
    alloc: Global,
    word: Option<&str>,
    found: &ShowMatches,
) -> Result<Vec<u8>, AllocError> {
    let mut text = String::new(alloc);
    match word {
        None => put_names(alloc, &mut text, found)?,
        Some(word) => {
            if found.is_empty() {
                write!(
                    text,
                    "{word} is no obligation, no instruction, no signal that a file defines, and no code of a fault. y86-tell show lists these; docs/HCL.md has the other names.\n"
                )?;
            }
            put_found(alloc, &mut text, found)?;
        }
    }
    Ok(text.into_bytes())
}

/// Explains a word. The status is 1 if nothing has this name.
pub fn show(alloc: Global, word: Option<&str>, json: bool) -> Result<Said, Stop<'static>> {
    let found = found_of(alloc, word)?;
    let text = if json {
        found_json(alloc, &found)?
    } else {
        found_text(alloc, word, &found)?
    };
    Ok(Said {
        status: if found.is_empty() { 1 } else { 0 },
        text,
    })
}
