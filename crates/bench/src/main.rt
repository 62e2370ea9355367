//! Measures what the program `y86` doesn't show by itself. Each line of the input is a request:
//!
//! - `adders BITS` shows two adders equal by their diagrams, `queens SIDE` solves the queens' problem, and `words BITS`
//!   shows when two words are equal, with their bits in an order that needs many nodes; with `nodes` before it the
//!   answer is how many nodes were made;
//! - `psim CYCLES` and `ssim CYCLES` run the book's PIPE or SEQ on the evaluator that walks the terms, in an endless
//!   loop;
//! - `gates BLOCKS` evaluates the gates of the obligations of the book's PIPE on this number of blocks of 512
//!   valuations, and `single COUNT` on this number of valuations, one after another.
#![tactic(auto)]

mod diagrams;
mod lanes;
mod walked;

use std::alloc::{AllocError, Global};
use std::io;

/// The result for a line, and nothing if it isn't a request.
fn came(alloc: Global, line: &str) -> Result<Option<String>, AllocError> {
    let (name, rest) = line.split_once(' ').unwrap_or((line, ""));
    match name {
        "gates" | "single" => lanes::answer(alloc, name, rest),
        "psim" | "ssim" => walked::answer(alloc, name, rest),
        _ => diagrams::answer(alloc, line),
    }
}

/// The answer to a line.
fn answer(alloc: Global, line: &str) -> Result<String, AllocError> {
    match came(alloc, line)? {
        Some(text) => format!(in alloc; "{line}: {text}"),
        None => format!(in alloc; "{line}: no measure"),
    }
}

fn main(rt: HostRuntime) -> io::Result<()> {
    for line in rt.lines(rt.alloc()) {
        let line = line?;
        let text = answer(rt.alloc(), line.as_str())?;
        println!(rt; "{text}")?;
    }
    Ok(())
}
