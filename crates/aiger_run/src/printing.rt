//! Prints the counts of the outputs of an AIGER text.
ghost use Rattle.std.specs.Prelude.{◌≡◌, ◌<◌, ◌++◌, ◌∷◌, [], ℕ, IfOk, MatchResult, OnOk, get_or, length};
ghost use Rattle.aiger_out.specs.Reading.{IsError};
ghost use Rattle.aiger_out.specs.Written.{each};
ghost use Rattle.aiger_run.specs.PrintedCounts.{PrintsCounts, count_line, counts_text};
ghost use Rattle.y86_base.specs.Text.{with_line_feeds};

use crate::counting::counts;
use aiger_out::{AagError, read};
use std::alloc::Global;
use y86_base::{Memory, put, put_decimal};

/// Puts the line of an output.
fn put_count(out: &mut Vec<u8>, i: u64, count: u64) -> Result<(), Memory>
    ensures { OnOk result (out.new.items ≡ out.old.items ++ with_line_feeds (count_line i count ∷ [])) }
{
    put(out, b"o")?;
    put_decimal(out, i)?;
    put(out, b" ")?;
    put_decimal(out, count)?;
    put(out, b"\n")
}

/// Puts the lines of all outputs.
#[tactic(auto, using(aiger_out::proofs::Each::each_none, aiger_out::proofs::Each::each_more))]
fn put_counts(out: &mut Vec<u8>, counts: &[u64]) -> Result<(), Memory>
    ensures { OnOk result (out.new.items ≡ out.old.items ++ counts_text counts.now) }
{
    for i in 0..counts.len() {
        put_count(out, i as u64, counts[i])?;
    }
    Ok(())
}

/// Reads a text, and prints at how many of the vectors 0 to 511 of a seed each output is 1.
#[tactic(auto, using(crate::proofs::Told::tells_counts))]
pub fn count_outputs(alloc: Global, bytes: &[u8], seed: u64) -> Result<Vec<u8>, AagError>
    ensures { MatchResult result (λ text. PrintsCounts bytes.now seed text.items) (λ e. IsError 1000000 bytes.now e) }
{
    let aig = match read(alloc, bytes) {
        Ok(aig) => aig,
        Err(error) => return Err(error),
    };
    let Ok(counts) = counts(alloc, &aig, seed) else {
        return Err(AagError::Memory);
    };
    let mut text: Vec<u8> = Vec::new(alloc);
    match put_counts(&mut text, counts.as_slice()) {
        Ok(()) => Ok(text),
        Err(Memory) => Err(AagError::Memory),
    }
}
