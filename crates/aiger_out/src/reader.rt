//! Reads an AIGER text as a net.
ghost use Rattle.std.specs.Prelude.{◌≡◌, ℕ, List, Bool, false, ◌+◌, ◌<◌, ◌≤◌, IfOk, MatchResult, length};
ghost use Rattle.aiger_out.specs.declared.form.Header.{Header};
ghost use Rattle.aiger_out.specs.declared.form.AagLine.TheVariants.{Input, Other};
ghost use Rattle.aiger_out.specs.Form.{IsBounded, rest_from};
ghost use Rattle.aiger_out.specs.Rows.{IsFine, row};
ghost use Rattle.aiger_out.specs.Solution.{InputsFollow, IsNetOf};
ghost use Rattle.aiger_out.specs.Reading.{AreGoodLines, IsLineError, IsError};
ghost use Rattle.aiger_out.specs.Values.{IsNetOfText};

use crate::build::put_all;
use crate::checks::first_fault;
use crate::fault::{AagError, AagFault, AagWhy};
use crate::form::{AagLine, Header};
use crate::numbers::{ended_line, header_of};
use crate::rows::{header_fault, read_rows, rest_from};
use crate::table::{Table, filled};
use crate::tail::tail_fault;
use nets::{Net, NetBuilder};
use std::alloc::Global;
use y86_base::{Items, Memory};

/// A net over the inputs of a text, in the order of their lines, and the gate of each output.
#[derive(Drop)]
pub struct Aig {
    pub net: Net,
    pub outs: Items<u64>,
}

/// The net of lines without a fault.
#[tactic(auto, using(crate::proofs::Built::start_has, crate::proofs::Built::start_false, crate::proofs::Built::may_build))]
fn build(alloc: Global, t: &Table) -> Result<Aig, Memory>
    requires fine { IsFine t.now.header (row t.now.rows.items) (rest_from t.now.header) }
    requires header { row t.now.rows.items 0 ≡ Other }
    requires inputs { InputsFollow t.now.header (row t.now.rows.items) }
    ensures { IfOk result (λ a. IsNetOf t.now.header (row t.now.rows.items) a.net a.outs) }
{
    let mut b = NetBuilder::new(alloc, t.header.inputs as u32);
    let none = b.constant(false)?;
    let Ok(mut gates) = filled(alloc, t.header.most as usize + 1, none) else {
        return Err(Memory);
    };
    let outs = put_all(alloc, &mut b, gates.as_mut_slice(), none, t)?;
    Ok(Aig {
        net: b.finish(),
        outs: Items::of(outs),
    })
}

/// The net of the lines before the symbols, if neither they nor the later lines have a fault.
fn read_lines(alloc: Global, h: Header, rows: Vec<AagLine>, rest: &[u8]) -> Result<Aig, AagError>
    requires bounded { IsBounded h }
    requires size { length rows.items ≡ rest_from h }
    requires header { row rows.items 0 ≡ Other }
    requires inputs { InputsFollow h (row rows.items) }
    ensures { MatchResult result (λ a. AreGoodLines h (row rows.items) rest.now a.net a.outs) (λ e. IsLineError h (row rows.items) rest.now e) }
{
    let Ok(table) = Table::new(alloc, h, rows) else {
        return Err(AagError::Memory);
    };
    if let Some(fault) = first_fault(&table) {
        return Err(AagError::Fault(fault));
    }
    if let Some(k) = tail_fault(h, rest) {
        let line = rest_from(h) + k as u64 + 1;
        return Err(AagError::Fault(AagFault {
            line,
            why: AagWhy::Syntax,
        }));
    }
    match build(alloc, &table) {
        Ok(aig) => Ok(aig),
        Err(Memory) => Err(AagError::Memory),
    }
}

/// A fault of the header.
fn header_error(why: AagWhy) -> AagError
    ensures { result ≡ AagError.Fault (record { line = 1; why = why }) }
{
    AagError::Fault(AagFault { line: 1, why })
}

/// Reads a text with at most a million variables and a million outputs. A line feed ends each line, also the last one.
/// Anything may follow the line `c`.
pub fn read(alloc: Global, bytes: &[u8]) -> Result<Aig, AagError>
    ensures { MatchResult result (λ a. (h : Header) × IsNetOfText 1000000 bytes.now a.net a.outs h) (λ e. IsError 1000000 bytes.now e) }
{
    let Some((first, _)) = ended_line(bytes) else {
        return Err(header_error(AagWhy::Syntax));
    };
    let Some(h) = header_of(first) else {
        return Err(header_error(AagWhy::Syntax));
    };
    if let Some(why) = header_fault(h) {
        return Err(header_error(why));
    }
    match read_rows(alloc, h, bytes) {
        Ok((rows, rest)) => read_lines(alloc, h, rows, rest),
        Err(Memory) => Err(AagError::Memory),
    }
}
