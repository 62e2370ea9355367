//! Writes the lines of an AIGER text.
ghost use Rattle.std.specs.Prelude.{◌≡◌, ◌+◌, ◌*◌, ◌^◌, ◌<◌, ◌∷◌, [], ◌++◌, OnOk, get_or, length};
ghost use Rattle.y86_base.specs.Text.{with_line_feeds};
ghost use Rattle.aiger_out.specs.Graphs.{and_at};
ghost use Rattle.aiger_out.specs.Written as spec;
ghost use Rattle.aiger_out.specs.WrittenLines.{and_line_of, numbers_of, output_symbol_of};

use crate::form::Header;
use crate::graph::And;
use ctl_rules::Rule;
use y86_base::{Memory, put, put_decimal};

/// Puts a blank and a number.
fn put_spaced(out: &mut Vec<u8>, n: u64) -> Result<(), Memory>
    ensures { OnOk result (out.new.items ≡ out.old.items ++ spec.spaced n) }
{
    put(out, b" ")?;
    put_decimal(out, n)
}

/// Puts the header's line.
pub(crate) fn put_header(out: &mut Vec<u8>, h: Header) -> Result<(), Memory>
    ensures { OnOk result (out.new.items ≡ out.old.items ++ with_line_feeds (spec.header_text h ∷ [])) }
{
    put(out, b"aag")?;
    put_spaced(out, h.most)?;
    put_spaced(out, h.inputs)?;
    put_spaced(out, h.latches)?;
    put_spaced(out, h.outputs)?;
    put_spaced(out, h.ands)?;
    put(out, b"\n")
}

/// Puts a line of one number.
fn put_literal(out: &mut Vec<u8>, x: u64) -> Result<(), Memory>
    ensures { OnOk result (out.new.items ≡ out.old.items ++ with_line_feeds (spec.decimal x ∷ [])) }
{
    put_decimal(out, x)?;
    put(out, b"\n")
}

/// Puts a line of three numbers.
fn put_and(out: &mut Vec<u8>, lhs: u64, a: And) -> Result<(), Memory>
    ensures { OnOk result (out.new.items ≡ out.old.items ++ with_line_feeds (spec.and_text (record { lhs = lhs; rhs0 = a.first; rhs1 = a.second }) ∷ [])) }
{
    put_decimal(out, lhs)?;
    put_spaced(out, a.first)?;
    put_spaced(out, a.second)?;
    put(out, b"\n")
}

/// Puts the name of an input.
fn put_input_symbol(out: &mut Vec<u8>, k: u64) -> Result<(), Memory>
    ensures { OnOk result (out.new.items ≡ out.old.items ++ with_line_feeds (spec.input_symbol k ∷ [])) }
{
    put(out, b"i")?;
    put_decimal(out, k)?;
    put(out, b" x")?;
    put_decimal(out, k)?;
    put(out, b"\n")
}

/// Puts the name of an output.
fn put_output_symbol(out: &mut Vec<u8>, k: u64, number: u64) -> Result<(), Memory>
    ensures { OnOk result (out.new.items ≡ out.old.items ++ with_line_feeds (spec.output_symbol k number ∷ [])) }
{
    put(out, b"o")?;
    put_decimal(out, k)?;
    put(out, b" O")?;
    put_decimal(out, number)?;
    put(out, b"\n")
}

/// Puts the lines of the inputs.
#[tactic(auto, using(crate::proofs::Each::each_none, crate::proofs::Each::each_more))]
pub(crate) fn put_inputs(out: &mut Vec<u8>, count: u32) -> Result<(), Memory>
    ensures { OnOk result (out.new.items ≡ out.old.items ++ with_line_feeds (spec.each (λ k. spec.decimal (2 * (k + 1))) count)) }
{
    for k in 0..count {
        put_literal(out, 2 * (k as u64 + 1))?;
    }
    Ok(())
}

/// Puts the lines of the outputs.
#[tactic(auto, using(crate::proofs::Each::each_none, crate::proofs::Each::each_more))]
pub(crate) fn put_outputs(out: &mut Vec<u8>, literals: &[u64]) -> Result<(), Memory>
    ensures { OnOk result (out.new.items ≡ out.old.items ++ with_line_feeds (spec.each (λ k. spec.decimal (get_or literals.now k 0)) (length literals.now))) }
{
    for k in 0..literals.len() {
        put_literal(out, literals[k])?;
    }
    Ok(())
}

/// An AND by its place.
fn and_at(ands: &[And], k: usize) -> And
    ensures { result ≡ and_at ands.now k }
{
    match ands.get(k) {
        Some(a) => *a,
        None => And {
            first: 0,
            second: 0,
        },
    }
}

/// Puts the lines of the ANDs. Their variables follow those of the inputs.
#[tactic(auto, using(crate::proofs::Each::each_none, crate::proofs::Each::each_more))]
pub(crate) fn put_ands(out: &mut Vec<u8>, inputs: u32, ands: &[And]) -> Result<(), Memory>
    requires { 2 * (inputs + length ands.now) + 1 < 2 ^ 64 }
    ensures { OnOk result (out.new.items ≡ out.old.items ++ with_line_feeds (spec.each (λ k. spec.and_text (and_line_of inputs ands.now k)) (length ands.now))) }
{
    for k in 0..ands.len() {
        let lhs = 2 * (inputs as u64 + (k as u64 + 1));
        put_and(out, lhs, and_at(ands, k))?;
    }
    Ok(())
}

/// Puts the names of the inputs.
#[tactic(auto, using(crate::proofs::Each::each_none, crate::proofs::Each::each_more))]
pub(crate) fn put_input_symbols(out: &mut Vec<u8>, count: u32) -> Result<(), Memory>
    ensures { OnOk result (out.new.items ≡ out.old.items ++ with_line_feeds (spec.each spec.input_symbol count)) }
{
    for k in 0..count {
        put_input_symbol(out, k as u64)?;
    }
    Ok(())
}

/// The number of a rule by its place.
#[tactic(auto, using(crate::proofs::WrittenText::number_there, crate::proofs::WrittenText::number_none))]
fn number_at(rules: &[Rule], k: usize) -> u64
    ensures { result ≡ get_or (numbers_of rules.now) k 0 }
{
    match rules.get(k) {
        Some(rule) => rule.number as u64,
        None => 0,
    }
}

/// Puts the names of the outputs.
#[tactic(auto, using(crate::proofs::Each::each_none, crate::proofs::Each::each_more))]
pub(crate) fn put_output_symbols(out: &mut Vec<u8>, rules: &[Rule]) -> Result<(), Memory>
    ensures { OnOk result (out.new.items ≡ out.old.items ++ with_line_feeds (spec.each (output_symbol_of (numbers_of rules.now)) (length rules.now))) }
{
    for k in 0..rules.len() {
        put_output_symbol(out, k as u64, number_at(rules, k))?;
    }
    Ok(())
}
