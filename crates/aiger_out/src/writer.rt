//! Writes the rules of a datapath as an AIGER text.
ghost use Rattle.std.specs.Prelude.{◌≡◌, ◌++◌, IfOk, get_or, length};
ghost use Rattle.y86_base.specs.Text.{with_line_feeds};
ghost use Rattle.aiger_out.specs.declared.form.Header.{Header};
ghost use Rattle.aiger_out.specs.Graphs.{IsGraphOf};
ghost use Rattle.aiger_out.specs.Written.{IsAagOf};
ghost use Rattle.aiger_out.specs.WrittenLines.{AreNegated, IsHeaderOf, IsNegated, gates_of, numbers_of, written_lines};

use crate::form::Header;
use crate::graph::{And, graph_of, negated};
use crate::lines_out::{
    put_ands, put_header, put_input_symbols, put_inputs, put_output_symbols, put_outputs,
};
use ctl_rules::{Rule, Rules};
use nets::Net;
use std::alloc::Global;
use y86_base::Memory;

/// The gate of a rule by its place.
#[tactic(auto, using(crate::proofs::WrittenText::gate_there, crate::proofs::WrittenText::gate_none))]
fn gate_at(rules: &[Rule], k: usize) -> u64
    ensures { result ≡ get_or (gates_of rules.now) k 0 }
{
    match rules.get(k) {
        Some(rule) => rule.gate,
        None => 0,
    }
}

/// The negation of a gate's literal. A gate that isn't there is false.
fn output_literal(literals: &[u64], gate: u64) -> u64
    ensures { IsNegated literals.now gate result }
{
    negated(literals.get(gate as usize).copied().unwrap_or(0))
}

/// The literals of the outputs, each the negation of a rule's gate.
#[tactic(auto, using(crate::proofs::WrittenText::negated_none, crate::proofs::WrittenText::negated_more))]
fn output_literals(alloc: Global, rules: &[Rule], literals: &[u64]) -> Result<Vec<u64>, Memory>
    ensures { IfOk result (λ outs. AreNegated (length rules.now) (gates_of rules.now) literals.now outs.items) }
{
    let mut outs: Vec<u64> = Vec::new(alloc);
    for k in 0..rules.len() {
        let x = output_literal(literals, gate_at(rules, k));
        if outs.push(x).is_err() {
            return Err(Memory);
        }
    }
    Ok(outs)
}

/// The header; out of memory if a literal wouldn't fit in a word, because such a text wouldn't fit in memory.
fn header_for(inputs: u32, outputs: usize, ands: usize) -> Result<Header, Memory>
    ensures { IfOk result (λ h. IsHeaderOf h inputs outputs ands) }
{
    let Some(most) = (ands as u64).checked_add(inputs as u64) else {
        return Err(Memory);
    };
    if most > u64::MAX / 2 - 1 {
        return Err(Memory);
    }
    Ok(Header {
        most,
        inputs: inputs as u64,
        latches: 0,
        outputs: outputs as u64,
        ands: ands as u64,
    })
}

/// Puts all lines.
#[tactic(auto, using(crate::proofs::WrittenText::all_put))]
fn put_lines(
    out: &mut Vec<u8>,
    inputs: u32,
    outs: &[u64],
    ands: &[And],
    rules: &[Rule],
) -> Result<Header, Memory>
    requires { length outs.now ≡ length rules.now }
    ensures { IfOk result (λ h. IsHeaderOf h inputs (length rules.now) (length ands.now) × (out.new.items ≡ out.old.items ++ with_line_feeds (written_lines h outs.now ands.now (numbers_of rules.now)))) }
{
    let h = header_for(inputs, rules.len(), ands.len())?;
    put_header(out, h)?;
    put_inputs(out, inputs)?;
    put_outputs(out, outs)?;
    put_ands(out, inputs, ands)?;
    put_input_symbols(out, inputs)?;
    put_output_symbols(out, rules)?;
    Ok(h)
}

/// Writes rules over a net, from the net's graph.
fn write_rules(
    alloc: Global,
    net: &Net,
    rules: &[Rule],
    literals: &[u64],
    ands: &[And],
) -> Result<Vec<u8>, Memory>
    requires { IsGraphOf net.now.vars net.now.gates literals.now ands.now }
    ensures { IfOk result (λ text. (h : Header) × IsAagOf net.now (gates_of rules.now) (numbers_of rules.now) text.items h) }
{
    let outs = output_literals(alloc, rules, literals)?;
    let mut text: Vec<u8> = Vec::new(alloc);
    put_lines(&mut text, net.vars(), outs.as_slice(), ands, rules)?;
    Ok(text)
}

/// Writes the rules: an input for each variable, and for each rule an output that is 1 if the rule isn't met. All
/// conjunctions of the net are written, also those that no rule reads.
pub fn write(alloc: Global, r: &Rules) -> Result<Vec<u8>, Memory>
    ensures { IfOk result (λ text. (h : Header) × IsAagOf r.now.net (gates_of r.now.list) (numbers_of r.now.list) text.items h) }
{
    let graph = graph_of(alloc, &r.net)?;
    write_rules(
        alloc,
        &r.net,
        r.list.items(),
        graph.literals.as_slice(),
        graph.ands.as_slice(),
    )
}
