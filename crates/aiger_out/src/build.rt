//! The lines of a text as a net.
ghost use Rattle.std.specs.Prelude.{◌≡◌, ℕ, List, Bool, false, ◌+◌, ◌/◌, ◌<◌, ◌≤◌, IfOk, get_or, length, set};
ghost use Rattle.nets.specs.Nets.{ExtendsNet, IsGate, truth};
ghost use Rattle.aiger_out.specs.Form.{rest_from};
ghost use Rattle.aiger_out.specs.Rows.{row};
ghost use Rattle.aiger_out.specs.Values.{literal_value, output_literal};
ghost use Rattle.aiger_out.specs.Solution.{AreBuilt, AreOutputs, HasGates, IsBuilt, MayBuild, gate_values, solution};

use crate::form::AagLine;
use crate::rows::{rest_from, row_at};
use crate::table::Table;
use nets::NetBuilder;
use std::alloc::Global;
use y86_base::Memory;

/// A gate for the value of a literal, from the gates of variables and the gate `none` for those that have none.
fn literal_gate(b: &mut NetBuilder, gates: &[u64], none: u64, x: u64) -> Result<u64, Memory>
    requires { (v : ℕ) → get_or gates.now v none < length b.old.gates }
    ensures extends { ExtendsNet b.old b.new }
    ensures has_truth { IfOk result (λ g. IsGate b.new g (λ w. literal_value (gate_values b.old gates.now none w) x)) }
{
    let g = gates.get((x / 2) as usize).copied().unwrap_or(none);
    if x % 2 == 1 { b.not(g) } else { Ok(g) }
}

/// A gate for the value of the variable that a line defines.
#[tactic(auto, using(crate::proofs::Built::within_later, crate::proofs::Built::built_input, crate::proofs::Built::built_and, crate::proofs::Built::built_none))]
fn put_line(
    b: &mut NetBuilder,
    gates: &mut [u64],
    none: u64,
    t: &Table,
    j: u64,
) -> Result<(), Memory>
    requires inside { j < rest_from t.now.header }
    requires has { HasGates t.now.header b.old gates.old none }
    requires may { MayBuild t.now.header b.old.vars j (row t.now.rows.items j) }
    ensures extends { ExtendsNet b.old b.new }
    ensures built { IfOk result (λ u. IsBuilt t.now.header b.old gates.old none j (row t.now.rows.items j) b.new gates.new) }
{
    match row_at(t.rows.as_slice(), j) {
        AagLine::Input(x) => {
            let g = b.variable((j - 1) as u32)?;
            gates[(x / 2) as usize] = g;
        }
        AagLine::And(a) => {
            let first = literal_gate(b, gates, none, a.rhs0)?;
            let second = literal_gate(b, gates, none, a.rhs1)?;
            let g = b.and(first, second)?;
            gates[(a.lhs / 2) as usize] = g;
        }
        AagLine::Output(_) | AagLine::Other => {}
    }
    Ok(())
}

/// Gates for the values of all variables.
#[tactic(auto, using(crate::proofs::Built::built_start, crate::proofs::Built::built_more, nets::proofs::Truths::begins_self, nets::proofs::Truths::begins_more))]
fn put_lines(b: &mut NetBuilder, gates: &mut [u64], none: u64, t: &Table) -> Result<(), Memory>
    requires has { HasGates t.now.header b.old gates.old none }
    requires start { (w : List Bool) (v : ℕ) → gate_values b.old gates.old none w v ≡ false }
    requires may { (j : ℕ) → j < rest_from t.now.header → MayBuild t.now.header b.old.vars j (row t.now.rows.items j) }
    ensures extends { ExtendsNet b.old b.new }
    ensures built { IfOk result (λ u. AreBuilt t.now.header (row t.now.rows.items) (rest_from t.now.header) b.new gates.new none) }
{
    for j in 0..rest_from(t.header) {
        put_line(b, gates, none, t, j)?;
    }
    Ok(())
}

/// The literal of an output line; for any other line, that of false.
fn output_literal(line: AagLine) -> u64
    ensures { result ≡ output_literal line }
{
    match line {
        AagLine::Output(x) => x,
        AagLine::Input(_) | AagLine::And(_) | AagLine::Other => 0,
    }
}

/// Gates for the outputs.
#[tactic(auto, using(crate::proofs::Built::outputs_start, crate::proofs::Built::outputs_more, crate::proofs::Built::within_later, nets::proofs::Truths::begins_self, nets::proofs::Truths::begins_more))]
fn put_outputs(
    alloc: Global,
    b: &mut NetBuilder,
    gates: &[u64],
    none: u64,
    t: &Table,
) -> Result<Vec<u64>, Memory>
    requires { HasGates t.now.header b.old gates.now none }
    ensures extends { ExtendsNet b.old b.new }
    ensures outputs { IfOk result (λ outs. AreOutputs t.now.header (row t.now.rows.items) (gate_values b.old gates.now none) t.now.header.outputs b.new outs.items) }
{
    let mut outs: Vec<u64> = Vec::new(alloc);
    for i in 0..t.header.outputs {
        let x = output_literal(row_at(t.rows.as_slice(), 1 + t.header.inputs + i));
        let g = literal_gate(b, gates, none, x)?;
        if outs.push(g).is_err() {
            return Err(Memory);
        }
    }
    Ok(outs)
}

/// Gates for all lines: those of the variables, and from them those of the outputs.
#[tactic(auto, using(crate::proofs::Built::outputs_are, nets::proofs::Truths::begins_more))]
pub(crate) fn put_all(
    alloc: Global,
    b: &mut NetBuilder,
    gates: &mut [u64],
    none: u64,
    t: &Table,
) -> Result<Vec<u64>, Memory>
    requires has { HasGates t.now.header b.old gates.old none }
    requires start { (w : List Bool) (v : ℕ) → gate_values b.old gates.old none w v ≡ false }
    requires may { (j : ℕ) → j < rest_from t.now.header → MayBuild t.now.header b.old.vars j (row t.now.rows.items j) }
    ensures extends { ExtendsNet b.old b.new }
    ensures outputs { IfOk result (λ outs. AreOutputs t.now.header (row t.now.rows.items) (λ bits. solution t.now.header (row t.now.rows.items) bits (rest_from t.now.header)) t.now.header.outputs b.new outs.items) }
{
    put_lines(b, gates, none, t)?;
    put_outputs(alloc, b, gates, none, t)
}
