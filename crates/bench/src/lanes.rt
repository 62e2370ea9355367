//! Measures the gates on 512 valuations at once, and on one valuation after another.
ghost use Rattle.std.specs.Prelude.{◌≡◌, IfOk, length};

use control_check::file_rules;
use dp_signals::{law_of_tables, pipe_table};
use hcl_binding::bind;
use hcl_order::order;
use hcl_read::read;
use hcl_types::OrderedDesign;
use lane_eval::{Scratch, first_false_place};
use nets::{Net, Valuation, eval};
use std::alloc::{AllocError, Global};
use std::simd::u64x8;
use test_designs::Example;
use y86_base::{Items, Memory, Variant};

/// The gates of the obligations of the book's pipeline.
fn obligations(alloc: Global) -> Option<Net> {
    let Ok(table) = pipe_table(alloc) else {
        return None;
    };
    law_of_tables();
    let Ok(file) = read(alloc, Example::Std.text()) else {
        return None;
    };
    let Ok(design) = bind(alloc, &file, &table) else {
        return None;
    };
    let Ok(order) = order(alloc, &design, &table) else {
        return None;
    };
    let ordered = OrderedDesign { design, order };
    let Ok(rules) = file_rules(alloc, Variant::Base, &ordered) else {
        return None;
    };
    Some(rules.net)
}

/// The vectors for `n` variables, made from a word.
fn vectors(alloc: Global, n: u32, word: u64) -> Result<Vec<u64x8>, Memory>
    ensures { IfOk result (λ v. length v.items ≡ n) }
{
    let mut lanes = Vec::new(alloc);
    for _k in 0..n {
        if lanes.push(u64x8::splat(word)).is_err() {
            return Err(Memory);
        }
    }
    Ok(lanes)
}

/// Evaluates all gates on blocks, and adds up the first places at which the last gate is false.
fn evaluated(net: &Net, s: &mut Scratch, lanes: &[u64x8], blocks: u64) -> u64
    requires has_truth { length s.old ≡ length net.now.gates }
    requires lanes { length lanes.now ≡ net.now.vars }
{
    let mut total = 0u64;
    for _k in 0..blocks {
        s.run(net, lanes);
        let gates = net.len();
        if gates > 0 {
            total = total.wrapping_add(first_false_place(s.at(gates - 1)));
        }
    }
    total
}

/// Evaluates the gates on `blocks` blocks, and returns the number of gates.
fn measured(alloc: Global, blocks: u64) -> Option<u64> {
    let net = obligations(alloc)?;
    let Ok(lanes) = vectors(alloc, net.vars(), 0x1234_5678_9abc_def1) else {
        return None;
    };
    let Ok(mut s) = Scratch::new(alloc, &net) else {
        return None;
    };
    let _total = evaluated(&net, &mut s, lanes.as_slice(), blocks);
    Some(net.len())
}

/// Evaluates the last gate on `count` valuations, one after another, and returns the number of gates.
fn one_by_one(alloc: Global, count: u64) -> Option<u64> {
    let net = obligations(alloc)?;
    let gates = net.len();
    if gates == 0 {
        return None;
    }
    let Ok(bits) = vec![in alloc; false; net.vars() as usize] else {
        return None;
    };
    let v = Valuation {
        bits: Items::of(bits),
    };
    for _ in 0..count {
        if eval(alloc, &net, gates - 1, &v).is_err() {
            return None;
        }
    }
    Some(gates)
}

/// The answer to a number of blocks, or of single valuations; nothing if `count` is no number.
pub fn answer(alloc: Global, name: &str, count: &str) -> Result<Option<String>, AllocError> {
    let Ok(count) = count.parse::<u64>() else {
        return Ok(None);
    };
    let gates = if name == "gates" {
        measured(alloc, count)
    } else {
        one_by_one(alloc, count)
    };
    match gates {
        Some(gates) => Ok(Some(format!(in alloc; "{gates} gates")?)),
        None => Ok(None),
    }
}
