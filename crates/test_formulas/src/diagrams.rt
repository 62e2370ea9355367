//! Tests of the diagrams of small formulas that were worked out by hand, and of large ones with known counts.
ghost use Rattle.std.specs.Prelude.{◌≡◌, IfOk, IfSome, length};
ghost use Rattle.bdd_core.specs.Meaning.{IsDia};

use crate::{Formula, Sample, built, formulas_of, paths};
use bdd_core::{Dia, Node, Store};
use nets::{Valuation, eval};
use std::alloc::Global;
use std::test::Fail;
use y86_base::{Items, Memory};

/// Formulas over two variables: whether they are valid, and the least valuation at which they are false.
static LEAST: [(&str, bool, Option<[bool; 2]>); 6] = [
    ("01|", false, Some([false, false])),
    ("0!1|", false, Some([true, false])),
    ("00!|", true, None),
    ("01&!", false, Some([true, true])),
    ("1!0!|", false, Some([true, true])),
    ("001|&!0|", true, None),
];

/// Two formulas, and whether they have the same truth at every valuation.
static SAME: [(&str, &str, bool); 5] = [
    ("001|&", "0", true),
    ("0", "1", false),
    ("01&!", "0!1!|", true),
    ("01|", "01&", false),
    ("00!&", "11!&", true),
];

/// The two diagrams of two formulas.
fn pair(alloc: Global, text: &str, other: &str) -> Option<(Store, Dia, Dia)>
    ensures first { IfSome result (λ r. IsDia r.0 r.1) }
    ensures second { IfSome result (λ r. IsDia r.0 r.2) }
{
    let formulas = formulas_of(alloc, 2, text, other)?;
    built(alloc, &formulas)
}

#[test]
fn small_formulas(rt: HostRuntime) -> Result<(), Fail> {
    for (text, valid, least) in &LEAST {
        let found = pair(rt.alloc(), text, "0");
        assert!(rt; found.is_some(), "{text}");
        if let Some((store, root, _)) = found {
            assert_eq!(rt; store.valid(root), *valid, "{text}");
            let bits = match store.least_false(root)? {
                Some(v) => match v.bits.items() {
                    [a, b] => Some([*a, *b]),
                    _ => None,
                },
                None => None,
            };
            assert_eq!(rt; bits, *least, "{text}");
        }
    }
    for (text, other, same) in &SAME {
        let found = pair(rt.alloc(), text, other);
        assert!(rt; found.is_some(), "{text} {other}");
        if let Some((store, first, second)) = found {
            assert_eq!(rt; store.same(first, second), *same, "{text} {other}");
        }
    }
    Ok(())
}

#[test]
fn nodes_from_the_root(rt: HostRuntime) -> Result<(), Fail> {
    let found = pair(rt.alloc(), "101|&", "1");
    assert!(rt; found.is_some());
    if let Some((store, root, variable)) = found {
        assert!(rt; root == variable);
        match store.node(root) {
            Node::Choice { var, low, high } => {
                assert_eq!(rt; var, 1);
                assert!(rt; store.node(low) == Node::False);
                assert!(rt; store.node(high) == Node::True);
            }
            _ => assert!(rt; false),
        }
    }
    Ok(())
}

/// Samples of a size: whether they are valid, how many paths lead to truth, and the least counts of gates and of nodes.
static SAMPLES: [(Sample, u32, bool, u64, u64, u64); 4] = [
    (Sample::Adders, 16, true, 1, 300, 1000),
    (Sample::Queens, 6, false, 4, 300, 1000),
    (Sample::Words, 8, false, 256, 60, 765),
    (Sample::Parities, 220, true, 1, 3000, 100_000),
];

#[test]
fn samples(rt: HostRuntime) -> Result<(), Fail> {
    for (sample, size, valid, truths, gates, nodes) in &SAMPLES {
        let formula = sample.formula(rt.alloc(), *size);
        assert!(rt; formula.is_some(), "{size}");
        if let Some(formula) = formula {
            assert!(rt; formula.net.len() >= *gates, "{size}");
            let found = built(rt.alloc(), &formula);
            assert!(rt; found.is_some(), "{size}");
            if let Some((store, root, other)) = found {
                assert_eq!(rt; store.valid(root), *valid, "{size}");
                assert_eq!(rt; paths(&store, root, 64), *truths, "{size}");
                assert!(rt; other.id >= *nodes, "{size}");
            }
        }
    }
    Ok(())
}

/// The bits of a number, the lowest first.
fn bits_of(alloc: Global, vars: u32, number: u32) -> Result<Vec<bool>, Memory>
    ensures { IfOk result (λ bits. length bits.items ≡ vars) }
{
    let mut bits = match vec![in alloc; false; vars as usize] {
        Ok(bits) => bits,
        Err(_) => return Err(Memory),
    };
    let mut left = number;
    for bit in bits.as_mut_slice() {
        *bit = left % 2 == 1;
        left /= 2;
    }
    Ok(bits)
}

/// The truth of a diagram, by a walk of at most `steps` steps.
fn walk(store: &Store, root: Dia, bits: &[bool], steps: u32) -> Option<bool>
    requires { IsDia store.now root }
{
    let mut d = root;
    for _ in 0..steps {
        match store.node(d) {
            Node::False => return Some(false),
            Node::True => return Some(true),
            Node::Choice { var, low, high } => {
                d = if *bits.get(var as usize)? { high } else { low };
            }
        }
    }
    None
}

/// The truth of a formula whose variables are the bits of a number, by its net and by its diagram.
fn truths(
    alloc: Global,
    formula: &Formula,
    store: &Store,
    root: Dia,
    number: u32,
) -> Result<Option<(bool, bool)>, Memory>
    requires { IsDia store.now root }
{
    let vars = formula.net.vars();
    if formula.gate >= formula.net.len() {
        return Ok(None);
    }
    let bits = bits_of(alloc, vars, number)?;
    let walked = walk(store, root, bits.as_slice(), vars.saturating_add(1));
    let v = Valuation {
        bits: Items::of(bits),
    };
    let told = eval(alloc, &formula.net, formula.gate, &v)?;
    match walked {
        Some(walked) => Ok(Some((told, walked))),
        None => Ok(None),
    }
}

#[test]
fn all_valuations_of_twenty_variables(rt: HostRuntime) -> Result<(), Fail> {
    let found = match Sample::Pairs.formula(rt.alloc(), 10) {
        Some(formula) => match built(rt.alloc(), &formula) {
            Some((store, root, _)) => Some((formula, store, root)),
            None => None,
        },
        None => None,
    };
    assert!(rt; found.is_some());
    if let Some((formula, store, root)) = found {
        // In all but 3^10 of them both variables of some pair are true.
        let mut trues = 0u32;
        let mut agree = 0u32;
        for number in 0..1_048_576u32 {
            if let Some((told, walked)) = truths(rt.alloc(), &formula, &store, root, number)? {
                trues = trues.wrapping_add(told as u32);
                agree = agree.wrapping_add((told == walked) as u32);
            }
        }
        assert_eq!(rt; (trues, agree), (1_048_576 - 59_049, 1_048_576));
    }
    Ok(())
}
