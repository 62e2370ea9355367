//! Compiles the definitions of a design to decision nodes.
ghost use Rattle.std.specs.Prelude.{◌≡◌, IfOk};
ghost use Rattle.hcl_compile.specs.Walks.{AreRoots};

use crate::choices::put_value;
use crate::decisions::Decisions;
use crate::node::Compiled;
use hcl_types::{OrderedDesign, SignalEval, Term};
use std::alloc::Global;
use y86_base::{Items, Memory, push};

/// The target where the walk of each term begins.
fn put_roots(
    alloc: Global,
    all: &[Term],
    constants: &[u64],
    d: &mut Decisions,
) -> Result<Vec<u32>, Memory>
    ensures { IfOk result (λ roots. AreRoots constants.now d.new.terms.items d.new.nodes.items all.now roots.items) }
{
    let mut roots = Vec::new(alloc);
    for t in all {
        let root = put_value(alloc, t, constants, d)?;
        push(&mut roots, root)?;
    }
    Ok(roots)
}

/// The constants, copied to memory of their own.
fn copied(alloc: Global, constants: &[u64]) -> Result<Vec<u64>, Memory>
    ensures { IfOk result (λ copy. copy.items ≡ constants.now) }
{
    match Vec::from_slice(alloc, constants) {
        Ok(copy) => Ok(copy),
        Err(_) => Err(Memory),
    }
}

/// Compiles the definitions of a design to decision nodes, so that the evaluator needs no memory afterwards. The first
/// rows of the values must be the constants, because the nodes compute with them as numbers. The names of other
/// definitions are rows, which have their values once those are computed, in the sequence of the order.
pub fn compile(
    alloc: Global,
    ordered: &OrderedDesign,
    constants: &[u64],
) -> Result<Compiled, Memory>
    ensures evaluates { IfOk result (λ c. ⟦<Compiled as SignalEval>⟧.evaluates c ordered.now.design.terms) }
    ensures assumes { IfOk result (λ c. ⟦<Compiled as SignalEval>⟧.assumes c ≡ constants.now) }
{
    let mut d = Decisions {
        nodes: Vec::new(alloc),
        terms: Vec::new(alloc),
    };
    let roots = put_roots(alloc, ordered.design.terms.items(), constants, &mut d)?;
    let constants = copied(alloc, constants)?;
    let Decisions { nodes, terms } = d;
    Ok(Compiled {
        constants: Items::of(constants),
        roots: Items::of(roots),
        nodes: Items::of(nodes),
        terms: Items::of(terms),
    })
}
