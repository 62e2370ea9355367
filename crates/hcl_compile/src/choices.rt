//! Compiles terms: decision nodes that test a term, or lead to its value.
ghost use Rattle.std.specs.Prelude.{◌++◌, IfOk, map};
ghost use Rattle.hcl_types.specs.declared.term.Term.TheVariants.{Cmp, In};
ghost use Rattle.hcl_types.specs.Terms.{branch_names, branch_value, joined, names, picked, value, word_meaning};
ghost use Rattle.hcl_compile.specs.Making.{Decides, IsNumber, IsTest, IsTruth, IsValue, IsValued, MayTest, quantified};

use crate::decisions::{Decisions, put_code, put_term, put_term_value};
use crate::equality::put_equal;
use crate::numbers::{Operand, number_target, operand_target, read_operand};
use crate::targets::{Quantifier, Targets};
use hcl_types::{CmpOp, Term, TermBranch};
use std::alloc::Global;
use y86_base::Memory;

/// Makes the nodes that decide whether a term holds, and returns the target where they begin. Decisions are made from
/// the last one, so that the targets of each are known.
#[cycle(testing)]
fn put_test(
    alloc: Global,
    t: &Term,
    constants: &[u64],
    to: Targets,
    d: &mut Decisions,
) -> Result<u32, Memory>
    ensures { IfOk result (IsTest constants.now t.now d.old d.new to) }
{
    match t {
        Term::Not(x) => put_test(alloc, x.get(), constants, to.swapped(), d),
        Term::And(all) => put_terms(alloc, Quantifier::All, all.items(), constants, to, d),
        Term::Or(all) => put_terms(alloc, Quantifier::Any, all.items(), constants, to, d),
        _ => put_undivided(alloc, t, constants, to, d),
    }
}

/// Decides whether all terms of a list hold, or any of them.
#[cycle(testing)]
fn put_terms(
    alloc: Global,
    quantifier: Quantifier,
    all: &[Term],
    constants: &[u64],
    to: Targets,
    d: &mut Decisions,
) -> Result<u32, Memory>
    ensures { IfOk result (Decides constants.now (joined (map names all.now)) (λ env. quantified quantifier word_meaning.holds (map (value word_meaning env) all.now)) d.old d.new to) }
{
    let mut place = quantifier.of_none(to);
    let mut left = all.len();
    while left > 0 {
        left -= 1;
        place = put_test(
            alloc,
            &all[left],
            constants,
            quantifier.ahead_of(place, to),
            d,
        )?;
    }
    Ok(place)
}

/// Decides whether a term that isn't divided into tests holds: if possible by nodes that read rows, and otherwise by a
/// node that evaluates the whole term.
fn put_undivided(
    alloc: Global,
    t: &Term,
    constants: &[u64],
    to: Targets,
    d: &mut Decisions,
) -> Result<u32, Memory>
    ensures { IfOk result (IsTest constants.now t.now d.old d.new to) }
{
    match put_by_rows(t, constants, to, d)? {
        Some(place) => Ok(place),
        None => put_term(alloc, t, to, d),
    }
}

/// Decides by reading rows whether a term holds, if nodes can.
fn put_by_rows(
    t: &Term,
    constants: &[u64],
    to: Targets,
    d: &mut Decisions,
) -> Result<Option<u32>, Memory>
    ensures { IfOk result (MayTest constants.now t.now d.old d.new to) }
{
    match t {
        Term::Num(_) | Term::Name(_) => put_operand(t, constants, to, d),
        Term::Cmp(op, x, y) => put_comparison(*op, x.get(), y.get(), constants, to, d),
        Term::In(x, all) => put_membership(x.get(), all.items(), constants, to, d),
        Term::Not(_) | Term::And(_) | Term::Or(_) | Term::Case(_) => Ok(None),
    }
}

/// Decides whether a number or a name holds.
fn put_operand(
    t: &Term,
    constants: &[u64],
    to: Targets,
    d: &mut Decisions,
) -> Result<Option<u32>, Memory>
    ensures { IfOk result (MayTest constants.now t.now d.old d.new to) }
{
    match read_operand(t, constants) {
        Operand::Number(n) => Ok(Some(to.chosen(n != 0))),
        Operand::Row(id) => Ok(Some(put_code(id, 0, to.swapped(), d)?)),
        Operand::Other => Ok(None),
    }
}

/// Decides whether `x op y` holds.
fn put_comparison(
    op: CmpOp,
    x: &Term,
    y: &Term,
    constants: &[u64],
    to: Targets,
    d: &mut Decisions,
) -> Result<Option<u32>, Memory>
    ensures { IfOk result (MayTest constants.now (Cmp op x.now y.now) d.old d.new to) }
{
    match op {
        CmpOp::Eq => put_equal(x, y, constants, to, d),
        CmpOp::Ne => put_equal(x, y, constants, to.swapped(), d),
        CmpOp::Lt | CmpOp::Le | CmpOp::Gt | CmpOp::Ge => Ok(None),
    }
}

/// Decides whether `x in { all }` holds: `x` is compared with the members, from the last on.
fn put_membership(
    x: &Term,
    all: &[Term],
    constants: &[u64],
    to: Targets,
    d: &mut Decisions,
) -> Result<Option<u32>, Memory>
    ensures { IfOk result (MayTest constants.now (In x.now all.now) d.old d.new to) }
{
    let mut place = to.miss;
    let mut left = all.len();
    while left > 0 {
        left -= 1;
        match put_equal(
            x,
            &all[left],
            constants,
            Quantifier::Any.ahead_of(place, to),
            d,
        )? {
            Some(equal) => place = equal,
            None => return Ok(None),
        }
    }
    Ok(Some(place))
}

/// Leads to the value of a term that is a truth: 1 if it holds, otherwise 0.
fn put_truth(alloc: Global, t: &Term, constants: &[u64], d: &mut Decisions) -> Result<u32, Memory>
    requires { IsTruth t.now }
    ensures { IfOk result (IsValue constants.now t.now d.old d.new) }
{
    match (number_target(1, constants), number_target(0, constants)) {
        (Some(one), Some(zero)) => {
            let to = Targets {
                hit: one,
                miss: zero,
            };
            put_test(alloc, t, constants, to, d)
        }
        _ => put_term_value(alloc, t, d),
    }
}

/// Makes the nodes that lead to the value of a term, and returns the target where they begin.
#[cycle(valuing)]
pub fn put_value(
    alloc: Global,
    t: &Term,
    constants: &[u64],
    d: &mut Decisions,
) -> Result<u32, Memory>
    ensures { IfOk result (IsValue constants.now t.now d.old d.new) }
{
    if let Some(target) = operand_target(t, constants) {
        return Ok(target);
    }
    match t {
        Term::Num(_) | Term::Name(_) => put_term_value(alloc, t, d),
        Term::Case(all) => match number_target(0, constants) {
            Some(none) => put_case(alloc, all.items(), constants, none, d),
            None => put_term_value(alloc, t, d),
        },
        _ => put_truth(alloc, t, constants, d),
    }
}

/// Leads to the value of the first branch whose guard holds, or to the value at `none`, which is 0.
#[cycle(valuing)]
fn put_case(
    alloc: Global,
    all: &[TermBranch],
    constants: &[u64],
    none: u32,
    d: &mut Decisions,
) -> Result<u32, Memory>
    requires { IsNumber constants.now 0 none }
    ensures { IfOk result (IsValued constants.now (joined (map branch_names all.now)) (λ env. picked word_meaning.holds 0 (map (branch_value word_meaning env) all.now)) d.old d.new) }
{
    let mut place = none;
    let mut left = all.len();
    while left > 0 {
        left -= 1;
        let branch = &all[left];
        let value = put_value(alloc, &branch.value, constants, d)?;
        let value_or_rest = Targets {
            hit: value,
            miss: place,
        };
        place = put_test(alloc, &branch.guard, constants, value_or_rest, d)?;
    }
    Ok(place)
}
