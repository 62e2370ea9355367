//! The verdict, and the diagnosis of a refusal.
ghost use Rattle.std.specs.Prelude.{◌≡◌, ◌≤◌, ◌<◌, ◌+◌, ◌∷◌, [], IfErr, IfOk, OnOk, Some, length, slice_get, true};
ghost use Rattle.hcl_types.specs.Tables.{IsBound, IsOrderOf};
ghost use Rattle.ctl_atoms.specs.Atoms.{AreAtoms};
ghost use Rattle.seq_plus.specs.Datapaths.{rows_of};
ghost use Rattle.seq_check.specs.Rules.{AreRulesOf};
ghost use Rattle.seq_check.specs.Verdicts.{Refines};
ghost use Rattle.ctl_verdicts.specs.Decisions.{IsRuleDecision};
ghost use Rattle.ctl_verdicts.specs.ObligationSet.{IsFault};
ghost use Rattle.seq_refusals.specs.Answered as spec;
ghost use Rattle.seq_refusals.specs.Failures.{IsFailure};

use ctl_rules::{Rule, Rules};
use ctl_verdicts::{CheckFault, FailedRule, check_fault, decide};
use hcl_types::{OrderedDesign, SequentialDatapath};
use nets::Net;
use seq_check::rules_of;
use seq_diagnosis::{Refusal, Refutation, SeqFile, diagnose};
use std::alloc::Global;
use y86_base::{Items, Memory, Variant, push};

/// The answer on a file.
#[derive(Drop)]
pub enum SeqAnswer {
    Yes,
    No(Refusal),
}

/// `None` if a rule is true at every valuation, else the least valuation at which it is false.
#[tactic(auto, using(crate::proofs::Refuting::one_gate))]
fn decide_one(alloc: Global, net: &Net, rule: Rule) -> Result<Option<FailedRule>, Memory>
    requires { rule.gate < length net.now.gates }
    ensures { IfOk result (IsRuleDecision net.now (rule ∷ [])) }
{
    let one = [rule];
    decide(alloc, net, &one)
}

fn rule_at(list: &[Rule], k: usize) -> Rule
    requires { k < length list.now }
    ensures { slice_get list.now k ≡ Some result }
{
    list[k]
}

/// Refutes an obligation that is false somewhere.
fn refute(
    alloc: Global,
    file: &SeqFile<'_>,
    rules: &Rules,
    failure: FailedRule,
) -> Result<Refutation, Memory>
    requires ordered { IsOrderOf (rows_of file.now.which) file.now.ordered.now.design.terms file.now.ordered.now.order.ids }
    requires rules { AreRulesOf file.now.which file.now.variant file.now.ordered.now.design.terms rules.now.net rules.now.list }
    requires atoms { AreAtoms (rows_of file.now.which) file.now.ordered.now.design.terms rules.now.atoms }
    requires failure { IsFailure rules.now.net rules.now.list failure }
    ensures refutation { IfOk result (spec.IsRefutation file.now.which file.now.variant file.now.ordered.now.design.terms rules.now.atoms) }
    ensures rule { IfOk result (λ x. x.rule ≡ failure.rule) }
    ensures valuation { IfOk result (λ x. x.valuation ≡ failure.valuation) }
{
    let diagnosis = diagnose(
        alloc,
        file,
        rules.atoms.items(),
        failure.rule,
        failure.valuation.bits.items(),
    )?;
    Ok(Refutation {
        rule: failure.rule,
        valuation: failure.valuation,
        diagnosis,
    })
}

/// Refutes the obligation of the rule at a place, if it is false somewhere.
fn refute_at(
    alloc: Global,
    file: &SeqFile<'_>,
    rules: &Rules,
    k: usize,
    first: &Refutation,
    others: &mut Vec<Refutation>,
) -> Result<(), Memory>
    requires ordered { IsOrderOf (rows_of file.now.which) file.now.ordered.now.design.terms file.now.ordered.now.order.ids }
    requires rules { AreRulesOf file.now.which file.now.variant file.now.ordered.now.design.terms rules.now.net rules.now.list }
    requires atoms { AreAtoms (rows_of file.now.which) file.now.ordered.now.design.terms rules.now.atoms }
    requires within { k < length rules.now.list }
    requires refuted { spec.AreRefuted file.now.which file.now.variant file.now.ordered.now.design.terms rules.now.atoms k (first.now ∷ others.old.items) }
    ensures { OnOk result (spec.AreRefuted file.now.which file.now.variant file.now.ordered.now.design.terms rules.now.atoms (k + 1) (first.now ∷ others.new.items)) }
{
    let rule = rule_at(rules.list.items(), k);
    match decide_one(alloc, &rules.net, rule)? {
        None => Ok(()),
        Some(failure) => {
            let refutation = refute(alloc, file, rules, failure)?;
            push(others, refutation)?;
            Ok(())
        }
    }
}

/// Refutes the false obligations after the first one.
fn refute_others(
    alloc: Global,
    file: &SeqFile<'_>,
    rules: &Rules,
    first: &Refutation,
) -> Result<Vec<Refutation>, Memory>
    requires ordered { IsOrderOf (rows_of file.now.which) file.now.ordered.now.design.terms file.now.ordered.now.order.ids }
    requires rules { AreRulesOf file.now.which file.now.variant file.now.ordered.now.design.terms rules.now.net rules.now.list }
    requires atoms { AreAtoms (rows_of file.now.which) file.now.ordered.now.design.terms rules.now.atoms }
    requires within { first.now.rule ≤ length rules.now.list }
    requires first { spec.AreRefuted file.now.which file.now.variant file.now.ordered.now.design.terms rules.now.atoms first.now.rule (first.now ∷ []) }
    ensures { IfOk result (λ others. spec.AreRefuted file.now.which file.now.variant file.now.ordered.now.design.terms rules.now.atoms (length rules.now.list) (first.now ∷ others.items)) }
{
    let mut others = Vec::new(alloc);
    let from = first.rule as usize;
    let count = rules.list.items().len();
    for k in from..count {
        match refute_at(alloc, file, rules, k, first, &mut others) {
            Ok(()) => {}
            Err(e) => return Err(e),
        }
    }
    Ok(others)
}

/// Diagnoses a refused file.
fn refuse(
    alloc: Global,
    file: &SeqFile<'_>,
    rules: Rules,
    failure: FailedRule,
) -> Result<Refusal, Memory>
    requires ordered { IsOrderOf (rows_of file.now.which) file.now.ordered.now.design.terms file.now.ordered.now.order.ids }
    requires rules { AreRulesOf file.now.which file.now.variant file.now.ordered.now.design.terms rules.net rules.list }
    requires atoms { AreAtoms (rows_of file.now.which) file.now.ordered.now.design.terms rules.atoms }
    requires failure { IsRuleDecision rules.net rules.list (Some failure) }
    ensures { IfOk result (spec.IsRefusal file.now.which file.now.variant file.now.ordered.now.design.terms) }
{
    let first = refute(alloc, file, &rules, failure)?;
    let others = refute_others(alloc, file, &rules, &first)?;
    Ok(Refusal {
        atoms: rules.atoms,
        first,
        others: Items::of(others),
    })
}

/// The verdict on a file for SEQ or SEQ+, and the diagnosis of a refusal. The verdict is that of `check_seq`: if it is
/// yes, the file's machine runs as the instructions do, on every image, for every number of cycles.
pub fn diagnose_seq(
    alloc: Global,
    which: SequentialDatapath,
    v: Variant,
    ordered: &OrderedDesign,
) -> Result<SeqAnswer, CheckFault>
    requires bound { IsBound (rows_of which) ordered.now.design.terms }
    requires ordered { IsOrderOf (rows_of which) ordered.now.design.terms ordered.now.order.ids }
    ensures answer { IfOk result (spec.IsAnswer which v ordered.now.design.terms) }
    ensures refines { IfOk result (λ answer. spec.is_yes answer ≡ true → Refines which v ordered.now.design.terms) }
    ensures fault { IfErr result (IsFault (rows_of which) ordered.now.design.terms) }
{
    let rules = match rules_of(alloc, which, v, ordered) {
        Ok(rules) => rules,
        Err(fault) => return Err(check_fault(fault)),
    };
    match decide(alloc, &rules.net, rules.list.items()) {
        Ok(None) => Ok(SeqAnswer::Yes),
        Ok(Some(failure)) => {
            let file = SeqFile {
                which,
                variant: v,
                ordered,
            };
            match refuse(alloc, &file, rules, failure) {
                Ok(refusal) => Ok(SeqAnswer::No(refusal)),
                Err(Memory) => Err(CheckFault::Memory),
            }
        }
        Err(Memory) => Err(CheckFault::Memory),
    }
}
