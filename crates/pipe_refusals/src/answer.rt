//! The verdict, and the diagnosis of a refusal.
ghost use Rattle.std.specs.Prelude.{◌≡◌, ◌≤◌, ◌<◌, ◌∷◌, [], ℕ, IfErr, IfOk, Some, drop, length, true};
ghost use Rattle.dp_signals.specs.PipeTable.{pipe_rows};
ghost use Rattle.hcl_types.specs.Tables.{IsBound, IsOrderOf};
ghost use Rattle.ctl_atoms.specs.Atoms.{AreAtoms};
ghost use Rattle.control_check.specs.PipeVerdicts.{AreSettings, IsPipeFault, RefinesPipe};
ghost use Rattle.hazard_rules.specs.Parts.{AreRules};
ghost use Rattle.pipe_obligations.specs.Rules.{rule_count};
ghost use Rattle.ctl_verdicts.specs.Decisions.{IsRuleDecision};
ghost use Rattle.pipe_refusals.specs.Answered as spec;

use control_check::{CheckFault, FailedRule, decide_pipe, rules_at_settings, rules_from};
use ctl_rules::Rules;
use hcl_types::OrderedDesign;
use pipe_diagnosis::{PipeFile, Refusal, Refutation, diagnose};
use pipe_motion::Settings;
use std::alloc::Global;
use y86_base::{Items, Memory, Variant, push};

/// The answer on a file.
#[derive(Drop)]
pub enum PipeAnswer {
    Yes(Settings),
    No(Refusal),
}

/// Refutes the first obligation after the first `from` ones that is false somewhere.
fn refute(
    alloc: Global,
    file: &PipeFile<'_>,
    rules: &Rules,
    from: usize,
    failure: FailedRule,
) -> Result<Refutation, Memory>
    requires ordered { IsOrderOf pipe_rows file.now.ordered.now.design.terms file.now.ordered.now.order.ids }
    requires rules { AreRules file.now.variant file.now.ordered.now.design.terms file.now.settings.now rules.now.net rules.now.list }
    requires atoms { AreAtoms pipe_rows file.now.ordered.now.design.terms rules.now.atoms }
    requires failure { IsRuleDecision rules.now.net (drop from rules.now.list) (Some failure) }
    ensures refutation { IfOk result (spec.IsRefutation file.now.variant file.now.ordered.now.design.terms file.now.settings.now rules.now.atoms) }
    ensures rule { IfOk result (λ x. x.rule ≡ failure.rule) }
    ensures valuation { IfOk result (λ x. x.valuation ≡ failure.valuation) }
{
    let diagnosis = diagnose(
        alloc,
        file,
        rules.atoms.items(),
        failure.rule,
        failure.valuation.bits.items(),
    )?;
    Ok(Refutation {
        rule: failure.rule,
        valuation: failure.valuation,
        diagnosis,
    })
}

/// Refutes the next obligation that is false somewhere, and returns the number up to which all obligations are then
/// decided.
#[tactic(auto, using(control_check::proofs::Tails::gates_from))]
fn refute_next(
    alloc: Global,
    file: &PipeFile<'_>,
    rules: &Rules,
    first: &Refutation,
    from: usize,
    others: &mut Vec<Refutation>,
) -> Result<usize, Memory>
    requires ordered { IsOrderOf pipe_rows file.now.ordered.now.design.terms file.now.ordered.now.order.ids }
    requires rules { AreRules file.now.variant file.now.ordered.now.design.terms file.now.settings.now rules.now.net rules.now.list }
    requires atoms { AreAtoms pipe_rows file.now.ordered.now.design.terms rules.now.atoms }
    requires from { from < length rules.now.list }
    requires refuted { spec.AreRefuted file.now.variant file.now.ordered.now.design.terms file.now.settings.now rules.now.atoms from (first.now ∷ others.old.items) }
    ensures refuted { IfOk result (λ until. spec.AreRefuted file.now.variant file.now.ordered.now.design.terms file.now.settings.now rules.now.atoms until (first.now ∷ others.new.items)) }
    ensures more { IfOk result (λ until. from < until) }
    ensures within { IfOk result (λ until. until ≤ length rules.now.list) }
{
    let list = rules.list.items();
    match decide_pipe(alloc, &rules.net, rules_from(list, from))? {
        None => Ok(list.len()),
        Some(failure) => {
            let until = failure.rule as usize;
            let refutation = refute(alloc, file, rules, from, failure)?;
            push(others, refutation)?;
            Ok(until)
        }
    }
}

/// Refutes the false obligations after the first one.
fn refute_others(
    alloc: Global,
    file: &PipeFile<'_>,
    rules: &Rules,
    first: &Refutation,
) -> Result<Vec<Refutation>, Memory>
    requires ordered { IsOrderOf pipe_rows file.now.ordered.now.design.terms file.now.ordered.now.order.ids }
    requires rules { AreRules file.now.variant file.now.ordered.now.design.terms file.now.settings.now rules.now.net rules.now.list }
    requires atoms { AreAtoms pipe_rows file.now.ordered.now.design.terms rules.now.atoms }
    requires within { first.now.rule ≤ length rules.now.list }
    requires first { spec.AreRefuted file.now.variant file.now.ordered.now.design.terms file.now.settings.now rules.now.atoms first.now.rule (first.now ∷ []) }
    ensures { IfOk result (λ others. spec.AreRefuted file.now.variant file.now.ordered.now.design.terms file.now.settings.now rules.now.atoms (length rules.now.list) (first.now ∷ others.items)) }
{
    let mut others = Vec::new(alloc);
    let mut from = first.rule as usize;
    let count = rules.list.items().len();
    for _k in 0..count {
        if from < count {
            match refute_next(alloc, file, rules, first, from, &mut others) {
                Ok(until) => from = until,
                Err(e) => return Err(e),
            }
        }
    }
    Ok(others)
}

/// Diagnoses a refused file.
fn refuse(
    alloc: Global,
    file: &PipeFile<'_>,
    rules: Rules,
    failure: FailedRule,
) -> Result<Refusal, Memory>
    requires ordered { IsOrderOf pipe_rows file.now.ordered.now.design.terms file.now.ordered.now.order.ids }
    requires settings { AreSettings file.now.variant file.now.ordered.now.design.terms file.now.settings.now }
    requires rules { AreRules file.now.variant file.now.ordered.now.design.terms file.now.settings.now rules.net rules.list }
    requires atoms { AreAtoms pipe_rows file.now.ordered.now.design.terms rules.atoms }
    requires failure { IsRuleDecision rules.net rules.list (Some failure) }
    ensures { IfOk result (spec.IsRefusal file.now.variant file.now.ordered.now.design.terms) }
{
    let first = refute(alloc, file, &rules, 0, failure)?;
    let others = refute_others(alloc, file, &rules, &first)?;
    Ok(Refusal {
        settings: *file.settings,
        atoms: rules.atoms,
        first,
        others: Items::of(others),
    })
}

/// The verdict on a file for PIPE, and the diagnosis of a refusal. The verdict is that of `check_pipe`: if it is yes,
/// the file's machine refines the run of instructions on every image whose instructions fetch no byte that one of the
/// three before them stored.
pub fn diagnose_pipe(
    alloc: Global,
    v: Variant,
    ordered: &OrderedDesign,
) -> Result<PipeAnswer, CheckFault>
    requires bound { IsBound pipe_rows ordered.now.design.terms }
    requires ordered { IsOrderOf pipe_rows ordered.now.design.terms ordered.now.order.ids }
    ensures answer { IfOk result (spec.IsAnswer v ordered.now.design.terms) }
    ensures refines { IfOk result (λ answer. spec.is_yes answer ≡ true → RefinesPipe v ordered.now.design.terms) }
    ensures fault { IfErr result (IsPipeFault ordered.now.design.terms) }
{
    let made = rules_at_settings(alloc, v, ordered)?;
    let settings = made.settings;
    let rules = made.rules;
    match decide_pipe(alloc, &rules.net, rules.list.items()) {
        Ok(None) => Ok(PipeAnswer::Yes(settings)),
        Ok(Some(failure)) => {
            let file = PipeFile {
                variant: v,
                ordered,
                settings: &settings,
            };
            match refuse(alloc, &file, rules, failure) {
                Ok(refusal) => Ok(PipeAnswer::No(refusal)),
                Err(Memory) => Err(CheckFault::Memory),
            }
        }
        Err(Memory) => Err(CheckFault::Memory),
    }
}
