//! The verdict on a design for PIPE: first its settings, then the rules at these settings.
ghost use Rattle.std.specs.Prelude.{◌≡◌, ◌<◌, ◌≤◌, ◌+◌, ◌++◌, ◌∷◌, [], ℕ, IfErr, IfOk, OnOk, Some, drop, get_or, length, slice_get, false, not, true};
ghost use Rattle.dp_signals.specs.PipeTable.{pipe_rows};
ghost use Rattle.hcl_types.specs.Tables.{IsBound, IsOrderOf};
ghost use Rattle.ctl_atoms.specs.Atoms.{AreAtoms};
ghost use Rattle.ctl_verdicts.specs.Decisions.{HaveGatesOfNet, IsRuleDecision};
ghost use Rattle.control_check.specs.Tails.{AreNumbered, AreTold, IsFilled};
ghost use Rattle.bdd_decide.specs.Decisions.{AreDecided, AreGatesOfNet as AreGates, IsDecided};
ghost use Rattle.control_check.specs.PipeVerdicts.{AreFileRules, AreSettings, HasSevenGates, IsPipeFault, IsPipeVerdict, RefinesPipe, is_yes};
ghost use Rattle.hazard_rules.specs.Belonging.{BelongTo};
ghost use Rattle.hazard_rules.specs.Parts.{AreRules};

use crate::variable_orders::OrderList;
use crate::verdict::Verdict;
use bdd_decide::each_true;
use ctl_rules::{Rule, Rules};
use ctl_verdicts::{CheckFault, FailedRule, check_fault, decide_in_order};
use hazard_rules::{Late, Parts, pipe_late, pipe_parts, pipe_rules};
use hcl_types::OrderedDesign;
use nets::Net;
use pipe_motion::Settings;
use std::alloc::Global;
use y86_base::{Memory, Variant, push};

/// The number of jumps that are predicted, one for each ifun.
const JUMPS: usize = 7;

/// The indices of the early settings' gates in their list: those of forward jumps, those of backward jumps, that of
/// the target.
const FORWARD: usize = 0;

const BACKWARD: usize = FORWARD + JUMPS;

const TARGET: usize = BACKWARD + JUMPS;

/// The settings that hold if a formula is true at every valuation.
#[derive(Clone, Copy, Debug, PartialEq, Eq)]
struct EarlySettings {
    pt: [bool; JUMPS],
    pb: [bool; JUMPS],
    tv: bool,
}

/// The gates of the early settings: the predictions of forward and backward jumps, by ifun, and whether jumps carry
/// their target.
fn early_gates(alloc: Global, parts: &Parts) -> Result<Vec<u64>, Memory>
    ensures gates { IfOk result (λ gates. gates.items ≡ parts.now.pt ++ (parts.now.pb ++ parts.now.tv ∷ [])) }
    ensures forward { OnOk result (length parts.now.pt ≡ 7) }
    ensures backward { OnOk result (length parts.now.pb ≡ 7) }
{
    let mut gates: Vec<u64> = Vec::new(alloc);
    if gates.extend_from_slice(&parts.pt).is_err() {
        return Err(Memory);
    }
    if gates.extend_from_slice(&parts.pb).is_err() {
        return Err(Memory);
    }
    if gates.push(parts.tv).is_err() {
        return Err(Memory);
    }
    Ok(gates)
}

/// The truths of the jumps among others, from an index on.
fn jumps_from(truths: &[bool], from: usize) -> [bool; JUMPS]
    requires { from + 7 ≤ length truths.now }
    ensures size { length result ≡ 7 }
    ensures truths { (k : ℕ) → k < 7 → get_or result k false ≡ get_or truths.now (from + k) false }
{
    let mut jumps = [false; JUMPS];
    for k in 0..JUMPS {
        jumps[k] = truths[from + k];
    }
    jumps
}

/// For each formula of the settings, whether it is true at every valuation.
fn settings_true(alloc: Global, net: &Net, gates: &[u64]) -> Result<Vec<bool>, Memory>
    requires gates { AreGates net.now gates.now }
    ensures size { IfOk result (λ truths. length truths.items ≡ length gates.now) }
    ensures decided { IfOk result (λ truths. AreDecided net.now gates.now truths.items) }
{
    let orders = OrderList::for_settings(alloc, net.vars())?;
    each_true(alloc, net, gates, orders.as_orders())
}

/// Decides the formulas of the early settings.
#[tactic(auto, using(crate::proofs::Early::early_of, crate::proofs::Early::enough, crate::proofs::Early::forward_decided, crate::proofs::Early::backward_decided, crate::proofs::Early::target_decided))]
fn decide_early(alloc: Global, parts: &Parts) -> Result<EarlySettings, Memory>
    requires forward { HasSevenGates parts.now.net parts.now.pt }
    requires backward { HasSevenGates parts.now.net parts.now.pb }
    requires target { parts.now.tv < length parts.now.net.gates }
    ensures forward { IfOk result (λ e. AreDecided parts.now.net parts.now.pt e.pt) }
    ensures backward { IfOk result (λ e. AreDecided parts.now.net parts.now.pb e.pb) }
    ensures seven { IfOk result (λ e. (length e.pt ≡ 7) × (length e.pb ≡ 7)) }
    ensures target { IfOk result (λ e. IsDecided parts.now.net parts.now.tv e.tv) }
{
    let gates = early_gates(alloc, parts)?;
    let truths = settings_true(alloc, &parts.net, gates.as_slice())?;
    let pt = jumps_from(truths.as_slice(), FORWARD);
    let pb = jumps_from(truths.as_slice(), BACKWARD);
    let tv = truths[TARGET];
    Ok(EarlySettings { pt, pb, tv })
}

/// Decides the formulas of the late settings. A setting holds if its formula is false at some valuation.
fn decide_late(
    alloc: Global,
    net: &Net,
    late: Late,
    early: EarlySettings,
) -> Result<Settings, Memory>
    requires lf { late.lf < length net.now.gates }
    requires je { late.je < length net.now.gates }
    requires rm { late.rm < length net.now.gates }
    ensures early { IfOk result (λ s. (s.pt ≡ early.pt) × (s.pb ≡ early.pb) × (s.tv ≡ early.tv)) }
    ensures seven { IfOk result (λ s. (length s.pt ≡ 7) × (length s.pb ≡ 7)) }
    ensures lf { IfOk result (λ s. IsDecided net.now late.lf (not s.lf)) }
    ensures je { IfOk result (λ s. IsDecided net.now late.je (not s.je)) }
    ensures rm { IfOk result (λ s. IsDecided net.now late.rm (not s.rm)) }
{
    let truths = settings_true(alloc, net, &[late.lf, late.je, late.rm])?;
    let pt = early.pt;
    let pb = early.pb;
    Ok(Settings {
        pt,
        pb,
        tv: early.tv,
        lf: !truths[0],
        je: !truths[1],
        rm: !truths[2],
    })
}

/// The parts of a file, and the settings that they decide.
#[derive(Drop)]
struct DecidedSettings {
    parts: Parts,
    settings: Settings,
}

/// Builds the parts of a file, and decides its settings.
fn settle(
    alloc: Global,
    variant: Variant,
    ordered: &OrderedDesign,
) -> Result<DecidedSettings, CheckFault>
    requires bound { IsBound pipe_rows ordered.now.design.terms }
    requires ordered { IsOrderOf pipe_rows ordered.now.design.terms ordered.now.order.ids }
    ensures settings { IfOk result (λ r. AreSettings variant ordered.now.design.terms r.settings) }
    ensures belong { IfOk result (λ r. BelongTo ordered.now.design.terms r.parts) }
    ensures variant { IfOk result (λ r. r.parts.variant ≡ variant) }
    ensures fault { IfErr result (IsPipeFault ordered.now.design.terms) }
{
    let mut parts = match pipe_parts(alloc, variant, ordered) {
        Ok(parts) => parts,
        Err(fault) => return Err(check_fault(fault)),
    };
    let early = match decide_early(alloc, &parts) {
        Ok(early) => early,
        Err(Memory) => return Err(CheckFault::Memory),
    };
    let pt = early.pt;
    let pb = early.pb;
    let late = match pipe_late(alloc, &mut parts, pt, pb, early.tv) {
        Ok(late) => late,
        Err(Memory) => return Err(CheckFault::Memory),
    };
    match decide_late(alloc, &parts.net, late, early) {
        Ok(settings) => Ok(DecidedSettings { parts, settings }),
        Err(Memory) => Err(CheckFault::Memory),
    }
}

/// The settings of an HCL file for PIPE: which of the permitted shortcuts it takes, over all control valuations.
pub fn file_settings(
    alloc: Global,
    variant: Variant,
    ordered: &OrderedDesign,
) -> Result<Settings, CheckFault>
    requires bound { IsBound pipe_rows ordered.now.design.terms }
    requires ordered { IsOrderOf pipe_rows ordered.now.design.terms ordered.now.order.ids }
    ensures settings { IfOk result (AreSettings variant ordered.now.design.terms) }
    ensures fault { IfErr result (IsPipeFault ordered.now.design.terms) }
{
    let settled = settle(alloc, variant, ordered)?;
    Ok(settled.settings)
}

/// The decision on PIPE's rules.
pub fn decide_pipe(alloc: Global, net: &Net, list: &[Rule]) -> Result<Option<FailedRule>, Memory>
    requires gates { HaveGatesOfNet net.now list.now }
    ensures { IfOk result (IsRuleDecision net.now list.now) }
{
    let orders = OrderList::for_rules(alloc, net.vars())?;
    decide_in_order(alloc, net, list, orders.as_orders())
}

/// The rules of a file, and the settings that they assume.
#[derive(Drop)]
pub struct FileRules {
    pub settings: Settings,
    pub rules: Rules,
}

/// Decides the settings of a file, and builds its rules at these settings.
pub fn rules_at_settings(
    alloc: Global,
    variant: Variant,
    ordered: &OrderedDesign,
) -> Result<FileRules, CheckFault>
    requires bound { IsBound pipe_rows ordered.now.design.terms }
    requires ordered { IsOrderOf pipe_rows ordered.now.design.terms ordered.now.order.ids }
    ensures settings { IfOk result (λ r. AreSettings variant ordered.now.design.terms r.settings) }
    ensures rules { IfOk result (λ r. AreRules variant ordered.now.design.terms r.settings r.rules.net r.rules.list) }
    ensures variant { IfOk result (λ r. r.rules.variant ≡ variant) }
    ensures atoms { IfOk result (λ r. AreAtoms pipe_rows ordered.now.design.terms r.rules.atoms) }
    ensures fault { IfErr result (IsPipeFault ordered.now.design.terms) }
{
    let settled = settle(alloc, variant, ordered)?;
    let settings = settled.settings;
    match pipe_rules(alloc, settled.parts, settings) {
        Ok(rules) => Ok(FileRules { settings, rules }),
        Err(Memory) => Err(CheckFault::Memory),
    }
}

/// Appends `true` until there are `until` truths.
#[tactic(auto, using(crate::proofs::Tails::filled_none, crate::proofs::Tails::filled_more))]
fn fill(truths: &mut Vec<bool>, until: usize) -> Result<(), Memory>
    requires { length truths.old.items ≤ until }
    ensures { OnOk result (IsFilled truths.old.items until truths.new.items) }
{
    let from = truths.len();
    for _k in from..until {
        match push(truths, true) {
            Ok(()) => {}
            Err(e) => return Err(e),
        }
    }
    Ok(())
}

/// How many truths there are.
fn how_many(truths: &Vec<bool>) -> usize
    ensures { result ≡ length truths.now.items }
{
    truths.len()
}

/// The rules from an index on.
pub fn rules_from(list: &[Rule], from: usize) -> &[Rule]
    requires { from ≤ length list.now }
    ensures { result.now ≡ drop from list.now }
{
    &list[from..]
}

/// Appends the truths of the rules up to the next one that is false at some valuation.
#[tactic(auto, using(crate::proofs::Tails::gates_from, crate::proofs::Tails::all_left, crate::proofs::Tails::next_left, crate::proofs::Tails::next_more))]
fn tell_next(alloc: Global, net: &Net, list: &[Rule], truths: &mut Vec<bool>) -> Result<(), Memory>
    requires gates { HaveGatesOfNet net.now list.now }
    requires numbers { AreNumbered list.now }
    requires some { length truths.old.items < length list.now }
    requires told { AreTold net.now list.now truths.old.items }
    ensures told { OnOk result (AreTold net.now list.now truths.new.items) }
    ensures more { OnOk result (length truths.old.items < length truths.new.items) }
{
    let from = how_many(truths);
    match decide_pipe(alloc, net, rules_from(list, from))? {
        None => {
            fill(truths, list.len())?;
            Ok(())
        }
        Some(failure) => {
            fill(truths, (failure.rule as usize).saturating_sub(1))?;
            push(truths, false)?;
            Ok(())
        }
    }
}

/// For each of PIPE's rules, whether it is true at every valuation.
#[tactic(auto, using(crate::proofs::Tails::none_told))]
pub fn rules_true(alloc: Global, net: &Net, list: &[Rule]) -> Result<Vec<bool>, Memory>
    requires gates { HaveGatesOfNet net.now list.now }
    requires numbers { AreNumbered list.now }
    ensures size { IfOk result (λ truths. length truths.items ≡ length list.now) }
    ensures told { IfOk result (λ truths. AreTold net.now list.now truths.items) }
{
    let mut truths: Vec<bool> = Vec::new(alloc);
    for _k in 0..list.len() {
        if truths.len() < list.len() {
            match tell_next(alloc, net, list, &mut truths) {
                Ok(()) => {}
                Err(e) => return Err(e),
            }
        }
    }
    Ok(truths)
}

/// The 27 obligations of an HCL file for PIPE at its settings, in their order, as gates over a net with a variable for each bit
/// of a control valuation.
pub fn file_rules(
    alloc: Global,
    variant: Variant,
    ordered: &OrderedDesign,
) -> Result<Rules, CheckFault>
    requires bound { IsBound pipe_rows ordered.now.design.terms }
    requires ordered { IsOrderOf pipe_rows ordered.now.design.terms ordered.now.order.ids }
    ensures rules { IfOk result (AreFileRules variant ordered.now.design.terms) }
    ensures fault { IfErr result (IsPipeFault ordered.now.design.terms) }
{
    let made = rules_at_settings(alloc, variant, ordered)?;
    Ok(made.rules)
}

/// The verdict on an HCL file for PIPE. If it is yes, the file's machine refines the run of instructions on every image
/// whose instructions fetch no byte that one of the three before them stored.
pub fn check_pipe(
    alloc: Global,
    variant: Variant,
    ordered: &OrderedDesign,
) -> Result<Verdict, CheckFault>
    requires bound { IsBound pipe_rows ordered.now.design.terms }
    requires ordered { IsOrderOf pipe_rows ordered.now.design.terms ordered.now.order.ids }
    ensures verdict { IfOk result (IsPipeVerdict variant ordered.now.design.terms) }
    ensures refines { IfOk result (λ v. is_yes v ≡ true → RefinesPipe variant ordered.now.design.terms) }
    ensures fault { IfErr result (IsPipeFault ordered.now.design.terms) }
{
    let made = rules_at_settings(alloc, variant, ordered)?;
    let settings = made.settings;
    let rules = made.rules;
    match decide_pipe(alloc, &rules.net, rules.list.items()) {
        Ok(None) => Ok(Verdict::Yes(settings)),
        Ok(Some(failure)) => Ok(Verdict::No {
            rule: failure.rule,
            valuation: failure.valuation,
            atoms: rules.atoms,
        }),
        Err(Memory) => Err(CheckFault::Memory),
    }
}
