//! The gates that decide the settings pt, pb and tv of a file.
ghost use Rattle.std.specs.Prelude.{true, false, IfOk};
ghost use Rattle.nets.specs.Nets.{ExtendsNet, IsGate};
ghost use Rattle.ctl_picks.specs.Picks.{Covers, IsInside};
ghost use Rattle.dp_signals.specs.PipeTable.{pipe_rows};
ghost use Rattle.hazard_rules.specs.Parts.{ArePredictionGates};
ghost use Rattle.pipe_gates.specs.GateTruths.{IsTruthGate};
ghost use Rattle.pipe_fields.specs.Allowed as spec;
ghost use Rattle.pipe_fields.specs.Layout.{fields_of};
ghost use Rattle.pipe_motion.specs.declared.settings.Settings.{Settings};
ghost use Rattle.ctl_rules.specs.ControlGates.{IsControlGate};
ghost use Rattle.pipe_obligations.specs.FileSettings.{alu_passes_target};
ghost use Rattle.pipe_motion_gates.specs.Legality.{HasAtomVariables};
ghost use Rattle.pipe_stage_gates.specs.Signals.{IsReady};

use ctl_atoms::{Atom, Leaf};
use ctl_picks::Controls;
use ctl_rules::{ExpectedLeaf, picks_leaf};
use dp_signals::pipe_row as signal;
use net_fields::spells;
use nets::{NetBuilder, implies};
use pipe_fields::allowed;
use pipe_fields::places::E_KIND;
use pipe_motion_gates::prediction_premise;
use pipe_stage_gates::target_gate;
use y86_base::{Memory, Variant};

/// For each of the seven ifuns: if a jump with this ifun that goes back, or (without `back`) doesn't, is fetched, it is
/// predicted as taken: f_predPC is f_valC. `fits` is the gate of the valuations that are allowed.
#[tactic(auto, using(nets::proofs::Truths::begins_more, ctl_picks::proofs::Inside::inside_more, pipe_gates::proofs::Known::known_f_predPC, pipe_motion_gates::proofs::Inputs::variables_stay))]
pub(crate) fn predictions(
    b: &mut NetBuilder,
    ctl: &Controls,
    v: Variant,
    atoms: &[Atom],
    fits: u64,
    back: bool,
) -> Result<[u64; 7], Memory>
    requires inside { IsInside b.old ctl.now }
    requires covers { Covers pipe_rows ctl.now }
    requires fits { IsGate b.old fits (λ w. spec.allowed v (fields_of w)) }
    requires has { HasAtomVariables b.old atoms.now }
    ensures extends { ExtendsNet b.old b.new }
    ensures has_truth { IfOk result (λ gates. ArePredictionGates v b.new ctl.now atoms.now back gates 7) }
{
    let taken = picks_leaf(
        b,
        ctl,
        signal::F_PRED_PC,
        ExpectedLeaf::This(Leaf::Name(signal::F_VAL_C)),
    )?;
    let mut gates = [0; 7];
    for i in 0..7 {
        let asked = prediction_premise(b, v, atoms, fits, i as u64, back)?;
        let gate = implies(b, asked, taken)?;
        gates[i] = gate;
    }
    Ok(gates)
}

/// A jump carries its target through the ALU, in every allowed valuation.
fn carries_gate(b: &mut NetBuilder, ctl: &Controls, v: Variant, fits: u64) -> Result<u64, Memory>
    requires inside { IsInside b.old ctl.now }
    requires ready { IsReady b.old.vars ctl.now }
    requires fits { IsGate b.old fits (λ w. spec.allowed v (fields_of w)) }
    ensures extends { ExtendsNet b.old b.new }
    ensures has_truth { (s : Settings) → IfOk result (λ g. IsControlGate b.new ctl.now g (λ w α cv. alu_passes_target v s (fields_of w) α cv)) }
{
    let good = spells(b, E_KIND, 1)?;
    let target = target_gate(b, ctl, v, good)?;
    implies(b, fits, target)
}

/// The gates that decide pt, pb and tv.
#[derive(Clone, Copy, Debug)]
pub(crate) struct EarlyGates {
    pub pt: [u64; 7],
    pub pb: [u64; 7],
    pub tv: u64,
}

/// The gates that decide pt, pb and tv.
#[tactic(auto, using(pipe_stage_gates::proofs::Ready::ready_by, ctl_picks::proofs::Inside::inside_more, pipe_motion_gates::proofs::Inputs::variables_stay))]
pub(crate) fn early_formulas(
    b: &mut NetBuilder,
    ctl: &Controls,
    v: Variant,
    atoms: &[Atom],
) -> Result<EarlyGates, Memory>
    requires inside { IsInside b.old ctl.now }
    requires covers { Covers pipe_rows ctl.now }
    requires has { HasAtomVariables b.old atoms.now }
    ensures extends { ExtendsNet b.old b.new }
    ensures forward { IfOk result (λ r. ArePredictionGates v b.new ctl.now atoms.now false r.pt 7) }
    ensures backward { IfOk result (λ r. ArePredictionGates v b.new ctl.now atoms.now true r.pb 7) }
    ensures target { (s : Settings) → IfOk result (λ r. IsTruthGate b.new ctl.now atoms.now r.tv (alu_passes_target v s)) }
{
    let fits = allowed(b, v)?;
    let pt = predictions(b, ctl, v, atoms, fits, false)?;
    let pb = predictions(b, ctl, v, atoms, fits, true)?;
    let tv = carries_gate(b, ctl, v, fits)?;
    Ok(EarlyGates { pt, pb, tv })
}
