//! The findings at a valuation.
ghost use Rattle.std.specs.Prelude.{◌≡◌, ◌≤◌, IfOk, map};
ghost use Rattle.hcl_types.specs.Tables.{IsOrderOf};
ghost use Rattle.dp_signals.specs.PipeTable.{pipe_rows};
ghost use Rattle.ctl_atoms.specs.Atoms.{AreAtoms};
ghost use Rattle.control_values.specs.Given.{assigned, at};
ghost use Rattle.ctl_atoms.specs.Leaves.{leaf_holds};
ghost use Rattle.pipe_requirements.specs.Requirements.{requirements, unread};
ghost use Rattle.pipe_requirements.specs.Flows.{as_register_controls, at_now};
ghost use Rattle.dp_signals.specs.PipeNames as signal;
ghost use Rattle.findings.specs.Findings.{finding};
ghost use Rattle.pipe_fields.specs.Layout.{fields_of};
ghost use Rattle.motion_repairs.specs.Pairs as pairs;
ghost use Rattle.pipe_obligations.specs.Obligations as rule;
ghost use Rattle.pipe_obligations.specs.StageFlows as stages;
ghost use Rattle.pipe_diagnosis.specs.Diagnosis as spec;

use crate::file::PipeFile;
use control_values::{Scope, Situation, control_values, holds};
use ctl_atoms::{Atom, Leaf};
use dp_signals::{pipe_row as name, pipe_table};
use findings::{Finding, Requirement, findings_of, leaf_at};
use hcl_types::NameId;
use motion_repairs::{Repairs, repairs_of};
use pipe_fields::{BIT_COUNT, field_specs};
use pipe_requirements::{
    FIRST_ON_MOTION, Now, RegisterControlNow, RegisterControlsNow, flow_of, lines_of,
    requirements_of,
};
use std::alloc::Global;
use y86_base::{Items, Memory};

/// Findings, and the repairs.
#[derive(Drop)]
struct FindingsAndRepairs {
    findings: Items<Finding>,
    repairs: Repairs,
}

/// What is wrong at a valuation.
#[derive(Drop)]
pub struct Diagnosis {
    /// The control value of each row of the table.
    pub leaves: Items<Leaf>,
    /// A finding for each signal of an obligation before those on motion.
    pub findings: Items<Finding>,
    /// The changes that would meet all obligations on motion.
    pub repairs: Repairs,
}

/// Whether a signal holds.
fn is_on(scope: &Scope<'_>, signal: NameId) -> bool
    requires { scope.now.first ≤ 1000 }
    ensures { result ≡ leaf_holds (assigned scope.now.atoms.now scope.now.first scope.now.bits.now) (at scope.now.leaves.now signal) }
{
    holds(scope, leaf_at(scope.leaves, signal))
}

/// The ten stall and bubble signals at a valuation.
pub fn register_controls_at(scope: &Scope<'_>) -> RegisterControlsNow
    requires { scope.now.first ≤ 1000 }
    ensures { as_register_controls result ≡ rule.register_controls_of (assigned scope.now.atoms.now scope.now.first scope.now.bits.now) (at scope.now.leaves.now) }
{
    RegisterControlsNow {
        f: RegisterControlNow {
            stall: is_on(scope, name::F_STALL),
            bubble: is_on(scope, name::F_BUBBLE),
        },
        d: RegisterControlNow {
            stall: is_on(scope, name::D_STALL),
            bubble: is_on(scope, name::D_BUBBLE),
        },
        e: RegisterControlNow {
            stall: is_on(scope, name::E_STALL),
            bubble: is_on(scope, name::E_BUBBLE),
        },
        m: RegisterControlNow {
            stall: is_on(scope, name::M_STALL),
            bubble: is_on(scope, name::M_BUBBLE),
        },
        w: RegisterControlNow {
            stall: is_on(scope, name::W_STALL),
            bubble: is_on(scope, name::W_BUBBLE),
        },
    }
}

/// What an obligation requires of each signal; one on motion requires nothing of a single signal.
#[tactic(auto, using(crate::proofs::OneWrong::none_behind))]
fn requirements_at(alloc: Global, n: &Now<'_>, number: u32) -> Result<Vec<Requirement>, Memory>
    requires { 1 ≤ number }
    ensures { IfOk result (λ r. r.items ≡ at_now requirements n.now (at n.now.leaves.now) number) }
{
    if number < FIRST_ON_MOTION {
        requirements_of(alloc, n, number)
    } else {
        Ok(Vec::new(alloc))
    }
}

/// The findings and repairs at a valuation.
fn found_at(
    alloc: Global,
    file: &PipeFile<'_>,
    scope: &Scope<'_>,
    number: u32,
) -> Result<FindingsAndRepairs, Memory>
    requires near { scope.now.first ≤ 1000 }
    requires first { 1 ≤ number }
    ensures findings { IfOk result (λ r. r.findings
        ≡ map (finding signal.f_pc file.now.ordered.now.design.terms (assigned scope.now.atoms.now scope.now.first scope.now.bits.now) (at scope.now.leaves.now))
        (requirements file.now.variant file.now.settings.now (fields_of scope.now.bits.now)
        (stages.flow_of file.now.variant file.now.settings.now (fields_of scope.now.bits.now))
        (rule.register_controls_of (assigned scope.now.atoms.now scope.now.first scope.now.bits.now) (at scope.now.leaves.now)) (at scope.now.leaves.now) number)) }
    ensures repairs { IfOk result (λ r. r.repairs ≡ pairs.repairs_of file.now.variant file.now.settings.now (fields_of scope.now.bits.now)
        (stages.flow_of file.now.variant file.now.settings.now (fields_of scope.now.bits.now))
        (rule.register_controls_of (assigned scope.now.atoms.now scope.now.first scope.now.bits.now) (at scope.now.leaves.now)) unread scope.now.leaves.now) }
{
    let l = lines_of(scope.bits);
    let y = flow_of(file.variant, file.settings, &l);
    let mv = register_controls_at(scope);
    let n = Now {
        v: file.variant,
        s: file.settings,
        l: &l,
        y: &y,
        mv: &mv,
        leaves: scope.leaves,
    };
    let all = requirements_at(alloc, &n, number)?;
    let terms = file.ordered.design.terms.items();
    let findings = findings_of(alloc, scope, terms, name::F_PC, all.as_slice())?;
    let repairs = repairs_of(alloc, &n)?;
    Ok(FindingsAndRepairs {
        findings: Items::of(findings),
        repairs,
    })
}

/// Diagnoses a valuation at which an obligation is false.
pub fn diagnose(
    alloc: Global,
    file: &PipeFile<'_>,
    atoms: &[Atom],
    number: u32,
    bits: &[bool],
) -> Result<Diagnosis, Memory>
    requires ordered { IsOrderOf pipe_rows file.now.ordered.now.design.terms file.now.ordered.now.order.ids }
    requires atoms { AreAtoms pipe_rows file.now.ordered.now.design.terms atoms.now }
    requires first { 1 ≤ number }
    requires fails { spec.Fails file.now.variant file.now.ordered.now.design.terms file.now.settings.now atoms.now number bits.now }
    ensures diagnosis { IfOk result (spec.IsDiagnosis file.now.variant file.now.ordered.now.design.terms file.now.settings.now atoms.now number bits.now) }
{
    let t = match pipe_table(alloc) {
        Ok(t) => t,
        Err(_) => return Err(Memory),
    };
    let situation = Situation {
        fields: field_specs(),
        atoms,
        first: BIT_COUNT as usize,
        bits,
    };
    let leaves = control_values(alloc, file.ordered, &t, &situation)?;
    let scope = Scope {
        atoms,
        first: BIT_COUNT as usize,
        bits,
        leaves: leaves.as_slice(),
    };
    let found = found_at(alloc, file, &scope, number)?;
    Ok(Diagnosis {
        leaves: Items::of(leaves),
        findings: found.findings,
        repairs: found.repairs,
    })
}
