//! The findings at a valuation.
ghost use Rattle.std.specs.Prelude.{◌≡◌, ◌≤◌, IfOk};
ghost use Rattle.hcl_types.specs.Tables.{IsOrderOf};
ghost use Rattle.ctl_atoms.specs.Atoms.{AreAtoms};
ghost use Rattle.ctl_equations.specs.Controls.{AreControls};
ghost use Rattle.control_values.specs.Given.{at, field_at};
ghost use Rattle.seq_plus.specs.Datapaths.{rows_of};
ghost use Rattle.seq_check.specs.Datapaths.{spots_of};
ghost use Rattle.seq_diagnosis.specs.Diagnosis as spec;

use crate::file::SeqFile;
use control_values::{Scope, Situation, control_values};
use ctl_atoms::{Atom, Leaf};
use findings::{Finding, findings_of};
use seq_check::{bit_count, first_defined, spots_of};
use seq_plus::table_of;
use seq_requirements::requirements_of;
use std::alloc::Global;
use y86_base::{Items, Memory};

/// The diagnosis of a valuation: every control value, and a finding for each signal that the obligation is about.
#[derive(Drop)]
pub struct Diagnosis {
    /// The control value of each row of the table.
    pub leaves: Items<Leaf>,
    /// A finding for each requirement of the obligation.
    pub findings: Items<Finding>,
}

/// The control value of each row of the table.
#[tactic(auto, using(crate::proofs::OneWrong::sound, crate::proofs::OneWrong::near, crate::proofs::OneWrong::first_near))]
fn leaves_at(
    alloc: Global,
    file: &SeqFile<'_>,
    atoms: &[Atom],
    bits: &[bool],
) -> Result<Vec<Leaf>, Memory>
    requires { IsOrderOf (rows_of file.now.which) file.now.ordered.now.design.terms file.now.ordered.now.order.ids }
    ensures { IfOk result (λ leaves. AreControls (rows_of file.now.which) file.now.ordered.now.design.terms (field_at (spots_of file.now.which) bits.now)
        (spec.truths_at file.now.which atoms.now bits.now) (at leaves.items)) }
{
    let t = table_of(alloc, file.which)?;
    let situation = Situation {
        fields: spots_of(file.which),
        atoms,
        first: bit_count(file.which) as usize,
        bits,
    };
    control_values(alloc, file.ordered, &t, &situation)
}

/// Diagnoses a valuation at which an obligation is false.
#[tactic(auto, using(crate::proofs::OneWrong::first_near))]
pub fn diagnose(
    alloc: Global,
    file: &SeqFile<'_>,
    atoms: &[Atom],
    number: u32,
    bits: &[bool],
) -> Result<Diagnosis, Memory>
    requires ordered { IsOrderOf (rows_of file.now.which) file.now.ordered.now.design.terms file.now.ordered.now.order.ids }
    requires atoms { AreAtoms (rows_of file.now.which) file.now.ordered.now.design.terms atoms.now }
    requires fails { spec.Fails file.now.which file.now.variant file.now.ordered.now.design.terms atoms.now number bits.now }
    ensures diagnosis { IfOk result (spec.IsDiagnosis file.now.which file.now.variant file.now.ordered.now.design.terms atoms.now number bits.now) }
{
    let leaves = leaves_at(alloc, file, atoms, bits)?;
    let scope = Scope {
        atoms,
        first: bit_count(file.which) as usize,
        bits,
        leaves: leaves.as_slice(),
    };
    let all = requirements_of(alloc, file.which, file.variant, bits, number)?;
    let findings = findings_of(
        alloc,
        &scope,
        file.ordered.design.terms.items(),
        first_defined(file.which),
        all.as_slice(),
    )?;
    Ok(Diagnosis {
        leaves: Items::of(leaves),
        findings: Items::of(findings),
    })
}
