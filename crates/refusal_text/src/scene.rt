//! What a refusal is explained over: the names of the table, the definitions, and one counterexample.
ghost use Rattle.std.specs.Prelude.{◌≡◌, ◌≤◌};

use control_values::Scope;
use ctl_atoms::Leaf;
use finding_text::{ExplainedFile, Values};
use hcl_types::NameId;
use pipe_diagnosis::{Diagnosis, Refusal, Refutation};
use pipe_fields::BIT_COUNT;
use pipe_motion::Settings;
use y86_base::Variant;

/// A file and one of its counterexamples.
#[derive(Clone, Copy)]
pub struct Scene<'a> {
    pub variant: Variant,
    pub settings: &'a Settings,
    pub diagnosis: &'a Diagnosis,
    pub values: Values<'a>,
}

/// The scene of a refutation.
pub fn scene_of<'a>(
    variant: Variant,
    file: &ExplainedFile<'a>,
    refusal: &'a Refusal,
    refutation: &'a Refutation,
) -> Scene<'a>
    ensures variant { result.variant ≡ variant }
    ensures settings { result.settings.now ≡ refusal.now.settings }
    ensures rows { result.values.rows.now ≡ file.now.rows.now }
    ensures terms { result.values.terms.now ≡ file.now.terms.now }
    ensures bits { result.values.bits.now ≡ refutation.now.valuation.bits }
    ensures leaves { result.values.leaves.now ≡ refutation.now.diagnosis.leaves }
    ensures atoms { result.values.atoms.now ≡ refusal.now.atoms }
    ensures diagnosis { result.diagnosis.now ≡ refutation.now.diagnosis }
{
    Scene {
        variant,
        settings: &refusal.settings,
        diagnosis: &refutation.diagnosis,
        values: Values {
            rows: file.rows,
            terms: file.terms,
            defined: dp_signals::pipe_row::F_PC,
            atoms: refusal.atoms.items(),
            first: BIT_COUNT as usize,
            bits: refutation.valuation.bits.items(),
            leaves: refutation.diagnosis.leaves.items(),
        },
    }
}

impl<'a> Scene<'a> {
    /// The name of a row.
    pub fn name(&self, id: NameId) -> &'a str {
        self.values.name(id)
    }

    /// The control value of a row.
    pub fn leaf(&self, id: NameId) -> Leaf {
        self.values.leaf(id)
    }

    /// The terms at this counterexample.
    pub fn scope(&self) -> Scope<'a>
        ensures atoms { result.atoms.now ≡ self.now.values.atoms.now }
        ensures first { result.first ≤ 1000 }
        ensures bits { result.bits.now ≡ self.now.values.bits.now }
        ensures leaves { result.leaves.now ≡ self.now.values.leaves.now }
    {
        Scope {
            atoms: self.values.atoms,
            first: BIT_COUNT as usize,
            bits: self.values.bits,
            leaves: self.values.leaves,
        }
    }
}
