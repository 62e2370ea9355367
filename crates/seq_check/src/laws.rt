//! The theorem about SEQ+'s obligations, as the contract of a function that does nothing.
ghost use Rattle.std.specs.Prelude.{ℕ, List};
ghost use Rattle.y86_base.specs.declared.parts.Variant.{Variant};
ghost use Rattle.hcl_types.specs.Tables.{IsBound, IsOrderOf};
ghost use Rattle.hcl_types.specs.declared.term.Term.{Term};
ghost use Rattle.seq_plus.specs.PlusTable.{plus_rows};
ghost use Rattle.seq_check.specs.Accepted.{AcceptedPlus, RefinesPlus};

/// A design for SEQ+ that meets its obligations at every control valuation runs as the instructions do: on every image,
/// for every number of cycles.
#[tactic(auto, using(crate::proofs::Runs::refines))]
pub fn law_of_refinement()
    ensures { (v : Variant) (terms : List Term) (ids : List ℕ) → IsBound plus_rows terms → IsOrderOf plus_rows terms ids → AcceptedPlus v terms → RefinesPlus v terms }
{}
