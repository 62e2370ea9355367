//! A theorem about requirements.
ghost use Rattle.std.specs.Prelude.{ℕ, List};
ghost use Rattle.y86_base.specs.declared.parts.Variant.{Variant};
ghost use Rattle.ctl_atoms.specs.declared.leaf.Leaf.{Leaf};
ghost use Rattle.ctl_atoms.specs.Leaves.{Assignment};
ghost use Rattle.seq_requirements.specs.Requirements.{IsByRequirements};
ghost use Rattle.hcl_types.specs.declared.table.SequentialDatapath.{SequentialDatapath as Which};

/// Each obligation of SEQ and of SEQ+ is met at a valuation exactly if each of its requirements is.
pub fn law_of_requirements()
    ensures { (which : Which) (v : Variant) (xs : List ℕ) (α : Assignment) (cv : ℕ → Leaf) (i : ℕ) → IsByRequirements which v xs α cv i }
{}
