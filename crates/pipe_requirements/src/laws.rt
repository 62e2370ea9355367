//! A theorem about requirements.
ghost use Rattle.std.specs.Prelude.{◌<◌, ◌≤◌, ℕ};
ghost use Rattle.y86_base.specs.declared.parts.Variant.{Variant};
ghost use Rattle.ctl_atoms.specs.declared.leaf.Leaf.{Leaf};
ghost use Rattle.ctl_atoms.specs.Leaves.{Assignment};
ghost use Rattle.pipe_fields.specs.Layout.{Fields};
ghost use Rattle.pipe_motion.specs.Flow.{Flow, RegisterControls};
ghost use Rattle.pipe_motion.specs.declared.settings.Settings.{Settings};
ghost use Rattle.pipe_requirements.specs.Requirements.{IsByRequirements, first_on_motion};

/// Each obligation before those on motion is met at a valuation exactly where each of its requirements is.
pub fn law_of_requirements()
    ensures { (v : Variant) (s : Settings) (c : Fields) (y : Flow) (mv : RegisterControls) (α : Assignment) (cv : ℕ → Leaf) (i : ℕ) → 1 ≤ i → i < first_on_motion → IsByRequirements v s c y mv α cv i }
{}
