//! Theorems about verdicts. Each is a function that does nothing and whose contract is the theorem.
ghost use Rattle.std.specs.Prelude.{◌≡◌, ℕ, List};
ghost use Rattle.y86_base.specs.declared.parts.Variant.{Variant};
ghost use Rattle.dp_signals.specs.PipeTable.{pipe_rows};
ghost use Rattle.hcl_types.specs.Tables.{IsOrderOf};
ghost use Rattle.hcl_types.specs.declared.term.Term.{Term};
ghost use Rattle.pipe_motion.specs.declared.settings.Settings.{Settings};
ghost use Rattle.control_check.specs.PipeVerdicts.{AreSettings};

/// A file has at most one list of settings: its control values decide each of them.
pub fn law_of_settings()
    ensures { (v : Variant) (terms : List Term) (ids : List ℕ) (s s' : Settings) → IsOrderOf pipe_rows terms ids → AreSettings v terms s → AreSettings v terms s' → s ≡ s' }
{}
