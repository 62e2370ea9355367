//! Theorems about watched runs. Each is a function that does nothing; its contract is the theorem.
ghost use Rattle.std.specs.Prelude.{◌≡◌, ◌<◌, List, ℕ};
ghost use Rattle.program_check.specs.Near.{IsFirstNear, IsWatched};
ghost use Rattle.program_check.specs.declared.recent.NearFetch.{NearFetch};
ghost use Rattle.program_check.specs.declared.watching.Watched.{Watched};
ghost use Rattle.yis_pure_runs.specs.Near.{NearPure};
ghost use Rattle.y86_base.specs.declared.parts.Variant.{Variant};

/// A watched run has exactly one outcome. If it finds an instruction that fetches a byte which one of the three before
/// it stored, the program isn't nearly pure for any larger number of steps.
pub fn law_of_watching()
    ensures one { (v : Variant) (image : List ℕ) (limit : ℕ) (a b : Watched) → IsWatched v image limit a → IsWatched v image limit b → a ≡ b }
    ensures not_near { (v : Variant) (image : List ℕ) (f : NearFetch) → IsFirstNear v image f → (k : ℕ) → f.steps < k → NearPure v image k → ⊥ }
{}
