//! Theorems about the instructions of a run. Each is a function that does nothing; its contract is the theorem.
ghost use Rattle.std.specs.Prelude.{◌≡◌, ℕ, ◌+◌, List, ◌++◌, Some};
ghost use Rattle.std.specs.Option.{option_to_list};
ghost use Rattle.y86_base.specs.declared.parts.Variant.{Variant};
ghost use Rattle.y86_isa.specs.Run.{IsImage, records};
ghost use Rattle.y86_isa.specs.Step.{record_of, retired};
ghost use Rattle.yis_run_laws.specs.Instructions.{RunReaches, state_before, work_at};
ghost use Rattle.yis_run_laws.specs.Laws.{StepEquations};

/// Each instruction that the run of an image reaches follows its row and what is fetched, and the machine after it
/// follows from its work.
pub fn law_of_walks()
    ensures { (v : Variant) (image : List ℕ) (i : ℕ) → IsImage image → RunReaches v image i → StepEquations v image i }
{}

/// The record of an instruction that the run reaches, and the records of a run with one more instruction.
#[tactic(auto, using(crate::proofs::Told::retired_at, crate::proofs::Told::records_next))]
pub fn law_of_records_at()
    ensures one { (v : Variant) (image : List ℕ) (i : ℕ) → RunReaches v image i → retired v (state_before v image i) ≡ Some (record_of (state_before v image i) (work_at v image i)) }
    ensures more { (v : Variant) (image : List ℕ) (i : ℕ) → records v image (i + 1) ≡ records v image i ++ option_to_list (retired v (state_before v image i)) }
{}
