//! Theorems about SEQ+. Each is a function that does nothing and whose contract is the theorem.
ghost use Rattle.std.specs.Prelude.{◌≡◌, ℕ, List, Option, IfSome};
ghost use Rattle.y86_base.specs.declared.parts.Variant.{Variant};
ghost use Rattle.y86_isa.specs.declared.machine.Rec.{Rec};
ghost use Rattle.hcl_types.specs.Tables.{IsBound, IsOrderOf, IsSound};
ghost use Rattle.hcl_types.specs.declared.term.Term.{Term};
ghost use Rattle.dp_sequential.specs.Machine.{CallsAreTheRun};
ghost use Rattle.seq_plus.specs.PlusEquations.{PlusSolves};
ghost use Rattle.seq_plus.specs.PlusRun.{IsPlusCycle, PlusRun, plus_path};
ghost use Rattle.seq_plus.specs.PlusTable.{plus_rows};
ghost use Rattle.seq_plus.specs.Told.{TellsCycle};
ghost use Rattle.seq_plus.specs.declared.state.PlusState.{PlusState};

/// The table is sound: its names differ, hardware depends on its rows, and its constants are its rows of class `Number`.
#[tactic(auto, using(crate::specs::Sound::plus_sound))]
pub fn law_of_table()
    ensures { IsSound plus_rows }
{}

/// If a design has an order, the equations of a cycle have exactly one solution.
pub fn law_of_solutions()
    ensures there { (v : Variant) (s : PlusState) (terms : List Term) (ids : List ℕ) →
        IsBound plus_rows terms → IsOrderOf plus_rows terms ids → (f : ℕ → ℕ) × PlusSolves v terms s f }
    ensures alone { (v : Variant) (s : PlusState) (terms : List Term) (ids : List ℕ) →
        IsBound plus_rows terms → IsOrderOf plus_rows terms ids →
        (f h : ℕ → ℕ) → PlusSolves v terms s f → PlusSolves v terms s h → (n : ℕ) → f n ≡ h n }
{}

/// If a design has an order, it has exactly one run of each number of cycles on an image.
pub fn law_of_runs()
    ensures there { (v : Variant) (terms : List Term) (ids image : List ℕ) (k : ℕ) →
        IsBound plus_rows terms → IsOrderOf plus_rows terms ids → (t : PlusState) × (records : List Rec) × PlusRun v terms image k t records }
    ensures alone { (v : Variant) (terms : List Term) (ids image : List ℕ) (k : ℕ) →
        IsBound plus_rows terms → IsOrderOf plus_rows terms ids → (t u : PlusState) (rs xs : List Rec) →
        PlusRun v terms image k t rs → PlusRun v terms image k u xs → (t ≡ u) × (rs ≡ xs) }
{}

/// Under any HCL file the record of a cycle reports everything that the cycle changed except what the next PC is
/// computed from: the memory by its store alone, the registers by its two destinations, dstM last. Its address, icode
/// and ifun are the values of the signals `pc`, `icode` and `ifun`.
pub fn law_of_plus_cycles()
    ensures { (v : Variant) (terms : List Term) (s : PlusState) (r : Option Rec) (t : PlusState) → IsPlusCycle v terms s r t →
        IfSome r (λ x. (f : ℕ → ℕ) × PlusSolves v terms s f × TellsCycle s t f x) }
{}

/// Calls of `cycle` on a new machine are its run: the state and the records after k calls are those after k cycles.
#[tactic(auto, using(crate::proofs::OneRun::calls_are_the_run))]
pub fn law_of_calls()
    ensures { CallsAreTheRun plus_path }
{}
