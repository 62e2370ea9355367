//! Theorems about PIPE's runs. Each is a function that does nothing and whose contract is the theorem.
ghost use Rattle.std.specs.Prelude.{◌≡◌, ℕ, List};
ghost use Rattle.y86_base.specs.declared.parts.Variant.{Variant};
ghost use Rattle.hcl_types.specs.Tables.{IsBound, IsOrderOf};
ghost use Rattle.hcl_types.specs.declared.term.Term.{Term};
ghost use Rattle.dp_signals.specs.PipeEquations.{Solves};
ghost use Rattle.dp_signals.specs.PipeRun as run;
ghost use Rattle.dp_signals.specs.PipeRun.{PipeRun};
ghost use Rattle.dp_signals.specs.PipeTable.{pipe_rows};
ghost use Rattle.dp_signals.specs.declared.pipe_state.PipeState.{PipeState};
ghost use Rattle.pipe_path.specs.Calls.{CallsAreTheRun};

/// If a design has an order, the equations of a cycle have a solution in every state. By `dp_signals::law_of_solutions`
/// it is the only one.
pub fn law_of_solutions()
    ensures { (v : Variant) (p : PipeState) (terms : List Term) (ids : List ℕ) →
        IsBound pipe_rows terms → IsOrderOf pipe_rows terms ids → (f : ℕ → ℕ) × Solves v terms p f }
{}

/// If a design has an order, it has exactly one run of each number of cycles on an image.
pub fn law_of_runs()
    ensures there { (v : Variant) (terms : List Term) (ids image : List ℕ) (k : ℕ) →
        IsBound pipe_rows terms → IsOrderOf pipe_rows terms ids → (p : run.PipeHistory) × PipeRun v terms image k p }
    ensures alone { (v : Variant) (terms : List Term) (ids image : List ℕ) (k : ℕ) →
        IsBound pipe_rows terms → IsOrderOf pipe_rows terms ids → (p q : run.PipeHistory) →
        PipeRun v terms image k p → PipeRun v terms image k q → p ≡ q }
{}

/// Calls of `cycle` on a new machine are its run: the state, the records and the end after k calls are those after k cycles.
#[tactic(auto, using(crate::proofs::Runs::calls_are_the_run))]
pub fn law_of_calls()
    ensures { CallsAreTheRun }
{}
