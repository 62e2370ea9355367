//! Theorems about the pipelined machine of a design. Each is a function that does nothing and whose contract is the theorem.
ghost use Rattle.std.specs.Prelude.{◌≡◌, true};
ghost use Rattle.pipe_refinement.specs.Invariant.{RunContext, run_stage_flow, run_flow};
ghost use Rattle.pipe_refinement.specs.Kinds.{Schedule, StageKind, in_f, next_schedule};
ghost use Rattle.pipe_motion.specs.Flow.{RegisterControls, moved_flow, o24};
ghost use Rattle.pipe_refinement.specs.Theorems.{FactsRefine};

/// If good instructions are neither lost nor doubled, the flow of the kinds after a cycle is the moved flow.
pub fn law_of_motion()
    ensures { (x : RunContext) (k : RegisterControls) (g : StageKind) (c : Schedule) → o24 k (run_flow x c) ≡ true →
        moved_flow k (run_stage_flow x g (in_f c)) (run_flow x c) ≡ run_flow x (next_schedule k g c) }
{}

/// A design whose cycles meet the obligations refines the run of instructions, on every image whose instructions fetch
/// nothing that one of the three before them stored.
pub fn law_of_refinement()
    ensures { FactsRefine }
{}
