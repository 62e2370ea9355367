//! Theorems about programs on PIPE. Each is a function that does nothing and whose contract is the theorem.
ghost use Rattle.std.specs.Prelude.{ℕ, ◌*◌, ◌≤◌, List};
ghost use Rattle.y86_base.specs.declared.parts.Variant.{Variant};
ghost use Rattle.hcl_types.specs.declared.term.Term.{Term};
ghost use Rattle.pipe_refinement.specs.Refines.{Refines};
ghost use Rattle.prog_gen.specs.Programs.{program};
ghost use Rattle.dp_signals.specs.PipeRun.{PipeHistory};
ghost use Rattle.prog_cosim.specs.Ends.{EndsAs, StopsIn};
ghost use Rattle.prog_cosim.specs.RunsTo.{RunsTo};
ghost use Rattle.prog_cosim.specs.Cosimulation.{IsCosimulation, CosimulationAgrees};
ghost use Rattle.prog_cosim.specs.declared.both.CosimResult.{CosimResult};

/// Under a design that refines the run of instructions on program `n`, both runs execute the whole program, n
/// instructions and the halt, the pipeline in at most 5(n + 1) cycles, and their reports are the same bytes.
pub fn law_of_cosimulation()
    ensures { (v : Variant) (terms : List Term) (n : ℕ) (b : CosimResult) → 1 ≤ n → n ≤ 100000 →
        ((k : ℕ) → Refines v terms (program n) k) → IsCosimulation v terms n b → CosimulationAgrees n b }
{}

/// Under a design that refines the run of instructions on an image: if that run stops after `count` instructions, the
/// pipeline retires exactly these and stops as it does, in at most five cycles for each.
pub fn law_of_ends()
    ensures { (v : Variant) (terms : List Term) (image : List ℕ) (count limit cycles : ℕ) (p : PipeHistory) →
        ((k : ℕ) → Refines v terms image k) → StopsIn v image count → RunsTo v terms image limit cycles p → 5 * count ≤ limit →
        EndsAs v image count cycles p }
{}
