//! Theorems about comparisons. Each is a function that does nothing and whose contract is the theorem.
ghost use Rattle.std.specs.Prelude.{ℕ, List};
ghost use Rattle.cosimulation.specs.Agreement.{EndsEqual, FindsNone};
ghost use Rattle.cosimulation.specs.Lockstep.{IsCompared};
ghost use Rattle.cosimulation.specs.declared.lockstep.Compared.{Compared};
ghost use Rattle.cosimulation.specs.declared.lockstep.Compared.TheVariants.{Same};
ghost use Rattle.hcl_types.specs.declared.term.Term.{Term};
ghost use Rattle.pipe_path.specs.Pipe.{started};
ghost use Rattle.pipe_refinement.specs.Refines.{Refines};
ghost use Rattle.y86_base.specs.Image.{IsImage};
ghost use Rattle.y86_base.specs.declared.parts.Variant.{Variant};
ghost use Rattle.y86_isa.specs.Machine.{start};

/// Under a design that refines the run of instructions on an image, the comparison finds no different record and no
/// different final state.
pub fn law_of_agreement()
    ensures { (v : Variant) (terms : List Term) (order image : List ℕ) (limit : ℕ) (c : Compared) → ((k : ℕ) → Refines v terms image k) →
        IsCompared v (started v terms order image) (start image) limit c → FindsNone c }
{}

/// If the comparison finds nothing that differs, and the pipeline has ended, the two machines are equal: the status, the
/// PC, the flags, each register and each byte of memory.
pub fn law_of_equal_ends()
    ensures { (v : Variant) (terms : List Term) (order image : List ℕ) (limit steps cycles : ℕ) → IsImage image →
        IsCompared v (started v terms order image) (start image) limit (Same steps cycles) → EndsEqual v terms order image steps cycles }
{}
