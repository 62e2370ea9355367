//! The theorem. It is a function that does nothing and whose contract is the theorem.
ghost use Rattle.pipe_theorem.specs.Theorem.{ObligationsRefine};

/// If an HCL file for PIPE meets the 27 obligations at some settings, its pipelined machine refines the run of
/// instructions on every image whose instructions fetch nothing that one of the three before them stored. It has the
/// same records, and at a stop it is the same machine. By the end of cycle 5n it has retired n instructions, or
/// stopped.
pub fn law_of_pipelined_refinement()
    ensures { ObligationsRefine }
{}
