//! PIPE's theorem: joins `pipe_obligations` (numbers and names) and `pipe_refinement` (real words).
#![tactic(auto)]

mod laws;

pub use laws::law_of_pipelined_refinement;
