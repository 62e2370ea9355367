//! Compiles HCL definitions to decision nodes, and evaluates a design by walking them, which takes no memory.
#![tactic(auto)]

mod choices;
mod compiler;
mod copies;
mod decisions;
mod equality;
mod machine;
mod node;
mod numbers;
mod targets;

pub use compiler::compile;
pub use node::{Ask, Compiled, Node, ROWS};
