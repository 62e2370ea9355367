//! Why a design has no order.
use thiserror::Error;
use y86_base::Items;

/// Why there is no order.
#[derive(Debug, Drop, Error)]
pub enum OrderFault {
    /// Some name depends on itself. The list begins with the first such row in table order and is a shortest way
    /// back to it: each name needs the next, and the last needs the first. Among equally short ways it is the first by
    /// table order at each step.
    #[error("Cycle")]
    Cycle(Items<u32>),
    /// An allocation was refused.
    #[error("Memory")]
    Memory,
}
