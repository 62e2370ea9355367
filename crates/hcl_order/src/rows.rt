//! An order of rows, or a shortest cycle.
ghost use Rattle.std.specs.Prelude.{◌≡◌, ◌<◌, ◌^◌, ℕ, IfOk, length, true};
ghost use Rattle.hcl_types.specs.Lists.{IsIn};
ghost use Rattle.hcl_types.specs.Equations.{is_known, needs_of};
ghost use Rattle.hcl_order.specs.Outcomes.{IsOutcome};
ghost use Rattle.hcl_order.specs.Layers.{IsWithin};

use crate::arrange::arrange_rows;
use crate::cycle::first_cycle;
use std::alloc::{AllocError, Global};
use y86_base::Items;

/// The result for rows and their needs.
#[derive(Debug, Drop)]
pub enum OrderOutcome {
    /// An order of the rows that are not known from the start.
    Order(Items<u32>),
    /// A shortest cycle.
    Cycle(Items<u32>),
}

/// An order of the rows that are not known from the start, or else a shortest cycle.
pub fn order_rows(
    alloc: Global,
    needs: &[Items<u32>],
    known: &[bool],
) -> Result<OrderOutcome, AllocError>
    requires within { IsWithin needs.now }
    requires rows { (length needs.now ≡ length known.now) × (length needs.now < 2 ^ 32) }
    requires known { (a n : ℕ) → is_known known.now a ≡ true → IsIn n (needs_of needs.now a) → ⊥ }
    ensures { IfOk result (IsOutcome needs.now known.now) }
{
    let mut done = Vec::from_slice(alloc, known)?;
    let mut ids = Vec::new(alloc);
    if !arrange_rows(needs, done.as_mut_slice(), &mut ids)? {
        match first_cycle(alloc, needs)? {
            Some(cycle) => return Ok(OrderOutcome::Cycle(cycle)),
            None => {}
        }
    }
    Ok(OrderOutcome::Order(Items::of(ids)))
}
