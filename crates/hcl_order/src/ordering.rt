//! The call that orders the signals of a design.
ghost use Rattle.std.specs.Prelude.{IfOk, MatchResult, ℕ};
ghost use Rattle.hcl_types.specs.Equations.{needs_of};
ghost use Rattle.hcl_types.specs.Tables.{IsBound, IsOrderOf, IsSound, known, needs};
ghost use Rattle.hcl_order.specs.Dependence.{Depends};
ghost use Rattle.hcl_order.specs.Outcomes.{IsFault, IsOutcome};

use crate::fault::OrderFault;
use crate::needs::{given_rows, needs_of_rows};
use crate::rows::{OrderOutcome, order_rows};
use hcl_types::{Design, Order, Table};
use std::alloc::{AllocError, Global};

/// An order of all defined and hardware rows, or a cycle of them.
fn outcome(alloc: Global, d: &Design, t: &Table) -> Result<OrderOutcome, AllocError>
    requires sound { IsSound t.now.rows }
    requires bound { IsBound t.now.rows d.now.terms }
    ensures { IfOk result (IsOutcome (needs t.now.rows d.now.terms) (known t.now.rows)) }
{
    let rows = t.rows.items();
    let needs = needs_of_rows(alloc, rows, d.terms.items())?;
    let known = given_rows(alloc, rows)?;
    order_rows(alloc, needs.as_slice(), known.as_slice())
}

/// An order in which the signals of a design can be computed: all defined and hardware names of its table, each
/// after those that it depends on. There is one exactly if no name depends on itself; otherwise the call returns the
/// first cycle.
pub fn order(alloc: Global, d: &Design, t: &Table) -> Result<Order, OrderFault>
    requires sound { IsSound t.now.rows }
    requires bound { IsBound t.now.rows d.now.terms }
    ensures { MatchResult result
        (λ o. IsOrderOf t.now.rows d.now.terms o.ids × ((n : ℕ) → Depends (needs_of (needs t.now.rows d.now.terms)) n n → ⊥))
        (IsFault (needs_of (needs t.now.rows d.now.terms))) }
{
    match outcome(alloc, d, t) {
        Ok(OrderOutcome::Order(ids)) => Ok(Order { ids }),
        Ok(OrderOutcome::Cycle(ids)) => Err(OrderFault::Cycle(ids)),
        Err(_) => Err(OrderFault::Memory),
    }
}
