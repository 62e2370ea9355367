//! The orders of variables with which PIPE's formulas are decided.
ghost use Rattle.std.specs.Prelude.{◌≡◌, IfOk};
ghost use Rattle.control_check.specs.Orders.{AreOrders};

use bdd_decide::VariableOrders;
use pipe_orders::{Layout, Weave, order_for};
use std::alloc::Global;
use y86_base::{Items, Memory};

/// The orders with which formulas are decided.
#[derive(Drop)]
pub struct OrderList {
    whole: Items<u32>,
    part: Items<u32>,
    again: Items<u32>,
}

impl OrderList {
    /// The orders for obligations.
    pub fn for_rules(alloc: Global, vars: u32) -> Result<OrderList, Memory>
        ensures { IfOk result (AreOrders vars) }
    {
        OrderList::with(alloc, Layout::RegistersLast(Weave::Fours), vars)
    }

    /// The orders for settings.
    pub fn for_settings(alloc: Global, vars: u32) -> Result<OrderList, Memory>
        ensures { IfOk result (AreOrders vars) }
    {
        OrderList::with(alloc, Layout::Stages, vars)
    }

    /// The orders in which all valuations have this layout.
    fn with(alloc: Global, whole: Layout, vars: u32) -> Result<OrderList, Memory>
        ensures { IfOk result (AreOrders vars) }
    {
        let whole = order_for(alloc, whole, vars)?;
        let part = order_for(alloc, Layout::Stages, vars)?;
        let again = order_for(alloc, Layout::LargePart, vars)?;
        Ok(OrderList {
            whole: Items::of(whole),
            part: Items::of(part),
            again: Items::of(again),
        })
    }

    pub fn as_orders(&self) -> VariableOrders<'_>
        ensures whole { result.whole.now ≡ self.now.whole }
        ensures part { result.part.now ≡ self.now.part }
        ensures again { result.again.now ≡ self.now.again }
    {
        VariableOrders {
            whole: self.whole.items(),
            part: self.part.items(),
            again: self.again.items(),
        }
    }
}
