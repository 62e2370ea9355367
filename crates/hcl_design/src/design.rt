//! The design of an HCL text: it is read, its definitions are bound to the table, and its signals get an order.
ghost use Rattle.std.specs.Prelude.{◌≡◌, IfErr, IfOk};
ghost use Rattle.hcl_design.specs.Designs.{HasDesign, HasDesignOf, IsDesign, IsDesignOf};
ghost use Rattle.hcl_types.specs.Tables.{IsBound, IsOrderOf, IsSound};

use hcl_binding::{BindWhy, bind};
use hcl_order::{OrderFault, order};
use hcl_read::{HclWhy, read};
use hcl_tree::File;
use hcl_types::{OrderedDesign, Table};
use std::alloc::Global;

/// Why there is no design.
#[derive(Clone, Copy, Debug)]
pub enum NoDesign {
    /// The text has a fault: of reading or of binding, or a signal depends on itself.
    Refused,
    /// Out of memory.
    Memory,
}

/// The design of a file over a table.
#[tactic(auto, using(crate::proofs::Faults::none_if_unbound, crate::proofs::Faults::none_if_cyclic))]
pub fn design_of_file(alloc: Global, file: &File, table: &Table) -> Result<OrderedDesign, NoDesign>
    requires { IsSound table.now.rows }
    ensures design { IfOk result (λ ordered. IsDesignOf table.now.rows file.now.items ordered.design.terms) }
    ensures bound { IfOk result (λ ordered. IsBound table.now.rows ordered.design.terms) }
    ensures order { IfOk result (λ ordered. IsOrderOf table.now.rows ordered.design.terms ordered.order.ids) }
    ensures refused { IfErr result (λ why. why ≡ NoDesign.Refused → HasDesignOf table.now.rows file.now.items → ⊥) }
{
    let design = match bind(alloc, file, table) {
        Ok(design) => design,
        Err(fault) => {
            return Err(match fault.why {
                BindWhy::Memory => NoDesign::Memory,
                _ => NoDesign::Refused,
            });
        }
    };
    match order(alloc, &design, table) {
        Ok(order) => Ok(OrderedDesign { design, order }),
        Err(OrderFault::Cycle(_)) => Err(NoDesign::Refused),
        Err(OrderFault::Memory) => Err(NoDesign::Memory),
    }
}

/// The design of a text over a table.
#[tactic(auto, using(crate::proofs::Faults::none_if_unread, crate::proofs::Faults::of_file))]
pub fn design_of(alloc: Global, text: &[u8], table: &Table) -> Result<OrderedDesign, NoDesign>
    requires { IsSound table.now.rows }
    ensures design { IfOk result (λ ordered. IsDesign table.now.rows text.now ordered.design.terms) }
    ensures bound { IfOk result (λ ordered. IsBound table.now.rows ordered.design.terms) }
    ensures order { IfOk result (λ ordered. IsOrderOf table.now.rows ordered.design.terms ordered.order.ids) }
    ensures refused { IfErr result (λ why. why ≡ NoDesign.Refused → HasDesign table.now.rows text.now → ⊥) }
{
    match read(alloc, text) {
        Ok(file) => design_of_file(alloc, &file, table),
        Err(fault) => Err(match fault.why {
            HclWhy::Memory => NoDesign::Memory,
            _ => NoDesign::Refused,
        }),
    }
}
