//! A net's variables.
ghost use Rattle.std.specs.Prelude.{◌≡◌, IfOk};
ghost use Rattle.std.specs.List.{range_with_len};

use std::alloc::Global;
use y86_base::Memory;

/// The numbers of `vars` variables, from 0 on.
#[tactic(auto, using(crate::proofs::Numbers::numbers_more))]
pub fn all_variables(alloc: Global, vars: u32) -> Result<Vec<u32>, Memory>
    ensures { IfOk result (λ order. order.items ≡ range_with_len 0 vars) }
{
    let mut order: Vec<u32> = Vec::new(alloc);
    for variable in 0..vars {
        if order.push(variable).is_err() {
            return Err(Memory);
        }
    }
    Ok(order)
}
