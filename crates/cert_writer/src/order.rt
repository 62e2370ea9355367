//! An order of a net's variables for its diagrams, and the rank of each variable in it.
ghost use Rattle.std.specs.Prelude.{◌≡◌, ℕ, ◌<◌, ◌^◌, true, length, get_or, IfOk, IfSome};
ghost use Rattle.cert_writer.specs.Nodes.{IsVariableOrder};

use nets::all_variables;
use pipe_orders::{Layout, Weave, order_for};
use std::alloc::Global;
use y86_base::Memory;

/// An order of variables, and the rank of each in it.
#[derive(Drop)]
pub struct RankOrders {
    pub order: Vec<u32>,
    pub ranks: Vec<u32>,
}

/// Whether two lists are inverse to each other.
#[tactic(auto, using(crate::proofs::Orders::inverse_none, crate::proofs::Orders::inverse_more, crate::proofs::Orders::inverse_all))]
fn are_inverse(order: &[u32], ranks: &[u32]) -> bool
    requires size { length ranks.now ≡ length order.now }
    ensures { result ≡ true → IsVariableOrder order.now ranks.now }
{
    for i in 0..order.len() {
        let v = order[i] as usize;
        let x = ranks[i] as usize;
        if v >= order.len() || x >= order.len() {
            return false;
        }
        if ranks[v] as usize != i || order[x] as usize != i {
            return false;
        }
    }
    true
}

/// The ranks of an order, if it has each variable once.
fn ranks_of(alloc: Global, order: &[u32]) -> Result<Option<Vec<u32>>, Memory>
    requires few { length order.now < 2 ^ 32 }
    ensures { IfOk result (λ o. IfSome o (λ r. IsVariableOrder order.now r.items)) }
{
    let n = order.len();
    let mut ranks = match vec![in alloc; 0u32; n] {
        Ok(ranks) => ranks,
        Err(_) => return Err(Memory),
    };
    for x in 0..n {
        let v = order[x] as usize;
        if v < n {
            ranks[v] = x as u32;
        }
    }
    if are_inverse(order, ranks.as_slice()) {
        return Ok(Some(ranks));
    }
    Ok(None)
}

/// An order of some variables, with registers last.
#[tactic(auto, using(crate::proofs::Orders::numbers_size, crate::proofs::Orders::numbers_order))]
pub fn order_of(alloc: Global, vars: u32, weave: Weave) -> Result<RankOrders, Memory>
    ensures size { IfOk result (λ o. length o.order.items ≡ vars) }
    ensures order { IfOk result (λ o. IsVariableOrder o.order.items o.ranks.items) }
{
    let order = order_for(alloc, Layout::RegistersLast(weave), vars)?;
    if order.len() as u64 == vars as u64 {
        let found = ranks_of(alloc, order.as_slice())?;
        match found {
            Some(ranks) => return Ok(RankOrders { order, ranks }),
            None => {}
        }
    }
    // the order by number is its own inverse
    let order = all_variables(alloc, vars)?;
    let ranks = all_variables(alloc, vars)?;
    Ok(RankOrders { order, ranks })
}
