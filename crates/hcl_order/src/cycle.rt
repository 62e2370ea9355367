//! A shortest cycle of rows that need one another.
ghost use Rattle.std.specs.Prelude.{◌≡◌, ◌<◌, ◌≤◌, ◌^◌, ℕ, IfOk, MatchOption, length};
ghost use Rattle.hcl_order.specs.Dependence.{Depends, FirstCycle, IsFirstCycle};
ghost use Rattle.hcl_types.specs.Equations.{needs_of};
ghost use Rattle.hcl_order.specs.Layers.{IsCycleLength, IsWithin};
ghost use Rattle.hcl_order.specs.Ways.{IsCyclePath};

use crate::layers::{cycle_length, least_marked, needs_at};
use std::alloc::{AllocError, Global};
use y86_base::Items;

/// A cycle through a row: after each row comes the least of its needs that is one step nearer.
fn way_back(
    alloc: Global,
    needs: &[Items<u32>],
    marks: &[u64],
    row: usize,
    size: u64,
) -> Result<Items<u32>, AllocError>
    requires within { IsWithin needs.now }
    requires rows { (length needs.now ≡ length marks.now) × (length needs.now < 2 ^ 32) }
    requires row { row < length needs.now }
    requires positive { 0 < size }
    requires size { IsCycleLength (needs_of needs.now) row size marks.now }
    ensures { IfOk result (λ ids. IsCyclePath (needs_of needs.now) row marks.now size ids) }
{
    let mut ids = Vec::new(alloc);
    ids.push(row as u32)?;
    let mut at = row;
    let mut left = size;
    while left > 1 {
        at = least_marked(needs_at(needs, at), marks, left);
        ids.push(at as u32)?;
        left -= 1;
    }
    Ok(Items::of(ids))
}

fn find_cycle(
    alloc: Global,
    needs: &[Items<u32>],
    marks: &mut [u64],
) -> Result<Option<Items<u32>>, AllocError>
    requires within { IsWithin needs.now }
    requires rows { (length needs.now ≡ length marks.old) × (length needs.now < 2 ^ 32) }
    ensures { IfOk result (λ found. MatchOption found ((n : ℕ) → Depends (needs_of needs.now) n n → ⊥) (FirstCycle (needs_of needs.now))) }
{
    for row in 0..needs.len() {
        let size = cycle_length(needs, marks, row);
        if size > 0 {
            return Ok(Some(way_back(alloc, needs, marks, row, size)?));
        }
    }
    Ok(None)
}

/// A shortest cycle through the first row that depends on itself, if there is one.
pub fn first_cycle(alloc: Global, needs: &[Items<u32>]) -> Result<Option<Items<u32>>, AllocError>
    requires within { IsWithin needs.now }
    requires rows { length needs.now < 2 ^ 32 }
    ensures { IfOk result (λ found. MatchOption found ((n : ℕ) → Depends (needs_of needs.now) n n → ⊥) (FirstCycle (needs_of needs.now))) }
{
    let mut marks = vec![in alloc; 0u64; needs.len()]?;
    find_cycle(alloc, needs, marks.as_mut_slice())
}
