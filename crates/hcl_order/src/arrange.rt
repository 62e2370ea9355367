//! Puts rows into an order, each after what it needs.
ghost use Rattle.std.specs.Prelude.{◌≡◌, ◌<◌, ◌^◌, ◌↔◌, [], Bool, List, IfOk, IsTrue, OnOk, ℕ, length, true, false, ◌⊎◌};
ghost use Rattle.hcl_types.specs.Lists.{IsIn};
ghost use Rattle.hcl_types.specs.Equations.{is_known, needs_of};
ghost use Rattle.hcl_order.specs.Layers.{IsWithin};
ghost use Rattle.hcl_order.specs.Arranging.{Arranges, IsArranged, IsPassed};

use crate::layers::needs_at;
use std::alloc::AllocError;
use y86_base::Items;

/// Whether a row is done.
fn is_done(done: &[bool], row: usize) -> bool
    requires { row < length done.now }
    ensures { result ≡ is_known done.now row }
{
    done[row]
}

/// Whether all these rows are done.
fn all_done(needs: &[u32], done: &[bool]) -> bool
    requires { (n : ℕ) → IsIn n needs.now → n < length done.now }
    ensures done { result ≡ true → (n : ℕ) → IsIn n needs.now → is_known done.now n ≡ true }
    ensures left { result ≡ false → (n : ℕ) × IsIn n needs.now × (is_known done.now n ≡ false) }
{
    for row in needs {
        if !is_done(done, *row as usize) {
            return false;
        }
    }
    true
}

/// Whether a row isn't done, but all that it needs is.
fn is_ready(needs: &[Items<u32>], done: &[bool], row: usize) -> bool
    requires within { IsWithin needs.now }
    requires size { length needs.now ≡ length done.now }
    requires row { row < length needs.now }
    ensures yes { result ≡ true → (is_known done.now row ≡ false)
        × ((n : ℕ) → IsIn n (needs_of needs.now row) → is_known done.now n ≡ true) }
    ensures no { result ≡ false → (is_known done.now row ≡ true)
        ⊎ ((n : ℕ) × IsIn n (needs_of needs.now row) × (is_known done.now n ≡ false)) }
{
    !is_done(done, row) && all_done(needs_at(needs, row), done)
}

/// Appends, in table order, each row that isn't done but whose needs are. Returns whether there is any.
fn arrange_ready(
    needs: &[Items<u32>],
    done: &mut [bool],
    ids: &mut Vec<u32>,
) -> Result<bool, AllocError>
    requires within { IsWithin needs.now }
    requires rows { (length needs.now ≡ length done.old) × (length needs.now < 2 ^ 32) }
    ensures passed { IfOk result (λ added. IsPassed (needs_of needs.now) (length needs.now) done.old done.new added) }
    ensures arranged { OnOk result ((known : List Bool) → IsArranged needs.now known done.old ids.old.items → IsArranged needs.now known done.new ids.new.items) }
{
    let mut added = false;
    for row in 0..needs.len() {
        if is_ready(needs, done, row) {
            ids.push(row as u32)?;
            done[row] = true;
            added = true;
        }
    }
    Ok(added)
}

/// Whether all rows are done.
fn whole(done: &[bool]) -> bool
    ensures all { result ≡ true → (n : ℕ) → is_known done.now n ≡ true }
    ensures some { result ≡ false → (n : ℕ) × (n < length done.now) × (is_known done.now n ≡ false) }
{
    for row in 0..done.len() {
        if !is_done(done, row) {
            return false;
        }
    }
    true
}

/// Puts rows into an order, each after what it needs, as far as possible. Returns whether all are then done.
pub fn arrange_rows(
    needs: &[Items<u32>],
    done: &mut [bool],
    ids: &mut Vec<u32>,
) -> Result<bool, AllocError>
    requires within { IsWithin needs.now }
    requires rows { (length needs.now ≡ length done.old) × (length needs.now < 2 ^ 32) }
    requires start { ids.old.items ≡ [] }
    ensures { IfOk result (λ whole. Arranges needs.now done.old ids.new.items whole) }
{
    while arrange_ready(needs, done, ids)? {}
    Ok(whole(done))
}
