//! The hash table that finds a node by its variable and its two diagrams.
ghost use Rattle.std.specs.Prelude.{◌≡◌, ℕ, ◌+◌, ◌-◌, ◌^◌, ◌<◌, ◌≤◌, length, take, IfOk, OnOk};
ghost use Rattle.bdd_core.specs.Tables.{Inside, IsTable, IsUnique, home_of, same_node};
ghost use Rattle.bdd_core.specs.Tables as tables;

use crate::nodes::ChoiceNode;
use std::alloc::Global;
use y86_base::Memory;

/// The outcome of a search for a node: its number, the place that is free for it, or neither.
#[derive(Clone, Copy)]
pub enum Lookup {
    Present(u32),
    Vacant(usize),
    Full,
}

fn same(a: ChoiceNode, b: ChoiceNode) -> bool
    ensures { result ≡ same_node a b }
{
    a.var == b.var && a.low == b.low && a.high == b.high
}

/// Whether a number names a node.
fn names(list: &[ChoiceNode], p: u32, c: ChoiceNode) -> bool
    requires { 2 ≤ p }
    ensures { result ≡ tables.names list.now p c }
{
    match list.get((p - 2) as usize) {
        Some(b) => same(*b, c),
        None => false,
    }
}

/// Searches some places in order.
#[tactic(auto, using(crate::proofs::Looking::look_start, crate::proofs::Looking::look_free, crate::proofs::Looking::look_found, crate::proofs::Looking::look_more, crate::proofs::Looking::look_end))]
fn look_through(list: &[ChoiceNode], c: ChoiceNode, places: &[u32]) -> Lookup
    ensures look { result ≡ tables.look_through list.now c places.now }
    ensures within { Inside (length places.now) result }
{
    for i in 0..places.len() {
        let p = places[i];
        if p < 2 {
            return Lookup::Vacant(i);
        }
        if names(list, p, c) {
            return Lookup::Present(p);
        }
    }
    Lookup::Full
}

/// The place at which the search for a node begins: the upper half of a product, by Knuth's multiplicative hashing,
/// reduced to as many bits as the size has. A size is a power of 2: a division would take longer than the rest of the
/// search.
#[tactic(auto, unfolding(crate::specs::Tables::home_of, crate::specs::Tables::hash_of), using(std::proofs::lemmas::Nat::and_le_r))]
fn home(c: ChoiceNode, size: usize) -> usize
    requires { 0 < size }
    ensures home { result ≡ home_of c size }
    ensures within { result < size }
{
    let var = (c.var as u64).wrapping_mul(11_400_714_819_323_198_485);
    let low = (c.low as u64).wrapping_mul(14_029_467_366_897_019_727);
    let high = (c.high as u64).wrapping_mul(1_609_587_929_392_839_161);
    let mixed = var.wrapping_add(low).wrapping_add(high);
    (mixed >> 32) as usize & (size - 1)
}

/// Searches the places for a node, from its home to the end and on from the beginning.
#[tactic(auto, using(crate::proofs::Tables::search_none), unfolding(crate::specs::Tables::searched))]
pub fn search(list: &[ChoiceNode], c: ChoiceNode, places: &[u32]) -> Lookup
    ensures search { result ≡ tables.searched list.now c places.now }
    ensures within { Inside (length places.now) result }
{
    if places.is_empty() {
        return Lookup::Full;
    }
    let home = home(c, places.len());
    match look_through(list, c, &places[home..]) {
        Lookup::Full => look_through(list, c, &places[..home]),
        Lookup::Vacant(i) => Lookup::Vacant(home + i),
        Lookup::Present(p) => Lookup::Present(p),
    }
}

/// Writes the number of node `at` to the place where the search for it ends.
#[tactic(auto, using(crate::proofs::Putting::put_free))]
pub fn put(list: &[ChoiceNode], at: usize, places: &mut [u32])
    requires inside { at < length list.now }
    requires few { length list.now < 2 ^ 32 - 2 }
    requires unique { IsUnique list.now }
    requires room { at < length places.old }
    requires table { IsTable (take at list.now) places.old }
    ensures table { IsTable (take (at + 1) list.now) places.new }
{
    match search(&list[..at], list[at], places) {
        Lookup::Vacant(i) => places[i] = (at + 2) as u32,
        _ => unreachable!(),
    }
}

/// A table of `size` places for a list of nodes.
#[tactic(auto, using(crate::proofs::Putting::table_begun, crate::proofs::Putting::table_ended))]
fn table_of(alloc: Global, list: &[ChoiceNode], size: usize) -> Result<Vec<u32>, Memory>
    requires room { length list.now ≤ size }
    requires few { length list.now < 2 ^ 32 - 2 }
    requires unique { IsUnique list.now }
    ensures { IfOk result (λ places. IsTable list.now places.items × (length places.items ≡ size)) }
{
    let mut places = match vec![in alloc; 0u32; size] {
        Ok(places) => places,
        Err(_) => return Err(Memory),
    };
    for at in 0..list.len() {
        put(list, at, places.as_mut_slice());
    }
    Ok(places)
}

/// The next larger number of places: twice as many.
fn larger(size: usize) -> Result<usize, Memory>
    ensures { IfOk result (λ n. size < n) }
{
    if size == 0 {
        return Ok(1024);
    }
    match size.checked_mul(2) {
        Some(n) => Ok(n),
        None => Err(Memory),
    }
}

/// Ensures that there is space for another node: a table that is three quarters full is doubled.
#[tactic(auto, using(crate::proofs::Putting::table_size))]
pub fn with_room(alloc: Global, list: &[ChoiceNode], places: &mut Vec<u32>) -> Result<(), Memory>
    requires few { length list.now < 2 ^ 32 - 2 }
    requires table { IsTable list.now places.old.items }
    ensures table { IsTable list.now places.new.items }
    ensures room { OnOk result (length list.now < length places.new.items) }
{
    let size = places.len();
    if list.len() < size - size / 4 {
        return Ok(());
    }
    *places = table_of(alloc, list, larger(size)?)?;
    Ok(())
}
