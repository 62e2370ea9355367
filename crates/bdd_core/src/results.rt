//! Cached results of operations on diagrams, in a table that forgets.
ghost use Rattle.std.specs.Prelude.{◌≡◌, ◌⊎◌, ℕ, IfOk, IfSome, Some, slice_get, true};
ghost use Rattle.bdd_core.specs.Results.{AreBlank, IsCached};

use std::alloc::Global;
use y86_base::Memory;

/// An operation on the truths of diagrams.
#[derive(Clone, Copy, Debug, PartialEq, Eq)]
pub enum Op {
    And,
    Not,
}

/// An operation with its arguments. A negation has its argument twice.
#[derive(Clone, Copy, Debug)]
pub struct OpKey {
    pub op: Op,
    pub left: u32,
    pub right: u32,
}

/// An operation and the diagram that is its result.
#[derive(Clone, Copy, Debug)]
pub struct CachedResult {
    pub key: OpKey,
    pub answer: u32,
}

fn same(a: OpKey, b: OpKey) -> bool
    ensures { result ≡ true → a ≡ b }
{
    let op = match (a.op, b.op) {
        (Op::And, Op::And) | (Op::Not, Op::Not) => true,
        _ => false,
    };
    op && a.left == b.left && a.right == b.right
}

/// The place of an operation in a table of `size` results.
fn place(key: OpKey, size: usize) -> usize {
    let op = match key.op {
        Op::And => 0,
        Op::Not => 1,
    };
    let left = (key.left as u64).wrapping_mul(11_400_714_819_323_198_485);
    let right = (key.right as u64).wrapping_mul(14_029_467_366_897_019_727);
    let mixed = left.wrapping_add(right).wrapping_add(op);
    (mixed >> 32) as usize & size.wrapping_sub(1)
}

/// The cached result of an operation, if there is one.
pub fn known(entries: &[CachedResult], key: OpKey) -> Option<u32>
    ensures { IfSome result (IsCached entries.now key) }
{
    match entries.get(place(key, entries.len())) {
        Some(entry) => {
            if same(entry.key, key) {
                Some(entry.answer)
            } else {
                None
            }
        }
        None => None,
    }
}

/// Caches a result, which may overwrite an older one.
pub fn remember(entries: &mut [CachedResult], key: OpKey, answer: u32)
    ensures { (i : ℕ) (e : CachedResult) → slice_get entries.new i ≡ Some e →
        (slice_get entries.old i ≡ Some e) ⊎ (e ≡ record { key = key; answer = answer }) }
{
    let at = place(key, entries.len());
    if at < entries.len() {
        entries[at] = CachedResult { key, answer };
    }
}

/// The number of results that are cached at first: a power of 2, so that a place is a few bits of a product.
pub const FIRST_RESULTS: usize = 4_096;

/// The maximal number of cached results, a power of 2 too: a longer table takes longer to look up than it saves.
pub const MOST_RESULTS: usize = 65_536;

/// Places for results. Each place holds a true result: falsehood and falsehood is falsehood.
pub fn blanks(alloc: Global, size: usize) -> Result<Vec<CachedResult>, Memory>
    ensures { IfOk result (λ entries. AreBlank entries.items) }
{
    let key = OpKey {
        op: Op::And,
        left: 0,
        right: 0,
    };
    match vec![in alloc; CachedResult { key, answer: 0 }; size] {
        Ok(entries) => Ok(entries),
        Err(_) => Err(Memory),
    }
}
