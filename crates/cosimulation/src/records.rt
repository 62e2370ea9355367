//! Whether two records of instructions are the same.
ghost use Rattle.std.specs.Prelude.{◌≡◌, ◌↔◌, Some, true};

use y86_base::{Flags, Stat};
use y86_isa::{Rec, Store};

fn same_flags(one: Flags, other: Flags) -> bool
    ensures { (result ≡ true) ↔ (one ≡ other) }
{
    one == other
}

fn same_store(one: Option<Store>, other: Option<Store>) -> bool
    ensures { (result ≡ true) ↔ (one ≡ other) }
{
    one == other
}

fn same_status(one: Stat, other: Stat) -> bool
    ensures { (result ≡ true) ↔ (one ≡ other) }
{
    one == other
}

/// Whether two records are records of the same instruction.
fn same_instruction(one: &Rec, other: &Rec) -> bool
    ensures { (result ≡ true) ↔ ((one.now.pc ≡ other.now.pc) × (one.now.icode ≡ other.now.icode) × (one.now.ifun ≡ other.now.ifun)) }
{
    one.pc == other.pc && one.icode == other.icode && one.ifun == other.ifun
}

/// Whether two records write the same.
fn same_writes(one: &Rec, other: &Rec) -> bool
    ensures { (result ≡ true) ↔ ((one.now.dst_e ≡ other.now.dst_e) × (one.now.val_e ≡ other.now.val_e) × (one.now.dst_m ≡ other.now.dst_m) × (one.now.val_m ≡ other.now.val_m)) }
{
    one.dst_e == other.dst_e
        && one.val_e == other.val_e
        && one.dst_m == other.dst_m
        && one.val_m == other.val_m
}

/// Whether two records have the same store, flags and status.
fn same_outcome(one: &Rec, other: &Rec) -> bool
    ensures { (result ≡ true) ↔ ((one.now.store ≡ other.now.store) × (one.now.flags ≡ other.now.flags) × (one.now.stat ≡ other.now.stat)) }
{
    same_store(one.store, other.store)
        && same_flags(one.flags, other.flags)
        && same_status(one.stat, other.stat)
}

fn all_three(first: bool, second: bool, third: bool) -> bool
    ensures { (result ≡ true) ↔ ((first ≡ true) × (second ≡ true) × (third ≡ true)) }
{
    first && second && third
}

/// Whether two records are the same.
pub fn same_record(one: &Rec, other: &Rec) -> bool
    ensures { (result ≡ true) ↔ (one.now ≡ other.now) }
{
    let first = same_instruction(one, other);
    let second = same_writes(one, other);
    let third = same_outcome(one, other);
    all_three(first, second, third)
}

/// Whether there is a record, and it is this one.
pub fn is_record(wanted: Option<Rec>, retired: &Rec) -> bool
    ensures { (result ≡ true) ↔ (wanted ≡ Some retired.now) }
{
    match wanted {
        Some(it) => same_record(&it, retired),
        None => false,
    }
}
