//! Whether a store is apart from the instruction that a machine fetches.
ghost use Rattle.std.specs.Prelude.{◌≡◌, ◌↔◌, ◌≤◌, IsTrue};
ghost use Rattle.yis_pure_runs.specs.Purity.{AvoidsStore};
ghost use Rattle.y86_isa.specs.Run.{fetched_count};

use y86_base::{Image, Variant};
use y86_isa::{Machine, Store, icode_count, row};

/// How many bytes the instruction at a PC fetches: none if the PC is outside, one if its byte begins no instruction.
fn count_fetched(v: Variant, memory: &Image, pc: u64) -> u64
    ensures count { result ≡ fetched_count v memory.now pc }
{
    let Some(first) = memory.byte(pc) else {
        return 0;
    };
    let icode = u64::from(first / 16);
    let ifun = u64::from(first % 16);
    let row = row(v, icode);
    if icode < icode_count(v) && ifun <= row.ifun_top {
        row.length
    } else {
        1
    }
}

/// Whether the 8 bytes of a store are all before those that the instruction at a machine's PC fetches, or all after
/// them.
pub fn lies_apart(v: Variant, m: &Machine, store: Store) -> bool
    ensures { IsTrue result ↔ AvoidsStore v m.now store }
{
    let count = count_fetched(v, &m.mem, m.pc);
    let is_before = 8 <= m.pc && store.addr <= m.pc - 8;
    let is_behind = count <= store.addr && m.pc <= store.addr - count;
    is_before || is_behind
}
