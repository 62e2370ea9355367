//! The end of a cycle: what it writes, and its record.
ghost use Rattle.std.specs.Prelude.{◌≡◌};
ghost use Rattle.hcl_types.specs.Terms.{at};
ghost use Rattle.dp_sequential.specs.Cycle as spec;

use dp_signals::{SignalRows, at};
use y86_base::{Flags, Image, Regs, Stat};
use y86_isa::{Rec, Store, alu, data_store, put_store, write_back};

/// The status of a cycle after which a machine goes on.
pub const AOK: u64 = 1;

#[inline(always)]
fn store_of(rows: &SignalRows, values: &[u64]) -> Option<Store>
    ensures { result ≡ spec.store_by rows.now (at values.now) }
{
    data_store(
        at(values, rows.mem_addr),
        at(values, rows.mem_data),
        at(values, rows.mem_write) != 0,
        at(values, rows.dmem_error) != 0,
    )
}

#[inline(always)]
fn flags_of(rows: &SignalRows, flags: Flags, values: &[u64]) -> Flags
    ensures { result ≡ spec.flags_by rows.now flags (at values.now) }
{
    if at(values, rows.set_cc) != 0 {
        alu(
            at(values, rows.alufun),
            at(values, rows.alu_a),
            at(values, rows.alu_b),
        )
        .flags
    } else {
        flags
    }
}

/// Writes the results of a cycle with these values, if its status is AOK: both destinations (dstM last), the flags, and
/// memory.
#[inline(always)]
pub fn update(
    rows: &SignalRows,
    regs: &mut Regs,
    flags: &mut Flags,
    mem: &mut Image,
    values: &[u64],
)
    ensures regs { regs.new ≡ spec.registers_by rows.now regs.old (at values.now) }
    ensures flags { flags.new ≡ spec.flags_by rows.now flags.old (at values.now) }
    ensures mem { mem.new ≡ spec.memory_by rows.now mem.old (at values.now) }
{
    write_back(
        regs,
        at(values, rows.dst_e),
        at(values, rows.val_e),
        at(values, rows.dst_m),
        at(values, rows.val_m),
    );
    *flags = flags_of(rows, *flags, values);
    put_store(mem, store_of(rows, values));
}

/// The record of a cycle at `pc` with these values that left these flags.
#[inline(always)]
pub fn record_of(rows: &SignalRows, pc: u64, flags: Flags, values: &[u64]) -> Rec
    ensures { result ≡ spec.record_by rows.now pc flags (at values.now) }
{
    let rec = Rec {
        pc,
        icode: at(values, rows.icode),
        ifun: at(values, rows.ifun),
        dst_e: at(values, rows.dst_e),
        val_e: at(values, rows.val_e),
        dst_m: at(values, rows.dst_m),
        val_m: at(values, rows.val_m),
        store: store_of(rows, values),
        flags,
        stat: Stat::of(at(values, rows.stat)),
    };
    rec.normal()
}
