//! Tests of a field's number: by a list of truths, or, for an icode, by its row.
ghost use Rattle.std.specs.Prelude.{◌≡◌, ◌≤◌, ◌+◌, false, get_or, IfOk};
ghost use Rattle.nets.specs.Nets.{ExtendsNet, IsGate};
ghost use Rattle.net_fields.specs.Spelling.{spelt};
ghost use Rattle.pipe_gates.specs.Columns.{has};

use crate::columns::{RowTest, row_passes};
use net_fields::{BitRange, spells, spells_if};
use nets::NetBuilder;
use y86_base::{Memory, Variant};
use y86_isa::row;

/// The list is true at the number of the field.
pub fn listed(b: &mut NetBuilder, list: &[bool], p: BitRange) -> Result<u64, Memory>
    requires { p.first + p.bits ≤ b.old.vars }
    ensures extends { ExtendsNet b.old b.new }
    ensures has_truth { IfOk result (λ g. IsGate b.new g (λ w. get_or list.now (spelt w p.first p.bits) false)) }
{
    let mut any = b.constant(false)?;
    for i in 0..list.len() {
        if list[i] {
            let here = spells(b, p, i as u64)?;
            any = b.or(any, here)?;
        }
    }
    Ok(any)
}

/// The row of the field's icode passes the test.
pub fn row_has(
    b: &mut NetBuilder,
    v: Variant,
    icode: BitRange,
    test: RowTest,
) -> Result<u64, Memory>
    requires place { icode.first + icode.bits ≤ b.old.vars }
    requires bits { icode.bits ≡ 4 }
    ensures extends { ExtendsNet b.old b.new }
    ensures has_truth { IfOk result (λ g. IsGate b.new g (λ w. has v test (spelt w icode.first icode.bits))) }
{
    let mut any = b.constant(false)?;
    for k in 0..16 {
        let here = spells_if(b, row_passes(&row(v, k), test), icode, k)?;
        any = b.or(any, here)?;
    }
    Ok(any)
}
