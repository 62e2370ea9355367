//! What each obligation requires at a valuation.
ghost use Rattle.std.specs.Prelude.{◌≡◌, ◌++◌, ◌∷◌, [], IfOk, OnOk, if◌then◌else◌};
ghost use Rattle.net_fields.specs.FieldSpecs.{decoded};
ghost use Rattle.ctl_rules.specs.ColumnDemands.{next_leaf as spec_next_leaf};
ghost use Rattle.seq_check.specs.Datapaths.{spots_of};
ghost use Rattle.seq_requirements.specs.Lines.{fields_in};
ghost use Rattle.seq_requirements.specs.Requirements as spec;

use crate::lines::{LineNow, line_of, previous_of};
use ctl_atoms::Leaf;
use ctl_rules::{address_leaf, operand_leaf_a, operand_leaf_b, word_leaf};
use dp_signals::{SignalRows, seq_row};
use findings::{
    Requirement, alu_function, destination_e, fetched_status, put_number, put_some, put_truth,
    register_number, set,
};
use hcl_types::{NameId, SequentialDatapath};
use seq_check::signals_of;
use seq_obligations::RULE_COUNT;
use seq_plus::row::{self as plus_row, PLUS};
use std::alloc::Global;
use y86_base::{Memory, Variant};
use y86_isa::{NextPcColumn, Row, has_operand_a, is_load, is_store, row};

/// The source of the next PC, by the column of the instruction.
fn next_leaf(
    next: NextPcColumn,
    val_p: NameId,
    val_c: NameId,
    val_m: NameId,
    cnd: bool,
) -> Option<Leaf>
    ensures { result ≡ spec_next_leaf next val_p val_c val_m cnd }
{
    match next {
        NextPcColumn::Itself => None,
        NextPcColumn::Fall => Some(Leaf::Name(val_p)),
        NextPcColumn::Branch => Some(Leaf::Name(if cnd { val_c } else { val_p })),
        NextPcColumn::Target => Some(Leaf::Name(val_c)),
        NextPcColumn::Loaded => Some(Leaf::Name(val_m)),
    }
}

/// The fetch or the data access faults.
fn faulted(l: &LineNow) -> bool
    ensures { result ≡ spec.faulted (fields_in l.now) }
{
    set(l.error) || set(l.derror)
}

/// What obligation 1 requires.
fn put_reading(out: &mut Vec<Requirement>, s: &SignalRows, l: &LineNow) -> Result<(), Memory>
    ensures { OnOk result (out.new.items ≡ out.old.items ++ spec.required1 s.now (fields_in l.now)) }
{
    put_number(out, s.icode, l.icode)?;
    put_number(out, s.ifun, l.ifun)
}

/// What obligation 6 requires.
fn put_destination(
    out: &mut Vec<Requirement>,
    s: &SignalRows,
    r: &Row,
    l: &LineNow,
) -> Result<(), Memory>
    ensures { OnOk result (out.new.items ≡ out.old.items ++ spec.required6 s.now r.now (fields_in l.now)) }
{
    let raw = register_number(r.dst_e, l.r_a, l.r_b);
    put_number(out, s.dst_e, destination_e(r.conditional, set(l.cnd), raw))
}

/// What obligation 10 requires.
fn put_function(
    out: &mut Vec<Requirement>,
    s: &SignalRows,
    r: &Row,
    l: &LineNow,
) -> Result<(), Memory>
    ensures { OnOk result (out.new.items ≡ out.old.items ++ spec.required10 s.now r.now (fields_in l.now)) }
{
    if !has_operand_a(r.alu_a) {
        return Ok(());
    }
    put_number(out, s.alufun, alu_function(r.selects, l.ifun))
}

/// What obligation 13 requires.
fn put_access(out: &mut Vec<Requirement>, s: &SignalRows, r: &Row) -> Result<(), Memory>
    ensures { OnOk result (out.new.items ≡ out.old.items ++ spec.required13 s.now r.now) }
{
    put_truth(out, s.mem_read, is_load(r.memory))?;
    put_truth(out, s.mem_write, is_store(r.memory))
}

/// What an obligation that both datapaths share requires: any but the last. A number of no such obligation requires
/// nothing.
#[tactic(auto, unfolding(crate::specs::Requirements::shared_requirements))]
fn put_shared(
    out: &mut Vec<Requirement>,
    s: &SignalRows,
    rule: u32,
    r: &Row,
    l: &LineNow,
) -> Result<(), Memory>
    ensures { OnOk result (out.new.items ≡ out.old.items ++ spec.shared_requirements s.now rule r.now (fields_in l.now)) }
{
    match rule {
        1 => put_reading(out, s, l),
        2 => put_truth(out, s.need_regids, r.has_byte),
        3 => put_truth(out, s.need_val_c, r.has_const),
        4 => put_number(out, s.src_a, register_number(r.src_a, l.r_a, l.r_b)),
        5 => put_number(out, s.src_b, register_number(r.src_b, l.r_a, l.r_b)),
        6 => put_destination(out, s, r, l),
        7 => put_number(out, s.dst_m, register_number(r.dst_m, l.r_a, l.r_b)),
        8 => put_some(out, s.alu_a, operand_leaf_a(r.alu_a, s.val_a, s.val_c)),
        9 => put_some(out, s.alu_b, operand_leaf_b(r.alu_b, s.val_b)),
        10 => put_function(out, s, r, l),
        11 => put_truth(out, s.set_cc, r.sets_flags),
        12 => put_some(out, s.mem_addr, address_leaf(r.memory, s.val_a, s.val_e)),
        13 => put_access(out, s, r),
        14 => put_some(out, s.mem_data, word_leaf(r.memory, s.val_a, s.val_p)),
        15 => put_number(out, s.stat, fetched_status(faulted(l), l.icode)),
        _ => Ok(()),
    }
}

/// What the last obligation of SEQ requires: the next PC, unless a fault stops the instruction.
fn put_seq_next(out: &mut Vec<Requirement>, r: &Row, l: &LineNow) -> Result<(), Memory>
    ensures { OnOk result (out.new.items ≡ out.old.items ++ spec.seq_next r.now (fields_in l.now)) }
{
    if faulted(l) {
        return Ok(());
    }
    let leaf = next_leaf(
        r.next,
        seq_row::VAL_P,
        seq_row::VAL_C,
        seq_row::VAL_M,
        set(l.cnd),
    );
    put_some(out, seq_row::NEW_PC, leaf)
}

/// What the last obligation of SEQ+ requires: the next PC of the previous instruction.
fn put_plus_next(out: &mut Vec<Requirement>, v: Variant, icode: u64, cnd: u64) -> Result<(), Memory>
    ensures { OnOk result (out.new.items ≡ out.old.items ++ spec.plus_next v icode cnd) }
{
    let leaf = next_leaf(
        row(v, icode).next,
        plus_row::P_VAL_P,
        plus_row::P_VAL_C,
        plus_row::P_VAL_M,
        set(cnd),
    );
    put_some(out, PLUS.pc, leaf)
}

/// What the last obligation requires.
fn put_next(
    out: &mut Vec<Requirement>,
    which: SequentialDatapath,
    v: Variant,
    bits: &[bool],
    r: &Row,
    l: &LineNow,
) -> Result<(), Memory>
    requires row { r.now ≡ spec.row_of which v (decoded (spots_of which) 0 bits.now) }
    requires line { fields_in l.now ≡ spec.line_in which (decoded (spots_of which) 0 bits.now) }
    ensures { OnOk result (out.new.items ≡ out.old.items ++ spec.next_requirements which v (decoded (spots_of which) 0 bits.now)) }
{
    match which {
        SequentialDatapath::Seq => put_seq_next(out, r, l),
        SequentialDatapath::SeqPlus => {
            let before = previous_of(bits);
            put_plus_next(out, v, before.icode, before.cnd)
        }
    }
}

/// What an obligation requires at a valuation, signal by signal.
pub fn requirements_of(
    alloc: Global,
    which: SequentialDatapath,
    v: Variant,
    bits: &[bool],
    rule: u32,
) -> Result<Vec<Requirement>, Memory>
    ensures { IfOk result (λ r. r.items ≡ spec.requirements which v (decoded (spots_of which) 0 bits.now) rule) }
{
    let mut out = Vec::new(alloc);
    let l = line_of(which, bits);
    let r = row(v, l.icode);
    if rule == RULE_COUNT {
        put_next(&mut out, which, v, bits, &r, &l)?;
    } else {
        put_shared(&mut out, signals_of(which), rule, &r, &l)?;
    }
    Ok(out)
}
