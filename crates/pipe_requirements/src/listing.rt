//! What each of the obligations before those on motion requires at a valuation.
ghost use Rattle.std.specs.Prelude.{◌≡◌, ◌<◌, ◌≤◌, ◌++◌, ◌∷◌, [], IfOk, OnOk, if◌then◌else◌};
ghost use Rattle.control_values.specs.Given.{at};
ghost use Rattle.pipe_requirements.specs.Requirements as spec;
ghost use Rattle.pipe_requirements.specs.Flows.{at_now};

use crate::flow::leaves;
use crate::now::Now;
use ctl_atoms::Leaf;
use ctl_rules::{address_leaf, operand_leaf_a, operand_leaf_b};
use dp_signals::pipe_row as name;
use findings::{
    Requirement, Wanted, alu_function, fetched_status, is_number, put, put_number, put_some,
    put_truth, put_word, register_number, set,
};
use hcl_types::NameId;
use std::alloc::Global;
use y86_base::Memory;
use y86_isa::{
    has_operand_a, is_load, is_store, row, select_a_is_val_a, select_a_is_val_p, stores_val_a,
};

/// Puts the right value of a source.
fn put_right(
    out: &mut Vec<Requirement>,
    n: &Now<'_>,
    free: bool,
    word: NameId,
    source: NameId,
    rest: NameId,
) -> Result<(), Memory>
    ensures { OnOk result (out.new.items ≡ out.old.items ++ at_now spec.right_word n.now (at n.now.leaves.now) free word source rest) }
{
    if is_number(n.leaves, source, 15) {
        return Ok(());
    }
    if n.loaded_in_e(source) {
        if free {
            return Ok(());
        }
        return put(out, word, Wanted::Nothing);
    }
    put_word(out, word, n.right_value(source, rest))
}

/// What obligation 1 requires.
fn put_1(out: &mut Vec<Requirement>, n: &Now<'_>) -> Result<(), Memory>
    ensures { OnOk result (out.new.items ≡ out.old.items ++ at_now spec.required1 n.now (at n.now.leaves.now)) }
{
    put_word(out, name::F_ICODE, Leaf::Number(n.l.f.icode))?;
    put_number(out, name::F_IFUN, n.l.f.ifun)
}

/// What obligation 2 requires.
fn put_2(out: &mut Vec<Requirement>, n: &Now<'_>) -> Result<(), Memory>
    ensures { OnOk result (out.new.items ≡ out.old.items ++ at_now spec.required2 n.now (at n.now.leaves.now)) }
{
    put_number(
        out,
        name::F_STAT,
        fetched_status(set(n.l.f.error), n.l.f.icode),
    )
}

/// What obligation 3 requires.
fn put_3(out: &mut Vec<Requirement>, n: &Now<'_>) -> Result<(), Memory>
    ensures { OnOk result (out.new.items ≡ out.old.items ++ at_now spec.required3 n.now (at n.now.leaves.now)) }
{
    put_truth(out, name::NEED_REGIDS, row(n.v, n.l.f.icode).has_byte)
}

/// What obligation 4 requires.
fn put_4(out: &mut Vec<Requirement>, n: &Now<'_>) -> Result<(), Memory>
    ensures { OnOk result (out.new.items ≡ out.old.items ++ at_now spec.required4 n.now (at n.now.leaves.now)) }
{
    put_truth(out, name::NEED_VAL_C, row(n.v, n.l.f.icode).has_const)
}

/// What obligation 5 requires.
fn put_5(out: &mut Vec<Requirement>, n: &Now<'_>) -> Result<(), Memory>
    ensures { OnOk result (out.new.items ≡ out.old.items ++ at_now spec.required5 n.now (at n.now.leaves.now)) }
{
    if set(n.l.f.error) {
        return Ok(());
    }
    put_some(out, name::F_PRED_PC, n.predicted())
}

/// What obligation 6 requires.
fn put_6(out: &mut Vec<Requirement>, n: &Now<'_>) -> Result<(), Memory>
    ensures { OnOk result (out.new.items ≡ out.old.items ++ at_now spec.required6 n.now (at n.now.leaves.now)) }
{
    put_number(
        out,
        name::D_SRC_A,
        register_number(row(n.v, n.l.d.icode).src_a, n.l.d.r_a, n.l.d.r_b),
    )
}

/// What obligation 7 requires.
fn put_7(out: &mut Vec<Requirement>, n: &Now<'_>) -> Result<(), Memory>
    ensures { OnOk result (out.new.items ≡ out.old.items ++ at_now spec.required7 n.now (at n.now.leaves.now)) }
{
    put_number(
        out,
        name::D_SRC_B,
        register_number(row(n.v, n.l.d.icode).src_b, n.l.d.r_a, n.l.d.r_b),
    )
}

/// What obligation 8 requires.
fn put_8(out: &mut Vec<Requirement>, n: &Now<'_>) -> Result<(), Memory>
    ensures { OnOk result (out.new.items ≡ out.old.items ++ at_now spec.required8 n.now (at n.now.leaves.now)) }
{
    put_number(
        out,
        name::D_DST_E,
        register_number(row(n.v, n.l.d.icode).dst_e, n.l.d.r_a, n.l.d.r_b),
    )
}

/// What obligation 9 requires.
fn put_9(out: &mut Vec<Requirement>, n: &Now<'_>) -> Result<(), Memory>
    ensures { OnOk result (out.new.items ≡ out.old.items ++ at_now spec.required9 n.now (at n.now.leaves.now)) }
{
    put_number(
        out,
        name::D_DST_M,
        register_number(row(n.v, n.l.d.icode).dst_m, n.l.d.r_a, n.l.d.r_b),
    )
}

/// What obligation 10 requires.
fn put_10(out: &mut Vec<Requirement>, n: &Now<'_>) -> Result<(), Memory>
    ensures { OnOk result (out.new.items ≡ out.old.items ++ at_now spec.required10 n.now (at n.now.leaves.now)) }
{
    if !leaves(n.mv, n.y) {
        return Ok(());
    }
    let here = row(n.v, n.l.d.icode);
    if select_a_is_val_p(&here) {
        put_word(out, name::D_VAL_A, Leaf::Name(name::HELD_D_VAL_P))?;
    }
    put_right(
        out,
        n,
        n.s.lf && stores_val_a(here.memory),
        name::D_VAL_A,
        name::D_SRC_A,
        name::D_RVAL_A,
    )
}

/// What obligation 11 requires.
fn put_11(out: &mut Vec<Requirement>, n: &Now<'_>) -> Result<(), Memory>
    ensures { OnOk result (out.new.items ≡ out.old.items ++ at_now spec.required11 n.now (at n.now.leaves.now)) }
{
    if !leaves(n.mv, n.y) {
        return Ok(());
    }
    put_right(out, n, false, name::D_VAL_B, name::D_SRC_B, name::D_RVAL_B)
}

/// What obligation 12 requires.
fn put_12(out: &mut Vec<Requirement>, n: &Now<'_>) -> Result<(), Memory>
    ensures { OnOk result (out.new.items ≡ out.old.items ++ at_now spec.required12 n.now (at n.now.leaves.now)) }
{
    if !n.works_in_e() {
        return Ok(());
    }
    put_some(
        out,
        name::ALU_A,
        operand_leaf_a(
            row(n.v, n.l.e.icode).alu_a,
            name::HELD_E_VAL_A,
            name::HELD_E_VAL_C,
        ),
    )
}

/// What obligation 13 requires.
fn put_13(out: &mut Vec<Requirement>, n: &Now<'_>) -> Result<(), Memory>
    ensures { OnOk result (out.new.items ≡ out.old.items ++ at_now spec.required13 n.now (at n.now.leaves.now)) }
{
    if !n.works_in_e() {
        return Ok(());
    }
    put_some(
        out,
        name::ALU_B,
        operand_leaf_b(row(n.v, n.l.e.icode).alu_b, name::HELD_E_VAL_B),
    )
}

/// What obligation 14 requires.
fn put_14(out: &mut Vec<Requirement>, n: &Now<'_>) -> Result<(), Memory>
    ensures { OnOk result (out.new.items ≡ out.old.items ++ at_now spec.required14 n.now (at n.now.leaves.now)) }
{
    let here = row(n.v, n.l.e.icode);
    if !(n.works_in_e() && has_operand_a(here.alu_a)) {
        return Ok(());
    }
    put_number(out, name::ALUFUN, alu_function(here.selects, n.l.e.ifun))
}

/// What obligation 15 requires.
fn put_15(out: &mut Vec<Requirement>, n: &Now<'_>) -> Result<(), Memory>
    ensures { OnOk result (out.new.items ≡ out.old.items ++ at_now spec.required15 n.now (at n.now.leaves.now)) }
{
    put_truth(
        out,
        name::SET_CC,
        n.works_in_e() && row(n.v, n.l.e.icode).sets_flags,
    )
}

/// What obligation 16 requires.
fn put_16(out: &mut Vec<Requirement>, n: &Now<'_>) -> Result<(), Memory>
    ensures { OnOk result (out.new.items ≡ out.old.items ++ at_now spec.required16 n.now (at n.now.leaves.now)) }
{
    let here = row(n.v, n.l.e.icode);
    if !(n.y.e.good && (select_a_is_val_a(&here) || select_a_is_val_p(&here))) {
        return Ok(());
    }
    if n.word_comes_late() {
        put_word(out, name::E_VAL_A, Leaf::Name(name::M_VAL_M))
    } else {
        put_word(out, name::E_VAL_A, Leaf::Name(name::HELD_E_VAL_A))
    }
}

/// What obligation 17 requires.
fn put_17(out: &mut Vec<Requirement>, n: &Now<'_>) -> Result<(), Memory>
    ensures { OnOk result (out.new.items ≡ out.old.items ++ at_now spec.required17 n.now (at n.now.leaves.now)) }
{
    if n.y.e.wrong {
        return Ok(());
    }
    put_number(out, name::E_DST_E, n.late_dst_e())
}

/// What obligation 18 requires.
fn put_18(out: &mut Vec<Requirement>, n: &Now<'_>) -> Result<(), Memory>
    ensures { OnOk result (out.new.items ≡ out.old.items ++ at_now spec.required18 n.now (at n.now.leaves.now)) }
{
    if !n.y.m.good {
        return Ok(());
    }
    put_some(
        out,
        name::MEM_ADDR,
        address_leaf(
            row(n.v, n.l.m.icode).memory,
            name::HELD_M_VAL_A,
            name::HELD_M_VAL_E,
        ),
    )
}

/// What obligation 19 requires.
fn put_19(out: &mut Vec<Requirement>, n: &Now<'_>) -> Result<(), Memory>
    ensures { OnOk result (out.new.items ≡ out.old.items ++ at_now spec.required19 n.now (at n.now.leaves.now)) }
{
    let memory = row(n.v, n.l.m.icode).memory;
    put_truth(out, name::MEM_READ, n.y.m.good && is_load(memory))?;
    put_truth(out, name::MEM_WRITE, n.y.m.good && is_store(memory))
}

/// What obligation 20 requires.
fn put_20(out: &mut Vec<Requirement>, n: &Now<'_>) -> Result<(), Memory>
    ensures { OnOk result (out.new.items ≡ out.old.items ++ at_now spec.required20 n.now (at n.now.leaves.now)) }
{
    put_number(
        out,
        name::M_STAT,
        if set(n.l.m.error) { 3 } else { n.l.m.stat },
    )
}

/// What obligation 21 requires.
fn put_21(out: &mut Vec<Requirement>, n: &Now<'_>) -> Result<(), Memory>
    ensures { OnOk result (out.new.items ≡ out.old.items ++ at_now spec.required21 n.now (at n.now.leaves.now)) }
{
    if !n.y.w.good {
        return Ok(());
    }
    put_number(out, name::W_DST_E, n.l.w.dst_e)?;
    put_number(out, name::W_DST_M, n.l.w.dst_m)?;
    put_word(out, name::W_VAL_E, Leaf::Name(name::HELD_W_VAL_E))?;
    put_word(out, name::W_VAL_M, Leaf::Name(name::HELD_W_VAL_M))
}

/// What obligation 22 requires.
fn put_22(out: &mut Vec<Requirement>, n: &Now<'_>) -> Result<(), Memory>
    ensures { OnOk result (out.new.items ≡ out.old.items ++ at_now spec.required22 n.now (at n.now.leaves.now)) }
{
    put_number(out, name::STAT, if n.y.w.good { n.l.w.stat } else { 1 })
}

/// What an obligation before those on motion requires.
#[tactic(auto, unfolding(crate::specs::Requirements::requirements))]
fn put_required(out: &mut Vec<Requirement>, n: &Now<'_>, rule: u32) -> Result<(), Memory>
    requires first { 1 ≤ rule }
    requires last { rule < spec.first_on_motion }
    ensures { OnOk result (out.new.items ≡ out.old.items ++ at_now spec.requirements n.now (at n.now.leaves.now) rule) }
{
    match rule {
        1 => put_1(out, n),
        2 => put_2(out, n),
        3 => put_3(out, n),
        4 => put_4(out, n),
        5 => put_5(out, n),
        6 => put_6(out, n),
        7 => put_7(out, n),
        8 => put_8(out, n),
        9 => put_9(out, n),
        10 => put_10(out, n),
        11 => put_11(out, n),
        12 => put_12(out, n),
        13 => put_13(out, n),
        14 => put_14(out, n),
        15 => put_15(out, n),
        16 => put_16(out, n),
        17 => put_17(out, n),
        18 => put_18(out, n),
        19 => put_19(out, n),
        20 => put_20(out, n),
        21 => put_21(out, n),
        22 => put_22(out, n),
        _ => unreachable!(),
    }
}

/// What an obligation before those on motion requires, signal by signal.
pub fn requirements_of(alloc: Global, n: &Now<'_>, rule: u32) -> Result<Vec<Requirement>, Memory>
    requires first { 1 ≤ rule }
    requires last { rule < spec.first_on_motion }
    ensures { IfOk result (λ r. r.items ≡ at_now spec.requirements n.now (at n.now.leaves.now) rule) }
{
    let mut out = Vec::new(alloc);
    put_required(&mut out, n, rule)?;
    Ok(out)
}
