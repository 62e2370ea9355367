//! The signals of a cycle that SEQ and SEQ+ share, and where the words of some of them come from.
ghost use Rattle.std.specs.Prelude.{◌≡◌};
ghost use Rattle.hcl_types.specs.Terms.{at};
ghost use Rattle.seq_text.specs.Signals as text;

use dp_signals::{SEQ, SignalRows, at, seq_row};
use hcl_types::{Design, Row};
use pipe_stage_text::source;
use seq_plus::row::PLUS;

/// The values of the signals in a cycle, in the order of their rows (CS:APP 3e, figures 4.27 to 4.31). `r_a` is the
/// signal rA, and so on.
#[derive(Clone, Copy, Debug)]
pub struct Signals {
    pub pc: u64,
    pub imem_icode: u64,
    pub imem_ifun: u64,
    pub imem_error: u64,
    pub r_a: u64,
    pub r_b: u64,
    pub val_c: u64,
    pub val_p: u64,
    pub val_a: u64,
    pub val_b: u64,
    pub val_e: u64,
    pub cnd: u64,
    pub val_m: u64,
    pub dmem_error: u64,
    pub icode: u64,
    pub ifun: u64,
    pub instr_valid: u64,
    pub need_regids: u64,
    pub need_val_c: u64,
    pub src_a: u64,
    pub src_b: u64,
    pub dst_e: u64,
    pub dst_m: u64,
    pub alu_a: u64,
    pub alu_b: u64,
    pub alufun: u64,
    pub set_cc: u64,
    pub mem_addr: u64,
    pub mem_read: u64,
    pub mem_write: u64,
    pub mem_data: u64,
    pub stat: u64,
}

/// The names that the definitions of aluA, aluB, mem_addr, mem_data, and of new_pc or pc pick in a cycle; `-` if they
/// pick none.
#[derive(Clone, Copy)]
pub struct Sources<'a> {
    pub alu_a: &'a [u8],
    pub alu_b: &'a [u8],
    pub mem_addr: &'a [u8],
    pub mem_data: &'a [u8],
    pub pc: &'a [u8],
}

/// The signals of a cycle, if they have these rows.
pub(crate) fn signals_at(rows: &SignalRows, values: &[u64]) -> Signals
    ensures { result ≡ text.signals_by rows.now (at values.now) }
{
    Signals {
        pc: at(values, rows.pc),
        imem_icode: at(values, rows.imem_icode),
        imem_ifun: at(values, rows.imem_ifun),
        imem_error: at(values, rows.imem_error),
        r_a: at(values, rows.r_a),
        r_b: at(values, rows.r_b),
        val_c: at(values, rows.val_c),
        val_p: at(values, rows.val_p),
        val_a: at(values, rows.val_a),
        val_b: at(values, rows.val_b),
        val_e: at(values, rows.val_e),
        cnd: at(values, rows.cnd),
        val_m: at(values, rows.val_m),
        dmem_error: at(values, rows.dmem_error),
        icode: at(values, rows.icode),
        ifun: at(values, rows.ifun),
        instr_valid: at(values, rows.instr_valid),
        need_regids: at(values, rows.need_regids),
        need_val_c: at(values, rows.need_val_c),
        src_a: at(values, rows.src_a),
        src_b: at(values, rows.src_b),
        dst_e: at(values, rows.dst_e),
        dst_m: at(values, rows.dst_m),
        alu_a: at(values, rows.alu_a),
        alu_b: at(values, rows.alu_b),
        alufun: at(values, rows.alufun),
        set_cc: at(values, rows.set_cc),
        mem_addr: at(values, rows.mem_addr),
        mem_read: at(values, rows.mem_read),
        mem_write: at(values, rows.mem_write),
        mem_data: at(values, rows.mem_data),
        stat: at(values, rows.stat),
    }
}

/// The sources of words in a cycle of SEQ.
#[tactic(auto, unfolding(crate::specs::Signals::seq_sources))]
pub(crate) fn seq_sources<'a>(rows: &'a [Row], design: &Design, values: &[u64]) -> Sources<'a>
    ensures { text.sources_in result ≡ text.seq_sources rows.now design.now.terms (at values.now) }
{
    let first = SEQ.icode;
    Sources {
        alu_a: source(rows, design, values, first, SEQ.alu_a),
        alu_b: source(rows, design, values, first, SEQ.alu_b),
        mem_addr: source(rows, design, values, first, SEQ.mem_addr),
        mem_data: source(rows, design, values, first, SEQ.mem_data),
        pc: source(rows, design, values, first, seq_row::NEW_PC),
    }
}

/// The sources of words in a cycle of SEQ+.
#[tactic(auto, unfolding(crate::specs::Signals::plus_sources))]
pub(crate) fn plus_sources<'a>(rows: &'a [Row], design: &Design, values: &[u64]) -> Sources<'a>
    ensures { text.sources_in result ≡ text.plus_sources rows.now design.now.terms (at values.now) }
{
    let first = PLUS.pc;
    Sources {
        alu_a: source(rows, design, values, first, PLUS.alu_a),
        alu_b: source(rows, design, values, first, PLUS.alu_b),
        mem_addr: source(rows, design, values, first, PLUS.mem_addr),
        mem_data: source(rows, design, values, first, PLUS.mem_data),
        pc: source(rows, design, values, first, PLUS.pc),
    }
}
