//! The lines of one cycle.
ghost use Rattle.std.specs.Prelude.{◌≡◌, ◌++◌, OnOk};
ghost use Rattle.y86_base.specs.Words.{set};
ghost use Rattle.hcl_types.specs.Terms.{at};
ghost use Rattle.pipe_stage_text.specs.Cycle as text;
ghost use Rattle.pipe_stage_text.specs.Sources.{sources_in};

use crate::instruction::put_instruction;
use crate::numbers::{
    put_address, put_function_pair, put_number_pair, put_register_pair, put_status_pair,
    put_text_pair, put_word_pair,
};
use crate::picked::SourceNames;
use crate::stage_content::StageContent;
use crate::stage_contents::StageContents;
use dp_signals::{PipeState, PipeValues, at, pipe_row as row};
use y86_base::{Flags, Memory, Stat, put};
use y86_isa::{Store, data_store};

const AOK: u64 = 1;

const NO_REGISTER: u64 = 15;

/// A cycle of an observed machine.
#[derive(Clone, Copy)]
pub(crate) struct WatchedCycle<'a> {
    /// Its number; the first cycle of a run is number 1.
    pub number: u64,
    /// The state of the machine at the beginning of the cycle.
    pub state: &'a PipeState,
    /// The values of its signals.
    pub values: &'a PipeValues,
    /// What the pipeline registers hold at the beginning of the cycle.
    pub watch: &'a StageContents,
    /// What it fetches.
    pub fetch: &'a StageContent,
}

/// The update of a pipeline register that the file requests.
fn next_word(stall: u64, bubble: u64) -> &'static [u8]
    ensures { result.now ≡ text.next_word (set stall) (set bubble) }
{
    if stall != 0 {
        if bubble != 0 { b"both" } else { b"stall" }
    } else if bubble != 0 {
        b"bubble"
    } else {
        b"load"
    }
}

/// Appends the address from which the instruction in a stage was fetched.
fn put_place(out: &mut Vec<u8>, held: &StageContent) -> Result<(), Memory>
    ensures { OnOk result (out.new.items ≡ out.old.items ++ text.place held.now) }
{
    if held.live {
        put_address(out, held.addr)
    } else {
        put(out, b"-")
    }
}

/// Appends the head of the line of a stage.
#[tactic(auto, unfolding(crate::specs::Cycle::head))]
fn put_head(
    out: &mut Vec<u8>,
    letter: &[u8],
    held: &StageContent,
    stall: u64,
    bubble: u64,
    stat: u64,
) -> Result<(), Memory>
    ensures { OnOk result (out.new.items ≡ out.old.items ++ text.head letter.now held.now (set stall) (set bubble) stat) }
{
    put(out, letter)?;
    put_number_pair(out, b" row ", held.row)?;
    put(out, b" at ")?;
    put_place(out, held)?;
    put(out, b" next ")?;
    put(out, next_word(stall, bubble))?;
    put_status_pair(out, b" stat ", stat)
}

/// Appends what a stage holds, and ends the line.
#[tactic(auto, unfolding(crate::specs::Cycle::tail))]
fn put_tail(out: &mut Vec<u8>, held: &StageContent) -> Result<(), Memory>
    ensures { OnOk result (out.new.items ≡ out.old.items ++ text.tail held.now) }
{
    put(out, b" | ")?;
    put_instruction(out, held)?;
    put(out, b"\n")
}

#[tactic(auto, unfolding(crate::specs::Cycle::fetch_words))]
fn put_fetch_words(out: &mut Vec<u8>, p: &PipeState, values: &PipeValues) -> Result<(), Memory>
    ensures { OnOk result (out.new.items ≡ out.old.items ++ text.fetch_words p.now (at values.now)) }
{
    put_word_pair(out, b" F_predPC ", p.pred_pc)?;
    put_word_pair(out, b" f_valC ", at(values, row::F_VAL_C))?;
    put_word_pair(out, b" f_valP ", at(values, row::F_VAL_P))?;
    put_word_pair(out, b" f_predPC ", at(values, row::F_PRED_PC))
}

fn put_fetch_source(out: &mut Vec<u8>, sources: &SourceNames<'_>) -> Result<(), Memory>
    ensures { OnOk result (out.new.items ≡ out.old.items ++ text.fetch_source (sources_in sources.now)) }
{
    put_text_pair(out, b" f_pc_from ", sources.pc)
}

#[tactic(auto, unfolding(crate::specs::Cycle::fetch_line))]
fn put_fetch(
    out: &mut Vec<u8>,
    fetch: &StageContent,
    p: &PipeState,
    values: &PipeValues,
    sources: &SourceNames<'_>,
) -> Result<(), Memory>
    ensures { OnOk result (out.new.items ≡ out.old.items ++ text.fetch_line fetch.now p.now (at values.now) (sources_in sources.now)) }
{
    put_head(
        out,
        b"F",
        fetch,
        at(values, row::F_STALL),
        at(values, row::F_BUBBLE),
        at(values, row::F_STAT),
    )?;
    put_fetch_words(out, p, values)?;
    put_fetch_source(out, sources)?;
    put_tail(out, fetch)
}

#[tactic(auto, unfolding(crate::specs::Cycle::decode_fields))]
fn put_decode_fields(out: &mut Vec<u8>, p: &PipeState) -> Result<(), Memory>
    ensures { OnOk result (out.new.items ≡ out.old.items ++ text.decode_fields p.now) }
{
    put_register_pair(out, b" rA ", p.d.r_a)?;
    put_register_pair(out, b" rB ", p.d.r_b)?;
    put_word_pair(out, b" valC ", p.d.val_c)?;
    put_word_pair(out, b" valP ", p.d.val_p)
}

#[tactic(auto, unfolding(crate::specs::Cycle::decode_signals))]
fn put_decode_signals(out: &mut Vec<u8>, values: &PipeValues) -> Result<(), Memory>
    ensures { OnOk result (out.new.items ≡ out.old.items ++ text.decode_signals (at values.now)) }
{
    put_register_pair(out, b" d_srcA ", at(values, row::D_SRC_A))?;
    put_register_pair(out, b" d_srcB ", at(values, row::D_SRC_B))?;
    put_register_pair(out, b" d_dstE ", at(values, row::D_DST_E))?;
    put_register_pair(out, b" d_dstM ", at(values, row::D_DST_M))?;
    put_word_pair(out, b" d_valA ", at(values, row::D_VAL_A))?;
    put_word_pair(out, b" d_valB ", at(values, row::D_VAL_B))
}

fn put_decode_sources(out: &mut Vec<u8>, sources: &SourceNames<'_>) -> Result<(), Memory>
    ensures { OnOk result (out.new.items ≡ out.old.items ++ text.decode_sources (sources_in sources.now)) }
{
    put_text_pair(out, b" d_valA_from ", sources.val_a)?;
    put_text_pair(out, b" d_valB_from ", sources.val_b)
}

#[tactic(auto, unfolding(crate::specs::Cycle::decode_line))]
fn put_decode(
    out: &mut Vec<u8>,
    held: &StageContent,
    p: &PipeState,
    values: &PipeValues,
    sources: &SourceNames<'_>,
) -> Result<(), Memory>
    ensures { OnOk result (out.new.items ≡ out.old.items ++ text.decode_line held.now p.now (at values.now) (sources_in sources.now)) }
{
    put_head(
        out,
        b"D",
        held,
        at(values, row::D_STALL),
        at(values, row::D_BUBBLE),
        p.d.stat,
    )?;
    put_decode_fields(out, p)?;
    put_decode_signals(out, values)?;
    put_decode_sources(out, sources)?;
    put_tail(out, held)
}

#[tactic(auto, unfolding(crate::specs::Cycle::execute_words))]
fn put_execute_words(out: &mut Vec<u8>, p: &PipeState) -> Result<(), Memory>
    ensures { OnOk result (out.new.items ≡ out.old.items ++ text.execute_words p.now) }
{
    put_word_pair(out, b" valC ", p.e.val_c)?;
    put_word_pair(out, b" valA ", p.e.val_a)?;
    put_word_pair(out, b" valB ", p.e.val_b)
}

#[tactic(auto, unfolding(crate::specs::Cycle::execute_registers))]
fn put_execute_registers(out: &mut Vec<u8>, p: &PipeState) -> Result<(), Memory>
    ensures { OnOk result (out.new.items ≡ out.old.items ++ text.execute_registers p.now) }
{
    put_register_pair(out, b" srcA ", p.e.src_a)?;
    put_register_pair(out, b" srcB ", p.e.src_b)?;
    put_register_pair(out, b" dstE ", p.e.dst_e)?;
    put_register_pair(out, b" dstM ", p.e.dst_m)
}

#[tactic(auto, unfolding(crate::specs::Cycle::execute_operands))]
fn put_execute_operands(out: &mut Vec<u8>, values: &PipeValues) -> Result<(), Memory>
    ensures { OnOk result (out.new.items ≡ out.old.items ++ text.execute_operands (at values.now)) }
{
    put_word_pair(out, b" aluA ", at(values, row::ALU_A))?;
    put_word_pair(out, b" aluB ", at(values, row::ALU_B))?;
    put_function_pair(out, b" alufun ", at(values, row::ALUFUN))?;
    put_number_pair(out, b" set_cc ", at(values, row::SET_CC))
}

#[tactic(auto, unfolding(crate::specs::Cycle::execute_signals))]
fn put_execute_signals(out: &mut Vec<u8>, values: &PipeValues) -> Result<(), Memory>
    ensures { OnOk result (out.new.items ≡ out.old.items ++ text.execute_signals (at values.now)) }
{
    put_number_pair(out, b" e_Cnd ", at(values, row::E_CND))?;
    put_word_pair(out, b" e_valE ", at(values, row::E_VAL_E))?;
    put_register_pair(out, b" e_dstE ", at(values, row::E_DST_E))
}

#[tactic(auto, unfolding(crate::specs::Cycle::execute_line))]
fn put_execute(
    out: &mut Vec<u8>,
    held: &StageContent,
    p: &PipeState,
    values: &PipeValues,
) -> Result<(), Memory>
    ensures { OnOk result (out.new.items ≡ out.old.items ++ text.execute_line held.now p.now (at values.now)) }
{
    put_head(
        out,
        b"E",
        held,
        at(values, row::E_STALL),
        at(values, row::E_BUBBLE),
        p.e.stat,
    )?;
    put_execute_words(out, p)?;
    put_execute_registers(out, p)?;
    put_execute_operands(out, values)?;
    put_execute_signals(out, values)?;
    put_tail(out, held)
}

#[tactic(auto, unfolding(crate::specs::Cycle::memory_fields))]
fn put_memory_fields(out: &mut Vec<u8>, p: &PipeState) -> Result<(), Memory>
    ensures { OnOk result (out.new.items ≡ out.old.items ++ text.memory_fields p.now) }
{
    put_number_pair(out, b" Cnd ", p.m.cnd)?;
    put_word_pair(out, b" valE ", p.m.val_e)?;
    put_word_pair(out, b" valA ", p.m.val_a)?;
    put_register_pair(out, b" dstE ", p.m.dst_e)?;
    put_register_pair(out, b" dstM ", p.m.dst_m)
}

#[tactic(auto, unfolding(crate::specs::Cycle::memory_signals))]
fn put_memory_signals(out: &mut Vec<u8>, values: &PipeValues) -> Result<(), Memory>
    ensures { OnOk result (out.new.items ≡ out.old.items ++ text.memory_signals (at values.now)) }
{
    put_word_pair(out, b" mem_addr ", at(values, row::MEM_ADDR))?;
    put_number_pair(out, b" mem_read ", at(values, row::MEM_READ))?;
    put_number_pair(out, b" mem_write ", at(values, row::MEM_WRITE))?;
    put_word_pair(out, b" m_valM ", at(values, row::M_VAL_M))?;
    put_status_pair(out, b" m_stat ", at(values, row::M_STAT))
}

#[tactic(auto, unfolding(crate::specs::Cycle::memory_line))]
fn put_memory(
    out: &mut Vec<u8>,
    held: &StageContent,
    p: &PipeState,
    values: &PipeValues,
) -> Result<(), Memory>
    ensures { OnOk result (out.new.items ≡ out.old.items ++ text.memory_line held.now p.now (at values.now)) }
{
    put_head(
        out,
        b"M",
        held,
        at(values, row::M_STALL),
        at(values, row::M_BUBBLE),
        p.m.stat,
    )?;
    put_memory_fields(out, p)?;
    put_memory_signals(out, values)?;
    put_tail(out, held)
}

#[tactic(auto, unfolding(crate::specs::Cycle::write_fields))]
fn put_write_fields(out: &mut Vec<u8>, p: &PipeState) -> Result<(), Memory>
    ensures { OnOk result (out.new.items ≡ out.old.items ++ text.write_fields p.now) }
{
    put_word_pair(out, b" valE ", p.w.val_e)?;
    put_word_pair(out, b" valM ", p.w.val_m)?;
    put_register_pair(out, b" dstE ", p.w.dst_e)?;
    put_register_pair(out, b" dstM ", p.w.dst_m)
}

#[tactic(auto, unfolding(crate::specs::Cycle::write_line))]
fn put_write(
    out: &mut Vec<u8>,
    held: &StageContent,
    p: &PipeState,
    values: &PipeValues,
) -> Result<(), Memory>
    ensures { OnOk result (out.new.items ≡ out.old.items ++ text.write_line held.now p.now (at values.now)) }
{
    put_head(
        out,
        b"W",
        held,
        at(values, row::W_STALL),
        at(values, row::W_BUBBLE),
        p.w.stat,
    )?;
    put_write_fields(out, p)?;
    put_status_pair(out, b" Stat ", at(values, row::STAT))?;
    put_tail(out, held)
}

/// A flag as a number.
fn bit(flag: bool) -> u64
    ensures { result ≡ text.bit flag }
{
    if flag { 1 } else { 0 }
}

/// Appends the line of the flags.
#[tactic(auto, unfolding(crate::specs::Cycle::flags_line))]
pub fn put_flags(out: &mut Vec<u8>, flags: Flags) -> Result<(), Memory>
    ensures { OnOk result (out.new.items ≡ out.old.items ++ text.flags_line flags) }
{
    put_number_pair(out, b"flags ZF ", bit(flags.zf))?;
    put_number_pair(out, b" SF ", bit(flags.sf))?;
    put_number_pair(out, b" OF ", bit(flags.of))?;
    put(out, b"\n")
}

/// Appends the line of a register that is written; none for a number that no register has.
#[tactic(auto, unfolding(crate::specs::Cycle::register_lines))]
fn put_written(out: &mut Vec<u8>, register: u64, word: u64) -> Result<(), Memory>
    ensures { OnOk result (out.new.items ≡ out.old.items ++ text.register_lines (text.written register word)) }
{
    if register >= NO_REGISTER {
        return Ok(());
    }
    put_register_pair(out, b"write ", register)?;
    put_word_pair(out, b" ", word)?;
    put(out, b"\n")
}

/// Appends the lines of the registers that are written, if `done` is true.
pub fn put_writes(
    out: &mut Vec<u8>,
    done: bool,
    dst_e: u64,
    val_e: u64,
    dst_m: u64,
    val_m: u64,
) -> Result<(), Memory>
    ensures { OnOk result (out.new.items ≡ out.old.items ++ text.register_lines (text.writes done dst_e val_e dst_m val_m)) }
{
    if !done {
        return Ok(());
    }
    put_written(out, dst_e, val_e)?;
    put_written(out, dst_m, val_m)
}

/// Appends the lines of the registers that are written at the end of the cycle.
#[tactic(auto, unfolding(crate::specs::Cycle::told_writes))]
fn put_registers(out: &mut Vec<u8>, p: &PipeState, values: &PipeValues) -> Result<(), Memory>
    ensures { OnOk result (out.new.items ≡ out.old.items ++ text.register_lines (text.told_writes p.now (at values.now))) }
{
    put_writes(
        out,
        p.w.stat == AOK,
        at(values, row::W_DST_E),
        at(values, row::W_VAL_E),
        at(values, row::W_DST_M),
        at(values, row::W_VAL_M),
    )
}

/// The store at the end of the cycle.
fn store_of(p: &PipeState, values: &PipeValues) -> Option<Store>
    ensures { result ≡ text.told_store p.now (at values.now) }
{
    data_store(
        at(values, row::MEM_ADDR),
        p.m.val_a,
        at(values, row::MEM_WRITE) != 0,
        at(values, row::DMEM_ERROR) != 0,
    )
}

/// Appends the line of a store.
#[tactic(auto, unfolding(crate::specs::Cycle::store_line))]
pub fn put_stored(out: &mut Vec<u8>, store: Option<Store>) -> Result<(), Memory>
    ensures { OnOk result (out.new.items ≡ out.old.items ++ text.store_line store) }
{
    match store {
        None => Ok(()),
        Some(store) => {
            put(out, b"store ")?;
            put_address(out, store.addr)?;
            put_word_pair(out, b" ", store.word)?;
            put(out, b"\n")
        }
    }
}

/// Appends the lines of the stages.
#[tactic(auto, unfolding(crate::specs::Cycle::stage_lines))]
fn put_stages(
    out: &mut Vec<u8>,
    cycle: &WatchedCycle<'_>,
    sources: &SourceNames<'_>,
) -> Result<(), Memory>
    ensures { OnOk result (out.new.items ≡ out.old.items
        ++ text.stage_lines cycle.now.watch.now cycle.now.fetch.now cycle.now.state.now (at cycle.now.values.now) (sources_in sources.now)) }
{
    let watch = cycle.watch;
    let p = cycle.state;
    let values = cycle.values;
    put_fetch(out, cycle.fetch, p, values, sources)?;
    put_decode(out, &watch.d, p, values, sources)?;
    put_execute(out, &watch.e, p, values)?;
    put_memory(out, &watch.m, p, values)?;
    put_write(out, &watch.w, p, values)
}

/// Appends the lines of a cycle.
#[tactic(auto, unfolding(crate::specs::Cycle::cycle_text))]
pub(crate) fn put_cycle(
    out: &mut Vec<u8>,
    cycle: &WatchedCycle<'_>,
    sources: &SourceNames<'_>,
) -> Result<(), Memory>
    ensures { OnOk result (out.new.items ≡ out.old.items
        ++ text.cycle_text cycle.now.number cycle.now.watch.now cycle.now.fetch.now cycle.now.state.now (at cycle.now.values.now) (sources_in sources.now)) }
{
    put_number_pair(out, b"cycle ", cycle.number)?;
    put(out, b"\n")?;
    put_stages(out, cycle, sources)?;
    put_flags(out, cycle.state.flags)?;
    put_registers(out, cycle.state, cycle.values)?;
    put_stored(out, store_of(cycle.state, cycle.values))
}

/// Appends the line of the end of a run.
#[tactic(auto, unfolding(crate::specs::Cycle::end_line))]
pub fn put_end(out: &mut Vec<u8>, end: Stat, cycles: u64, retired: u64) -> Result<(), Memory>
    ensures { OnOk result (out.new.items ≡ out.old.items ++ text.end_line end cycles retired) }
{
    put(out, b"end ")?;
    put(out, end.name())?;
    put_number_pair(out, b" cycles ", cycles)?;
    put_number_pair(out, b" retired ", retired)?;
    put(out, b"\n")
}
