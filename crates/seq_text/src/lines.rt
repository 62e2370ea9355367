//! The lines of one cycle.
ghost use Rattle.std.specs.Prelude.{◌≡◌, ◌++◌, OnOk};
ghost use Rattle.seq_text.specs.Lines as text;
ghost use Rattle.seq_text.specs.Signals.{sources_in};
ghost use Rattle.pipe_stage_text.specs.Cycle.{register_lines};

use crate::signals::{Signals, Sources};
use pipe_stage_text::{
    StageContent, put_address, put_flags, put_function_pair, put_instruction, put_number_pair,
    put_register_pair, put_status_pair, put_stored, put_text_pair, put_word_pair, put_writes,
};
use seq_plus::PreviousInstruction;
use y86_base::{Flags, Memory, put};
use y86_isa::{Store, data_store};

const AOK: u64 = 1;

/// The instruction of a cycle.
fn held(s: &Signals) -> StageContent
    ensures { result ≡ text.held s.now }
{
    StageContent {
        row: 0,
        live: true,
        failed: s.imem_error != 0,
        addr: s.pc,
        icode: s.icode,
        ifun: s.ifun,
        r_a: s.r_a,
        r_b: s.r_b,
        val_c: s.val_c,
    }
}

#[tactic(auto, unfolding(crate::specs::Lines::fetch_codes))]
fn put_fetch_codes(out: &mut Vec<u8>, s: &Signals) -> Result<(), Memory>
    ensures { OnOk result (out.new.items ≡ out.old.items ++ text.fetch_codes s.now) }
{
    put_number_pair(out, b" icode ", s.icode)?;
    put_number_pair(out, b" ifun ", s.ifun)
}

#[tactic(auto, unfolding(crate::specs::Lines::fetch_read))]
fn put_fetch_read(out: &mut Vec<u8>, s: &Signals) -> Result<(), Memory>
    ensures { OnOk result (out.new.items ≡ out.old.items ++ text.fetch_read s.now) }
{
    put_number_pair(out, b" imem_icode ", s.imem_icode)?;
    put_number_pair(out, b" imem_ifun ", s.imem_ifun)?;
    put_number_pair(out, b" imem_error ", s.imem_error)
}

#[tactic(auto, unfolding(crate::specs::Lines::fetch_needs))]
fn put_fetch_needs(out: &mut Vec<u8>, s: &Signals) -> Result<(), Memory>
    ensures { OnOk result (out.new.items ≡ out.old.items ++ text.fetch_needs s.now) }
{
    put_number_pair(out, b" instr_valid ", s.instr_valid)?;
    put_number_pair(out, b" need_regids ", s.need_regids)?;
    put_number_pair(out, b" need_valC ", s.need_val_c)
}

#[tactic(auto, unfolding(crate::specs::Lines::fetch_fields))]
fn put_fetch_fields(out: &mut Vec<u8>, s: &Signals) -> Result<(), Memory>
    ensures { OnOk result (out.new.items ≡ out.old.items ++ text.fetch_fields s.now) }
{
    put_register_pair(out, b" rA ", s.r_a)?;
    put_register_pair(out, b" rB ", s.r_b)?;
    put_word_pair(out, b" valC ", s.val_c)?;
    put_word_pair(out, b" valP ", s.val_p)
}

#[tactic(auto, unfolding(crate::specs::Lines::fetch_place))]
fn put_fetch_place(out: &mut Vec<u8>, s: &Signals) -> Result<(), Memory>
    ensures { OnOk result (out.new.items ≡ out.old.items ++ text.fetch_place s.now) }
{
    put(out, b"F at ")?;
    put_address(out, s.pc)
}

#[tactic(auto, unfolding(crate::specs::Lines::fetch_text))]
fn put_fetch_text(out: &mut Vec<u8>, s: &Signals) -> Result<(), Memory>
    ensures { OnOk result (out.new.items ≡ out.old.items ++ text.fetch_text s.now) }
{
    put(out, b" | ")?;
    put_instruction(out, &held(s))?;
    put(out, b"\n")
}

#[tactic(auto, unfolding(crate::specs::Lines::fetch_line))]
fn put_fetch(out: &mut Vec<u8>, s: &Signals) -> Result<(), Memory>
    ensures { OnOk result (out.new.items ≡ out.old.items ++ text.fetch_line s.now) }
{
    put_fetch_place(out, s)?;
    put_fetch_codes(out, s)?;
    put_fetch_read(out, s)?;
    put_fetch_needs(out, s)?;
    put_fetch_fields(out, s)?;
    put_fetch_text(out, s)
}

#[tactic(auto, unfolding(crate::specs::Lines::decode_line))]
fn put_decode(out: &mut Vec<u8>, s: &Signals) -> Result<(), Memory>
    ensures { OnOk result (out.new.items ≡ out.old.items ++ text.decode_line s.now) }
{
    put_register_pair(out, b"D srcA ", s.src_a)?;
    put_register_pair(out, b" srcB ", s.src_b)?;
    put_word_pair(out, b" valA ", s.val_a)?;
    put_word_pair(out, b" valB ", s.val_b)?;
    put(out, b"\n")
}

#[tactic(auto, unfolding(crate::specs::Lines::execute_signals))]
fn put_execute_signals(out: &mut Vec<u8>, s: &Signals) -> Result<(), Memory>
    ensures { OnOk result (out.new.items ≡ out.old.items ++ text.execute_signals s.now) }
{
    put_word_pair(out, b"E aluA ", s.alu_a)?;
    put_word_pair(out, b" aluB ", s.alu_b)?;
    put_function_pair(out, b" alufun ", s.alufun)?;
    put_number_pair(out, b" set_cc ", s.set_cc)?;
    put_word_pair(out, b" valE ", s.val_e)?;
    put_number_pair(out, b" Cnd ", s.cnd)
}

fn put_execute_sources(out: &mut Vec<u8>, sources: &Sources<'_>) -> Result<(), Memory>
    ensures { OnOk result (out.new.items ≡ out.old.items ++ text.execute_sources (sources_in sources.now)) }
{
    put_text_pair(out, b" aluA_from ", sources.alu_a)?;
    put_text_pair(out, b" aluB_from ", sources.alu_b)
}

#[tactic(auto, unfolding(crate::specs::Lines::execute_line))]
fn put_execute(out: &mut Vec<u8>, s: &Signals, sources: &Sources<'_>) -> Result<(), Memory>
    ensures { OnOk result (out.new.items ≡ out.old.items ++ text.execute_line s.now (sources_in sources.now)) }
{
    put_execute_signals(out, s)?;
    put_execute_sources(out, sources)?;
    put(out, b"\n")
}

#[tactic(auto, unfolding(crate::specs::Lines::memory_access))]
fn put_memory_access(out: &mut Vec<u8>, s: &Signals) -> Result<(), Memory>
    ensures { OnOk result (out.new.items ≡ out.old.items ++ text.memory_access s.now) }
{
    put_word_pair(out, b"M mem_addr ", s.mem_addr)?;
    put_number_pair(out, b" mem_read ", s.mem_read)?;
    put_number_pair(out, b" mem_write ", s.mem_write)?;
    put_word_pair(out, b" mem_data ", s.mem_data)
}

#[tactic(auto, unfolding(crate::specs::Lines::memory_signals))]
fn put_memory_signals(out: &mut Vec<u8>, s: &Signals) -> Result<(), Memory>
    ensures { OnOk result (out.new.items ≡ out.old.items ++ text.memory_signals s.now) }
{
    put_word_pair(out, b" valM ", s.val_m)?;
    put_number_pair(out, b" dmem_error ", s.dmem_error)?;
    put_status_pair(out, b" Stat ", s.stat)
}

fn put_memory_sources(out: &mut Vec<u8>, sources: &Sources<'_>) -> Result<(), Memory>
    ensures { OnOk result (out.new.items ≡ out.old.items ++ text.memory_sources (sources_in sources.now)) }
{
    put_text_pair(out, b" mem_addr_from ", sources.mem_addr)?;
    put_text_pair(out, b" mem_data_from ", sources.mem_data)
}

#[tactic(auto, unfolding(crate::specs::Lines::memory_line))]
fn put_memory(out: &mut Vec<u8>, s: &Signals, sources: &Sources<'_>) -> Result<(), Memory>
    ensures { OnOk result (out.new.items ≡ out.old.items ++ text.memory_line s.now (sources_in sources.now)) }
{
    put_memory_access(out, s)?;
    put_memory_signals(out, s)?;
    put_memory_sources(out, sources)?;
    put(out, b"\n")
}

#[tactic(auto, unfolding(crate::specs::Lines::write_line))]
fn put_write(out: &mut Vec<u8>, s: &Signals) -> Result<(), Memory>
    ensures { OnOk result (out.new.items ≡ out.old.items ++ text.write_line s.now) }
{
    put_register_pair(out, b"W dstE ", s.dst_e)?;
    put_register_pair(out, b" dstM ", s.dst_m)?;
    put(out, b"\n")
}

/// Puts the lines of the five stages.
#[tactic(auto, unfolding(crate::specs::Lines::stage_lines))]
pub(crate) fn put_stages(
    out: &mut Vec<u8>,
    s: &Signals,
    sources: &Sources<'_>,
) -> Result<(), Memory>
    ensures { OnOk result (out.new.items ≡ out.old.items ++ text.stage_lines s.now (sources_in sources.now)) }
{
    put_fetch(out, s)?;
    put_decode(out, s)?;
    put_execute(out, s, sources)?;
    put_memory(out, s, sources)?;
    put_write(out, s)
}

/// Puts the source of the PC, after a key.
fn put_pc_source(out: &mut Vec<u8>, key: &[u8], sources: &Sources<'_>) -> Result<(), Memory>
    ensures { OnOk result (out.new.items ≡ out.old.items ++ text.pc_source key.now (sources_in sources.now)) }
{
    put_text_pair(out, key, sources.pc)
}

/// Puts the line of SEQ's PC update.
#[tactic(auto, unfolding(crate::specs::Lines::update_line))]
pub(crate) fn put_update(
    out: &mut Vec<u8>,
    new_pc: u64,
    sources: &Sources<'_>,
) -> Result<(), Memory>
    ensures { OnOk result (out.new.items ≡ out.old.items ++ text.update_line new_pc (sources_in sources.now)) }
{
    put_word_pair(out, b"P new_pc ", new_pc)?;
    put_pc_source(out, b" new_pc_from ", sources)?;
    put(out, b"\n")
}

#[tactic(auto, unfolding(crate::specs::Lines::previous_words))]
fn put_previous(out: &mut Vec<u8>, p: PreviousInstruction) -> Result<(), Memory>
    ensures { OnOk result (out.new.items ≡ out.old.items ++ text.previous_words p) }
{
    put_number_pair(out, b"P pIcode ", p.icode)?;
    put_number_pair(out, b" pCnd ", p.cnd)?;
    put_word_pair(out, b" pValM ", p.val_m)?;
    put_word_pair(out, b" pValC ", p.val_c)?;
    put_word_pair(out, b" pValP ", p.val_p)
}

/// Puts the line of SEQ+'s PC, which it computes from the values that the previous instruction left.
#[tactic(auto, unfolding(crate::specs::Lines::choice_line))]
pub(crate) fn put_choice(
    out: &mut Vec<u8>,
    p: PreviousInstruction,
    pc: u64,
    sources: &Sources<'_>,
) -> Result<(), Memory>
    ensures { OnOk result (out.new.items ≡ out.old.items ++ text.choice_line p pc (sources_in sources.now)) }
{
    put_previous(out, p)?;
    put_word_pair(out, b" pc ", pc)?;
    put_pc_source(out, b" pc_from ", sources)?;
    put(out, b"\n")
}

/// Puts the lines of the registers that are written.
#[tactic(auto, unfolding(crate::specs::Lines::told_writes))]
fn put_registers(out: &mut Vec<u8>, s: &Signals) -> Result<(), Memory>
    ensures { OnOk result (out.new.items ≡ out.old.items ++ register_lines (text.told_writes s.now)) }
{
    put_writes(out, s.stat == AOK, s.dst_e, s.val_e, s.dst_m, s.val_m)
}

/// The store at the end of the cycle, if there is one.
#[tactic(auto, unfolding(crate::specs::Lines::told_store))]
fn store_of(s: &Signals) -> Option<Store>
    ensures { result ≡ text.told_store s.now }
{
    if s.stat != AOK {
        return None;
    }
    data_store(s.mem_addr, s.mem_data, s.mem_write != 0, s.dmem_error != 0)
}

/// Puts the lines of the flags as the cycle begins, and of the changes at its end.
#[tactic(auto, unfolding(crate::specs::Lines::state_lines))]
pub(crate) fn put_state(out: &mut Vec<u8>, flags: Flags, s: &Signals) -> Result<(), Memory>
    ensures { OnOk result (out.new.items ≡ out.old.items ++ text.state_lines flags s.now) }
{
    put_flags(out, flags)?;
    put_registers(out, s)?;
    put_stored(out, store_of(s))
}
