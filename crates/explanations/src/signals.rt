//! The signals in sentences: the stage of each, and what it is for.
ghost use Rattle.std.specs.Prelude.{◌≡◌, IfSome};

/// A signal in sentences.
#[derive(Clone, Copy, Debug)]
pub struct Signal {
    pub name: &'static str,
    pub meaning: &'static str,
}

/// A signal and its stage.
#[derive(Clone, Copy, Debug)]
pub struct Staged {
    pub stage: &'static str,
    pub signal: &'static Signal,
}

/// The signals of PIPE: fetch.
static PIPE_FETCH: &[Signal] = &[
    Signal {
        name: "f_pc",
        meaning: "The address that is fetched: `F_predPC`, unless an older instruction goes on elsewhere.",
    },
    Signal {
        name: "f_icode",
        meaning: "The instruction code, as fetched. A failed fetch counts as a `nop`.",
    },
    Signal {
        name: "f_ifun",
        meaning: "The instruction function, as fetched. A failed fetch counts as a `nop`.",
    },
    Signal {
        name: "instr_valid",
        meaning: "Whether there is such an instruction. Only the file's own status signal reads it.",
    },
    Signal {
        name: "f_stat",
        meaning: "The status that the instruction takes along: `SADR` for a failed fetch, `SINS`, `SHLT`, or `SAOK`.",
    },
    Signal {
        name: "need_regids",
        meaning: "Whether the instruction has a register byte. Its constant and the next address depend on it.",
    },
    Signal {
        name: "need_valC",
        meaning: "Whether the instruction has a constant. The constant and the next address depend on it.",
    },
    Signal {
        name: "f_predPC",
        meaning: "The predicted next PC, which F holds in the next cycle.",
    },
    Signal {
        name: "imem_icode",
        meaning: "The instruction code that instruction memory reads at `f_pc`.",
    },
    Signal {
        name: "imem_ifun",
        meaning: "The instruction function that instruction memory reads at `f_pc`.",
    },
    Signal {
        name: "imem_error",
        meaning: "Whether the fetch failed.",
    },
    Signal {
        name: "f_valC",
        meaning: "The constant of the fetched instruction.",
    },
    Signal {
        name: "f_valP",
        meaning: "The address after the fetched instruction.",
    },
];

/// The signals of PIPE: decode.
static PIPE_DECODE: &[Signal] = &[
    Signal {
        name: "d_srcA",
        meaning: "The register that is read as valA, or `RNONE`. Forwarding and stalls compare it with older destinations.",
    },
    Signal {
        name: "d_srcB",
        meaning: "The register that is read as valB, or `RNONE`. Forwarding and stalls compare it with older destinations.",
    },
    Signal {
        name: "d_dstE",
        meaning: "The register that valE will be written to, or `RNONE`. It travels with the instruction.",
    },
    Signal {
        name: "d_dstM",
        meaning: "The register that valM will be written to, or `RNONE`. It travels with the instruction.",
    },
    Signal {
        name: "d_valA",
        meaning: "The word of `d_srcA` after all older instructions, by forwarding. For a `call` and a jump it is `D_valP`.",
    },
    Signal {
        name: "d_valB",
        meaning: "The word of `d_srcB` after all older instructions, by forwarding.",
    },
    Signal {
        name: "d_rvalA",
        meaning: "The word of `d_srcA` in the register file.",
    },
    Signal {
        name: "d_rvalB",
        meaning: "The word of `d_srcB` in the register file.",
    },
];

/// The signals of PIPE: execute.
static PIPE_EXECUTE: &[Signal] = &[
    Signal {
        name: "aluA",
        meaning: "The first operand of the ALU, whose result is `aluB` op `aluA`.",
    },
    Signal {
        name: "aluB",
        meaning: "The second operand of the ALU, whose result is `aluB` op `aluA`.",
    },
    Signal {
        name: "alufun",
        meaning: "The function of the ALU: the ifun of an OPq, and `ALUADD` for all others.",
    },
    Signal {
        name: "set_cc",
        meaning: "Whether the flags are set: for an OPq. In PIPE, not if an older instruction in M or W stops the machine.",
    },
    Signal {
        name: "e_valA",
        meaning: "The valA that goes on to M: `E_valA`, or with load forwarding `m_valM`.",
    },
    Signal {
        name: "e_dstE",
        meaning: "The destination after the condition: `RNONE` for a conditional move whose `e_Cnd` is 0, and `E_dstE` otherwise.",
    },
    Signal {
        name: "e_valE",
        meaning: "The result of the ALU.",
    },
    Signal {
        name: "e_Cnd",
        meaning: "Whether the condition of a jump or a conditional move in E holds.",
    },
];

/// The signals of PIPE: memory.
static PIPE_MEMORY: &[Signal] = &[
    Signal {
        name: "mem_addr",
        meaning: "The address that is read or written.",
    },
    Signal {
        name: "mem_read",
        meaning: "Whether memory is read.",
    },
    Signal {
        name: "mem_write",
        meaning: "Whether memory is written. In PIPE the word is `M_valA`.",
    },
    Signal {
        name: "m_stat",
        meaning: "The status after the access: `SADR` if `dmem_error` is 1, and `M_stat` otherwise.",
    },
    Signal {
        name: "m_valM",
        meaning: "The word that is read from memory.",
    },
    Signal {
        name: "dmem_error",
        meaning: "Whether the access to memory failed.",
    },
];

/// The signals of PIPE: write-back.
static PIPE_WRITE_BACK: &[Signal] = &[
    Signal {
        name: "w_dstE",
        meaning: "The register that `w_valE` is written to.",
    },
    Signal {
        name: "w_valE",
        meaning: "The word that is written to `w_dstE`.",
    },
    Signal {
        name: "w_dstM",
        meaning: "The register that `w_valM` is written to.",
    },
    Signal {
        name: "w_valM",
        meaning: "The word that is written to `w_dstM`.",
    },
    Signal {
        name: "Stat",
        meaning: "The status of the machine. In PIPE it is that of the instruction in W, and `SAOK` for a bubble.",
    },
];

/// The signals of PIPE: pipeline control.
static PIPE_PIPELINE_CONTROL: &[Signal] = &[
    Signal {
        name: "F_stall",
        meaning: "F keeps its predicted PC: while D is stalled, and while a `ret` is in the pipeline.",
    },
    Signal {
        name: "F_bubble",
        meaning: "0 in every design of the book.",
    },
    Signal {
        name: "D_stall",
        meaning: "D keeps its instruction: it needs a word that E has still to load.",
    },
    Signal {
        name: "D_bubble",
        meaning: "The fetched instruction is cancelled: after a mispredicted jump, and while a `ret` is in the pipeline.",
    },
    Signal {
        name: "E_stall",
        meaning: "0 in every design of the book.",
    },
    Signal {
        name: "E_bubble",
        meaning: "The instruction in D doesn't go on to E: after a mispredicted jump, and while D is stalled.",
    },
    Signal {
        name: "M_stall",
        meaning: "0 in every design of the book.",
    },
    Signal {
        name: "M_bubble",
        meaning: "The instruction in E doesn't go on to M: after an instruction that stops the machine.",
    },
    Signal {
        name: "W_stall",
        meaning: "The instruction that stops the machine stays in W.",
    },
    Signal {
        name: "W_bubble",
        meaning: "0 in every design of the book.",
    },
];

/// The signals of SEQ and SEQ+: fetch.
static SEQ_FETCH: &[Signal] = &[
    Signal {
        name: "pc",
        meaning: "The address of the instruction. SEQ+ computes it from the instruction before.",
    },
    Signal {
        name: "icode",
        meaning: "The instruction code, as read. A failed fetch counts as a `nop`.",
    },
    Signal {
        name: "ifun",
        meaning: "The instruction function, as read. A failed fetch counts as a `nop`.",
    },
    Signal {
        name: "valC",
        meaning: "The constant of the instruction.",
    },
    Signal {
        name: "valP",
        meaning: "The address after the instruction.",
    },
    Signal {
        name: "rA",
        meaning: "The first register of the register byte, or 15.",
    },
    Signal {
        name: "rB",
        meaning: "The second register of the register byte, or 15.",
    },
    Signal {
        name: "pIcode",
        meaning: "The instruction code of the instruction before.",
    },
    Signal {
        name: "pCnd",
        meaning: "Whether the condition of the instruction before held.",
    },
    Signal {
        name: "pValC",
        meaning: "The constant of the instruction before.",
    },
    Signal {
        name: "pValM",
        meaning: "The word that the instruction before read from memory.",
    },
    Signal {
        name: "pValP",
        meaning: "The address after the instruction before.",
    },
];

/// The signals of SEQ and SEQ+: decode.
static SEQ_DECODE: &[Signal] = &[
    Signal {
        name: "srcA",
        meaning: "The register that is read as valA, or `RNONE`.",
    },
    Signal {
        name: "srcB",
        meaning: "The register that is read as valB, or `RNONE`.",
    },
    Signal {
        name: "valA",
        meaning: "The word of `srcA` in the register file.",
    },
    Signal {
        name: "valB",
        meaning: "The word of `srcB` in the register file.",
    },
];

/// The signals of SEQ and SEQ+: write-back.
static SEQ_WRITE_BACK: &[Signal] = &[
    Signal {
        name: "dstE",
        meaning: "The register that valE is written to, or `RNONE`. For a conditional move only if `Cnd` is 1.",
    },
    Signal {
        name: "dstM",
        meaning: "The register that valM is written to, or `RNONE`.",
    },
];

/// The signals of SEQ and SEQ+: memory.
static SEQ_MEMORY: &[Signal] = &[
    Signal {
        name: "mem_data",
        meaning: "The word that is written: `valA`, or `valP` for a `call`.",
    },
    Signal {
        name: "valM",
        meaning: "The word that is read from memory.",
    },
];

/// The signals of SEQ and SEQ+: PC update.
static SEQ_PC_UPDATE: &[Signal] = &[Signal {
    name: "new_pc",
    meaning: "The next PC: `valC` for a `call` and a jump that is taken, `valM` for a `ret`, and `valP` for all others.",
}];

/// The signals of SEQ and SEQ+: execute.
static SEQ_EXECUTE: &[Signal] = &[
    Signal {
        name: "valE",
        meaning: "The result of the ALU.",
    },
    Signal {
        name: "Cnd",
        meaning: "Whether the condition of a jump or a conditional move holds.",
    },
];

/// The signal of a stage with this name.
fn find(stage: &'static str, signals: &'static [Signal], name: &str) -> Option<Staged>
    ensures { IfSome result (λ found. found.signal.now.name.now ≡ name.now) }
{
    for signal in signals {
        if signal.name == name {
            return Some(Staged { stage, signal });
        }
    }
    None
}

/// The number of groups of signals.
pub const GROUP_COUNT: usize = 12;

/// A group of signals: its stage, and the signals. The first six groups are PIPE's; the others have the signals that
/// only SEQ or SEQ+ has.
pub fn signal_group(number: usize) -> (&'static str, &'static [Signal]) {
    match number {
        0 => ("fetch", PIPE_FETCH),
        1 => ("decode", PIPE_DECODE),
        2 => ("execute", PIPE_EXECUTE),
        3 => ("memory", PIPE_MEMORY),
        4 => ("write-back", PIPE_WRITE_BACK),
        5 => ("pipeline control", PIPE_PIPELINE_CONTROL),
        6 => ("fetch", SEQ_FETCH),
        7 => ("decode", SEQ_DECODE),
        8 => ("write-back", SEQ_WRITE_BACK),
        9 => ("memory", SEQ_MEMORY),
        10 => ("PC update", SEQ_PC_UPDATE),
        11 => ("execute", SEQ_EXECUTE),
        _ => ("", &[]),
    }
}

/// The signal with this name that a file defines or a hardware block computes. Fields of pipeline registers have no
/// entry.
pub fn signal_named(name: &str) -> Option<Staged>
    ensures { IfSome result (λ found. found.signal.now.name.now ≡ name.now) }
{
    for number in 0..GROUP_COUNT {
        let (stage, signals) = signal_group(number);
        if let Some(found) = find(stage, signals, name) {
            return Some(found);
        }
    }
    None
}
