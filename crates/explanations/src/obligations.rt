//! The obligations in sentences: what each demands, and why.
use hcl_types::Datapath;

/// An obligation in sentences. Names of signals are between backticks.
#[derive(Clone, Copy, Debug)]
pub struct Obligation {
    pub label: &'static str,
    /// What kind of work it is about; a rubric may name it.
    pub group: &'static str,
    /// What it is about, in a few words.
    pub brief: &'static str,
    /// The signals that it is about, separated by blanks.
    pub signals: &'static str,
    pub demand: &'static str,
    pub reason: &'static str,
    /// Where CS:APP 3e explains it.
    pub book: &'static str,
}

/// The obligations of PIPE on fetch: O1 to O5.
static FETCH: &[Obligation] = &[
    Obligation {
        label: "O1",
        group: "fetch",
        brief: "the instruction and its function are those that were fetched",
        signals: "f_icode f_ifun",
        demand: "`f_icode` is `imem_icode`, and `f_ifun` is `imem_ifun`.",
        reason: "Everything after the fetch depends on these two numbers.",
        book: "section 4.5.7 (PC selection and fetch)",
    },
    Obligation {
        label: "O2",
        group: "fetch",
        brief: "the status that the instruction takes along",
        signals: "f_stat",
        demand: "`f_stat` is 3 (ADR) if the fetch failed. Otherwise it is 4 (INS) for an invalid instruction, 2 (HLT) for `halt`, and 1 (AOK) for all others.",
        reason: "This status travels with the instruction, and decides whether the machine stops.",
        book: "sections 4.5.6 and 4.5.7",
    },
    Obligation {
        label: "O3",
        group: "fetch",
        brief: "whether there is a register byte",
        signals: "need_regids",
        demand: "`need_regids` is 1 exactly if the instruction has a register byte.",
        reason: "Without that byte, valC and valP are taken one byte too early, and rA and rB are lost.",
        book: "sections 4.3.4 (fetch stage) and 4.5.7",
    },
    Obligation {
        label: "O4",
        group: "fetch",
        brief: "whether there is a constant",
        signals: "need_valC",
        demand: "`need_valC` is 1 exactly if the instruction has a constant.",
        reason: "Without the constant, valC is 0, and valP points into the constant.",
        book: "sections 4.3.4 (fetch stage) and 4.5.7",
    },
    Obligation {
        label: "O5",
        group: "fetch",
        brief: "the predicted PC, as the file predicts jumps",
        signals: "f_predPC",
        demand: "`f_predPC` is the predicted PC: valC for a `call`, valC or valP for a jump as the file predicts it (`pt` and `pb`), and valP for all others. For `halt`, `ret`, an invalid instruction and a failed fetch it may be anything.",
        reason: "The next fetch goes there. A wrong prediction is repaired only for jumps, so it must be right for all others.",
        book: "section 4.5.4 (next PC prediction)",
    },
];

/// The obligations of PIPE on decode: O6 to O11.
static DECODE: &[Obligation] = &[
    Obligation {
        label: "O6",
        group: "decode and forwarding",
        brief: "the register that valA is read from",
        signals: "d_srcA",
        demand: "`d_srcA` is the register that the instruction in D reads as valA, and 15 (RNONE) if it reads none. This applies to bubbles and to instructions on the wrong path too.",
        reason: "Otherwise valA would be the word of another register.",
        book: "sections 4.3.4 and 4.5.7 (decode and write-back)",
    },
    Obligation {
        label: "O7",
        group: "decode and forwarding",
        brief: "the register that valB is read from",
        signals: "d_srcB",
        demand: "`d_srcB` is the register that the instruction in D reads as valB, and 15 (RNONE) if it reads none. This applies to bubbles and to instructions on the wrong path too.",
        reason: "Otherwise valB would be the word of another register.",
        book: "sections 4.3.4 and 4.5.7 (decode and write-back)",
    },
    Obligation {
        label: "O8",
        group: "decode and forwarding",
        brief: "the register that valE is written to",
        signals: "d_dstE",
        demand: "`d_dstE` is the register that valE is written to, and 15 (RNONE) if there is none. For a conditional move it is rB, whether or not the condition holds. This applies to bubbles and to instructions on the wrong path too.",
        reason: "Otherwise the result would go to another register, or get lost. A bubble that writes a register is no bubble.",
        book: "sections 4.3.4 and 4.5.7 (decode and write-back)",
    },
    Obligation {
        label: "O9",
        group: "decode and forwarding",
        brief: "the register that valM is written to",
        signals: "d_dstM",
        demand: "`d_dstM` is the register that valM is written to, and 15 (RNONE) if there is none. This applies to bubbles and to instructions on the wrong path too.",
        reason: "Otherwise the loaded word would go to another register, or get lost.",
        book: "sections 4.3.4 and 4.5.7 (decode and write-back)",
    },
    Obligation {
        label: "O10",
        group: "decode and forwarding",
        brief: "valA is the newest word of its register; an instruction that has to wait for it waits",
        signals: "d_valA D_stall E_stall E_bubble",
        demand: "When an instruction of the program leaves D, `d_valA` is the newest word of the register `d_srcA`, unless that is 15 (RNONE). This is the word of the youngest older instruction that writes the register: `e_valE`, `m_valM`, `M_valE`, `W_valM` or `W_valE`, in this order, and `d_rvalA` if there is none. For a jump or a `call`, `d_valA` is valP. While the instruction in E is still loading the register, no choice is right: the instruction in D must wait. With load forwarding (`lf`), a store or push needn't wait for the word that it stores.",
        reason: "This is forwarding: the register file doesn't have the newest words yet.",
        book: "sections 4.5.5 (pipeline hazards) and 4.5.7 (decode and write-back)",
    },
    Obligation {
        label: "O11",
        group: "decode and forwarding",
        brief: "valB is the newest word of its register; an instruction that has to wait for it waits",
        signals: "d_valB D_stall E_stall E_bubble",
        demand: "When an instruction of the program leaves D, `d_valB` is the newest word of the register `d_srcB`, unless that is 15 (RNONE). This is the word of the youngest older instruction that writes the register: `e_valE`, `m_valM`, `M_valE`, `W_valM` or `W_valE`, in this order, and `d_rvalB` if there is none. While the instruction in E is still loading the register, the instruction in D must wait. A store or push has no exception here.",
        reason: "This is forwarding: the register file doesn't have the newest words yet.",
        book: "sections 4.5.5 (pipeline hazards) and 4.5.7 (decode and write-back)",
    },
];

/// The obligations of PIPE on execute: O12 to O17.
static EXECUTE: &[Obligation] = &[
    Obligation {
        label: "O12",
        group: "execute",
        brief: "the ALU's first operand",
        signals: "aluA",
        demand: "For an instruction of the program in E with status AOK that uses the ALU, `aluA` is its first operand: valA, valC, -8 or 8.",
        reason: "Otherwise the ALU would work on another word.",
        book: "sections 4.3.4 (execute stage) and 4.5.7",
    },
    Obligation {
        label: "O13",
        group: "execute",
        brief: "the ALU's second operand",
        signals: "aluB",
        demand: "For an instruction of the program in E with status AOK that uses the ALU, `aluB` is its second operand: 0 or valB.",
        reason: "Otherwise the ALU would work on another word.",
        book: "sections 4.3.4 (execute stage) and 4.5.7",
    },
    Obligation {
        label: "O14",
        group: "execute",
        brief: "the ALU's function",
        signals: "alufun",
        demand: "For an instruction of the program in E with status AOK, `alufun` is the ifun of an OPq, and 0 (addition) for all others that use the ALU.",
        reason: "Otherwise the ALU would compute something else.",
        book: "sections 4.3.4 (execute stage) and 4.5.7",
    },
    Obligation {
        label: "O15",
        group: "execute",
        brief: "the flags are set by what the program does, and by nothing else",
        signals: "set_cc",
        demand: "`set_cc` is 1 exactly if E has an instruction of the program with status AOK that sets the flags. This applies to cycles that stop the machine too.",
        reason: "An instruction on the wrong path, or after one that stops the machine, must not change the flags.",
        book: "sections 4.5.6 (exception handling) and 4.5.7",
    },
    Obligation {
        label: "O16",
        group: "execute",
        brief: "valA goes on to memory",
        signals: "e_valA",
        demand: "For an instruction of the program in E that needs valA in M, `e_valA` is `E_valA`: the word of a store or push, the address of a `popq` or `ret`, or valP of a `call` or a jump. With load forwarding (`lf`), `e_valA` is `m_valM` for a store or push whose word the instruction in M loads.",
        reason: "Otherwise M would store another word or read at another address, or a mispredicted jump would go on elsewhere.",
        book: "section 4.5.7 (execute)",
    },
    Obligation {
        label: "O17",
        group: "execute",
        brief: "a conditional move is done if its condition holds",
        signals: "e_dstE",
        demand: "For an instruction of the program in E, and for a bubble, `e_dstE` is 15 (RNONE) for a conditional move whose condition fails, and `E_dstE` otherwise.",
        reason: "Otherwise a move would be done in spite of its condition, or never.",
        book: "section 4.5.7 (execute)",
    },
];

/// The obligations of PIPE on memory and write-back: O18 to O22.
static MEMORY: &[Obligation] = &[
    Obligation {
        label: "O18",
        group: "memory",
        brief: "the address in memory",
        signals: "mem_addr",
        demand: "For an instruction of the program in M that accesses memory, `mem_addr` is its address: `M_valE`, or `M_valA` for `popq` and `ret`.",
        reason: "Otherwise another word would be read or written.",
        book: "sections 4.3.4 (memory stage) and 4.5.7",
    },
    Obligation {
        label: "O19",
        group: "memory",
        brief: "memory is read, is written, or neither",
        signals: "mem_read mem_write",
        demand: "`mem_read` is 1 exactly if M has an instruction of the program that loads, and `mem_write` exactly if it has one that stores. This applies to cycles that stop the machine too.",
        reason: "Otherwise a load or a store would be lost, or the machine would access memory where the program doesn't.",
        book: "sections 4.3.4 (memory stage), 4.5.6 and 4.5.7",
    },
    Obligation {
        label: "O20",
        group: "exceptions",
        brief: "a bad address becomes the status",
        signals: "m_stat",
        demand: "`m_stat` is 3 (ADR) if the access to memory fails, and `M_stat` otherwise. This applies to bubbles too.",
        reason: "Otherwise the machine would go on after a bad address. A bubble must keep its status 0.",
        book: "sections 4.5.6 and 4.5.7 (memory)",
    },
    Obligation {
        label: "O21",
        group: "write-back",
        brief: "what W holds is written",
        signals: "w_dstE w_valE w_dstM w_valM",
        demand: "For an instruction of the program in W, `w_dstE`, `w_valE`, `w_dstM` and `w_valM` are what W holds.",
        reason: "Otherwise the register file would get other words.",
        book: "section 4.5.7 (decode and write-back)",
    },
    Obligation {
        label: "O22",
        group: "exceptions",
        brief: "the status of the machine",
        signals: "Stat",
        demand: "`Stat` is the status of the instruction of the program in W, and 1 (AOK) if W has a bubble. This applies to cycles that stop the machine too.",
        reason: "This status stops the machine. It must do so at the right instruction, and never at a bubble.",
        book: "sections 4.5.6 and 4.5.7 (memory)",
    },
];

/// The obligations of PIPE on motion: O23 to O27.
static MOTION: &[Obligation] = &[
    Obligation {
        label: "O23",
        group: "hazards",
        brief: "no register is stalled and bubbled at once",
        signals: "F_stall F_bubble D_stall D_bubble E_stall E_bubble M_stall M_bubble W_stall W_bubble",
        demand: "No pipeline register is stalled and bubbled in one cycle.",
        reason: "That has no meaning: the machine ends there with status PIP.",
        book: "section 4.5.8 (combinations of control conditions)",
    },
    Obligation {
        label: "O24",
        group: "hazards",
        brief: "no instruction is lost, and none is done twice",
        signals: "D_stall E_stall E_bubble M_stall M_bubble W_stall W_bubble",
        demand: "No instruction of the program is lost, and none is done twice. Such an instruction in W isn't stalled. In M or E, it moves to the next register, and its own register isn't stalled. In D, it moves to E and D isn't stalled, or D is stalled and E doesn't load.",
        reason: "Otherwise an instruction would be skipped or executed twice.",
        book: "section 4.5.8 (pipeline control logic)",
    },
    Obligation {
        label: "O25",
        group: "hazards",
        brief: "instructions on the wrong path are cancelled, and the fetch follows the program",
        signals: "f_pc F_stall F_bubble D_stall D_bubble E_stall E_bubble M_stall M_bubble W_stall W_bubble",
        demand: "No instruction on the wrong path reaches M or W. If the predicted PC counts as right in the next cycle, one of two things holds. Either D loads the program's next instruction, and F loads too. Or D doesn't load it, F is stalled, and the predicted PC counts as right in this cycle already. The next cycle meets conditions 1 to 5 under \"Which situations are considered\" in docs/OBLIGATIONS.md.",
        reason: "Instructions on the wrong path must be cancelled before they change anything, and those of the program must be fetched in order: none skipped, none twice.",
        book: "sections 4.5.5 (control hazards) and 4.5.8",
    },
    Obligation {
        label: "O26",
        group: "hazards",
        brief: "no instruction waits in D forever",
        signals: "D_stall E_stall E_bubble",
        demand: "If D has an instruction of the program and E, M and W have bubbles, the instruction leaves D.",
        reason: "Otherwise it could wait forever.",
        book: "section 4.5.8",
    },
    Obligation {
        label: "O27",
        group: "hazards",
        brief: "an empty pipeline fetches",
        signals: "D_stall D_bubble",
        demand: "If D, E, M and W have bubbles, D loads.",
        reason: "Otherwise the machine could wait forever without an instruction.",
        book: "section 4.5.8",
    },
];

/// The obligations of SEQ and SEQ+ on fetch and decode: S1 to S7.
static SEQ_DECODE: &[Obligation] = &[
    Obligation {
        label: "S1",
        group: "fetch",
        brief: "the instruction and its function are those that were read",
        signals: "icode ifun",
        demand: "`icode` is `imem_icode`, and `ifun` is `imem_ifun`.",
        reason: "Everything else depends on these two numbers.",
        book: "section 4.3.4 (fetch stage)",
    },
    Obligation {
        label: "S2",
        group: "fetch",
        brief: "whether there is a register byte",
        signals: "need_regids",
        demand: "`need_regids` is 1 exactly if the instruction has a register byte.",
        reason: "Without that byte, valC and valP are taken one byte too early, and rA and rB are lost.",
        book: "section 4.3.4 (fetch stage)",
    },
    Obligation {
        label: "S3",
        group: "fetch",
        brief: "whether there is a constant",
        signals: "need_valC",
        demand: "`need_valC` is 1 exactly if the instruction has a constant.",
        reason: "Without the constant, valC is 0, and valP points into the constant.",
        book: "section 4.3.4 (fetch stage)",
    },
    Obligation {
        label: "S4",
        group: "decode and forwarding",
        brief: "the register that valA is read from",
        signals: "srcA",
        demand: "`srcA` is the register that the instruction reads as valA, and 15 (RNONE) if it reads none.",
        reason: "Otherwise valA would be the word of another register.",
        book: "section 4.3.4 (decode and write-back)",
    },
    Obligation {
        label: "S5",
        group: "decode and forwarding",
        brief: "the register that valB is read from",
        signals: "srcB",
        demand: "`srcB` is the register that the instruction reads as valB, and 15 (RNONE) if it reads none.",
        reason: "Otherwise valB would be the word of another register.",
        book: "section 4.3.4 (decode and write-back)",
    },
    Obligation {
        label: "S6",
        group: "decode and forwarding",
        brief: "the register that valE is written to",
        signals: "dstE",
        demand: "`dstE` is the register that valE is written to, and 15 (RNONE) if there is none. For a conditional move there is one only if `Cnd` is 1.",
        reason: "Otherwise the result would go to another register, or get lost.",
        book: "section 4.3.4 (decode and write-back)",
    },
    Obligation {
        label: "S7",
        group: "decode and forwarding",
        brief: "the register that valM is written to",
        signals: "dstM",
        demand: "`dstM` is the register that valM is written to, and 15 (RNONE) if there is none.",
        reason: "Otherwise the loaded word would go to another register, or get lost.",
        book: "section 4.3.4 (decode and write-back)",
    },
];

/// The obligations of SEQ and SEQ+ on execute and memory: S8 to S15.
static SEQ_MEMORY: &[Obligation] = &[
    Obligation {
        label: "S8",
        group: "execute",
        brief: "the ALU's first operand",
        signals: "aluA",
        demand: "If the instruction uses the ALU, `aluA` is its first operand: valA, valC, -8 or 8.",
        reason: "Otherwise the ALU would work on another word.",
        book: "section 4.3.4 (execute stage)",
    },
    Obligation {
        label: "S9",
        group: "execute",
        brief: "the ALU's second operand",
        signals: "aluB",
        demand: "If the instruction uses the ALU, `aluB` is its second operand: 0 or valB.",
        reason: "Otherwise the ALU would work on another word.",
        book: "section 4.3.4 (execute stage)",
    },
    Obligation {
        label: "S10",
        group: "execute",
        brief: "the ALU's function",
        signals: "alufun",
        demand: "`alufun` is the ifun of an OPq, and 0 (addition) for all others that use the ALU.",
        reason: "Otherwise the ALU would compute something else.",
        book: "section 4.3.4 (execute stage)",
    },
    Obligation {
        label: "S11",
        group: "execute",
        brief: "whether the flags are set",
        signals: "set_cc",
        demand: "`set_cc` is 1 exactly for an instruction that sets the flags: OPq, and `iaddq` with `--full`.",
        reason: "Otherwise the program would find other flags.",
        book: "section 4.3.4 (execute stage)",
    },
    Obligation {
        label: "S12",
        group: "memory",
        brief: "the address in memory",
        signals: "mem_addr",
        demand: "For an instruction that accesses memory, `mem_addr` is its address: valE, or valA for `popq` and `ret`.",
        reason: "Otherwise another word would be read or written.",
        book: "section 4.3.4 (memory stage)",
    },
    Obligation {
        label: "S13",
        group: "memory",
        brief: "memory is read, is written, or neither",
        signals: "mem_read mem_write",
        demand: "`mem_read` is 1 exactly for an instruction that loads, and `mem_write` exactly for one that stores.",
        reason: "Otherwise a load or a store would be lost, or the machine would access memory where the program doesn't.",
        book: "section 4.3.4 (memory stage)",
    },
    Obligation {
        label: "S14",
        group: "memory",
        brief: "the word that is written to memory",
        signals: "mem_data",
        demand: "`mem_data` is the word that is stored: valA, or valP for a `call`.",
        reason: "Otherwise another word would be stored.",
        book: "section 4.3.4 (memory stage)",
    },
    Obligation {
        label: "S15",
        group: "exceptions",
        brief: "the status",
        signals: "Stat",
        demand: "`Stat` is 3 (ADR) if the fetch or the access to memory failed. Otherwise it is 4 (INS) for an invalid instruction, 2 (HLT) for `halt`, and 1 (AOK) for all others.",
        reason: "Otherwise the machine would stop elsewhere, or with another status.",
        book: "section 4.3.4 (memory stage)",
    },
];

/// The last obligation of SEQ.
static SEQ_LAST: &[Obligation] = &[Obligation {
    label: "S16",
    group: "next address",
    brief: "the next PC",
    signals: "new_pc",
    demand: "If the status is 1 (AOK), `new_pc` is the next PC: valC for a `call` and a jump that is taken, valM for a `ret`, and valP for all others.",
    reason: "Otherwise the program would go on elsewhere.",
    book: "section 4.3.4 (PC update)",
}];

/// The last obligation of SEQ+.
static SEQ_PLUS_LAST: &[Obligation] = &[Obligation {
    label: "S16",
    group: "next address",
    brief: "the PC, by the instruction before",
    signals: "pc",
    demand: "`pc` is where the program goes on after the previous instruction: pValC for a `call` and for a jump with `pCnd` 1, pValM for a `ret`, and pValP for all others.",
    reason: "Otherwise the next instruction wouldn't be the program's. SEQ+ stops at an instruction that faults: nothing follows it, so faults need no exception here.",
    book: "section 4.5.1",
}];

/// The number of groups of obligations that a datapath has at most.
const GROUP_COUNT: usize = 5;

/// A group of obligations of PIPE; the groups are in the order of the numbers.
fn pipe_group(place: usize) -> &'static [Obligation] {
    match place {
        0 => FETCH,
        1 => DECODE,
        2 => EXECUTE,
        3 => MEMORY,
        4 => MOTION,
        _ => &[],
    }
}

/// A group of obligations of a datapath.
fn obligation_group(path: Datapath, place: usize) -> &'static [Obligation] {
    match path {
        Datapath::Pipe => pipe_group(place),
        Datapath::Seq | Datapath::SeqPlus => match place {
            0 => SEQ_DECODE,
            1 => SEQ_MEMORY,
            2 if path == Datapath::Seq => SEQ_LAST,
            2 => SEQ_PLUS_LAST,
            _ => &[],
        },
    }
}

/// The obligation of a datapath with this number, counted from 1.
pub fn obligation_at(path: Datapath, number: u32) -> Option<&'static Obligation> {
    let mut place = u32::wrapping_sub(number, 1) as usize;
    for k in 0..GROUP_COUNT {
        let group = obligation_group(path, k);
        if let Some(obligation) = group.get(place) {
            return Some(obligation);
        }
        place = place.wrapping_sub(group.len());
    }
    None
}

/// How many obligations a datapath has.
pub fn obligation_count(path: Datapath) -> u32 {
    let mut count = 0;
    for k in 0..GROUP_COUNT {
        for _ in obligation_group(path, k) {
            count = u32::wrapping_add(count, 1);
        }
    }
    count
}
