//! The columns of the instruction table, and its rows.

/// Which register a column of the instruction table names.
#[derive(Clone, Copy, Debug, PartialEq, Eq)]
pub enum RegisterColumn {
    /// No register, number 15.
    Dash,
    /// The field `rA` of the register byte.
    FieldA,
    /// The field `rB` of the register byte.
    FieldB,
    /// The stack pointer `%rsp`, number 4.
    Stack,
}

/// The first operand of the ALU.
#[derive(Clone, Copy, Debug, PartialEq, Eq)]
pub enum AluAColumn {
    NoA,
    ValA,
    ValC,
    Minus8,
    Plus8,
}

/// The second operand of the ALU, to which the first is added or from which it is subtracted.
#[derive(Clone, Copy, Debug, PartialEq, Eq)]
pub enum AluBColumn {
    NoB,
    Zero,
    ValB,
}

/// The access of an instruction to memory, apart from its fetch.
#[derive(Clone, Copy, Debug, PartialEq, Eq)]
pub enum MemoryColumn {
    NoMem,
    /// Writes valA at valE.
    StoreA,
    /// Writes valP at valE.
    StoreP,
    /// Reads valM at valE.
    LoadE,
    /// Reads valM at valA.
    LoadA,
}

/// Where the next instruction is.
#[derive(Clone, Copy, Debug, PartialEq, Eq)]
pub enum NextPcColumn {
    /// At the PC itself: nothing follows.
    Itself,
    /// At valP, after the instruction.
    Fall,
    /// At valC if the condition holds, else at valP.
    Branch,
    /// At valC.
    Target,
    /// At valM.
    Loaded,
}

/// A row of the instruction table: CS:APP 3e, figures 4.18 to 4.21, for one icode.
#[derive(Clone, Copy, Debug, PartialEq, Eq)]
pub struct Row {
    /// The length of the instruction in bytes.
    pub length: u64,
    /// Whether the fields `rA` and `rB` have to name a register.
    pub uses_a: bool,
    pub uses_b: bool,
    /// Whether there is a register byte, and an 8-byte constant.
    pub has_byte: bool,
    pub has_const: bool,
    /// The largest ifun that the icode accepts; 15 if it ignores its ifun.
    pub ifun_top: u64,
    pub src_a: RegisterColumn,
    pub src_b: RegisterColumn,
    pub dst_e: RegisterColumn,
    pub dst_m: RegisterColumn,
    /// Whether the destination of valE is written only if the condition holds.
    pub conditional: bool,
    pub alu_a: AluAColumn,
    pub alu_b: AluBColumn,
    /// Whether the function of the ALU is the ifun; else it adds.
    pub selects: bool,
    pub sets_flags: bool,
    pub memory: MemoryColumn,
    pub next: NextPcColumn,
}
