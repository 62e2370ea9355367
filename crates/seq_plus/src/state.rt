//! The state of SEQ+, which holds values of the previous instruction in place of the PC.
use y86_base::{Flags, Image, Regs, Stat};

/// The values that an instruction leaves for the PC of the next one: its icode, its condition (0 or 1), the word that
/// it loaded, its constant, and the address after it.
#[derive(Clone, Copy, Debug, PartialEq, Eq)]
pub struct PreviousInstruction {
    pub icode: u64,
    pub cnd: u64,
    pub val_m: u64,
    pub val_c: u64,
    pub val_p: u64,
}

/// The state of SEQ+ as a cycle begins. It has no PC: the signal `pc` is computed from the previous instruction's
/// values.
#[derive(Drop)]
pub struct PlusState {
    pub previous: PreviousInstruction,
    pub regs: Regs,
    pub flags: Flags,
    pub stat: Stat,
    pub mem: Image,
}
