//! The programmer-visible state of a machine, and the record of an instruction.
ghost use Rattle.std.specs.Prelude.{◌≡◌};
ghost use Rattle.y86_isa.specs.Machine as machine;

use crate::table::NO_REGISTER;
use y86_base::{Flags, Image, Regs, Stat};

/// The programmer-visible state (CS:APP 3e, figure 4.1): the registers, the flags, the address of the
/// next instruction, the status and the memory.
#[derive(Debug, Drop)]
pub struct Machine {
    pub regs: Regs,
    pub flags: Flags,
    pub pc: u64,
    pub stat: Stat,
    pub mem: Image,
}

impl Machine {
    ghost use Rattle.y86_isa.specs.Machine.{start};

    /// The machine before its first instruction: registers and PC 0, flags ZF=1 SF=0 OF=0, status AOK.
    pub fn start(mem: Image) -> Machine
        ensures { result ≡ start mem }
    {
        Machine {
            regs: Regs::zero(),
            flags: Flags {
                zf: true,
                sf: false,
                of: false,
            },
            pc: 0,
            stat: Stat::Aok,
            mem,
        }
    }
}

/// A word that an instruction writes to memory, and the address of its first byte.
#[derive(Clone, Copy, Debug, PartialEq, Eq)]
pub struct Store {
    pub addr: u64,
    pub word: u64,
}

/// What one instruction did.
///
/// A destination that is no register is 15, and its value is then 0. A record whose status isn't AOK has no
/// destination and no store. The flags are those after the instruction.
#[derive(Clone, Copy, Debug, PartialEq, Eq)]
pub struct Rec {
    pub pc: u64,
    pub icode: u64,
    pub ifun: u64,
    pub dst_e: u64,
    pub val_e: u64,
    pub dst_m: u64,
    pub val_m: u64,
    pub store: Option<Store>,
    pub flags: Flags,
    pub stat: Stat,
}

/// A destination and the word that it gets; a destination that is no register is 15, and its word 0.
fn written(number: u64, word: u64) -> (u64, u64)
    ensures number { result.0 ≡ machine.written_number number }
    ensures word { result.1 ≡ machine.written_word number word }
{
    if number < NO_REGISTER {
        (number, word)
    } else {
        (NO_REGISTER, 0)
    }
}

impl Rec {
    ghost use Rattle.y86_isa.specs.Machine.{normal};

    /// The record in its normal form: effects that don't take place are left out, and 15 is the only destination that
    /// is no register.
    pub fn normal(self) -> Rec
        ensures { result ≡ normal self }
    {
        if !matches!(self.stat, Stat::Aok) {
            return Rec {
                dst_e: NO_REGISTER,
                val_e: 0,
                dst_m: NO_REGISTER,
                val_m: 0,
                store: None,
                ..self
            };
        }
        let (dst_e, val_e) = written(self.dst_e, self.val_e);
        let (dst_m, val_m) = written(self.dst_m, self.val_m);
        Rec {
            dst_e,
            val_e,
            dst_m,
            val_m,
            ..self
        }
    }
}
