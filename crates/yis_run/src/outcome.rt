//! How a run ended.
ghost use Rattle.std.specs.Prelude.{◌≡◌};

use y86_base::{Flags, Image, Regs, Stat};
use y86_isa::Machine;

/// How a run ended: the registers, the flags, the address of the next instruction, the status and the memory.
#[derive(Clone, Copy, Debug)]
pub struct End<'a> {
    pub regs: &'a Regs,
    pub flags: Flags,
    pub pc: u64,
    pub stat: Stat,
    pub mem: &'a Image,
}

impl<'a> End<'a> {
    ghost use Rattle.yis_run.specs.Report.{ended};

    /// The end of a run that left the machine `m`.
    pub fn of(m: &'a Machine) -> End<'a>
        ensures { ended result ≡ m.now }
    {
        End {
            regs: &m.regs,
            flags: m.flags,
            pc: m.pc,
            stat: m.stat,
            mem: &m.mem,
        }
    }
}
