//! SEQ+ as a sequential datapath.
ghost use Rattle.std.specs.Prelude.{refl};

use crate::row::{self, PLUS};
use crate::state::{PlusState, PreviousInstruction};
use dp_sequential::{AOK, Sequential, SequentialMachine, update};
use dp_signals::{SignalRows, at};
use hcl_types::NameId;
use y86_base::{Image, Stat};
use y86_isa::Machine;
use yis_run::End;

/// The number of rows in the table.
pub const PLUS_ROWS: usize = row::COUNT as usize;

impl Sequential for PlusState {
    ghost use Rattle.seq_plus.specs.PlusNames.{defined};
    ghost use Rattle.seq_plus.specs.PlusNames.{plus};
    ghost use Rattle.seq_plus.specs.PlusRun.{plus_path};
    ghost use Rattle.seq_plus.specs.PlusLaws.{plus_lawful};

    const ROWS: SignalRows = PLUS;

    const FIRST: NameId = row::DEFINED;

    ghost ROWS = { plus };

    ghost FIRST = { defined };

    ghost path = { plus_path };

    ghost lawful = { plus_lawful };

    ghost first = { refl };

    /// The state as after a nop that is followed by address 0.
    fn start(mem: Image) -> PlusState {
        let Machine {
            regs,
            flags,
            stat,
            mem,
            ..
        } = Machine::start(mem);
        let previous = PreviousInstruction {
            icode: 1,
            cnd: 0,
            val_m: 0,
            val_c: 0,
            val_p: 0,
        };
        PlusState {
            previous,
            regs,
            flags,
            stat,
            mem,
        }
    }

    #[inline(always)]
    fn view(&self, pc: u64) -> End<'_> {
        End {
            regs: &self.regs,
            flags: self.flags,
            pc,
            stat: self.stat,
            mem: &self.mem,
        }
    }

    #[inline(always)]
    fn put_given(&self, values: &mut [u64]) {
        let p = self.previous;
        values[row::P_ICODE as usize] = p.icode;
        values[row::P_CND as usize] = p.cnd;
        values[row::P_VAL_M as usize] = p.val_m;
        values[row::P_VAL_C as usize] = p.val_c;
        values[row::P_VAL_P as usize] = p.val_p;
    }

    /// Most instructions are fetched from the address after the previous instruction.
    #[inline(always)]
    fn likely_pc(&self) -> u64 {
        self.previous.val_p
    }

    #[inline(always)]
    fn pc(&self, values: &[u64]) -> u64 {
        at(values, PLUS.pc)
    }

    #[tactic(auto, unfolding(crate::specs::PlusCycle::plus_next))]
    #[inline(always)]
    fn advance(&mut self, values: &[u64]) {
        self.stat = Stat::of(at(values, PLUS.stat));
        if at(values, PLUS.stat) != AOK {
            return;
        }
        update(
            &PLUS,
            &mut self.regs,
            &mut self.flags,
            &mut self.mem,
            values,
        );
        self.previous = PreviousInstruction {
            icode: at(values, PLUS.icode),
            cnd: at(values, PLUS.cnd),
            val_m: at(values, PLUS.val_m),
            val_c: at(values, PLUS.val_c),
            val_p: at(values, PLUS.val_p),
        };
    }
}

/// A machine of SEQ+.
pub type Plus<C> = SequentialMachine<PlusState, C, PLUS_ROWS>;
