//! SEQ as a sequential datapath: its state is the machine of the instruction level, which holds the PC.
ghost use Rattle.std.specs.Prelude.{◌≡◌, refl};

use crate::cycle::{AOK, update};
use crate::path::Sequential;
use dp_signals::{SEQ, SeqState, SignalRows, at, seq_row};
use hcl_types::NameId;
use y86_base::{Image, Stat};
use yis_run::End;

impl Sequential for SeqState {
    ghost use Rattle.dp_signals.specs.SeqNames.{defined};
    ghost use Rattle.dp_signals.specs.SequentialRows.{seq};
    ghost use Rattle.dp_sequential.specs.Seq.{seq_path};
    ghost use Rattle.dp_sequential.specs.SeqLaws.{seq_lawful};

    const ROWS: SignalRows = SEQ;

    const FIRST: NameId = seq_row::DEFINED;

    ghost ROWS = { seq };

    ghost FIRST = { defined };

    ghost path = { seq_path };

    ghost lawful = { seq_lawful };

    ghost first = { refl };

    fn start(mem: Image) -> SeqState {
        SeqState::start(mem)
    }

    #[inline(always)]
    fn view(&self, pc: u64) -> End<'_> {
        End {
            pc,
            ..End::of(self)
        }
    }

    #[inline(always)]
    fn put_given(&self, values: &mut [u64]) {
        values[SEQ.pc as usize] = self.pc;
    }

    #[inline(always)]
    fn likely_pc(&self) -> u64 {
        self.pc
    }

    #[inline(always)]
    fn pc(&self, _values: &[u64]) -> u64 {
        self.pc
    }

    #[tactic(auto, unfolding(crate::specs::Seq::seq_next))]
    #[inline(always)]
    fn advance(&mut self, values: &[u64]) {
        self.stat = Stat::of(at(values, SEQ.stat));
        if at(values, SEQ.stat) != AOK {
            return;
        }
        update(&SEQ, &mut self.regs, &mut self.flags, &mut self.mem, values);
        self.pc = at(values, seq_row::NEW_PC);
    }
}
