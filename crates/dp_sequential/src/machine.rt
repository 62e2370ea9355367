//! The machine of a sequential datapath: one call, one cycle.
ghost use Rattle.std.specs.Prelude.{◌≡◌, ◌≢◌, ◌↔◌, ◌≤◌, IsNone};
ghost use Rattle.hcl_types.specs.Tables.{IsBound, IsOrderOf};
ghost use Rattle.y86_base.specs.declared.parts.Stat.TheVariants.{Aok};
ghost use Rattle.dp_signals.specs.Tables.{constant_count};
ghost use Rattle.dp_sequential.specs.Machine.{IsCall, started_on};
ghost use Rattle.yis_run.specs.Report.{ended};
ghost use Rattle.dp_sequential.specs.Path.{EndIs, PcIs};

use crate::cycle::record_of;
use crate::path::Sequential;
use crate::values::{constants_in, solve_in};
use dp_machines::{ClockedMachine, is_aok_stat};
use dp_signals::constant_words;
use hcl_types::{OrderedDesign, SignalEval};
use std::marker::Model;
use y86_base::{Image, Variant};
use y86_isa::Rec;
use yis_run::End;

/// A machine of a sequential datapath whose table has N rows: a design with an order of its signals, an evaluator of
/// the design, and the current state. The values of its signals are kept from cycle to cycle, with the constants in
/// their rows. `fits` says whether the evaluator's assumptions fit the constants.
#[derive(Drop)]
pub struct SequentialMachine<S: Sequential, C: SignalEval, const N: usize> {
    variant: Variant,
    ordered: OrderedDesign,
    evaluator: C,
    state: S,
    fits: bool,
    values: [u64; N],
}

impl<S: Sequential, C: SignalEval, const N: usize> Model for SequentialMachine<S, C, N> {
    ghost use Rattle.std.specs.Coded.{codes};
    ghost use Rattle.hcl_types.specs.contracts.term.Term as term;
    ghost use Rattle.std.specs.Prelude.{◌≡◌, IsTrue};
    ghost use Rattle.hcl_types.specs.Signals.{Starts};
    ghost use Rattle.dp_signals.specs.PipeEquations.{constants};
    ghost use Rattle.dp_sequential.specs.Machine.{IsOfTable, MachineView, seen};

    ghost Value = { MachineView S };

    ghost coded = { Prim.hlevel (codes, term.the_row.coded) };

    ghost view = { λ p. seen p.variant p.ordered.design.terms p.ordered.order.ids p.state };

    ghost invariant = { λ p. C.evaluates p.evaluator p.ordered.design.terms × (IsTrue p.fits → Starts (C.assumes p.evaluator) constants)
        × Starts constants p.values × IsOfTable S.path.table p.ordered.design.terms p.ordered.order.ids × (N ≡ S.path.count) };
}

impl<S: Sequential, C: SignalEval, const N: usize> SequentialMachine<S, C, N> {
    /// A machine before its first cycle, with a memory image. The evaluator must be one of the design. No memory is
    /// allocated, here or later.
    pub fn new(
        variant: Variant,
        ordered: OrderedDesign,
        evaluator: C,
        mem: Image,
    ) -> SequentialMachine<S, C, N>
        requires evaluates { C.evaluates evaluator ordered.design.terms }
        requires bound { IsBound S.path.table ordered.design.terms }
        requires ordered { IsOrderOf S.path.table ordered.design.terms ordered.order.ids }
        requires size { N ≡ S.path.count }
        requires constants { constant_count ≤ N }
        ensures { result ≡ started_on S.path variant ordered.design.terms ordered.order.ids mem }
    {
        let fits = evaluator.fits(&constant_words());
        SequentialMachine {
            variant,
            ordered,
            evaluator,
            state: S::start(mem),
            fits,
            values: constants_in(),
        }
    }

    /// The current state.
    pub fn state(&self) -> &S
        ensures { result.now ≡ self.now.state }
    {
        &self.state
    }

    /// Does one cycle, and returns its record. After a cycle whose status wasn't AOK the machine has stopped: nothing
    /// changes, and there is no record.
    #[inline(always)]
    pub fn cycle(&mut self) -> Option<Rec>
        ensures cycle { IsCall S.path self.old result self.new }
        ensures stopped { IsNone result ↔ (S.path.stat self.old.state ≢ Aok) }
    {
        if !is_aok_stat(self.state.view(0).stat) {
            return None;
        }
        solve_in(
            self.variant,
            &self.ordered,
            &self.state,
            &mut self.evaluator,
            self.fits,
            &mut self.values,
        );
        let pc = self.state.pc(&self.values);
        self.state.advance(&self.values);
        let flags = self.state.view(pc).flags;
        Some(record_of(&S::ROWS, pc, flags, &self.values))
    }

    /// The signal pc in the state reached, for which the signals are evaluated anew. After a stop it is the PC of the
    /// cycle that stopped the machine. The state stays as it is; only the evaluator and the stored values change.
    pub fn pc(&mut self) -> u64
        ensures pc { PcIs S.path self.old.variant self.old.terms self.old.state result }
        ensures same { self.new ≡ self.old }
    {
        solve_in(
            self.variant,
            &self.ordered,
            &self.state,
            &mut self.evaluator,
            self.fits,
            &mut self.values,
        );
        self.state.pc(&self.values)
    }

    /// The state of the machine for a report: its registers, flags and memory, the status, and the PC that the method
    /// `pc` returned.
    pub fn end(&self, pc: u64) -> End<'_>
        requires { PcIs S.path self.now.variant self.now.terms self.now.state pc }
        ensures { EndIs S.path self.now.variant self.now.terms self.now.state (ended result) }
    {
        self.state.view(pc)
    }
}

impl<S: Sequential, C: SignalEval, const N: usize> ClockedMachine for SequentialMachine<S, C, N> {
    ghost use Rattle.dp_sequential.specs.Machine.{IsCall, stays_on};

    ghost step = { IsCall S.path };

    ghost stat = { λ p. S.path.stat p.state };

    ghost stays = { stays_on S.path };

    #[inline(always)]
    fn cycle(&mut self) -> Option<Rec> {
        SequentialMachine::cycle(self)
    }
}
