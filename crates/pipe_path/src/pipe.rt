//! The pipelined machine: one call, one cycle.
ghost use Rattle.std.specs.Prelude.{◌≡◌, ◌<◌, ◌^◌, ◌+◌, ◌≤◌, Option, Some, None, IfSome, if◌then◌else◌, length};
ghost use Rattle.std.specs.Option.{option_to_list};
ghost use Rattle.y86_base.specs.Stat.{stat_of};
ghost use Rattle.hcl_types.specs.Signals.{Starts};
ghost use Rattle.hcl_types.specs.Terms.{at};
ghost use Rattle.dp_signals.specs.PipeCycle as cycle;
ghost use Rattle.dp_signals.specs.PipeEquations.{AreGiven, constants};
ghost use Rattle.dp_signals.specs.PipeNames as row;
ghost use Rattle.dp_signals.specs.PipeTable.{pipe_rows};
ghost use Rattle.hcl_types.specs.Tables.{IsBound, IsOrderOf};
ghost use Rattle.yis_run.specs.Report.{ended};
ghost use Rattle.dp_signals.specs.PipeRun as run;
ghost use Rattle.pipe_path.specs.Calls.{record_in};
ghost use Rattle.pipe_path.specs.declared.pipe.Cycled.{Cycled};
ghost use Rattle.pipe_path.specs.Destinations.{HasDestinations};
ghost use Rattle.pipe_path.specs.Pipe as spec;

use dp_machines::{is_aok_stat, record_count};
use dp_signals::{
    CycleEnd, PipeState, PipeValues, advance, advance_loading, all_load, constant_words,
    end_of_cycle, ending, given, put_given, retires, solve_pipe_in,
};
use hcl_types::{OrderedDesign, SignalEval};
use std::marker::Model;
use y86_base::{Image, Stat, Variant};
use y86_isa::Rec;
use yis_run::End;

/// What one call of `cycle` did. The option is the record of a live instruction in W.
#[derive(Clone, Copy, Debug, PartialEq, Eq)]
pub enum Cycled {
    /// A cycle in which nothing retired.
    Bubble,
    /// A cycle in which an instruction retired.
    Retired(Rec),
    /// The machine stopped in this cycle: its `Stat` isn't AOK.
    Stopped(Option<Rec>),
    /// In this cycle a pipeline register was stalled and bubbled at once.
    Pip(Option<Rec>),
    /// The machine had ended before the call, and nothing changed.
    Ended,
}

/// The record of an instruction that retired.
pub fn record_of(cycled: Cycled) -> Option<Rec>
    ensures { result ≡ record_in cycled }
{
    match cycled {
        Cycled::Retired(record) => Some(record),
        Cycled::Stopped(retired) | Cycled::Pip(retired) => retired,
        Cycled::Bubble | Cycled::Ended => None,
    }
}

/// A pipelined machine: a design with an order of its signals, an evaluator of the design, and the current state. The
/// values of its signals are kept from cycle to cycle: as a cycle begins, they hold the constants and the words of the
/// state. `fits` says whether the evaluator's assumptions fit the constants.
#[derive(Drop)]
pub struct Pipe<C: SignalEval> {
    variant: Variant,
    ordered: OrderedDesign,
    evaluator: C,
    state: PipeState,
    cycles: u64,
    retired: u64,
    end: Stat,
    fits: bool,
    values: PipeValues,
}

impl<C: SignalEval> Model for Pipe<C> {
    ghost use Rattle.std.specs.Coded.{codes};
    ghost use Rattle.hcl_types.specs.contracts.term.Term as term;
    ghost use Rattle.pipe_path.specs.Pipe.{PipeMachine, seen};
    ghost use Rattle.pipe_path.specs.Invariant.{IsPipe};
    ghost use Rattle.std.specs.Prelude.{IsTrue};
    ghost use Rattle.hcl_types.specs.Signals.{Starts};
    ghost use Rattle.dp_signals.specs.PipeEquations.{AreGiven, constants};

    ghost Value = { PipeMachine };

    ghost coded = { Prim.hlevel (codes, term.the_row.coded) };

    ghost view = { λ p. seen p.variant p.ordered.design.terms p.ordered.order.ids p.state p.cycles p.retired p.end };

    ghost invariant = { λ p. C.evaluates p.evaluator p.ordered.design.terms × (IsTrue p.fits → Starts (C.assumes p.evaluator) constants)
        × AreGiven p.state p.values × IsPipe p.ordered.design.terms p.ordered.order.ids p.cycles p.retired };
}

fn told(ending: CycleEnd, retired: Option<Rec>) -> Cycled
    ensures { result ≡ spec.call_answer ending retired }
{
    match ending {
        CycleEnd::Going => match retired {
            Some(record) => Cycled::Retired(record),
            None => Cycled::Bubble,
        },
        CycleEnd::Stopped => Cycled::Stopped(retired),
        CycleEnd::Pip => Cycled::Pip(retired),
    }
}

/// Ends the cycle of a state with these values: it updates the state, and puts the new state's words among the values.
/// Returns how the cycle ended, and the status after it.
#[inline(always)]
fn finish(state: &mut PipeState, values: &mut PipeValues) -> (CycleEnd, Stat)
    requires { Starts constants values.old }
    ensures ending { result.0 ≡ cycle.ending (at values.old) }
    ensures end { result.1 ≡ run.end_by (cycle.ending (at values.old)) (stat_of (at values.old row.Stat)) }
    ensures next { state.new ≡ cycle.next state.old (at values.old) }
    ensures given { AreGiven state.new values.new }
{
    if all_load(values) {
        advance_loading(state, values);
        return (CycleEnd::Going, Stat::Aok);
    }
    let ending = ending(values);
    let end = end_of_cycle(ending, values);
    advance(state, values);
    put_given(state, values);
    (ending, end)
}

/// The number of records that retire: 1 if the instruction in W is live, else 0.
#[inline(always)]
fn one(live: bool) -> u64
    ensures count { result ≡ (if live then 1 else 0) }
    ensures few { result ≤ 1 }
{
    if live { 1 } else { 0 }
}

/// The PC at the end: after a stop the address of a live instruction in W, else `F_predPC`.
fn end_pc(state: &PipeState, end: Stat) -> u64
    ensures { result ≡ run.end_pc state.now end }
{
    match end {
        Stat::Aok | Stat::Pip => state.pred_pc,
        Stat::Bub | Stat::Hlt | Stat::Adr | Stat::Ins | Stat::Bad => {
            if state.w.live {
                state.w.trail.addr
            } else {
                state.pred_pc
            }
        }
    }
}

impl<C: SignalEval> Pipe<C> {
    /// A machine before its first cycle, with a memory image. The evaluator must be one of the design. No memory is
    /// allocated, here or later.
    pub fn new(variant: Variant, ordered: OrderedDesign, evaluator: C, mem: Image) -> Pipe<C>
        requires evaluates { C.evaluates evaluator ordered.design.terms }
        requires bound { IsBound pipe_rows ordered.design.terms }
        requires ordered { IsOrderOf pipe_rows ordered.design.terms ordered.order.ids }
        ensures { result ≡ spec.started variant ordered.design.terms ordered.order.ids mem }
    {
        let fits = evaluator.fits(&constant_words());
        let state = PipeState::start(mem);
        let values = given(&state);
        Pipe {
            variant,
            ordered,
            evaluator,
            state,
            cycles: 0,
            retired: 0,
            end: Stat::Aok,
            fits,
            values,
        }
    }

    /// Does one cycle. The result is `Stopped` exactly if the cycle's `Stat` isn't AOK, `Pip` exactly if it is AOK and
    /// some pipeline register is stalled and bubbled at once, and `Ended`, without any change, in each call after one
    /// of these. Otherwise it is `Retired` exactly if the instruction in W is live.
    pub fn cycle(&mut self) -> Cycled
        requires { self.old.cycles < 2 ^ 63 }
        ensures cycle { spec.IsPipeCall self.old result self.new }
        ensures counted { self.new.cycles ≤ self.old.cycles + 1 }
        ensures destinations { IfSome (record_in result) (λ r. HasDestinations r) }
    {
        if !is_aok_stat(self.end) {
            return Cycled::Ended;
        }
        solve_pipe_in(
            self.variant,
            &self.ordered,
            &self.state,
            &mut self.evaluator,
            self.fits,
            &mut self.values,
        );
        let record = retires(&self.state, &self.values);
        let (ending, end) = finish(&mut self.state, &mut self.values);
        self.cycles += 1;
        self.retired += record_count(record);
        self.end = end;
        told(ending, record)
    }

    /// Does one cycle as `cycle` does, and returns the number of records that retired, 0 or 1. It makes no record.
    #[inline(always)]
    pub fn pass(&mut self) -> u64
        requires { self.old.cycles < 2 ^ 63 }
        ensures cycle { (r : Cycled) × spec.IsPipeCall self.old r self.new × (result ≡ length (option_to_list (record_in r))) }
        ensures few { result ≤ 1 }
        ensures counted { self.new.cycles ≤ self.old.cycles + 1 }
    {
        if !is_aok_stat(self.end) {
            return 0;
        }
        solve_pipe_in(
            self.variant,
            &self.ordered,
            &self.state,
            &mut self.evaluator,
            self.fits,
            &mut self.values,
        );
        let more = one(self.state.w.live);
        let (_, end) = finish(&mut self.state, &mut self.values);
        self.cycles += 1;
        self.retired += more;
        self.end = end;
        more
    }

    /// The state of the machine for a report: its registers, flags and memory, the PC and the status.
    pub fn end(&self) -> End<'_>
        ensures { ended result ≡ spec.end_of self.now }
    {
        End {
            regs: &self.state.regs,
            flags: self.state.flags,
            pc: end_pc(&self.state, self.end),
            stat: self.end,
            mem: &self.state.mem,
        }
    }

    /// How the machine ended: AOK while it goes on.
    pub fn status(&self) -> Stat
        ensures { result ≡ self.now.end }
    {
        self.end
    }

    /// The number of cycles done, including the one in which the machine stopped.
    pub fn cycles(&self) -> u64
        ensures { result ≡ self.now.cycles }
    {
        self.cycles
    }

    /// The number of records that retired.
    pub fn retired(&self) -> u64
        ensures count { result ≡ self.now.retired }
        ensures few { result ≤ self.now.cycles }
    {
        self.retired
    }
}
