//! The run of a machine, and what is shown of it.
ghost use Rattle.std.specs.Prelude.{◌≡◌, ◌<◌, ◌≤◌, ◌+◌, ◌*◌, ◌^◌, ◌++◌, ℕ, IfOk, IsTrue, OnOk};
ghost use Rattle.dp_signals.specs.PipeEquations.{Solves, constants};
ghost use Rattle.dp_signals.specs.PipeTable.{pipe_rows};
ghost use Rattle.hcl_types.specs.Signals.{Starts};
ghost use Rattle.hcl_types.specs.Tables.{IsBound, IsOrderOf};
ghost use Rattle.hcl_types.specs.Terms.{at};
ghost use Rattle.pipe_stage_text.specs.Listed.{listed, text_in};
ghost use Rattle.pipe_stage_text.specs.Sources.{sources};
ghost use Rattle.y86_isa.specs.Machine.{is_aok};
ghost use Rattle.pipe_stage_text.specs.Observer.{ShowsRun};
ghost use Rattle.pipe_stage_text.specs.Observer as spec;

use crate::cycle::{WatchedCycle, put_cycle, put_end};
use crate::diagram::{DiagramCycle, put_diagram, shown_cycle};
use crate::listed::{Listing, listing_for};
use crate::picked::sources_of;
use crate::processor::ProcessorDesign;
use crate::stage_contents::{StageContents, fetched, first_watch, moved_watch};
use dp_machines::{is_aok_stat, record_count};
use dp_signals::{
    CycleEnd, PipeState, PipeValues, advance, constant_words, end_of_cycle, ending, given,
    requested_updates, retires, solve_pipe_in,
};
use hcl_types::SignalEval;
use std::alloc::Global;
use std::marker::Model;
use y86_base::{Image, Memory, Stat, push};
use y86_isa::Rec;

/// Which cycles of a run are shown, and whether as a diagram.
#[derive(Clone, Copy, Debug, PartialEq, Eq)]
pub struct CycleRange {
    /// The number of the first cycle.
    pub from: u64,
    /// The number of the last one.
    pub to: u64,
    /// Whether they are shown as a diagram, and not in lines.
    pub diagram: bool,
}

/// The parameters of a run that is shown.
#[derive(Drop)]
pub struct WatchRequest {
    /// The memory at the beginning of the run.
    pub image: Image,
    /// The most cycles.
    pub limit: u64,
    /// Which cycles are shown, and how.
    pub window: CycleRange,
}

/// An observed machine: its state, what its stages hold, the text of the cycles so far, or what the diagram shows of
/// them.
#[derive(Drop)]
struct Observer {
    state: PipeState,
    watch: StageContents,
    retired: u64,
    end: Stat,
    text: Vec<u8>,
    cycles: Vec<DiagramCycle>,
}

impl Model for Observer {
    ghost use Rattle.pipe_stage_text.specs.Observer.{Observer, seen};

    ghost Value = { Observer };

    ghost view = { λ s. seen s.state s.watch s.retired s.end s.text.items s.cycles.items };
}

/// What is shown of a run, and how it ended: AOK if it reached the limit.
#[derive(Drop)]
pub struct ObservedRun {
    pub text: Vec<u8>,
    pub end: Stat,
}

fn is_running(s: &Observer) -> bool
    ensures { result ≡ is_aok s.now.end }
{
    is_aok_stat(s.end)
}

fn goes_on(ending: CycleEnd) -> bool
    ensures { result ≡ spec.goes_on ending }
{
    matches!(ending, CycleEnd::Going)
}

/// Whether a cycle is one of those that are shown.
pub fn is_within(window: &CycleRange, number: u64) -> bool
    ensures { result ≡ spec.is_within window.now number }
{
    window.from <= number && number <= window.to
}

/// Appends the lines that are shown of a cycle.
fn put_lines(
    out: &mut Vec<u8>,
    processor: &ProcessorDesign<'_>,
    window: &CycleRange,
    cycle: &WatchedCycle<'_>,
) -> Result<(), Memory>
    ensures { OnOk result (out.new.items ≡ out.old.items ++ spec.lines_shown (sources processor.now.rows.now processor.now.ordered.now.design.terms)
        window.now cycle.now.number cycle.now.watch.now cycle.now.fetch.now cycle.now.state.now (at cycle.now.values.now)) }
{
    if !window.diagram && is_within(window, cycle.number) {
        let values = cycle.values;
        let sources = sources_of(processor.rows, &processor.ordered.design, values);
        put_cycle(out, cycle, &sources)
    } else {
        Ok(())
    }
}

/// Appends what the diagram shows of a cycle.
fn put_shown(
    cycles: &mut Vec<DiagramCycle>,
    window: &CycleRange,
    cycle: &WatchedCycle<'_>,
) -> Result<(), Memory>
    ensures { OnOk result (cycles.new.items ≡ cycles.old.items
        ++ spec.cycles_shown window.now cycle.now.number cycle.now.watch.now cycle.now.fetch.now (at cycle.now.values.now)) }
{
    if !window.diagram || !is_within(window, cycle.number) {
        return Ok(());
    }
    let movers = requested_updates(cycle.values);
    let one = shown_cycle(
        cycle.number,
        cycle.watch,
        *cycle.fetch,
        &movers,
        goes_on(ending(cycle.values)),
    );
    push(cycles, one)
}

/// Does the cycle with this number and these values, and keeps what is shown of it.
fn step(
    s: &mut Observer,
    processor: &ProcessorDesign<'_>,
    window: &CycleRange,
    number: u64,
    values: &PipeValues,
) -> Result<(), Memory>
    requires rows { s.old.watch.rows < 2 ^ 63 }
    requires retired { s.old.retired < 2 ^ 63 }
    ensures after { OnOk result (s.new ≡ spec.after (sources processor.now.rows.now processor.now.ordered.now.design.terms) window.now number s.old (at values.now)) }
    ensures few_rows { OnOk result (s.new.watch.rows ≤ s.old.watch.rows + 5) }
    ensures few_retired { OnOk result (s.new.retired ≤ s.old.retired + 1) }
{
    let fetch = fetched(&s.watch, &s.state, values);
    let cycle = WatchedCycle {
        number,
        state: &s.state,
        values,
        watch: &s.watch,
        fetch: &fetch,
    };
    put_lines(&mut s.text, processor, window, &cycle)?;
    put_shown(&mut s.cycles, window, &cycle)?;
    s.watch = moved_watch(&s.watch, fetch, &requested_updates(values));
    s.retired += record_count(retires(&s.state, values));
    s.end = end_of_cycle(ending(values), values);
    advance(&mut s.state, values);
    Ok(())
}

/// The state of an observed machine.
fn state_of(s: &Observer) -> &PipeState
    ensures { result.now ≡ s.now.state }
{
    &s.state
}

/// Does the cycle with this number, and keeps what is shown of it. `fits` is the evaluator's answer about the
/// constants.
fn cycle<C: SignalEval>(
    s: &mut Observer,
    processor: &ProcessorDesign<'_>,
    evaluator: &mut C,
    fits: bool,
    window: &CycleRange,
    number: u64,
) -> Result<(), Memory>
    requires evaluates { C.evaluates evaluator.old processor.now.ordered.now.design.terms }
    requires fits { IsTrue fits → Starts (C.assumes evaluator.old) constants }
    requires bound { IsBound pipe_rows processor.now.ordered.now.design.terms }
    requires ordered { IsOrderOf pipe_rows processor.now.ordered.now.design.terms processor.now.ordered.now.order.ids }
    requires rows { s.old.watch.rows < 2 ^ 63 }
    requires retired { s.old.retired < 2 ^ 63 }
    ensures kept { OnOk result (C.evaluates evaluator.new processor.now.ordered.now.design.terms) }
    ensures same { OnOk result (C.assumes evaluator.new ≡ C.assumes evaluator.old) }
    ensures cycle { OnOk result ((f : ℕ → ℕ) × Solves processor.now.variant processor.now.ordered.now.design.terms s.old.state f
        × (s.new ≡ spec.after (sources processor.now.rows.now processor.now.ordered.now.design.terms) window.now number s.old f)) }
    ensures few_rows { OnOk result (s.new.watch.rows ≤ s.old.watch.rows + 5) }
    ensures few_retired { OnOk result (s.new.retired ≤ s.old.retired + 1) }
{
    let mut values = given(state_of(s));
    solve_pipe_in(
        processor.variant,
        processor.ordered,
        state_of(s),
        evaluator,
        fits,
        &mut values,
    );
    step(s, processor, window, number, &values)
}

/// Appends the diagram, if it is asked for, and the line of the end.
#[tactic(auto, unfolding(crate::specs::Observer::whole_text))]
fn finished(
    s: Observer,
    listing: &Listing,
    diagram: bool,
    cycles: u64,
) -> Result<ObservedRun, Memory>
    requires { s.watch.rows < 2 ^ 63 }
    ensures text { IfOk result (λ w. w.text.items ≡ spec.whole_text (text_in listing.now.entries) diagram cycles s) }
    ensures end { IfOk result (λ w. w.end ≡ s.end) }
{
    let Observer {
        watch,
        retired,
        end,
        mut text,
        cycles: shown,
        ..
    } = s;
    if diagram {
        put_diagram(&mut text, listing, watch.rows, shown.as_slice())?;
    }
    put_end(&mut text, end, cycles, retired)?;
    Ok(ObservedRun { text, end })
}

/// Runs an image to its end or to the limit of cycles.
fn watch_listed<C: SignalEval>(
    alloc: Global,
    processor: &ProcessorDesign<'_>,
    evaluator: &mut C,
    listing: &Listing,
    request: WatchRequest,
) -> Result<ObservedRun, Memory>
    requires table { processor.now.rows.now ≡ pipe_rows }
    requires evaluates { C.evaluates evaluator.old processor.now.ordered.now.design.terms }
    requires bound { IsBound pipe_rows processor.now.ordered.now.design.terms }
    requires ordered { IsOrderOf pipe_rows processor.now.ordered.now.design.terms processor.now.ordered.now.order.ids }
    requires limit { request.limit ≤ 100000000 }
    ensures { IfOk result (λ w. ShowsRun processor.now.variant processor.now.ordered.now.design.terms (text_in listing.now.entries)
        request.window request.image request.limit w.text.items w.end) }
{
    let WatchRequest {
        image,
        limit,
        window,
    } = request;
    let fits = evaluator.fits(&constant_words());
    let mut s = Observer {
        state: PipeState::start(image),
        watch: first_watch(),
        retired: 0,
        end: Stat::Aok,
        text: Vec::new(alloc),
        cycles: Vec::new(alloc),
    };
    for k in 0..limit {
        if !is_running(&s) {
            return finished(s, listing, window.diagram, k);
        }
        match cycle(&mut s, processor, evaluator, fits, &window, k + 1) {
            Ok(()) => {}
            Err(_) => return Err(Memory),
        }
    }
    finished(s, listing, window.diagram, limit)
}

/// Runs the image of an object text on PIPE under a design to its end or to the limit of cycles, and returns what is
/// shown of it.
pub fn watch_run<C: SignalEval>(
    alloc: Global,
    processor: &ProcessorDesign<'_>,
    evaluator: &mut C,
    object: &[u8],
    request: WatchRequest,
) -> Result<ObservedRun, Memory>
    requires table { processor.now.rows.now ≡ pipe_rows }
    requires evaluates { C.evaluates evaluator.old processor.now.ordered.now.design.terms }
    requires bound { IsBound pipe_rows processor.now.ordered.now.design.terms }
    requires ordered { IsOrderOf pipe_rows processor.now.ordered.now.design.terms processor.now.ordered.now.order.ids }
    requires limit { request.limit ≤ 100000000 }
    ensures { IfOk result (λ w. ShowsRun processor.now.variant processor.now.ordered.now.design.terms (listed object.now)
        request.window request.image request.limit w.text.items w.end) }
{
    let Ok(listing) = listing_for(alloc, object, request.window.diagram) else {
        return Err(Memory);
    };
    watch_listed(alloc, processor, evaluator, &listing, request)
}
