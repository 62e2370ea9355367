//! The run of a sequential datapath, and its output.
ghost use Rattle.std.specs.Prelude.{◌≡◌, ◌≤◌, ◌++◌, IfOk, IsTrue, List, OnOk, length, ℕ};
ghost use Rattle.dp_sequential.specs.Path.{Solves};
ghost use Rattle.dp_signals.specs.PipeEquations.{constants};
ghost use Rattle.dp_signals.specs.Tables.{constant_count};
ghost use Rattle.hcl_types.specs.Signals.{Starts};
ghost use Rattle.hcl_types.specs.Tables.{IsBound, IsOrderOf};
ghost use Rattle.hcl_types.specs.Terms.{at};
ghost use Rattle.seq_text.specs.Observer.{Shows, ShowsRun, shown};

use crate::shown::{ShownDatapath, finished, put_number};
use dp_machines::is_aok_stat;
use dp_sequential::{constants_in, solve_in};
use dp_signals::constant_words;
use hcl_types::SignalEval;
use pipe_stage_text::{CycleRange, ObservedRun, ProcessorDesign, WatchRequest, is_within};
use std::alloc::Global;
use y86_base::{Memory, Stat};

/// A machine that is observed.
#[derive(Drop)]
struct Observer<S: ShownDatapath> {
    /// Its current state.
    state: S,
    /// The text of its cycles so far.
    text: Vec<u8>,
}

/// The status in a state.
fn status_in<S: ShownDatapath>(state: &S) -> Stat
    ensures { result ≡ S.path.stat state.now }
{
    state.view(0).stat
}

/// Puts the output for the cycle with this number.
#[tactic(auto, unfolding(crate::specs::Observer::shown))]
fn put_shown<S: ShownDatapath>(
    out: &mut Vec<u8>,
    processor: &ProcessorDesign<'_>,
    window: &CycleRange,
    number: u64,
    s: &S,
    values: &[u64],
) -> Result<(), Memory>
    ensures { OnOk result (out.new.items ≡ out.old.items
        ++ shown window.now number (S.text.lines s.now (at values.now) (S.text.sources processor.now.rows.now processor.now.ordered.now.design.terms (at values.now)))) }
{
    if !is_within(window, number) {
        return Ok(());
    }
    put_number(out, number)?;
    let sources = S::sources(processor.rows, &processor.ordered.design, values);
    s.put_lines(out, values, &sources)
}

/// Does the cycle with this number, and puts its output. `fits` says whether the evaluator's assumptions fit the
/// constants.
fn cycle<S: ShownDatapath, C: SignalEval, const N: usize>(
    s: &mut Observer<S>,
    processor: &ProcessorDesign<'_>,
    evaluator: &mut C,
    fits: bool,
    window: &CycleRange,
    number: u64,
) -> Result<(), Memory>
    requires table { processor.now.rows.now ≡ S.path.table }
    requires evaluates { C.evaluates evaluator.old processor.now.ordered.now.design.terms }
    requires fits { IsTrue fits → Starts (C.assumes evaluator.old) constants }
    requires bound { IsBound S.path.table processor.now.ordered.now.design.terms }
    requires ordered { IsOrderOf S.path.table processor.now.ordered.now.design.terms processor.now.ordered.now.order.ids }
    requires size { N ≡ S.path.count }
    requires constants { constant_count ≤ N }
    ensures kept { OnOk result (C.evaluates evaluator.new processor.now.ordered.now.design.terms) }
    ensures same { OnOk result (C.assumes evaluator.new ≡ C.assumes evaluator.old) }
    ensures cycle { OnOk result ((lines : List ℕ) × Shows S.path S.text processor.now.variant processor.now.ordered.now.design.terms s.old.state lines s.new.state
        × (s.new.text.items ≡ s.old.text.items ++ shown window.now number lines)) }
{
    let mut values: [u64; N] = constants_in();
    solve_in(
        processor.variant,
        processor.ordered,
        &s.state,
        evaluator,
        fits,
        &mut values,
    );
    put_shown(&mut s.text, processor, window, number, &s.state, &values)?;
    s.state.advance(&values);
    Ok(())
}

/// Runs an image on a sequential datapath under a design to its end or to the limit of cycles, and returns the output.
/// N is the number of rows of the datapath's table.
pub fn watch_sequential<S: ShownDatapath, C: SignalEval, const N: usize>(
    alloc: Global,
    processor: &ProcessorDesign<'_>,
    evaluator: &mut C,
    request: WatchRequest,
) -> Result<ObservedRun, Memory>
    requires table { processor.now.rows.now ≡ S.path.table }
    requires evaluates { C.evaluates evaluator.old processor.now.ordered.now.design.terms }
    requires bound { IsBound S.path.table processor.now.ordered.now.design.terms }
    requires ordered { IsOrderOf S.path.table processor.now.ordered.now.design.terms processor.now.ordered.now.order.ids }
    requires size { N ≡ S.path.count }
    requires constants { constant_count ≤ N }
    requires limit { request.limit ≤ 100000000 }
    ensures { IfOk result (λ w. ShowsRun (Shows S.path S.text processor.now.variant processor.now.ordered.now.design.terms) S.path.stat
        request.window (S.path.start request.image) request.limit w.text.items w.end) }
{
    let WatchRequest {
        image,
        limit,
        window,
    } = request;
    let fits = evaluator.fits(&constant_words());
    let mut s = Observer {
        state: S::start(image),
        text: Vec::new(alloc),
    };
    for k in 0..limit {
        let stat = status_in(&s.state);
        if !is_aok_stat(stat) {
            return finished(s.text, stat, k);
        }
        match cycle::<S, C, N>(&mut s, processor, evaluator, fits, &window, k + 1) {
            Ok(()) => {}
            Err(_) => return Err(Memory),
        }
    }
    let stat = status_in(&s.state);
    finished(s.text, stat, limit)
}
