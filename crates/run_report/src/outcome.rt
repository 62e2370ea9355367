//! The outcome of a run.
ghost use Rattle.std.specs.Prelude.{◌≡◌, ◌≢◌, ◌↔◌, ◌⊎◌, ◌<◌, ◌≤◌, ◌^◌, IfErr, IfOk, Err, List, Ok, true, ℕ};
ghost use Rattle.cosimulation.specs.Agreement.{FindsNone};
ghost use Rattle.dp_signals.specs.PipeTable.{pipe_rows};
ghost use Rattle.hcl_types.specs.Tables.{IsBound, IsOrderOf};
ghost use Rattle.run_report.specs.Outcome.{IsJudged, IsOutcome};
ghost use Rattle.run_report.specs.Outcome as spec;
ghost use Rattle.y86_base.specs.Image.{IsSize};
ghost use Rattle.y86_isa.specs.Run.{run};
ghost use Rattle.yo_object.specs.Loads.{out_of_memory};
ghost use Rattle.yo_object.specs.ObjectText.{object_of};

use control_check::{CheckFault, Verdict, check_pipe};
use cosimulation::{Compared, compare};
use ctl_atoms::CtlFault;
use hcl_types::OrderedDesign;
use program_check::{Watched, watch};
use std::alloc::Global;
use y86_base::{Image, Memory, Variant};
use y86_isa::Machine;
use yo_object::{YoFault, YoWhy, load};

/// The check's answer on a file.
#[derive(Clone, Copy, Debug, PartialEq, Eq)]
pub enum Judged {
    /// All obligations hold.
    Yes,
    /// The number of the first obligation that is false somewhere.
    No(u32),
    /// There is no answer, for this reason.
    Unknown(CtlFault),
    /// It wasn't asked.
    Unasked,
}

/// The parameters of a run under a design for PIPE and by the instructions.
#[derive(Debug, Drop)]
pub struct OutcomeRequest {
    /// The instruction set.
    pub variant: Variant,
    /// The design of PIPE, with an order of its signals.
    pub ordered: OrderedDesign,
    /// The most cycles.
    pub limit: u64,
    /// Whether the check is run too.
    pub checked: bool,
}

/// The outcome of a run.
#[derive(Debug, Drop)]
pub struct Outcome {
    /// The first record or final state that differs.
    pub compared: Compared,
    /// The machine of the instructions, after those that retired as they should.
    pub machine: Machine,
    /// Whether the program fetches what it has just stored.
    pub watched: Watched,
    /// The check's answer on the file.
    pub judged: Judged,
}

/// The check's answer on a design.
fn judge(alloc: Global, v: Variant, ordered: &OrderedDesign) -> Result<Judged, Memory>
    requires bound { IsBound pipe_rows ordered.now.design.terms }
    requires ordered { IsOrderOf pipe_rows ordered.now.design.terms ordered.now.order.ids }
    ensures judged { IfOk result (IsJudged v ordered.now.design.terms) }
    ensures asked { IfOk result (λ judged. judged ≢ Judged.Unasked) }
{
    match check_pipe(alloc, v, ordered) {
        Ok(Verdict::Yes(_)) => Ok(Judged::Yes),
        Ok(Verdict::No { rule, .. }) => Ok(Judged::No(rule)),
        Err(CheckFault::Ctl(fault)) => Ok(Judged::Unknown(fault)),
        Err(CheckFault::Memory) => Err(Memory),
    }
}

/// The check's answer on a design, if it is asked for.
fn judge_if(
    alloc: Global,
    asks: bool,
    v: Variant,
    ordered: &OrderedDesign,
) -> Result<Judged, Memory>
    requires bound { IsBound pipe_rows ordered.now.design.terms }
    requires ordered { IsOrderOf pipe_rows ordered.now.design.terms ordered.now.order.ids }
    ensures judged { IfOk result (IsJudged v ordered.now.design.terms) }
    ensures asked { IfOk result (λ judged. (asks ≡ true) ↔ (judged ≢ Judged.Unasked)) }
{
    if asks {
        judge(alloc, v, ordered)
    } else {
        Ok(Judged::Unasked)
    }
}

/// How many instructions retired as they should.
fn right_count(compared: &Compared) -> u64
    ensures { result ≡ spec.right_count compared.now }
{
    match compared {
        Compared::Same(steps, _) => *steps,
        Compared::Open(steps) => *steps,
        Compared::Record(d) => d.before,
        Compared::State(steps, _, _) => *steps,
    }
}

/// The machine of the instructions after this number of steps.
fn machine_after(v: Variant, image: Image, steps: u64) -> Machine
    ensures { result ≡ run v image steps }
{
    let mut machine = Machine::start(image);
    let _ran = yis_run::run(v, &mut machine, steps);
    machine
}

/// Runs an image by its instructions and on PIPE under a design, side by side, and also runs the check if it is asked
/// for. If the theorem covers the run, nothing differs.
pub fn run_outcome(alloc: Global, request: OutcomeRequest, image: Image) -> Result<Outcome, Memory>
    requires limit { request.limit < 2 ^ 63 }
    requires bound { IsBound pipe_rows request.ordered.design.terms }
    requires order { IsOrderOf pipe_rows request.ordered.design.terms request.ordered.order.ids }
    ensures outcome { IfOk result (IsOutcome request.variant request.ordered.design.terms request.ordered.order.ids image request.limit) }
    ensures asked { IfOk result (λ o. (request.checked ≡ true) ↔ (o.judged ≢ Judged.Unasked)) }
    ensures covered { IfOk result (λ o. spec.is_covered o.judged o.watched ≡ true → FindsNone o.compared) }
{
    let OutcomeRequest {
        variant,
        ordered,
        limit,
        checked,
    } = request;
    // (brings what holds of every image: its size is bounded)
    let _size = image.size();
    let judged = judge_if(alloc, checked, variant, &ordered)?;
    let Ok(watched) = image.copy(alloc) else {
        return Err(Memory);
    };
    let Ok(stepped) = image.copy(alloc) else {
        return Err(Memory);
    };
    let compared = compare(alloc, variant, ordered, image, limit)?;
    let machine = machine_after(variant, stepped, right_count(&compared));
    let watched = watch(variant, watched, limit);
    Ok(Outcome {
        compared,
        machine,
        watched,
        judged,
    })
}

/// The same for the image of an object text in `size` bytes of memory.
pub fn object_outcome(
    alloc: Global,
    request: OutcomeRequest,
    object: &[u8],
    size: u64,
) -> Result<Outcome, YoFault>
    requires size { IsSize size }
    requires limit { request.limit < 2 ^ 63 }
    requires bound { IsBound pipe_rows request.ordered.design.terms }
    requires order { IsOrderOf pipe_rows request.ordered.design.terms request.ordered.order.ids }
    ensures outcome { IfOk result (λ o. (image : List ℕ) × (object_of object.now size ≡ Ok image)
        × IsOutcome request.variant request.ordered.design.terms request.ordered.order.ids image request.limit o) }
    ensures asked { IfOk result (λ o. (request.checked ≡ true) ↔ (o.judged ≢ Judged.Unasked)) }
    ensures covered { IfOk result (λ o. spec.is_covered o.judged o.watched ≡ true → FindsNone o.compared) }
    ensures fault { IfErr result (λ fault. (fault ≡ out_of_memory) ⊎ (object_of object.now size ≡ Err fault)) }
{
    let image = match load(alloc, object, size) {
        Ok(image) => image,
        Err(fault) => return Err(fault),
    };
    match run_outcome(alloc, request, image) {
        Ok(outcome) => Ok(outcome),
        Err(Memory) => Err(YoFault {
            line: 0,
            why: YoWhy::Memory,
        }),
    }
}

/// Whether the theorem covers a run.
pub fn is_covered(judged: Judged, watched: Watched) -> bool
    ensures { result ≡ spec.is_covered judged watched }
{
    match (judged, watched) {
        (Judged::Yes, Watched::Apart(_, stopped)) => stopped,
        _ => false,
    }
}

/// The exit status of a call: 0 if both runs ended and nothing differs, otherwise 1.
pub fn outcome_status(compared: &Compared) -> u8
    ensures same { (result ≡ 0) ↔ (spec.is_same compared.now ≡ true) }
    ensures low { result ≤ 1 }
{
    match compared {
        Compared::Same(_, _) => 0,
        _ => 1,
    }
}
