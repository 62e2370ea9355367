//! `check`: the verdict on an HCL file, explained.
ghost use Rattle.std.specs.Prelude.{◌≡◌, ◌≤◌, IfErr, IfOk};
ghost use Rattle.ctl_verdicts.specs.ObligationSet.{IsFault};
ghost use Rattle.hcl_types.specs.Tables.{IsBoundDesign};
ghost use Rattle.seq_plus.specs.Datapaths.{table_rows};
ghost use Rattle.tell_checks.specs.Accepted.{BreaksOn, HasNoVerdict, IsAcceptedText, IsRejectedText, RefinesOn};
ghost use Rattle.tell_faults.specs.Stops.{status_of};
ghost use Rattle.tell_faults.specs.Told.{HasBytesWith};

use crate::cases::case_places;
use crate::pipe::explain_pipe;
use crate::sequential::explain_sequential;
use control_check::CheckFault;
use ctl_atoms::CtlFault;
use finding_text::{CasePlace, ExplainedFile, name_of};
use hcl_types::{BoundDesign, Datapath, Row, SequentialDatapath};
use std::alloc::{AllocError, Global};
use tell_faults::{HCL_LIMIT, Said, Stop, design_of, fault_stop, unread};
use tell_words::CheckQuestion;
use wb_io::Files;

/// What the findings on the file of a design are explained with.
fn explained_file<'a>(bound: &'a BoundDesign, cases: &'a [CasePlace<'a>]) -> ExplainedFile<'a>
    ensures rows { result.rows.now ≡ bound.now.table.rows }
    ensures terms { result.terms.now ≡ bound.now.ordered.design.terms }
{
    ExplainedFile {
        rows: bound.table.rows.items(),
        terms: bound.ordered.design.terms.items(),
        cases,
    }
}

/// The stop at a design without control values.
fn control_stop<'a>(
    alloc: Global,
    file: &'a str,
    rows: &[Row],
    fault: CtlFault,
) -> Result<Stop<'a>, AllocError> {
    let mut out = String::from_str(alloc, file)?;
    match fault {
        CtlFault::Mixed(id) => {
            let name = name_of(rows, id);
            write!(
                out,
                ": `{name}` joins a code (an icode, a register number, a status) with a word of 64 bits. The check can't decide that: compare codes with codes, and words with words.\n"
            )?;
        }
        CtlFault::AtomsOver64 => out.push_str(
            ": the definitions compare more than 64 different pairs of words, and the check takes 64 at most.\n",
        )?,
        CtlFault::Memory => return Ok(Stop::Memory),
    }
    Ok(Stop::Fault(out.into_bytes()))
}

/// Explains the verdict on a design for any datapath.
fn explain(
    alloc: Global,
    asked: CheckQuestion,
    bound: &BoundDesign,
    file: &ExplainedFile<'_>,
) -> Result<Said, CheckFault>
    requires { IsBoundDesign (table_rows asked.path) bound.now }
    ensures accepted { IfOk result (λ said. said.status ≡ 0 → RefinesOn asked.path asked.variant bound.now.ordered.design.terms) }
    ensures rejected { IfOk result (λ said. said.status ≡ 1 → BreaksOn asked.path asked.variant bound.now.ordered.design.terms) }
    ensures low { IfOk result (λ said. said.status ≤ 1) }
    ensures undecided { IfErr result (IsFault (table_rows asked.path) bound.now.ordered.design.terms) }
{
    match asked.path {
        Datapath::Pipe => explain_pipe(alloc, asked, bound, file),
        Datapath::Seq => explain_sequential(alloc, SequentialDatapath::Seq, asked, bound, file),
        Datapath::SeqPlus => {
            explain_sequential(alloc, SequentialDatapath::SeqPlus, asked, bound, file)
        }
    }
}

/// Explains the verdict on an HCL file. If the status is 0, the file has a design for the datapath, and the datapath under
/// it does what the instructions mean, for every program that the theorem covers. If it is 1, the design breaks an
/// obligation.
#[tactic(auto, using(crate::proofs::Accepted::accepted, crate::proofs::Accepted::rejected, crate::proofs::Accepted::no_design, crate::proofs::Accepted::undecided))]
pub fn check<'a, F: Files>(
    alloc: Global,
    hcl: &'a str,
    asked: CheckQuestion,
    files: &mut F,
) -> Result<Said, Stop<'a>>
    ensures accepted { IfOk result (λ said. said.status ≡ 0 → HasBytesWith (F.told files.old hcl.now) (IsAcceptedText asked.path asked.variant)) }
    ensures rejected { IfOk result (λ said. said.status ≡ 1 → HasBytesWith (F.told files.old hcl.now) (IsRejectedText asked.path asked.variant)) }
    ensures low { IfOk result (λ said. said.status ≤ 1) }
    ensures faulty { IfErr result (λ stop. status_of stop ≡ 5 → HasBytesWith (F.told files.old hcl.now) (HasNoVerdict asked.path)) }
{
    let source = match files.read(alloc, hcl, HCL_LIMIT) {
        Ok(source) => source,
        Err(error) => return Err(unread(hcl, error)),
    };
    let bound = match design_of(alloc, asked.path, source.as_slice()) {
        Ok(bound) => bound,
        Err(fault) => return Err(fault_stop(alloc, hcl, source.as_slice(), asked.path, &fault)),
    };
    let Ok(cases) = case_places(alloc, source.as_slice()) else {
        return Err(Stop::Memory);
    };
    let file = explained_file(&bound, cases.as_slice());
    match explain(alloc, asked, &bound, &file) {
        Ok(said) => Ok(said),
        Err(CheckFault::Ctl(fault)) => match control_stop(alloc, hcl, file.rows, fault) {
            Ok(stop) => Err(stop),
            Err(_) => Err(Stop::Memory),
        },
        Err(CheckFault::Memory) => Err(Stop::Memory),
    }
}
