//! `recheck`: checks a certificate of the design of an HCL file.
ghost use Rattle.std.specs.Prelude.{◌≡◌, List, ℕ};
ghost use Rattle.ctl_atoms.specs.Atoms.{AreAtoms};
ghost use Rattle.dp_signals.specs.PipeTable.{pipe_rows};
ghost use Rattle.hcl_types.specs.Tables.{IsBoundDesign};
ghost use Rattle.cert_log.specs.Files.{HasControlValues};
ghost use Rattle.cli_obligations.specs.Answers.{certificate_plan, recheck_plan};
ghost use Rattle.cli_obligations.specs.Certified.{Rechecks, IsCertStop, cert_reason};
ghost use Rattle.cli_verdicts.specs.Verdicts.{RefusesControl};
ghost use Rattle.cli_plans.specs.PlanFollowing.{FollowsPlanOver, IsStageResultIn, WritesAnswerOn};

use cert_log::{CertError, CertWhy, holds_line, recheck_file};
use cli_plans::{InputFault, StopReason, pipe_file, read_file, write_answer};
use cli_verdicts::control_stop;
use ctl_atoms::{Atom, CtlFault, atoms};
use hcl_types::BoundDesign;
use std::alloc::Global;
use wb_io::{Files, Sink};
use y86_base::Variant;

/// The most bytes of a certificate.
const CERT_LIMIT: u64 = 536_870_912;

/// The name of a reason for which a certificate is refused.
fn cert_why(why: CertWhy) -> &'static [u8]
    ensures { result.now ≡ cert_reason why }
{
    match why {
        CertWhy::Syntax => b"Syntax",
        CertWhy::Number => b"Number",
        CertWhy::Claim => b"Claim",
        CertWhy::Gate => b"Gate",
        CertWhy::Missing => b"Missing",
        CertWhy::Rule => b"Rule",
    }
}

/// The stop at a text that is no certificate.
fn cert_stop<'a>(name: &'a str, error: CertError) -> StopReason<'a>
    ensures { IsCertStop name.now error result }
{
    match error {
        CertError::Cert(fault) => StopReason::Refused(
            name,
            InputFault::AtLine {
                line: fault.line,
                why: cert_why(fault.why),
            },
        ),
        CertError::Memory => StopReason::Memory,
    }
}

/// The atoms of a design for PIPE, if it has control values.
#[tactic(auto, using(crate::proofs::Certified::has_atoms))]
fn pipe_atoms<'a>(
    alloc: Global,
    name: &'a str,
    bound: &BoundDesign,
) -> Result<Vec<Atom>, StopReason<'a>>
    requires { IsBoundDesign pipe_rows bound.now }
    ensures { IsStageResultIn (AreAtoms pipe_rows bound.now.ordered.design.terms) (RefusesControl name.now pipe_rows bound.now.ordered.design.terms) (λ list. list.items) result }
{
    match atoms(alloc, &bound.ordered, &bound.table) {
        Ok(list) => Ok(list),
        Err(CtlFault::Memory) => Err(StopReason::Memory),
        Err(fault) => Err(control_stop(alloc, name, bound, fault)),
    }
}

/// Checks a text as a certificate of a design, and writes its settings.
#[tactic(auto, using(crate::proofs::Certified::said_holds, crate::proofs::Certified::said_cert_refusal))]
fn say_recheck<'a, O: Sink>(
    alloc: Global,
    cert: &'a str,
    variant: Variant,
    bound: &BoundDesign,
    text: &[u8],
    out: &mut O,
) -> Result<u8, StopReason<'a>>
    requires ordered { IsBoundDesign pipe_rows bound.now }
    requires atoms { HasControlValues bound.now.ordered.design.terms }
    ensures { WritesAnswerOn O.taken O.faults (Rechecks cert.now variant bound.now.ordered.design.terms text.now) out.old out.new result }
{
    match recheck_file(alloc, variant, &bound.ordered, text) {
        Ok(settings) => match holds_line(alloc, &settings) {
            Ok(line) => write_answer(0, line.as_slice(), out),
            Err(_) => Err(StopReason::Memory),
        },
        Err(error) => Err(cert_stop(cert, error)),
    }
}

/// Reads a certificate, and checks it.
fn recheck_text<'a, F: Files, O: Sink>(
    alloc: Global,
    cert: &'a str,
    variant: Variant,
    bound: &BoundDesign,
    files: &mut F,
    out: &mut O,
) -> Result<u8, StopReason<'a>>
    requires ordered { IsBoundDesign pipe_rows bound.now }
    requires atoms { HasControlValues bound.now.ordered.design.terms }
    ensures { FollowsPlanOver F.told F.faults O.taken O.faults (certificate_plan cert.now variant bound.now.ordered.design.terms)
        files.old files.new out.old out.new result }
{
    let text = match read_file(alloc, cert, CERT_LIMIT, files) {
        Ok(text) => text,
        Err(stop) => return Err(stop),
    };
    say_recheck(alloc, cert, variant, bound, text.as_slice(), out)
}

/// `recheck`: checks a certificate of the design of an HCL file, without deciding again.
pub fn recheck_certificate<'a, F: Files, O: Sink>(
    alloc: Global,
    name: &'a str,
    cert: &'a str,
    variant: Variant,
    files: &mut F,
    out: &mut O,
) -> Result<u8, StopReason<'a>>
    ensures { FollowsPlanOver F.told F.faults O.taken O.faults (recheck_plan name.now cert.now variant)
        files.old files.new out.old out.new result }
{
    let bound = match pipe_file(alloc, name, files) {
        Ok(bound) => bound,
        Err(stop) => return Err(stop),
    };
    match pipe_atoms(alloc, name, &bound) {
        Ok(_) => recheck_text(alloc, cert, variant, &bound, files, out),
        Err(stop) => Err(stop),
    }
}
