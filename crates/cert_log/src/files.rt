//! Writes a certificate of a file that the check accepts, and checks a certificate of a file.
ghost use Rattle.std.specs.Prelude.{◌≡◌, IfErr, IfOk, OnOk};
ghost use Rattle.dp_signals.specs.PipeTable.{pipe_rows};
ghost use Rattle.hcl_types.specs.Tables.{IsBound, IsOrderOf};
ghost use Rattle.control_check.specs.PipeVerdicts.{RefinesPipe};
ghost use Rattle.cert_log.specs.DesignDemands.{DemandsFor};
ghost use Rattle.cert_log.specs.Files as spec;
ghost use Rattle.cert_writer.specs.Writing.{AreInside};

use crate::demanded::demands;
use cert_checker::{CertError, Demands, recheck, stated};
use cert_writer::write;
use ctl_atoms::CtlFault;
use hcl_types::OrderedDesign;
use pipe_motion::Settings;
use std::alloc::Global;
use verdict_text::pipe_acceptance;
use y86_base::{Memory, Variant, put};

/// What a certificate of a design with control values has to show.
#[tactic(auto, using(crate::proofs::Shown::not_mixed, crate::proofs::Shown::not_over))]
fn demands_of(
    alloc: Global,
    variant: Variant,
    ordered: &OrderedDesign,
    settings: Settings,
) -> Result<Demands, Memory>
    requires bound { IsBound pipe_rows ordered.now.design.terms }
    requires ordered { IsOrderOf pipe_rows ordered.now.design.terms ordered.now.order.ids }
    requires atoms { spec.HasControlValues ordered.now.design.terms }
    ensures demands { IfOk result (DemandsFor variant ordered.now.design.terms settings) }
    ensures inside { IfOk result AreInside }
{
    match demands(alloc, variant, ordered, settings) {
        Ok(demands) => Ok(demands),
        Err(CtlFault::Memory) => Err(Memory),
        Err(CtlFault::Mixed(_)) => unreachable!(),
        Err(CtlFault::AtomsOver64) => unreachable!(),
    }
}

/// A certificate of a file that meets its obligations at these settings, as a file does whose verdict from
/// `control_check::check_pipe` is yes.
#[tactic(auto, using(crate::proofs::Shown::has_atoms))]
pub fn certify(
    alloc: Global,
    variant: Variant,
    ordered: &OrderedDesign,
    settings: Settings,
) -> Result<Vec<u8>, Memory>
    requires bound { IsBound pipe_rows ordered.now.design.terms }
    requires ordered { IsOrderOf pipe_rows ordered.now.design.terms ordered.now.order.ids }
    requires meets { spec.MeetsAt variant ordered.now.design.terms settings }
    ensures { IfOk result (λ text. spec.IsCertificate variant ordered.now.design.terms settings text.items) }
{
    let demands = demands_of(alloc, variant, ordered, settings)?;
    match write(alloc, &demands)? {
        Some(text) => Ok(text),
        None => unreachable!(),
    }
}

/// Checks a text as a certificate of a design with control values, at the settings that the text states. Returns these
/// settings.
///
/// Errors: `Cert` with the first fault of the text; `Memory`.
#[tactic(auto, using(crate::proofs::Shown::met, crate::proofs::Shown::refined))]
pub fn recheck_file(
    alloc: Global,
    variant: Variant,
    ordered: &OrderedDesign,
    bytes: &[u8],
) -> Result<Settings, CertError>
    requires bound { IsBound pipe_rows ordered.now.design.terms }
    requires ordered { IsOrderOf pipe_rows ordered.now.design.terms ordered.now.order.ids }
    requires atoms { spec.HasControlValues ordered.now.design.terms }
    ensures right { IfOk result (λ s. spec.IsCertificate variant ordered.now.design.terms s bytes.now) }
    ensures meets { IfOk result (spec.MeetsAt variant ordered.now.design.terms) }
    ensures refines { OnOk result (RefinesPipe variant ordered.now.design.terms) }
    ensures fault { IfErr result (spec.IsRefused variant ordered.now.design.terms bytes.now) }
{
    let settings = match stated(alloc, bytes) {
        Ok(settings) => settings,
        Err(error) => return Err(error),
    };
    let demands = match demands_of(alloc, variant, ordered, settings) {
        Ok(demands) => demands,
        Err(Memory) => return Err(CertError::Memory),
    };
    match recheck(alloc, &demands, bytes) {
        Ok(()) => Ok(settings),
        Err(error) => Err(error),
    }
}

/// The line that reports an accepted certificate, with its settings.
#[tactic(auto, using(crate::proofs::Shown::yes_long, crate::proofs::Shown::holds_is), unfolding(crate::specs::Files::holds_line))]
pub fn holds_line(alloc: Global, settings: &Settings) -> Result<Vec<u8>, Memory>
    ensures { IfOk result (λ text. text.items ≡ spec.holds_line settings.now) }
{
    let yes = pipe_acceptance(alloc, settings)?;
    let mut out = Vec::new(alloc);
    put(&mut out, b"holds")?;
    put(&mut out, &yes.as_slice()[3..])?;
    Ok(out)
}
