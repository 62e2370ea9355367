//! Accepted files for PIPE: a value of `Accepted` is a design whose pipeline refines the run of instructions.
ghost use Rattle.std.specs.Prelude.{◌≡◌, IfErr, IfNone, IfOk, IfSome};
ghost use Rattle.dp_signals.specs.PipeTable.{pipe_rows};
ghost use Rattle.hcl_types.specs.Tables.{IsBound, IsOrderOf};
ghost use Rattle.control_check.specs.Accepted.{IsAccepted, IsRejected};
ghost use Rattle.control_check.specs.PipeVerdicts.{IsPipeFault};

use crate::pipe_verdict::check_pipe;
use crate::verdict::Verdict;
use ctl_verdicts::CheckFault;
use hcl_types::{Design, OrderedDesign};
use pipe_motion::Settings;
use std::alloc::Global;
use std::marker::Model;
use y86_base::Variant;

/// An accepted design for PIPE, with its instruction set and its settings. Only `accept_pipe` makes one.
#[derive(Debug, Drop)]
pub struct Accepted<'a> {
    variant: Variant,
    design: &'a Design,
    settings: Settings,
}

impl<'a> Model for Accepted<'a> {
    ghost use Rattle.std.specs.Coded.{codes};
    ghost use Rattle.hcl_types.specs.contracts.term.Term as term;
    ghost use Rattle.control_check.specs.Accepted.{CheckedFile, IsAccepted};

    ghost Value = { CheckedFile };

    ghost coded = { Prim.hlevel (codes, term.the_row.coded) };

    ghost view = { λ a. record { variant = a.variant; design = a.design.now; settings = a.settings } };

    ghost invariant = { λ a. IsAccepted (record { variant = a.variant; design = a.design.now; settings = a.settings }) };
}

impl<'a> Accepted<'a> {
    /// The instruction set with which the design is accepted.
    pub fn variant(&self) -> Variant
        ensures is { result ≡ self.now.variant }
        ensures accepted { IsAccepted self.now }
    {
        self.variant
    }

    /// The accepted design.
    pub fn design(&self) -> &'a Design
        ensures is { result.now ≡ self.now.design }
        ensures accepted { IsAccepted self.now }
    {
        self.design
    }

    /// The settings of the design.
    pub fn settings(&self) -> Settings
        ensures is { result ≡ self.now.settings }
        ensures accepted { IsAccepted self.now }
    {
        self.settings
    }
}

/// The design, if it is accepted. Then its pipeline refines the run of instructions on every image whose instructions
/// fetch no byte that one of the three before them stored.
pub fn accept_pipe<'a>(
    alloc: Global,
    variant: Variant,
    ordered: &'a OrderedDesign,
) -> Result<Option<Accepted<'a>>, CheckFault>
    requires bound { IsBound pipe_rows ordered.now.design.terms }
    requires ordered { IsOrderOf pipe_rows ordered.now.design.terms ordered.now.order.ids }
    ensures file { IfOk result (λ o. IfSome o (λ a. (a.variant ≡ variant) × (a.design ≡ ordered.now.design))) }
    ensures accepted { IfOk result (λ o. IfSome o IsAccepted) }
    ensures rejected { IfOk result (λ o. IfNone o (IsRejected variant ordered.now.design.terms)) }
    ensures fault { IfErr result (IsPipeFault ordered.now.design.terms) }
{
    match check_pipe(alloc, variant, ordered)? {
        Verdict::Yes(settings) => Ok(Some(Accepted {
            variant,
            design: &ordered.design,
            settings,
        })),
        Verdict::No { .. } => Ok(None),
    }
}
