//! The names of a design as gates, over the bits of a control valuation of PIPE.
ghost use Rattle.std.specs.Prelude.{◌≡◌, ◌+◌, IfOk, IfErr};
ghost use Rattle.hcl_types.specs.Tables.{IsBound, IsOrderOf};
ghost use Rattle.ctl_atoms.specs.Atoms.{IsCtlFault};
ghost use Rattle.dp_signals.specs.PipeTable.{pipe_rows};
ghost use Rattle.hazard_rules.specs.Designs.{IsTranslated, places as spec_places};

use ctl_atoms::{Atom, CtlFault, atoms};
use ctl_formula::translate;
use ctl_given::Place;
use ctl_picks::Controls;
use dp_signals::{pipe_row as row, pipe_table};
use hcl_types::OrderedDesign;
use nets::NetBuilder;
use pipe_fields::{BIT_COUNT, field_table, places as field};
use std::alloc::Global;

/// A net builder with a variable for each bit of a control valuation, the gates of all names, and the atoms.
#[derive(Drop)]
pub(crate) struct DesignGates {
    pub b: NetBuilder,
    pub ctl: Controls,
    pub listed: Vec<Atom>,
}

macro_rules! signal_places {
    ($($field:ident $label:literal $($signal:ident)?),*) => {
        [$($(Place { name: row::$signal, first: field::$field.first, bits: field::$field.bits },)?)*]
    };
}

static PLACES: [Place; 27] = field_table!(signal_places);

/// The places of the signals that are fields, in the form that the translation of a design needs.
fn places() -> &'static [Place]
    ensures { result.now ≡ spec_places }
{
    &PLACES
}

/// The gates of all names of a design. A design that mixes classes or needs more than 64 atoms has none.
pub(crate) fn translated(alloc: Global, ordered: &OrderedDesign) -> Result<DesignGates, CtlFault>
    requires bound { IsBound pipe_rows ordered.now.design.terms }
    requires ordered { IsOrderOf pipe_rows ordered.now.design.terms ordered.now.order.ids }
    ensures has_truth { IfOk result (λ r. IsTranslated ordered.now.design.terms r.b r.ctl r.listed.items) }
    ensures fault { IfErr result (IsCtlFault pipe_rows ordered.now.design.terms) }
{
    let t = match pipe_table(alloc) {
        Ok(t) => t,
        Err(_) => return Err(CtlFault::Memory),
    };
    let listed = atoms(alloc, ordered, &t)?;
    let mut b = NetBuilder::new(alloc, BIT_COUNT + listed.len() as u32);
    let ctl = translate(alloc, ordered, &t, places(), &mut b)?;
    Ok(DesignGates { b, ctl, listed })
}
