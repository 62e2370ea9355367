//! The formulas of a design for PIPE: the gates that decide its settings, and its rules.
ghost use Rattle.std.specs.Prelude.{◌≡◌, List, IfErr, IfOk};
ghost use Rattle.nets.specs.Nets.{ExtendsNet};
ghost use Rattle.hcl_types.specs.Tables.{IsBound, IsOrderOf};
ghost use Rattle.hcl_types.specs.declared.term.Term.{Term};
ghost use Rattle.ctl_atoms.specs.Atoms.{IsCtlFault};
ghost use Rattle.dp_signals.specs.PipeTable.{pipe_rows};
ghost use Rattle.hazard_rules.specs.Belonging.{Belong, BelongTo};
ghost use Rattle.hazard_rules.specs.Parts.{AreLateGates, AreRules};

use crate::design::translated;
use crate::early_gates::early_formulas;
use crate::rules::rules_told;
use ctl_atoms::{Atom, CtlFault};
use ctl_picks::Controls;
use ctl_rules::Rules;
use hcl_types::OrderedDesign;
use nets::{Net, NetBuilder};
use pipe_motion::Settings;
use pipe_motion_gates::{Late, late_gates};
use std::alloc::Global;
use std::mem;
use y86_base::{Items, Memory, Variant};

/// What the settings and the obligations of a design are built from: a net with one variable for each bit of a control
/// valuation (the fields first, then the atoms), with gates for the control values of all names; the gates that decide
/// pt, pb and tv (a setting holds if its gate is true at every valuation); and the atoms, in their order.
#[derive(Drop)]
pub struct Parts {
    pub variant: Variant,
    pub net: Net,
    pub pt: [u64; 7],
    pub pb: [u64; 7],
    pub tv: u64,
    pub atoms: Vec<Atom>,
    pub ctl: Controls,
}

/// The parts of a design.
///
/// Errors: `Mixed` and `AtomsOver64`, as `ctl_atoms::atoms` reports them; `Memory`.
pub fn pipe_parts(alloc: Global, v: Variant, ordered: &OrderedDesign) -> Result<Parts, CtlFault>
    requires bound { IsBound pipe_rows ordered.now.design.terms }
    requires ordered { IsOrderOf pipe_rows ordered.now.design.terms ordered.now.order.ids }
    ensures belong { IfOk result (BelongTo ordered.now.design.terms) }
    ensures variant { IfOk result (λ p. p.variant ≡ v) }
    ensures fault { IfErr result (IsCtlFault pipe_rows ordered.now.design.terms) }
{
    let made = translated(alloc, ordered)?;
    let mut b = made.b;
    let ctl = made.ctl;
    let atoms = made.listed;
    match early_formulas(&mut b, &ctl, v, atoms.as_slice()) {
        Err(_) => Err(CtlFault::Memory),
        Ok(gates) => {
            let pt = gates.pt;
            let pb = gates.pb;
            Ok(Parts {
                variant: v,
                net: b.finish(),
                pt,
                pb,
                tv: gates.tv,
                atoms,
                ctl,
            })
        }
    }
}

/// Adds to the net of parts the gates that decide lf, je and rm, given pt, pb and tv. Gates that were already in the
/// net stay, even if memory runs out.
pub fn pipe_late(
    alloc: Global,
    p: &mut Parts,
    pt: [bool; 7],
    pb: [bool; 7],
    tv: bool,
) -> Result<Late, Memory>
    requires belong { Belong p.old }
    ensures late { (terms : List Term) → BelongTo terms p.old → IfOk result (λ r. AreLateGates p.old.variant terms pt pb tv p.new.net r.lf r.je r.rm) }
    ensures belong { (terms : List Term) → BelongTo terms p.old → BelongTo terms p.new }
    ensures extends { ExtendsNet p.old.net p.new.net }
    ensures rest { p.new ≡ record { variant = p.old.variant; net = p.new.net; pt = p.old.pt; pb = p.old.pb; tv = p.old.tv; atoms = p.old.atoms; ctl = p.old.ctl } }
{
    let free = Settings {
        pt,
        pb,
        tv,
        lf: true,
        je: true,
        rm: true,
    };
    let empty = NetBuilder::new(alloc, 0).finish();
    let mut b = NetBuilder::resume(alloc, mem::replace(&mut p.net, empty));
    let late = late_gates(&mut b, &p.ctl, p.variant, &free, p.atoms.as_slice());
    p.net = b.finish();
    late
}

/// The 27 obligations at settings, in their order, over a net that begins with that of the parts: each gate is its obligation at
/// every pattern of bits of a control valuation.
pub fn pipe_rules(alloc: Global, p: Parts, s: Settings) -> Result<Rules, Memory>
    requires belong { Belong p }
    ensures rules { (terms : List Term) → BelongTo terms p → IfOk result (λ r. AreRules p.variant terms s r.net r.list) }
    ensures extends { IfOk result (λ r. ExtendsNet p.net r.net) }
    ensures variant { IfOk result (λ r. r.variant ≡ p.variant) }
    ensures atoms { IfOk result (λ r. r.atoms ≡ p.atoms.items) }
{
    let variant = p.variant;
    let ctl = p.ctl;
    let atoms = p.atoms;
    let mut b = NetBuilder::resume(alloc, p.net);
    let list = rules_told(alloc, &mut b, &ctl, variant, &s, atoms.as_slice())?;
    Ok(Rules {
        variant,
        net: b.finish(),
        list: Items::of(list),
        atoms: Items::of(atoms),
    })
}
