//! The design of an HCL text, or why there is none.
ghost use Rattle.std.specs.Prelude.{◌≡◌, IfErr, IfOk};
ghost use Rattle.hcl_types.specs.Tables.{IsBoundDesign};
ghost use Rattle.hcl_design.specs.Designs.{HasDesign, IsDesign};
ghost use Rattle.seq_plus.specs.Datapaths.{table_rows};
ghost use Rattle.tell_faults.specs.Stops.{status_of};

use crate::datapaths::table_of;
use crate::faulty::{hcl_faults_of, report_stop};
use crate::stop::Stop;
use hcl_design::NoDesign;
use hcl_types::{BoundDesign, Datapath};
use std::alloc::Global;

/// The design of an HCL text for a datapath.
pub fn design_of(alloc: Global, path: Datapath, source: &[u8]) -> Result<BoundDesign, NoDesign>
    ensures design { IfOk result (λ bound. IsDesign (table_rows path) source.now bound.ordered.design.terms) }
    ensures ordered { IfOk result (IsBoundDesign (table_rows path)) }
    ensures refused { IfErr result (λ why. why ≡ NoDesign.Refused → HasDesign (table_rows path) source.now → ⊥) }
{
    let Ok(table) = table_of(alloc, path) else {
        return Err(NoDesign::Memory);
    };
    match hcl_design::design_of(alloc, source, &table) {
        Ok(ordered) => Ok(BoundDesign { table, ordered }),
        Err(why) => Err(why),
    }
}

/// The stop at a text without a design: every fault of it.
pub fn fault_stop<'a>(
    alloc: Global,
    file: &'a str,
    source: &[u8],
    path: Datapath,
    why: &NoDesign,
) -> Stop<'a>
    ensures { status_of result ≡ 5 → why.now ≡ NoDesign.Refused }
{
    match why {
        NoDesign::Memory => Stop::Memory,
        NoDesign::Refused => report_stop(alloc, file, hcl_faults_of(alloc, source, Some(path))),
    }
}
