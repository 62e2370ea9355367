//! The errors of a check.
ghost use Rattle.std.specs.Prelude.{◌≡◌, List};
ghost use Rattle.hcl_types.specs.declared.table.Row.{Row};
ghost use Rattle.hcl_types.specs.declared.term.Term.{Term};
ghost use Rattle.ctl_atoms.specs.Atoms.{IsCtlFault};
ghost use Rattle.ctl_verdicts.specs.ObligationSet.{IsFault};

use ctl_atoms::CtlFault;

/// Why there is no verdict.
#[derive(Clone, Copy, Debug, PartialEq, Eq)]
pub enum CheckFault {
    /// The design has no control values.
    Ctl(CtlFault),
    /// Memory ran out.
    Memory,
}

/// Turns a fault of the control values into one of the check.
pub fn check_fault(fault: CtlFault) -> CheckFault
    ensures { (rows : List Row) (terms : List Term) → IsCtlFault rows terms fault → IsFault rows terms result }
{
    match fault {
        CtlFault::Memory => CheckFault::Memory,
        _ => CheckFault::Ctl(fault),
    }
}
