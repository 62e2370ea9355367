//! Gates of conditions by the icode of a field, and its row of the instruction table.
ghost use Rattle.std.specs.Prelude.{◌≡◌, ◌<◌, ◌≤◌, ◌+◌, ℕ, Bool, List, IfOk};
ghost use Rattle.nets.specs.Nets.{ExtendsNet};
ghost use Rattle.y86_isa.specs.Table.{row};
ghost use Rattle.y86_isa.specs.declared.columns.Row.{Row};
ghost use Rattle.ctl_atoms.specs.declared.leaf.Leaf.{Leaf};
ghost use Rattle.ctl_atoms.specs.Leaves.{Assignment};
ghost use Rattle.ctl_picks.specs.declared.controls.Entry.{Entry};
ghost use Rattle.ctl_picks.specs.Picks.{IsInside};
ghost use Rattle.net_fields.specs.Spelling.{spelt};
ghost use Rattle.ctl_rules.specs.ControlGates.{IsControlGate};

use ctl_picks::Controls;
use net_fields::{BitRange, here};
use nets::NetBuilder;
use y86_base::{Memory, Variant};
use y86_isa::{Row, row};

/// A condition of a rule, by an icode and its row of the instruction table.
pub trait RowGates {
    /// The condition itself.
    ghost asks: { Self → ℕ → Row → List Bool → Assignment → (ℕ → Leaf) → Bool };

    /// In a net with this number of variables, the fields that it reads are among them, and its signals have control
    /// values.
    ghost knows: { Self → ℕ → List Entry → Type 0 };

    /// A gate of the condition.
    fn at_row(
        &self,
        b: &mut NetBuilder,
        ctl: &Controls,
        icode: u64,
        row: Row,
    ) -> Result<u64, Memory>
        requires inside { IsInside b.old ctl.now }
        requires known { knows self.now b.old.vars ctl.now }
        requires top { row.ifun_top < 16 }
        ensures extends { ExtendsNet b.old b.new }
        ensures has_truth { IfOk result (λ g. IsControlGate b.new ctl.now g (asks self.now icode row)) };
}

/// A gate of the condition for the icode that a field spells, and its row in the table of the variant.
pub fn by_icode<R: RowGates>(
    b: &mut NetBuilder,
    ctl: &Controls,
    v: Variant,
    icode: BitRange,
    rule: &R,
) -> Result<u64, Memory>
    requires inside { IsInside b.old ctl.now }
    requires known { R.knows rule.now b.old.vars ctl.now }
    requires place { icode.first + icode.bits ≤ b.old.vars }
    requires bits { icode.bits ≡ 4 }
    ensures extends { ExtendsNet b.old b.new }
    ensures has_truth { IfOk result (λ g. IsControlGate b.new ctl.now g (λ w. R.asks rule.now (spelt w icode.first icode.bits) (row v (spelt w icode.first icode.bits)) w)) }
{
    let mut all = b.constant(true)?;
    for code in 0..16 {
        let asked = rule.at_row(b, ctl, code, row(v, code))?;
        let each = here(b, icode, code, asked)?;
        all = b.and(all, each)?;
    }
    Ok(all)
}
