//! Theorems about control values. Each is a function that does nothing and whose contract is the theorem.
ghost use Rattle.std.specs.Prelude.{◌≡◌, ℕ, List};
ghost use Rattle.hcl_types.specs.declared.term.Term.{Term};
ghost use Rattle.hcl_types.specs.declared.table.Row.{Row};
ghost use Rattle.hcl_types.specs.Tables.{IsOrderOf};
ghost use Rattle.ctl_atoms.specs.declared.leaf.Leaf.{Leaf};
ghost use Rattle.ctl_atoms.specs.Leaves.{Assignment};
ghost use Rattle.ctl_equations.specs.Controls.{AreControls};
ghost use Rattle.ctl_equations.specs.Laws.{ControlsAgree, HasControls};

/// If the rows of a table and a design have an order, exactly one assignment of control values solves their equations,
/// whatever the numbers of the fields and the truths of comparisons are.
pub fn law_of_controls()
    ensures exist { (rows : List Row) (terms : List Term) (ids : List ℕ) (field : ℕ → ℕ) (α : Assignment) → IsOrderOf rows terms ids → HasControls rows terms field α }
    ensures unique { (rows : List Row) (terms : List Term) (ids : List ℕ) (field : ℕ → ℕ) (α : Assignment) → IsOrderOf rows terms ids →
        (cv other : ℕ → Leaf) → AreControls rows terms field α cv → AreControls rows terms field α other → (n : ℕ) → cv n ≡ other n }
{}

/// If the comparisons are those of the values of a cycle, and each given row's control value has the row's word, then
/// each control value has the word of its name.
pub fn law_of_agreement()
    ensures { ControlsAgree }
{}
