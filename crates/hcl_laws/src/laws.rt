//! Theorems about designs. Each is a function that does nothing and whose contract is the theorem.
ghost use Rattle.std.specs.Prelude.{◌≡◌, ◌⊎◌, ℕ, List};
ghost use Rattle.hcl_print.specs.Print.{printed};
ghost use Rattle.hcl_read.specs.Read.{ReadsAs};
ghost use Rattle.hcl_tree.specs.declared.tree.File.{File};
ghost use Rattle.hcl_types.specs.Equations.{needs_of};
ghost use Rattle.hcl_types.specs.Tables.{IsBound, IsOrderOf, IsSound, needs};
ghost use Rattle.hcl_types.specs.declared.table.Row.{Row};
ghost use Rattle.hcl_types.specs.declared.term.Term.{Term};
ghost use Rattle.hcl_order.specs.Dependence.{Depends, FirstCycle};
ghost use Rattle.ctl_atoms.specs.Atoms.{AreAtoms, IsFirstMixed, IsOver64};
ghost use Rattle.ctl_atoms.specs.declared.leaf.Atom.{Atom};

/// If no name depends on itself, a design has an order.
pub fn law_of_orders()
    ensures { (rows : List Row) (terms : List Term) → IsSound rows → IsBound rows terms → ((n : ℕ) → Depends (needs_of (needs rows terms)) n n → ⊥) →
        (ids : List ℕ) × IsOrderOf rows terms ids }
{}

/// There is at most one first cycle.
pub fn law_of_cycles()
    ensures { (needs : ℕ → List ℕ) (a b : List ℕ) → FirstCycle needs a → FirstCycle needs b → a ≡ b }
{}

/// A design with an order has one list of atoms, or one reason why it has none: a first definition that mixes codes with
/// words, or over 64 atoms.
pub fn law_of_atoms()
    ensures some { (rows : List Row) (terms : List Term) (ids : List ℕ) → IsOrderOf rows terms ids →
        ((a : List Atom) × AreAtoms rows terms a) ⊎ (((n : ℕ) × IsFirstMixed rows terms n) ⊎ IsOver64 rows terms) }
    ensures one { (rows : List Row) (terms : List Term) (ids : List ℕ) → IsOrderOf rows terms ids → (a b : List Atom) → AreAtoms rows terms a → AreAtoms rows terms b → a ≡ b }
    ensures mixed { (rows : List Row) (terms : List Term) (m n : ℕ) → IsFirstMixed rows terms m → IsFirstMixed rows terms n → m ≡ n }
    ensures mixed_or_atoms { (rows : List Row) (terms : List Term) (n : ℕ) (a : List Atom) → IsFirstMixed rows terms n → AreAtoms rows terms a → ⊥ }
    ensures mixed_or_over { (rows : List Row) (terms : List Term) (n : ℕ) → IsFirstMixed rows terms n → IsOver64 rows terms → ⊥ }
    ensures over_or_atoms { (rows : List Row) (terms : List Term) (ids : List ℕ) → IsOrderOf rows terms ids → (a : List Atom) → IsOver64 rows terms → AreAtoms rows terms a → ⊥ }
{}

/// A file that is read, printed and read again stays the same.
#[tactic(auto, using(crate::proofs::Printed::printed_again))]
pub fn law_of_printing()
    ensures { (text : List ℕ) (f : File) → ReadsAs text f → ReadsAs (printed f.items) f }
{}
