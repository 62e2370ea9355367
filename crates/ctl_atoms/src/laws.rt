//! Theorems about atoms and leaves. Each is a function that does nothing and whose contract is the theorem.
ghost use Rattle.std.specs.Prelude.{◌≡◌, ℕ, IsTrue, List};
ghost use Rattle.std.specs.List.{AllByRecursion};
ghost use Rattle.hcl_types.specs.Equations.{IsSolution};
ghost use Rattle.hcl_types.specs.Lists.{IsApart, each};
ghost use Rattle.hcl_types.specs.Tables.{IsOrderOf};
ghost use Rattle.hcl_types.specs.declared.table.Row.{Row};
ghost use Rattle.hcl_types.specs.declared.term.Term.{Term};
ghost use Rattle.ctl_atoms.specs.Atoms.{atoms_of};
ghost use Rattle.ctl_atoms.specs.Leaves.{is_listed};
ghost use Rattle.ctl_atoms.specs.TermAtoms.{term_atoms};
ghost use Rattle.ctl_atoms.specs.Rows.{leaf_rule};
ghost use Rattle.ctl_atoms.specs.declared.leaf.Leaf.{Leaf};

/// If a design can be ordered, exactly one list of leaves for each name solves their equations.
pub fn law_of_leaves()
    ensures some { (rows : List Row) (terms : List Term) (ids : List ℕ) → IsOrderOf rows terms ids → (leaves : ℕ → List Leaf) × IsSolution (leaf_rule rows terms) leaves }
    ensures one { (rows : List Row) (terms : List Term) (ids : List ℕ) → IsOrderOf rows terms ids → (f g : ℕ → List Leaf) →
        IsSolution (leaf_rule rows terms) f → IsSolution (leaf_rule rows terms) g → (n : ℕ) → f n ≡ g n }
{}

/// The list of a design's atoms has no atom twice, and has each one that a definition needs.
pub fn law_of_atoms()
    ensures apart { (leaves : ℕ → List Leaf) (terms : List Term) → IsApart (atoms_of leaves terms) }
    ensures listed { (leaves : ℕ → List Leaf) (terms : List Term) → AllByRecursion (λ t. IsTrue (each (is_listed (atoms_of leaves terms)) (term_atoms leaves t).asks)) terms }
{}
