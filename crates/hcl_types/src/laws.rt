//! Theorems about terms and equations. Each is a function that does nothing; its contract is the theorem.
ghost use Rattle.std.specs.Prelude.{◌≡◌, ℕ, ◌<◌, Bool, true, List, length, slice_set};
ghost use Rattle.std.specs.List.{AllByRecursion};
ghost use Rattle.hcl_types.specs.Equations.{IsSolution, IsLocal, IsTopologicalOrder, evaluated_along, is_known};
ghost use Rattle.hcl_types.specs.Terms.{at, names, value, word_meaning};
ghost use Rattle.hcl_types.specs.declared.term.Term.{Term};

/// The value of a term depends only on the names in it.
pub fn law_of_values()
    ensures { (t : Term) (f g : ℕ → ℕ) → AllByRecursion (λ id. f id ≡ g id) (names t) → value word_meaning f t ≡ value word_meaning g t }
{}

/// Equations whose rows can be ordered have one solution, and computing the rows along the order gives it. Each rule
/// reads only what its row needs; known rows have their values from the start.
pub fn law_of_orders()
    ensures solved { (needs : List (List ℕ)) (known : List Bool) (ids : List ℕ) (rule : ℕ → (ℕ → ℕ) → ℕ) (vals : List ℕ) →
        IsTopologicalOrder needs known ids → IsLocal rule needs → AllByRecursion (λ n. n < length vals) ids →
        ((n : ℕ) → is_known known n ≡ true → (f : ℕ → ℕ) → at vals n ≡ rule n f) →
        IsSolution rule (at (evaluated_along at slice_set rule vals ids)) }
    ensures unique { (needs : List (List ℕ)) (known : List Bool) (ids : List ℕ) (rule : ℕ → (ℕ → ℕ) → ℕ) →
        IsTopologicalOrder needs known ids → IsLocal rule needs →
        ((n : ℕ) → is_known known n ≡ true → (f g : ℕ → ℕ) → rule n f ≡ rule n g) →
        (f g : ℕ → ℕ) → IsSolution rule f → IsSolution rule g → (n : ℕ) → f n ≡ g n }
{}
