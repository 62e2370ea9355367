//! Theorems about fields and patterns. Each is a function that does nothing and whose contract is the theorem.
ghost use Rattle.std.specs.Prelude.{List, ℕ, Bool, ◌≡◌, Some};
ghost use Rattle.net_fields.specs.Laws.{IsPatternOf, IsPlaceOf};
ghost use Rattle.net_fields.specs.FieldSpecs.{decoded, InRange, place_from};
ghost use Rattle.net_fields.specs.declared.field_specs.BitRange.{BitRange};
ghost use Rattle.net_fields.specs.declared.field_specs.FieldSpec.{FieldSpec};

/// Numbers in the range of a table's fields have a pattern of bits that spells them, whatever follows it; and the
/// numbers that bits spell are in range.
pub fn law_of_patterns()
    ensures pattern { (ss : List FieldSpec) (xs : List ℕ) (rest : List Bool) → InRange ss xs → IsPatternOf ss xs rest }
    ensures range { (ss : List FieldSpec) (first : ℕ) (w : List Bool) → InRange ss (decoded ss first w) }
{}

/// The bits at the place of a signal spell the number of its field.
pub fn law_of_places()
    ensures { (ss : List FieldSpec) (name : ℕ) (p : BitRange) → place_from ss 0 name ≡ Some p → IsPlaceOf ss name p }
{}
