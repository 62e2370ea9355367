//! Theorems about the fields of PIPE. Each is a function that does nothing and whose contract is the theorem.
ghost use Rattle.std.specs.Prelude.{◌≡◌, ℕ, Bool, true, List, Some};
ghost use Rattle.net_fields.specs.declared.field_specs.BitRange.{BitRange};
ghost use Rattle.pipe_fields.specs.Allowed.{allowed, fetch_allowed};
ghost use Rattle.pipe_fields.specs.Laws.{HasNoRegisters, IsPatternOf, IsPlaceOf, of_bubbles};
ghost use Rattle.pipe_fields.specs.Layout.{FetchLine, Fields, InRange, fields_of, place_of};
ghost use Rattle.y86_base.specs.declared.parts.Variant.{Variant};

/// Fields in range have a pattern of bits that spells them, whatever bits follow; and what bits spell is in range.
pub fn law_of_patterns()
    ensures pattern { (c : Fields) (behind : List Bool) → InRange c → IsPatternOf c behind }
    ensures range { (w : List Bool) → InRange (fields_of w) }
{}

/// The bits at the place of a signal spell the number of its field.
pub fn law_of_places()
    ensures { (name : ℕ) (p : BitRange) → place_of name ≡ Some p → IsPlaceOf name p }
{}

/// In an allowed line of a bubble no register is named.
pub fn law_of_bubbles()
    ensures { (v : Variant) (c : Fields) → allowed v c ≡ true → HasNoRegisters c }
{}

/// A pipeline of bubbles alone is allowed, whatever is fetched.
pub fn law_of_the_start()
    ensures { (v : Variant) (f : FetchLine) → fetch_allowed v f ≡ true → allowed v (of_bubbles f) ≡ true }
{}
