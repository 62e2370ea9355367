//! Words as signed numbers.
ghost use Rattle.std.specs.Prelude.{◌≡◌, IsTrue, ◌↔◌, ◌<ℤ◌};
ghost use Rattle.std.specs.Int.{cast_signed, w64};
ghost use Rattle.y86_base.specs.Words as spec;

/// Whether a word is less than another as signed numbers.
#[tactic(auto, unfolding(crate::specs::Words::is_less))]
pub fn is_less(a: u64, b: u64) -> bool
    ensures word { result ≡ spec.is_less a b }
    ensures signed { IsTrue result ↔ (cast_signed w64 a <ℤ cast_signed w64 b) }
{
    a.cast_signed() < b.cast_signed()
}
