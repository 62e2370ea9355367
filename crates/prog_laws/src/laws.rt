//! Theorems about generated programs and drawn valuations. Each is a function that does nothing and whose contract is the theorem.
ghost use Rattle.std.specs.Prelude.{◌≡◌, ◌<◌, ◌≤◌, ℕ, ◌+◌, true, List, length, take};
ghost use Rattle.y86_base.specs.declared.parts.Variant.{Variant};
ghost use Rattle.y86_isa.specs.Run.{IsImage, Pure};
ghost use Rattle.pipe_fields.specs.Allowed.{allowed};
ghost use Rattle.pipe_fields.specs.Layout.{fields_of, field_count};
ghost use Rattle.prog_gen.specs.Choices.{valuation};
ghost use Rattle.prog_laws.specs.AllowedPrefix.{PrefixGoesOn, IsAllowedPrefix};
ghost use Rattle.prog_laws.specs.FirstBytes.{bytes_of_1, bytes_of_2, bytes_of_5, bytes_of_7};
ghost use Rattle.prog_gen.specs.Programs.{program, data_start};
ghost use Rattle.prog_laws.specs.Laws.{HasDataArea, RunsToHalt, KeepsCode};

/// Program `n` is an image whose last 2048 bytes are its data area. Its run has n + 1 records and ends with HLT, for
/// both instruction sets. It fetches only below its data area and stores only in it, so that no instruction ever
/// stores what another fetches. Programs 1, 2, 5 and 7 begin with known bytes.
#[tactic(auto, using(crate::proofs::Images::is_image))]
pub fn law_of_programs()
    ensures image { (n : ℕ) → 1 ≤ n → n ≤ 100000 → IsImage (program n) }
    ensures data { (n : ℕ) → 1 ≤ n → n ≤ 100000 → HasDataArea (program n) n (data_start n) }
    ensures run { (v : Variant) (n : ℕ) → 1 ≤ n → n ≤ 100000 → RunsToHalt v (program n) (n + 1) }
    ensures code { (v : Variant) (n : ℕ) → 1 ≤ n → n ≤ 100000 → KeepsCode v (program n) (data_start n) }
    ensures pure { (v : Variant) (n k : ℕ) → 1 ≤ n → n ≤ 100000 → Pure v (program n) k }
    ensures first { take (length bytes_of_1) (program 1) ≡ bytes_of_1 }
    ensures second { take (length bytes_of_2) (program 2) ≡ bytes_of_2 }
    ensures fifth { take (length bytes_of_5) (program 5) ≡ bytes_of_5 }
    ensures seventh { take (length bytes_of_7) (program 7) ≡ bytes_of_7 }
{}

/// A drawn valuation is allowed. After numbers with which an allowed valuation begins there is a choice, and the
/// choices are exactly the numbers with which an allowed valuation continues.
pub fn law_of_draws()
    ensures drawn { (v : Variant) (atoms seed i : ℕ) → allowed v (fields_of (valuation v atoms seed i)) ≡ true }
    ensures choices { (v : Variant) (before : List ℕ) → length before < field_count → IsAllowedPrefix v before → PrefixGoesOn v before }
{}
