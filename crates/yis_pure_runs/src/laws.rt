//! Theorems about the images to which the pipeline's theorem applies. Each is a function that does nothing; its
//! contract is the theorem.
ghost use Rattle.std.specs.Prelude.{◌≡◌, ◌↔◌, ℕ, ◌+◌, ◌<◌, ◌≤◌, List, Some, length, take};
ghost use Rattle.y86_base.specs.Image.{IsImage, word_at};
ghost use Rattle.y86_base.specs.declared.parts.Stat.TheVariants.{Aok, Hlt};
ghost use Rattle.y86_base.specs.declared.parts.Variant.{Variant};
ghost use Rattle.y86_isa.specs.Run.{Pure, run};
ghost use Rattle.y86_isa.specs.Blocks.{fetched};
ghost use Rattle.yis_pure_runs.specs.Near.{NearPure, StoresNearlyApart};
ghost use Rattle.yis_pure_runs.specs.Purity.{StoresAvoidCode, call_bytes, call_image};

/// No instruction fetches a byte that an earlier one stored, exactly if each store is all before the bytes of every
/// later instruction, or all after them.
pub fn law_of_purity()
    ensures { (v : Variant) (image : List ℕ) (n : ℕ) → StoresAvoidCode v image n ↔ Pure v image n }
{}

/// A program may write its own code, as long as no instruction fetches a byte that one of the three before it stored.
/// This holds exactly if each store is apart from the bytes of each of the three instructions after it. It holds if the
/// program fetches nothing that it stored. In such a program, the bytes that an instruction fetches were the same up to
/// three steps before.
pub fn law_of_near_purity()
    ensures pure { (v : Variant) (image : List ℕ) (n : ℕ) → Pure v image n → NearPure v image n }
    ensures fewer { (v : Variant) (image : List ℕ) (n k : ℕ) → k ≤ n → NearPure v image n → NearPure v image k }
    ensures apart { (v : Variant) (image : List ℕ) (n : ℕ) → StoresNearlyApart v image n ↔ NearPure v image n }
    ensures fetch { (v : Variant) (image : List ℕ) (n i j : ℕ) → IsImage image → NearPure v image n → i < n → j ≤ i → i ≤ j + 3 →
        (run v image i).stat ≡ Aok →
        fetched v (run v image j).mem (run v image i).pc ≡ fetched v (run v image i).mem (run v image i).pc }
{}

/// The program examples/programs/call.yo, with which an image of 512 bytes begins, calls its function. The function
/// returns to the address after the call, where the program halts after four instructions. Its stores are apart from
/// its instructions, so it fetches nothing that it stored, at any number of steps.
pub fn law_of_call()
    ensures image { IsImage call_image }
    ensures size { length call_image ≡ 512 }
    ensures extends { take (length call_bytes) call_image ≡ call_bytes }
    ensures calls { (v : Variant) → ((run v call_image 2).pc ≡ 20) × (word_at (run v call_image 2).mem 248 ≡ Some 19) }
    ensures returns { (v : Variant) → ((run v call_image 3).pc ≡ 19) × ((run v call_image 3).stat ≡ Aok) }
    ensures halts { (v : Variant) → (run v call_image 4).stat ≡ Hlt }
    ensures apart { (v : Variant) (n : ℕ) → StoresAvoidCode v call_image n }
    ensures pure { (v : Variant) (n : ℕ) → Pure v call_image n }
{}
