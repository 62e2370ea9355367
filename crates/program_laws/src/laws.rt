//! Theorems about an accepted file and a program. Each is a function that does nothing; its contract is the theorem.
ghost use Rattle.std.specs.Prelude.{◌≡◌, ◌≢◌, ◌*◌, ◌≤◌, Bool, List, ℕ, length, Ok, Some, false, true};
ghost use Rattle.pipe_refinement.specs.Refines.{Refines};
ghost use Rattle.prog_cosim.specs.Ends.{StopsIn};
ghost use Rattle.program_check.specs.Near.{IsWatched};
ghost use Rattle.program_check.specs.declared.watching.Watched.TheVariants.{Apart};
ghost use Rattle.program_laws.specs.Prints.{PrintsReport, PrintsRun};
ghost use Rattle.y86_base.specs.declared.parts.Variant.{Variant};
ghost use Rattle.y86_isa.specs.Run.{IsImage, Pure};
ghost use Rattle.yo_object.specs.ObjectText.{object_of};
ghost use Rattle.y86_call_laws.specs.CheckedRuns.{HasAccepted};
ghost use Rattle.cli_plans.specs.Known.{Known};
ghost use Rattle.cli_plans.specs.PlanFollowing.{CallStates};
ghost use Rattle.y86_cli.specs.CallContract.{MeetsContract};
ghost use Rattle.y86_words.specs.Forms.{form_of, psim, yis};

/// The theorem for your pipeline and your program. Suppose that:
///
/// - `check pipe` accepted the HCL file;
/// - the object file loads;
/// - `watch` of its image finds that the program stops in `steps` steps, and that it fetches nothing that one of the
///   three instructions before stored.
///
/// Then `psim` of both, with a limit of at least five cycles for each step, prints the trace and the report of the run
/// by instructions, within that time. `yis` prints the same report with the same status. Excepted are calls with a
/// failed read, a failed write or too little memory.
pub fn law_of_checked_programs()
    ensures psim { (words : List (List ℕ)) (name object text bytes image : List ℕ) (size limit most steps : ℕ) (trace : Bool) (v : Variant) (call : CallStates) (status : ℕ) →
        form_of words ≡ Some (psim name object size limit trace false v) →
        call.files_before.told name ≡ Some (Some text) → length text ≤ 65536 → HasAccepted v (Some (Some text)) →
        call.files_before.told object ≡ Some (Some bytes) → length bytes ≤ 1048576 → object_of bytes size ≡ Ok image →
        IsWatched v image most (Apart steps true) → 5 * steps ≤ limit →
        MeetsContract (form_of words) call status → status ≢ 3 → status ≢ 4 → status ≢ 6 →
        PrintsRun v image steps trace call.out_before call.out_after status }
    ensures yis { (words : List (List ℕ)) (object bytes image : List ℕ) (size limit most steps : ℕ) (v : Variant) (call : CallStates) (status : ℕ) →
        form_of words ≡ Some (yis object size limit v) →
        call.files_before.told object ≡ Some (Some bytes) → length bytes ≤ 1048576 → object_of bytes size ≡ Ok image →
        IsWatched v image most (Apart steps true) → steps ≤ limit →
        MeetsContract (form_of words) call status → status ≢ 3 → status ≢ 4 → status ≢ 6 →
        PrintsReport v image steps call.out_before call.out_after status }
{}

/// The same for every program that doesn't write its own code, without a call of `watch`. Consider an image of which
/// none of the first k instructions fetches a byte that an earlier one stored. Under an accepted file the pipeline
/// refines the run of instructions on this image for k cycles. If no instruction of a program fetches such a byte, and
/// the program stops, `psim` prints its run as above.
pub fn law_of_pure_programs()
    ensures refines { (v : Variant) (told : Known) (h : HasAccepted v told) (image : List ℕ) (k : ℕ) →
        IsImage image → Pure v image k → Refines v h.terms image k }
    ensures psim { (words : List (List ℕ)) (name object text bytes image : List ℕ) (size limit steps : ℕ) (trace : Bool) (v : Variant) (call : CallStates) (status : ℕ) →
        form_of words ≡ Some (psim name object size limit trace false v) →
        call.files_before.told name ≡ Some (Some text) → length text ≤ 65536 → HasAccepted v (Some (Some text)) →
        call.files_before.told object ≡ Some (Some bytes) → length bytes ≤ 1048576 → object_of bytes size ≡ Ok image →
        StopsIn v image steps → ((k : ℕ) → Pure v image k) → 5 * steps ≤ limit →
        MeetsContract (form_of words) call status → status ≢ 3 → status ≢ 4 → status ≢ 6 →
        PrintsRun v image steps trace call.out_before call.out_after status }
{}
