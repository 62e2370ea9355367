//! Theorems about the answer of a call. Each is a function that does nothing and whose contract is the theorem.
ghost use Rattle.std.specs.Prelude.{◌≡◌, ◌≢◌, ◌⊎◌, ◌↔◌, ◌≤◌, Bool, List, [], ℕ, length, Option, Some, None, true};
ghost use Rattle.wb_io.specs.Sinks.{Appended, AppendedPrefix};
ghost use Rattle.y86_base.specs.declared.parts.Variant.{Variant};
ghost use Rattle.y86_call_laws.specs.CheckedRuns.{HasAccepted, CheckedRunIsRight, ToldAccepted, ToldAcceptedSeq, ToldCertified, ToldCertifiedPart, AnsweredNo, WroteCertificate};
ghost use Rattle.y86_cli.specs.Answers.{plan_in};
ghost use Rattle.cli_runs.specs.Answers.{yas_plan, yis_plan};
ghost use Rattle.cli_runs.specs.Big.{AnsweredSame};
ghost use Rattle.cli_plans.specs.PlanFollowing.{CallStates};
ghost use Rattle.y86_words.specs.Forms.{Command, big, certify_pipe, check_pipe, check_plus, check_seq, form_of, psim, recheck};
ghost use Rattle.hcl_types.specs.declared.table.SequentialDatapath.TheVariants.{Seq, SeqPlus};
ghost use Rattle.cli_plans.specs.Plan.{Answer, IsAnswerOf, IsDetermined, HasContents};
ghost use Rattle.y86_cli.specs.CallContract.{MeetsContract};
ghost use Rattle.cli_plans.specs.Calls.{WroteError};

/// What all answers have in common, whatever the contents of the files. With status 0 and 1 there is nothing for
/// standard error; with every other status nothing is written on standard output. The status is 2 exactly if the words
/// form no command, and at most 7.
pub fn law_of_answers()
    ensures done { (form : Option Command) (contents : List (Option (List ℕ))) (a : Answer) → IsAnswerOf (plan_in form) contents a → a.status ≤ 1 → a.err ≡ [] }
    ensures refused { (form : Option Command) (contents : List (Option (List ℕ))) (a : Answer) → IsAnswerOf (plan_in form) contents a → 2 ≤ a.status → a.out ≡ [] }
    ensures usage { (form : Option Command) (contents : List (Option (List ℕ))) (a : Answer) → IsAnswerOf (plan_in form) contents a → (a.status ≡ 2) ↔ (form ≡ None) }
    ensures at_most_seven { (form : Option Command) (contents : List (Option (List ℕ))) (a : Answer) → IsAnswerOf (plan_in form) contents a → a.status ≤ 7 }
{}

/// If a plan has just one answer, as those of `yas` and `yis` have, it is a function of the contents of the files: if
/// the contents are known, a call gives this answer, or ends with 3, 4 or 6; with 4 it writes a proper prefix of the
/// answer's text.
pub fn law_of_plans()
    ensures yas { (source : List ℕ) (size : ℕ) (v : Variant) → IsDetermined (yas_plan source size v) }
    ensures yis { (object : List ℕ) (size limit : ℕ) (v : Variant) → IsDetermined (yis_plan object size limit v) }
    ensures told { (form : Option Command) (one : IsDetermined (plan_in form)) (call : CallStates) (status : ℕ) → MeetsContract form call status →
        (contents : List (Option (List ℕ))) → HasContents call.files_before.told (plan_in form) contents → status ≢ 3 → status ≢ 4 → status ≢ 6 →
        (status ≡ (one.just_one contents).0.status)
        × Appended call.out_before.taken call.out_after.taken (one.just_one contents).0.out
        × WroteError call.err_before call.err_after (one.just_one contents).0.err }
    ensures part { (form : Option Command) (one : IsDetermined (plan_in form)) (call : CallStates) (status : ℕ) → MeetsContract form call status →
        (contents : List (Option (List ℕ))) → HasContents call.files_before.told (plan_in form) contents → status ≡ 4 →
        AppendedPrefix call.out_before.taken call.out_after.taken (one.just_one contents).0.out }
{}

/// What an accepted file means for a user of the program, by the words of a call and the contract of `run`.
///
/// - If a call of `check seq` or `check seqplus` ends with 0, the file has an accepted design, and on every image its
///   machine is that of the run of instructions.
/// - If a call of `check pipe` ends with 0, the file has an accepted design. On every image whose instructions fetch no
///   byte that one of the three before them stored, its pipeline retires the instructions of that run, one after
///   another, and stops as it does. The output is the line of a `yes` or, with `--cert`, a certificate of the design.
/// - If a call of `recheck` ends with 0, the second file is a certificate of the first, the pipeline of its design does
///   the same, and the line with the certificate's settings was written. With 4 the same holds, but only a proper
///   prefix of the line was written. `recheck` never ends with 1.
/// - If a call of `psim` with `--checked` ends with 0 or 1, the output is a `no`; or it is a `yes` for an accepted
///   file. Then what follows it (the trace, the registers, and, if the pipeline stopped, the whole report) agrees with
///   the run of instructions, if none of the first instructions, as many as there were cycles, fetches a byte that one
///   of the three before it stored.
pub fn law_of_accepted_files()
    ensures check_seq { (words : List (List ℕ)) (name : List ℕ) (v : Variant) (call : CallStates) →
        form_of words ≡ Some (check_seq name v) → MeetsContract (form_of words) call 0 →
        ToldAcceptedSeq Seq v (call.files_before.told name) call.out_before call.out_after }
    ensures check_plus { (words : List (List ℕ)) (name : List ℕ) (v : Variant) (call : CallStates) →
        form_of words ≡ Some (check_plus name v) → MeetsContract (form_of words) call 0 →
        ToldAcceptedSeq SeqPlus v (call.files_before.told name) call.out_before call.out_after }
    ensures check_pipe { (words : List (List ℕ)) (name : List ℕ) (v : Variant) (call : CallStates) →
        form_of words ≡ Some (check_pipe name v) → MeetsContract (form_of words) call 0 →
        ToldAccepted v (call.files_before.told name) call.out_before call.out_after }
    ensures certify_pipe { (words : List (List ℕ)) (name : List ℕ) (v : Variant) (call : CallStates) →
        form_of words ≡ Some (certify_pipe name v) → MeetsContract (form_of words) call 0 →
        WroteCertificate v (call.files_before.told name) call.out_before call.out_after }
    ensures recheck { (words : List (List ℕ)) (name cert : List ℕ) (v : Variant) (call : CallStates) →
        form_of words ≡ Some (recheck name cert v) → MeetsContract (form_of words) call 0 →
        ToldCertified v (call.files_before.told name) (call.files_before.told cert) call.out_before call.out_after }
    ensures recheck_part { (words : List (List ℕ)) (name cert : List ℕ) (v : Variant) (call : CallStates) →
        form_of words ≡ Some (recheck name cert v) → MeetsContract (form_of words) call 4 →
        ToldCertifiedPart v (call.files_before.told name) (call.files_before.told cert) call.out_before call.out_after }
    ensures recheck_never_one { (words : List (List ℕ)) (name cert : List ℕ) (v : Variant) (call : CallStates) →
        form_of words ≡ Some (recheck name cert v) → MeetsContract (form_of words) call 1 → ⊥ }
    ensures psim { (words : List (List ℕ)) (name object : List ℕ) (size limit : ℕ) (trace : Bool) (v : Variant) (call : CallStates) (status : ℕ) →
        form_of words ≡ Some (psim name object size limit trace true v) → status ≤ 1 → MeetsContract (form_of words) call status →
        CheckedRunIsRight v size limit trace (call.files_before.told name) (call.files_before.told object) call.out_before call.out_after status
        ⊎ AnsweredNo v (call.files_before.told name) call.out_before call.out_after status }
{}

/// For an accepted file within the limit on its length, `big` answers with status 0 that both runs gave the same
/// report, in n + 1 steps and at most 5(n + 1) cycles, except if a read or a write failed or memory was out.
pub fn law_of_big()
    ensures { (words : List (List ℕ)) (n : ℕ) (name : List ℕ) (v : Variant) (call : CallStates) (status : ℕ) (text : List ℕ) →
        form_of words ≡ Some (big n name v) → call.files_before.told name ≡ Some (Some text) → length text ≤ 65536 → HasAccepted v (Some (Some text)) →
        MeetsContract (form_of words) call status → status ≢ 3 → status ≢ 4 → status ≢ 6 →
        AnsweredSame n call.out_before call.out_after status }
{}
