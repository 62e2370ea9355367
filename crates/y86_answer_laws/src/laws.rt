//! Theorems about the answers of commands. Each is a function that does nothing and whose contract is the theorem.
ghost use Rattle.std.specs.Prelude.{◌≡◌, ◌≢◌, ◌≤◌, ℕ, Bool, List, [], Option, Some, None, length};
ghost use Rattle.y86_base.specs.declared.parts.Variant.{Variant};
ghost use Rattle.cli_obligations.specs.Answers.{aig_plan, aigrun_plan, certify_pipe_plan, sample_plan};
ghost use Rattle.cli_runs.specs.Answers.{big_plan, hcl_plan, psim_plan, ssim_plan, yas_plan, yis_plan};
ghost use Rattle.cli_checks.specs.Answers.{check_pipe_plan, check_seq_plan};
ghost use Rattle.y86_cli.specs.Answers.{plan_in};
ghost use Rattle.cli_plans.specs.PlanFollowing.{CallStates};
ghost use Rattle.cli_plans.specs.Plan.{HasContents};
ghost use Rattle.y86_cli.specs.CallContract.{MeetsContract};
ghost use Rattle.hcl_types.specs.declared.table.SequentialDatapath.{SequentialDatapath};
ghost use Rattle.y86_words.specs.Forms.{Command, certify_pipe, form_of, recheck};
ghost use Rattle.y86_answer_laws.specs.OneAnswer.{HasOneAnswer, HasOneRefusal, KeptCertificate, SameAnswers};

/// Whatever the files of a command contain, its plan allows at most one answer. `aig` and `check pipe` with `--cert`
/// may write any of many right texts: all their answers but the text of a `yes` are unique. (`recheck` is excepted: two
/// of its calls may make two nets of one file, and a certificate for one net is none for the other.)
pub fn law_of_one_answer()
    ensures yas { (source : List ℕ) (size : ℕ) (v : Variant) → HasOneAnswer (yas_plan source size v) }
    ensures yis { (object : List ℕ) (size limit : ℕ) (v : Variant) → HasOneAnswer (yis_plan object size limit v) }
    ensures hcl { (name : List ℕ) → HasOneAnswer (hcl_plan name) }
    ensures ssim { (which : SequentialDatapath) (name object : List ℕ) (size limit : ℕ) (v : Variant) → HasOneAnswer (ssim_plan which name object size limit v) }
    ensures psim { (name object : List ℕ) (size limit : ℕ) (trace checked : Bool) (v : Variant) →
        HasOneAnswer (psim_plan name object size limit trace checked v) }
    ensures check_seq { (which : SequentialDatapath) (name : List ℕ) (v : Variant) → HasOneAnswer (check_seq_plan which name v) }
    ensures check_pipe { (name : List ℕ) (v : Variant) → HasOneAnswer (check_pipe_plan name v) }
    ensures big { (n : ℕ) (name : List ℕ) (v : Variant) → HasOneAnswer (big_plan n name v) }
    ensures sample { (name : List ℕ) (seed count : ℕ) (v : Variant) → HasOneAnswer (sample_plan name seed count v) }
    ensures certify_pipe { (name : List ℕ) (v : Variant) → HasOneRefusal (certify_pipe_plan name v) }
    ensures aig { (name : List ℕ) (v : Variant) → HasOneRefusal (aig_plan name v) }
    ensures no_command { HasOneAnswer (plan_in None) }
    ensures aigrun { (name : List ℕ) (seed : ℕ) → HasOneAnswer (aigrun_plan name seed) }
{}

/// Two calls of a command whose plan has at most one answer, on files with the same known contents, end with the same
/// status and print the same text and the same line on standard error, unless one of them ends with 3, 4 or 6; and
/// these are what the plan allows for the contents.
pub fn law_of_calls()
    ensures { (form : Option Command) → HasOneAnswer (plan_in form) → (call other_call : CallStates) (status other : ℕ) →
        MeetsContract form call status → MeetsContract form other_call other →
        (contents : List (Option (List ℕ))) → HasContents call.files_before.told (plan_in form) contents → HasContents other_call.files_before.told (plan_in form) contents →
        status ≢ 3 → status ≢ 4 → status ≢ 6 → other ≢ 3 → other ≢ 4 → other ≢ 6 →
        SameAnswers (plan_in form) contents call other_call status other }
{}

/// What `check pipe` with `--cert` wrote for a file, `recheck` accepts for the same file, at the same settings; or it
/// refuses only because of the gates of the net, or ends with 3, 4 or 6. So the form, each number and each claim are
/// right.
pub fn law_of_own_certificates()
    ensures { (words others : List (List ℕ)) (name cert : List ℕ) (v : Variant) (text bytes : List ℕ) (call later : CallStates) (status : ℕ) →
        form_of words ≡ Some (certify_pipe name v) → form_of others ≡ Some (recheck name cert v) →
        MeetsContract (form_of words) call 0 →
        call.files_before.told name ≡ Some (Some text) → call.out_before.taken ≡ Some [] → call.out_after.taken ≡ Some bytes →
        MeetsContract (form_of others) later status →
        later.files_before.told name ≡ Some (Some text) → later.files_before.told cert ≡ Some (Some bytes) → length bytes ≤ 536870912 →
        status ≢ 3 → status ≢ 4 → status ≢ 6 →
        KeptCertificate v text cert later.out_before later.out_after later.err_before later.err_after status }
{}
