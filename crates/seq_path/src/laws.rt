//! Theorems about SEQ. Each is a function that does nothing and whose contract is the theorem.
ghost use Rattle.std.specs.Prelude.{◌≡◌, ℕ, IfSome, List, Option};
ghost use Rattle.y86_base.specs.declared.parts.Variant.{Variant};
ghost use Rattle.y86_isa.specs.Laws.{IsRecordOfStep};
ghost use Rattle.y86_isa.specs.declared.machine.Machine.{Machine};
ghost use Rattle.y86_isa.specs.declared.machine.Rec.{Rec};
ghost use Rattle.hcl_types.specs.Tables.{IsBound, IsOrderOf};
ghost use Rattle.hcl_types.specs.declared.term.Term.{Term};
ghost use Rattle.dp_signals.specs.SeqTable.{seq_rows};
ghost use Rattle.dp_signals.specs.SequentialRows.{seq};
ghost use Rattle.dp_sequential.specs.Hardware.{HasHardware};
ghost use Rattle.dp_sequential.specs.Machine.{CallsAreTheRun};
ghost use Rattle.dp_sequential.specs.Seq.{IsSeqCycle, SeqRun, SeqSolves, seq_path};

/// The equations of a cycle by the names of the signals: the PC is the state's, and each signal of the hardware has the
/// value that its block computes.
pub fn law_of_equations()
    ensures pc { (v : Variant) (terms : List Term) (s : Machine) (f : ℕ → ℕ) → SeqSolves v terms s f → f seq.pc ≡ s.pc }
    ensures hardware { (v : Variant) (terms : List Term) (s : Machine) (f : ℕ → ℕ) → SeqSolves v terms s f → HasHardware seq v s f }
{}

/// If a design has an order, the equations of a cycle have exactly one solution.
pub fn law_of_solutions()
    ensures there { (v : Variant) (s : Machine) (terms : List Term) (ids : List ℕ) →
        IsBound seq_rows terms → IsOrderOf seq_rows terms ids → (f : ℕ → ℕ) × SeqSolves v terms s f }
    ensures alone { (v : Variant) (s : Machine) (terms : List Term) (ids : List ℕ) →
        IsBound seq_rows terms → IsOrderOf seq_rows terms ids →
        (f h : ℕ → ℕ) → SeqSolves v terms s f → SeqSolves v terms s h → (n : ℕ) → f n ≡ h n }
{}

/// If a design has an order, it has exactly one run of each number of cycles on an image.
pub fn law_of_runs()
    ensures there { (v : Variant) (terms : List Term) (ids image : List ℕ) (k : ℕ) →
        IsBound seq_rows terms → IsOrderOf seq_rows terms ids → (t : Machine) × (records : List Rec) × SeqRun v terms image k t records }
    ensures alone { (v : Variant) (terms : List Term) (ids image : List ℕ) (k : ℕ) →
        IsBound seq_rows terms → IsOrderOf seq_rows terms ids → (t u : Machine) (rs xs : List Rec) →
        SeqRun v terms image k t rs → SeqRun v terms image k u xs → (t ≡ u) × (rs ≡ xs) }
{}

/// Under any HCL file the record of a cycle of SEQ reports everything that the cycle changed except the PC: the memory
/// by its store alone, the registers by its two destinations, dstM last.
pub fn law_of_seq_cycles()
    ensures { (v : Variant) (terms : List Term) (s : Machine) (r : Option Rec) (t : Machine) →
        IsSeqCycle v terms s r t → IfSome r (λ x. IsRecordOfStep s t x) }
{}

/// Calls of `cycle` on a new machine are its run: the state and the records after k calls are those after k cycles.
#[tactic(auto, using(crate::proofs::Runs::calls_are_the_run))]
pub fn law_of_calls()
    ensures { CallsAreTheRun seq_path }
{}
