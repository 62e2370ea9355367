//! Theorems about steps and runs. Each is a function that does nothing; its contract is the theorem.
ghost use Rattle.std.specs.Prelude.{◌≡◌, ◌≢◌, ℕ, ◌+◌, ◌^◌, ◌<◌, ◌≤◌, Bool, IfSome, IsTrue, if◌then◌else◌, List, [], ◌++◌, length, slice_get, None};
ghost use Rattle.std.specs.List.{list_all};
ghost use Rattle.std.specs.Option.{option_to_list};
ghost use Rattle.y86_base.specs.Image.{IsSize};
ghost use Rattle.y86_base.specs.declared.parts.Stat.TheVariants.{Aok};
ghost use Rattle.y86_base.specs.declared.parts.Variant.{Variant};
ghost use Rattle.y86_isa.specs.Blocks.{fetched, reading};
ghost use Rattle.y86_isa.specs.Encoding.{Holds, IsValid, encoded, fields_of, widest};
ghost use Rattle.y86_isa.specs.Laws.{ChangesOneRegister, DoesNothing, FallsThrough, FollowsFetch, FollowsRow, IsFields, IsReading, KeepsFlags, PopLeavesLoaded, PushStoresOld, SameButDone, IsRecordOfStep};
ghost use Rattle.y86_isa.specs.Machine.{normal, start};
ghost use Rattle.y86_isa.specs.RowTests.{AccessesAgree, FieldsAgree, OperandsAgree, SourcesAgree};
ghost use Rattle.y86_isa.specs.Run.{FitsFields, IsImage, IsMachine, IsStoredBy, Pure, SameFetch, records_from, run, run_from};
ghost use Rattle.y86_isa.specs.Step.{advance, retired};
ghost use Rattle.y86_isa.specs.Table.{dash_row, row, rows};
ghost use Rattle.y86_isa.specs.Work.{work};
ghost use Rattle.y86_isa.specs.declared.columns.Row.{Row};
ghost use Rattle.y86_isa.specs.declared.encoding.Instr.{Instr};
ghost use Rattle.y86_isa.specs.declared.machine.Machine.{Machine};
ghost use Rattle.y86_isa.specs.declared.machine.Rec.{Rec};

/// A test that passes for every row, and for the row of dashes, passes for the row of each icode. An icode without a
/// row has the row of dashes. A row of an instruction set is also the row of the widest one. The length of an
/// instruction is the sum of its parts.
pub fn law_of_rows()
    ensures every { (p : Row → Bool) (v : Variant) (icode : ℕ) → IsTrue (list_all p (rows v)) →
        IsTrue (p dash_row) → IsTrue (p (row v icode)) }
    ensures unknown { (v : Variant) (icode : ℕ) → length (rows v) ≤ icode → row v icode ≡ dash_row }
    ensures widest { (v : Variant) (icode : ℕ) → icode < length (rows v) → row v icode ≡ row widest icode }
    ensures length { (v : Variant) (icode : ℕ) → (row v icode).length
        ≡ 1 + (if (row v icode).has_byte then 1 else 0) + (if (row v icode).has_const then 8 else 0) }
{}

/// The columns of one row agree: operands with their uses, sources, memory with the next PC, and register fields.
pub fn law_of_columns()
    ensures operands { (v : Variant) (icode : ℕ) → OperandsAgree (row v icode) }
    ensures sources { (v : Variant) (icode : ℕ) → SourcesAgree (row v icode) }
    ensures accesses { (v : Variant) (icode : ℕ) → AccessesAgree (row v icode) }
    ensures fields { (v : Variant) (icode : ℕ) → FieldsAgree (row v icode) }
{}

/// The work of an instruction follows from what is fetched at the PC and from the row of its icode. A halt, or an
/// instruction that is bad at its fetch, does nothing.
pub fn law_of_work()
    ensures fetch { (v : Variant) (m : Machine) → FollowsFetch (fetched v m.mem m.pc) (work v m) }
    ensures row { (v : Variant) (m : Machine) → FollowsRow (row v (work v m).icode) m (work v m) }
    ensures bad { (v : Variant) (m : Machine) → (work v m).fetch_stat ≢ Aok → DoesNothing (row v (work v m).icode) }
{}

/// What one step may change: at most one register other than `%rsp`; in memory, only the 8 bytes of the record's store;
/// the flags, only if the row sets them. The PC moves to the address after an instruction that falls through by its
/// row, unless the instruction ends with another status than AOK. A machine that has stopped doesn't change. The record
/// determines the step, except the next PC.
pub fn law_of_steps()
    ensures registers { (v : Variant) (m : Machine) → ChangesOneRegister m.regs (advance v m).regs }
    ensures memory { (v : Variant) (m : Machine) (address : ℕ) → (IsStoredBy (retired v m) address → ⊥) →
        slice_get (advance v m).mem address ≡ slice_get m.mem address }
    ensures flags { (v : Variant) (m : Machine) → KeepsFlags v m }
    ensures pc { (v : Variant) (m : Machine) → FallsThrough v m }
    ensures stopped { (v : Variant) (m : Machine) → m.stat ≢ Aok → (advance v m ≡ m) × (retired v m ≡ None) }
    ensures record { (v : Variant) (m : Machine) → IfSome (retired v m) (λ r. IsRecordOfStep m (advance v m) r) }
{}

/// What `pushq %rsp` and `popq %rsp` do (CS:APP 3e, practice problems 4.7 and 4.8).
pub fn law_of_stack()
    ensures pushed { (v : Variant) (m : Machine) → PushStoresOld v m }
    ensures popped { (v : Variant) (m : Machine) → IsMachine m → PopLeavesLoaded v m }
{}

/// The normal form of a record changes only destinations and stores. If the status isn't AOK, it doesn't depend on
/// them.
pub fn law_of_normal_form()
    ensures keeps { (r : Rec) → SameButDone r (normal r) }
    ensures bad { (r s : Rec) → r.stat ≢ Aok → SameButDone r s → normal s ≡ normal r }
{}

/// Runs of no step, of one more step, and of a machine that has stopped.
pub fn law_of_runs()
    ensures no_step { (v : Variant) (m : Machine) → run_from v m 0 ≡ m }
    ensures one_more { (v : Variant) (m : Machine) (n : ℕ) →
        run_from v m (n + 1) ≡ run_from v (advance v m) n }
    ensures last { (v : Variant) (m : Machine) (n : ℕ) →
        run_from v m (n + 1) ≡ advance v (run_from v m n) }
    ensures stopped { (v : Variant) (m : Machine) (n : ℕ) → m.stat ≢ Aok → run_from v m n ≡ m }
{}

/// The records of no step, of one more step, and of a machine that has stopped. The records of n steps are at most n,
/// the i-th is that of the i-th machine of the run, and they are fewer only if the run has stopped after as many steps
/// as there are records.
pub fn law_of_records()
    ensures no_step { (v : Variant) (m : Machine) → records_from v m 0 ≡ [] }
    ensures one_more { (v : Variant) (m : Machine) (n : ℕ) →
        records_from v m (n + 1) ≡ option_to_list (retired v m) ++ records_from v (advance v m) n }
    ensures last { (v : Variant) (m : Machine) (n : ℕ) →
        records_from v m (n + 1) ≡ records_from v m n ++ option_to_list (retired v (run_from v m n)) }
    ensures stopped { (v : Variant) (m : Machine) (n : ℕ) → m.stat ≢ Aok → records_from v m n ≡ [] }
    ensures at_most { (v : Variant) (m : Machine) (n : ℕ) → length (records_from v m n) ≤ n }
    ensures at { (v : Variant) (m : Machine) (n i : ℕ) → i < n → (run_from v m i).stat ≡ Aok →
        slice_get (records_from v m n) i ≡ retired v (run_from v m i) }
    ensures fewer { (v : Variant) (m : Machine) (n : ℕ) → length (records_from v m n) < n →
        (run_from v m (length (records_from v m n))).stat ≢ Aok }
{}

/// A run keeps an image an image, of the same size. An image that is pure for some steps is pure for fewer. In the run
/// of a pure image, the bytes that an instruction fetches were the same at each step before.
pub fn law_of_images()
    ensures image { (v : Variant) (m : Machine) (n : ℕ) → IsImage m.mem → IsImage (run_from v m n).mem }
    ensures size { (v : Variant) (m : Machine) (n : ℕ) → length (run_from v m n).mem ≡ length m.mem }
    ensures pure { (v : Variant) (image : List ℕ) (n k : ℕ) → k ≤ n → Pure v image n → Pure v image k }
    ensures fetch { (v : Variant) (image : List ℕ) (n i j : ℕ) → IsImage image → Pure v image n → i < n → j ≤ i →
        (run v image i).stat ≡ Aok →
        fetched v (run v image j).mem (run v image i).pc ≡ fetched v (run v image i).mem (run v image i).pc }
{}

/// A machine that starts on an image has 15 registers, words below 2^64 and an image as its memory, and so has every
/// machine of its run. The fields fetched from an image are halves of bytes, and words.
pub fn law_of_machines()
    ensures start { (image : List ℕ) → IsImage image → IsMachine (start image) }
    ensures run { (v : Variant) (m : Machine) (n : ℕ) → IsMachine m → IsMachine (run_from v m n) }
    ensures fetched { (v : Variant) (memory : List ℕ) (pc : ℕ) → IsImage memory →
        FitsFields (fetched v memory pc) }
{}

/// What is fetched depends only on the fetched bytes and the size of the memory. It is an instruction with its
/// registers, or is marked as bad in one of two ways.
pub fn law_of_reading()
    ensures reading { (v : Variant) (memory : List ℕ) (pc : ℕ) → IsReading v (reading v memory pc) }
    ensures fields { (v : Variant) (memory : List ℕ) (pc : ℕ) → IsImage memory →
        IsFields (row v (fetched v memory pc).icode) (fetched v memory pc) }
    ensures same { (v : Variant) (memory other : List ℕ) (pc : ℕ) → SameFetch v memory other pc →
        fetched v other pc ≡ fetched v memory pc }
{}

/// An instruction's length is the one that its row gives. If a memory holds the bytes of a valid instruction at an
/// address, it splits to the instruction's fields there.
pub fn law_of_encoding()
    ensures length { (i : Instr) → length (encoded i) ≡ (row widest i.icode).length }
    ensures read_back { (v : Variant) (i : Instr) (memory : List ℕ) (pc : ℕ) → IsValid v i →
        i.val_c < 2 ^ 64 → IsSize (length memory) → Holds memory pc (encoded i) →
        fetched v memory pc ≡ fields_of i pc }
{}
