//! Theorems about the report, as contracts of functions that do nothing.
ghost use Rattle.std.specs.Prelude.{◌≡◌, ℕ, ◌/◌, List, length, slice_get};
ghost use Rattle.y86_base.specs.Registers.{register, register_name};
ghost use Rattle.y86_isa.specs.Machine.{start};
ghost use Rattle.y86_isa.specs.Run.{IsImage};
ghost use Rattle.y86_isa.specs.declared.machine.Machine.{Machine};
ghost use Rattle.yis_run.specs.Laws.{ListsChanges};
ghost use Rattle.yis_run.specs.Report.{aligned_word, memory_lines, register_lines, word_name};

/// The report has a line for each register whose word at the end isn't the one at the start, with both words. It has
/// one for each aligned word of memory that changed. These are in ascending order, and there is no other line. A byte
/// of memory whose aligned word isn't listed is as at the start.
pub fn law_of_report()
    ensures registers { (first : List ℕ) (m : Machine) →
        ListsChanges (register (start first).regs) (register m.regs) register_name 15 (register_lines m.regs) }
    ensures memory { (first : List ℕ) (m : Machine) →
        ListsChanges (aligned_word first) (aligned_word m.mem) word_name (length first / 8) (memory_lines first m.mem) }
    ensures bytes { (first memory : List ℕ) (address : ℕ) → IsImage first → IsImage memory → length memory ≡ length first →
        aligned_word memory (address / 8) ≡ aligned_word first (address / 8) → slice_get memory address ≡ slice_get first address }
{}
