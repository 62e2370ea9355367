//! Theorems about the output. Each is a function that does nothing and whose contract is the theorem.
ghost use Rattle.seq_text.specs.Laws.{PlusSources, PlusTellsChanges, PlusWatchesTheRun, SeqSources, SeqTellsChanges, SeqWatchesTheRun};

/// The machine whose cycles are shown is the machine of the run: it has the same state before each cycle, and the same
/// number of instructions.
pub fn law_of_watching()
    ensures seq { SeqWatchesTheRun }
    ensures plus { PlusWatchesTheRun }
{}

/// The lines of a cycle report all that it changes: the registers after it are those before with the reported words
/// written in order, and the memory is that before with the reported store, which is inside it.
pub fn law_of_changes()
    ensures seq { SeqTellsChanges }
    ensures plus { PlusTellsChanges }
{}

/// Each of aluA, aluB, mem_addr, mem_data, and new_pc of SEQ or pc of SEQ+, has the value of the name that its
/// definition picks.
pub fn law_of_sources()
    ensures seq { SeqSources }
    ensures plus { PlusSources }
{}
