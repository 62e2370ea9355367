//! Theorems: what is shown is the run of the machine; and what texts, lines, rows, letters, picks and listed texts
//! mean.
ghost use Rattle.std.specs.Prelude.{ℕ};
ghost use Rattle.dp_signals.specs.PipeNames as row;
ghost use Rattle.pipe_stage_text.specs.Changes.{EachCycleTellsChanges};
ghost use Rattle.pipe_stage_text.specs.Listed.{LastLineCounts, ListsByForm, NoneIsListed};
ghost use Rattle.pipe_stage_text.specs.Sources.{HasItsSource, PicksByTerms, PicksTheValue};
ghost use Rattle.pipe_stage_text.specs.Rows.{EachFetchIsARow, EachRowTells};
ghost use Rattle.pipe_stage_text.specs.Texts.{FetchesWhatIsRead, TextsAreOfRuns, TextsDiffer};
ghost use Rattle.pipe_stage_text.specs.Observer.{ObserverFollowsRun};
ghost use Rattle.pipe_stage_text.specs.declared.stage_content.StageContent.{StageContent};

/// The observed machine is the machine of the run: its state before each cycle, how it ends, and how many instructions
/// retired.
#[tactic(auto, using(crate::proofs::Runs::watches_the_run))]
pub fn law_of_watching()
    ensures { ObserverFollowsRun }
{}

/// An instruction is shown as `invalid` exactly if its icode has no row in the instruction table or its ifun exceeds
/// the largest of that row, and as `failed fetch` exactly if a byte of it is outside the memory. What is read at a PC
/// is `invalid` exactly if the run by instructions ends there with INS.
pub fn law_of_texts()
    ensures differ { (h : StageContent) → TextsDiffer h }
    ensures of_runs { TextsAreOfRuns }
    ensures fetched { FetchesWhatIsRead }
{}

/// The lines of a cycle report all that it changes: the registers after it are those before with the reported words
/// written in order, and the memory after it is that before with the reported store, which is inside.
pub fn law_of_changes()
    ensures { EachCycleTellsChanges }
{}

/// Each row is one fetch or one bubble: what is shown in a register is what the machine has there, a fetch has a new
/// row unless it is made again, and a small letter means that no register holds the row in the next cycle.
pub fn law_of_rows()
    ensures rows { EachRowTells }
    ensures fetches { EachFetchIsARow }
{}

/// What a term picks, term by term. A name that is picked has the term's value, so in a cycle each of f_pc, d_valA and
/// d_valB has the value of the row that its definition picks.
pub fn law_of_picks()
    ensures by_terms { (f : ℕ → ℕ) → PicksByTerms f }
    ensures value { PicksTheValue }
    ensures pc { HasItsSource row.f_pc }
    ensures val_a { HasItsSource row.d_valA }
    ensures val_b { HasItsSource row.d_valB }
{}

/// A line lists a text at an address exactly if it is well-formed, has this address and bytes, and has the text between
/// blanks after its first `|`. The last line that lists a text at an address counts. If no line does, none is listed.
pub fn law_of_listings()
    ensures form { ListsByForm }
    ensures last { LastLineCounts }
    ensures none { NoneIsListed }
{}
