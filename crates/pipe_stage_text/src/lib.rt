//! The stages of the pipeline as text: what each of them holds cycle by cycle, and the book's diagrams of a run.
#![tactic(auto)]

mod cycle;
mod diagram;
mod instruction;
mod laws;
mod listed;
mod numbers;
mod observer;
mod picked;
mod processor;
mod stage_content;
mod stage_contents;

pub use cycle::{put_end, put_flags, put_stored, put_writes};
pub use instruction::put_instruction;
pub use laws::{
    law_of_changes, law_of_listings, law_of_picks, law_of_rows, law_of_texts, law_of_watching,
};
pub use numbers::{
    put_address, put_function_pair, put_number_pair, put_register_pair, put_status_pair,
    put_text_pair, put_word_pair,
};
pub use observer::{CycleRange, ObservedRun, WatchRequest, is_within, watch_run};
pub use picked::source;
pub use processor::ProcessorDesign;
pub use stage_content::StageContent;
