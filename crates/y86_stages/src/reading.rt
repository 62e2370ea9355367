//! The words of a call: those of `psim`, and among them the options that select what is shown.
ghost use Rattle.std.specs.Prelude.{◌≡◌, IfOk, OnOk, map, string_bytes};
ghost use Rattle.std.specs.Option.{option_map};
ghost use Rattle.y86_stages.specs.ScannedWords as spec;

use hcl_types::Datapath;
use std::alloc::Global;
use y86_base::{Memory, push};
use y86_words::number_within;

/// An option that selects what is shown.
#[derive(Clone, Copy, Debug, PartialEq, Eq)]
pub enum ShowOption {
    /// `--diagram`
    Diagram,
    /// `--from N`
    From,
    /// `--to N`
    To,
    /// `--seq`
    OnSeq,
    /// `--seqplus`
    OnSeqPlus,
}

/// What was read of the words: those of `psim`, after its name, and the options. `wants` is an option whose number is
/// the next word.
#[derive(Drop)]
pub struct ScannedArguments {
    pub words: Vec<String>,
    pub processor: Datapath,
    pub diagram: bool,
    pub from: Option<u64>,
    pub to: Option<u64>,
    pub wants: Option<ShowOption>,
}

/// The option with this name.
fn own_of(word: &str) -> Option<ShowOption>
    ensures { result ≡ spec.own_of word.now }
{
    if word == "--diagram" {
        return Some(ShowOption::Diagram);
    }
    if word == "--from" {
        return Some(ShowOption::From);
    }
    if word == "--to" {
        return Some(ShowOption::To);
    }
    if word == "--seq" {
        return Some(ShowOption::OnSeq);
    }
    if word == "--seqplus" {
        return Some(ShowOption::OnSeqPlus);
    }
    None
}

/// The number of a cycle.
fn cycle_number(word: &str) -> Option<u64>
    ensures { result ≡ spec.cycle_number word.now }
{
    number_within(word.as_bytes(), 1, u64::MAX)
}

/// Reads the number of an option, and returns whether the word is a number.
fn read_number(r: &mut ScannedArguments, own: ShowOption, word: &str) -> bool
    ensures { spec.ScansNumber (spec.read_in r.old) own word.now result (spec.read_in r.new) }
{
    let Some(number) = cycle_number(word) else {
        return false;
    };
    r.wants = None;
    match own {
        ShowOption::From => r.from = Some(number),
        ShowOption::To => r.to = Some(number),
        ShowOption::Diagram | ShowOption::OnSeq | ShowOption::OnSeqPlus => {}
    }
    true
}

/// Whether the processor is PIPE.
fn is_pipe(processor: Datapath) -> bool
    ensures { result ≡ spec.is_pipe processor }
{
    matches!(processor, Datapath::Pipe)
}

/// Reads an option, and returns whether it occurs for the first time.
fn read_option(r: &mut ScannedArguments, own: ShowOption) -> bool
    ensures { spec.ScansOption (spec.read_in r.old) own result (spec.read_in r.new) }
{
    match own {
        ShowOption::Diagram => {
            if r.diagram {
                return false;
            }
            r.diagram = true;
        }
        ShowOption::From => {
            if r.from.is_some() {
                return false;
            }
            r.wants = Some(ShowOption::From);
        }
        ShowOption::To => {
            if r.to.is_some() {
                return false;
            }
            r.wants = Some(ShowOption::To);
        }
        ShowOption::OnSeq => {
            if !is_pipe(r.processor) {
                return false;
            }
            r.processor = Datapath::Seq;
        }
        ShowOption::OnSeqPlus => {
            if !is_pipe(r.processor) {
                return false;
            }
            r.processor = Datapath::SeqPlus;
        }
    }
    true
}

/// Appends a word of `psim`.
fn keep_word(r: &mut ScannedArguments, word: &String) -> Result<(), Memory>
    ensures { OnOk result (spec.read_in r.new ≡ spec.with_kept (spec.read_in r.old) (string_bytes word.now)) }
{
    let Ok(copy) = word.clone() else {
        return Err(Memory);
    };
    push(&mut r.words, copy)
}

/// Reads a word, and returns whether it may occur there.
#[tactic(auto, unfolding(crate::specs::ScannedWords::read_word))]
fn read_word(r: &mut ScannedArguments, word: &String) -> Result<bool, Memory>
    ensures { IfOk result (λ may_stand. spec.Scans (spec.read_in r.old) (string_bytes word.now) may_stand (spec.read_in r.new)) }
{
    if let Some(own) = r.wants {
        return Ok(read_number(r, own, word.as_str()));
    }
    if let Some(own) = own_of(word.as_str()) {
        return Ok(read_option(r, own));
    }
    match keep_word(r, word) {
        Ok(()) => Ok(true),
        Err(_) => Err(Memory),
    }
}

/// The state before the first word: nothing but the name of `psim`.
fn first_reading(alloc: Global) -> Result<ScannedArguments, Memory>
    ensures { IfOk result (λ r. spec.read_in r ≡ spec.first_read) }
{
    let Ok(name) = String::from_str(alloc, "psim") else {
        return Err(Memory);
    };
    let mut words = Vec::new(alloc);
    push(&mut words, name)?;
    Ok(ScannedArguments {
        words,
        processor: Datapath::Pipe,
        diagram: false,
        from: None,
        to: None,
        wants: None,
    })
}

/// Reads the words after the program's own name; `None` if they aren't valid.
#[tactic(auto, unfolding(crate::specs::ScannedWords::all_read))]
pub fn read_words(alloc: Global, words: &[String]) -> Result<Option<ScannedArguments>, Memory>
    ensures { IfOk result (λ read. option_map spec.read_in read ≡ spec.read_of (map string_bytes words.now)) }
{
    let mut r = match first_reading(alloc) {
        Ok(r) => r,
        Err(_) => return Err(Memory),
    };
    for word in words {
        match read_word(&mut r, word) {
            Ok(true) => {}
            Ok(false) => return Ok(None),
            Err(_) => return Err(Memory),
        }
    }
    if r.wants.is_some() || (r.diagram && !is_pipe(r.processor)) {
        return Ok(None);
    }
    Ok(Some(r))
}
