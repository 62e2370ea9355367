//! Finds what has a name: obligations, instructions, signals and kinds of faults.
ghost use Rattle.std.specs.Prelude.{◌≡◌, [], None, true, IfSome};
ghost use Rattle.std.specs.Str.{bytes_eq};

use crate::instructions::{Instruction, instructions};
use explanations::{
    FaultKind, GROUP_COUNT, Obligation, Staged, fault_kinds, obligation_at, obligation_count,
    signal_group,
};
use finding_text::instruction;
use hcl_types::Datapath;
use std::alloc::{AllocError, Global};

/// An obligation and its datapath.
#[derive(Clone, Copy, Debug)]
pub struct Demanded {
    pub path: Datapath,
    pub obligation: &'static Obligation,
}

/// A kind of fault, and the number of its language.
#[derive(Clone, Copy, Debug)]
pub struct Kind {
    pub language: usize,
    pub kind: &'static FaultKind,
}

/// Everything that has a name.
#[derive(Drop)]
pub struct ShowMatches {
    pub obligations: Vec<Demanded>,
    pub instructions: Vec<Instruction>,
    pub signals: Vec<Staged>,
    pub faults: Vec<Kind>,
}

impl ShowMatches {
    /// Whether nothing has the name.
    pub fn is_empty(&self) -> bool
        ensures nothing { self.now.obligations.items ≡ [] → self.now.instructions.items ≡ [] → self.now.signals.items ≡ [] → self.now.faults.items ≡ [] → result ≡ true }
        ensures obligations { result ≡ true → self.now.obligations.items ≡ [] }
        ensures instructions { result ≡ true → self.now.instructions.items ≡ [] }
        ensures signals { result ≡ true → self.now.signals.items ≡ [] }
        ensures faults { result ≡ true → self.now.faults.items ≡ [] }
    {
        self.obligations.is_empty()
            && self.instructions.is_empty()
            && self.signals.is_empty()
            && self.faults.is_empty()
    }
}

/// Whether a name is asked for. Without a word every name is.
fn is_asked(word: Option<&str>, name: &str) -> bool
    ensures all { word.entry ≡ None → result ≡ true }
    ensures one { IfSome word.entry (λ word. result ≡ bytes_eq word.now name.now) }
{
    match word {
        Some(word) => word == name,
        None => true,
    }
}

/// Adds the obligations of a datapath from a number on, if they are asked for.
fn put_obligations(
    out: &mut Vec<Demanded>,
    word: Option<&str>,
    path: Datapath,
    from: u32,
) -> Result<(), AllocError> {
    for k in from..obligation_count(path) {
        if let Some(obligation) = obligation_at(path, u32::wrapping_add(k, 1)) {
            if is_asked(word, obligation.label) {
                out.push(Demanded { path, obligation })?;
            }
        }
    }
    Ok(())
}

/// Adds the signals that are asked for.
fn put_signals(out: &mut Vec<Staged>, word: Option<&str>) -> Result<(), AllocError> {
    for number in 0..GROUP_COUNT {
        let (stage, signals) = signal_group(number);
        for signal in signals {
            if is_asked(word, signal.name) {
                out.push(Staged { stage, signal })?;
            }
        }
    }
    Ok(())
}

/// Adds the kinds of faults that are asked for.
fn put_faults(out: &mut Vec<Kind>, word: Option<&str>) -> Result<(), AllocError> {
    for language in 0..3_usize {
        for kind in fault_kinds(language) {
            if is_asked(word, kind.code) {
                out.push(Kind { language, kind })?;
            }
        }
    }
    Ok(())
}

/// Everything with this name; without a name everything. An instruction has its own name and that of its group: `jle`,
/// `jXX`.
pub fn found_of(alloc: Global, word: Option<&str>) -> Result<ShowMatches, AllocError> {
    let mut obligations: Vec<Demanded> = Vec::new(alloc);
    put_obligations(&mut obligations, word, Datapath::Seq, 0)?;
    put_obligations(&mut obligations, word, Datapath::SeqPlus, 15)?;
    put_obligations(&mut obligations, word, Datapath::Pipe, 0)?;
    let mut own: Vec<Instruction> = Vec::new(alloc);
    let all = instructions(alloc)?;
    for it in all.as_slice() {
        if is_asked(word, it.name) || is_asked(word, group_of(it)) {
            own.push(*it)?;
        }
    }
    let mut signals: Vec<Staged> = Vec::new(alloc);
    put_signals(&mut signals, word)?;
    let mut faults: Vec<Kind> = Vec::new(alloc);
    put_faults(&mut faults, word)?;
    Ok(ShowMatches {
        obligations,
        instructions: own,
        signals,
        faults,
    })
}

/// The group that an instruction belongs to: those with its code.
pub fn group_of(it: &Instruction) -> &'static str {
    if it.icode == 2 && it.ifun != 0 {
        "cmovXX"
    } else {
        instruction(it.icode)
    }
}
