//! The options of the commands.
ghost use Rattle.std.specs.Prelude.{◌≡◌, ◌≤◌, is_some, option_and_then};
ghost use Rattle.y86_words.specs.Arguments as spec;
ghost use Rattle.y86_words.specs.Numbers.{number_that};

use crate::number::{image_size, number_within};

/// The options of the commands.
#[derive(Clone, Copy, Debug, PartialEq, Eq)]
pub enum OptionName {
    /// `--full`: the instruction set with `iaddq`.
    Full,
    /// `--mem N`: the size of the memory in bytes.
    Mem,
    /// `--limit N`: the most steps or cycles of a run.
    Limit,
    /// `--trace`: a line for each instruction that retires.
    Trace,
    /// `--checked`: the control logic is checked before the run.
    Checked,
    /// `--cert`: a certificate is printed instead of a `yes`.
    Cert,
}

/// The slot for the number of an option.
pub fn index_of(switch: OptionName) -> usize
    ensures index { result ≡ spec.index_of switch }
    ensures below { result ≤ 5 }
{
    match switch {
        OptionName::Full => 0,
        OptionName::Mem => 1,
        OptionName::Limit => 2,
        OptionName::Trace => 3,
        OptionName::Checked => 4,
        OptionName::Cert => 5,
    }
}

/// The option with this name.
pub fn switch_of(word: &str) -> Option<OptionName>
    ensures { result ≡ spec.switch_of word.now }
{
    if word == "--full" {
        return Some(OptionName::Full);
    }
    if word == "--mem" {
        return Some(OptionName::Mem);
    }
    if word == "--limit" {
        return Some(OptionName::Limit);
    }
    if word == "--trace" {
        return Some(OptionName::Trace);
    }
    if word == "--checked" {
        return Some(OptionName::Checked);
    }
    if word == "--cert" {
        return Some(OptionName::Cert);
    }
    None
}

/// Whether an option takes a number.
pub fn takes_number(switch: OptionName) -> bool
    ensures { result ≡ is_some (spec.takes switch) }
{
    match switch {
        OptionName::Full | OptionName::Trace | OptionName::Checked | OptionName::Cert => false,
        OptionName::Mem | OptionName::Limit => true,
    }
}

/// The number for an option that a word denotes, if the option takes it.
pub fn number_for(switch: OptionName, word: &[u8]) -> Option<u64>
    ensures { result ≡ option_and_then (λ passes. number_that passes word.now) (spec.takes switch) }
{
    match switch {
        OptionName::Full | OptionName::Trace | OptionName::Checked | OptionName::Cert => None,
        OptionName::Mem => image_size(word),
        OptionName::Limit => number_within(word, 1, 100_000_000),
    }
}
