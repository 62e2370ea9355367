//! The arguments in the words after the name of a command: words that fill places, and options.
ghost use Rattle.std.specs.Prelude.{◌≡◌, ◌≤◌, ◌∷◌, IfSome, Some, length, map, option_and_then, string_bytes};
ghost use Rattle.std.specs.Option.{option_map};
ghost use Rattle.y86_words.specs.Arguments as spec;
ghost use Rattle.y86_words.specs.Views.{argument_in, filled_in, split_in, FirstArgument};

use crate::option::{OptionName, index_of, number_for, switch_of, takes_number};
use arrayvec::ArrayVec;

/// A word that fills a place, or an option with its number.
#[derive(Clone, Copy)]
enum Argument<'a> {
    Positional(&'a str),
    Switch(OptionName, u64),
}

/// The first argument of some words, and the words after the argument. `behind` are the words after the first.
#[tactic(auto, using(crate::proofs::Arguments::no_option, crate::proofs::Arguments::place_read, crate::proofs::Arguments::flag_read, crate::proofs::Arguments::empty_word, crate::proofs::Arguments::switch_alone, crate::proofs::Arguments::switch_refused, crate::proofs::Arguments::switch_read))]
fn first_argument<'a>(word: &'a str, behind: &'a [String]) -> Option<(Argument<'a>, &'a [String])>
    ensures first { FirstArgument (word.now ∷ map string_bytes behind.now) (option_map split_in result) }
    ensures shorter { IfSome result (λ x. length x.1.now ≤ length behind.now) }
{
    if !word.as_bytes().starts_with(b"--") {
        if word.is_empty() {
            return None;
        }
        return Some((Argument::Positional(word), behind));
    }
    let Some(switch) = switch_of(word) else {
        return None;
    };
    if !takes_number(switch) {
        return Some((Argument::Switch(switch, 0), behind));
    }
    let Some((value, rest)) = behind.split_first() else {
        return None;
    };
    match number_for(switch, value.as_str().as_bytes()) {
        None => None,
        Some(number) => Some((Argument::Switch(switch, number), rest)),
    }
}

/// The arguments collected from the words after a name: the words of the places, in order, and the number of each
/// option that was given.
#[derive(Drop)]
pub struct FoundArguments<'a> {
    pub words: ArrayVec<&'a str, 3>,
    pub values: [Option<u64>; 6],
}

/// The collected arguments with another one, if its place or option isn't taken yet.
fn added<'a>(found: FoundArguments<'a>, argument: Argument<'a>) -> Option<FoundArguments<'a>>
    ensures { option_map filled_in result ≡ spec.added (filled_in found.entry) (argument_in argument.entry) }
{
    let mut found = found;
    match argument {
        Argument::Positional(word) => match found.words.try_push(word) {
            Ok(()) => Some(found),
            Err(_) => None,
        },
        Argument::Switch(switch, number) => {
            let mut values = found.values;
            let at = index_of(switch);
            if values[at].is_some() {
                return None;
            }
            values[at] = Some(number);
            found.values = values;
            Some(found)
        }
    }
}

/// The arguments collected from words, if all words can be read, at most three fill places, and no option is given
/// twice.
pub fn found_in<'a>(words: &'a [String]) -> Option<FoundArguments<'a>>
    ensures { option_map filled_in result
        ≡ option_and_then (spec.all_added (Some spec.nothing_filled)) (spec.arguments (map string_bytes words.now)) }
{
    let mut found = FoundArguments {
        words: ArrayVec::new(),
        values: [None, None, None, None, None, None],
    };
    let mut left = words;
    'words: while let Some((word, behind)) = left.split_first() {
        let Some((argument, rest)) = first_argument(word.as_str(), behind) else {
            return None;
        };
        let Some(more) = added(found, argument) else {
            return None;
        };
        found = more;
        left = rest;
    }
    Some(found)
}
