//! The table of the forms: the name, the places and the options of each command.
ghost use Rattle.std.specs.Prelude.{◌≡◌, ◌==◌, None, get_or, map};
ghost use Rattle.std.specs.List.{list_any};
ghost use Rattle.std.specs.Option.{option_map};
ghost use Rattle.y86_words.specs.Arguments as arguments;
ghost use Rattle.y86_words.specs.Forms as spec;
ghost use Rattle.y86_words.specs.Views.{command_in, filled_in, form_in, place_in, words_in};

use crate::argument::FoundArguments;
use crate::cmd::Cmd;
use crate::number::number_within;
use crate::option::{OptionName, index_of};
use y86_base::Variant;

/// The size of the memory in bytes without `--mem`.
const DEFAULT_SIZE: u64 = 8192;

/// The most steps or cycles of a run without `--limit`.
const DEFAULT_LIMIT: u64 = 10_000;

/// The most valuations that `sample` draws.
const MOST_DRAWN: u64 = 1_000_000;

/// The seed of a draw.
const SEED: PlaceForm = PlaceForm::Number(0, u64::MAX);

/// The most instructions of a generated program, apart from the last, which halts.
const MOST_INSTRUCTIONS: u64 = 100_000;

/// What a place of a form takes.
#[derive(Clone, Copy, Debug)]
pub enum PlaceForm {
    /// This word.
    Keyword(&'static str),
    /// The name of a file.
    File,
    /// A number from the first to the second.
    Number(u64, u64),
}

/// The rows of the table of forms, by name.
#[derive(Clone, Copy, Debug, PartialEq, Eq)]
pub enum CommandKind {
    Yas,
    Yis,
    Hcl,
    Ssim,
    Ssimp,
    Psim,
    CheckSeq,
    CheckPlus,
    CheckPipe,
    CertifyPipe,
    Recheck,
    Sample,
    Aig,
    Aigrun,
    Big,
}

/// A form: the name of its command, the places after it, in order, and the options, which may occur anywhere after the
/// name.
#[derive(Clone, Copy, Debug)]
struct Form {
    kind: CommandKind,
    name: &'static str,
    places: &'static [PlaceForm],
    options: &'static [OptionName],
}

/// The table of the commands.
static FORMS: [Form; 15] = [
    Form {
        kind: CommandKind::Yas,
        name: "yas",
        places: &[PlaceForm::File],
        options: &[OptionName::Full, OptionName::Mem],
    },
    Form {
        kind: CommandKind::Yis,
        name: "yis",
        places: &[PlaceForm::File],
        options: &[OptionName::Full, OptionName::Mem, OptionName::Limit],
    },
    Form {
        kind: CommandKind::Hcl,
        name: "hcl",
        places: &[PlaceForm::File],
        options: &[],
    },
    Form {
        kind: CommandKind::Ssim,
        name: "ssim",
        places: &[PlaceForm::File, PlaceForm::File],
        options: &[OptionName::Full, OptionName::Mem, OptionName::Limit],
    },
    Form {
        kind: CommandKind::Ssimp,
        name: "ssimp",
        places: &[PlaceForm::File, PlaceForm::File],
        options: &[OptionName::Full, OptionName::Mem, OptionName::Limit],
    },
    Form {
        kind: CommandKind::Psim,
        name: "psim",
        places: &[PlaceForm::File, PlaceForm::File],
        options: &[
            OptionName::Full,
            OptionName::Mem,
            OptionName::Limit,
            OptionName::Trace,
            OptionName::Checked,
        ],
    },
    Form {
        kind: CommandKind::CheckSeq,
        name: "check",
        places: &[PlaceForm::Keyword("seq"), PlaceForm::File],
        options: &[OptionName::Full],
    },
    Form {
        kind: CommandKind::CheckPlus,
        name: "check",
        places: &[PlaceForm::Keyword("seqplus"), PlaceForm::File],
        options: &[OptionName::Full],
    },
    Form {
        kind: CommandKind::CheckPipe,
        name: "check",
        places: &[PlaceForm::Keyword("pipe"), PlaceForm::File],
        options: &[OptionName::Full],
    },
    // Only with `--cert`: without it the row above fits.
    Form {
        kind: CommandKind::CertifyPipe,
        name: "check",
        places: &[PlaceForm::Keyword("pipe"), PlaceForm::File],
        options: &[OptionName::Full, OptionName::Cert],
    },
    Form {
        kind: CommandKind::Recheck,
        name: "recheck",
        places: &[PlaceForm::File, PlaceForm::File],
        options: &[OptionName::Full],
    },
    Form {
        kind: CommandKind::Sample,
        name: "sample",
        places: &[PlaceForm::File, SEED, PlaceForm::Number(0, MOST_DRAWN)],
        options: &[OptionName::Full],
    },
    Form {
        kind: CommandKind::Aig,
        name: "aig",
        places: &[PlaceForm::File],
        options: &[OptionName::Full],
    },
    Form {
        kind: CommandKind::Aigrun,
        name: "aigrun",
        places: &[PlaceForm::File, SEED],
        options: &[],
    },
    Form {
        kind: CommandKind::Big,
        name: "big",
        places: &[PlaceForm::Number(1, MOST_INSTRUCTIONS), PlaceForm::File],
        options: &[OptionName::Full],
    },
];

/// Whether a place takes a word.
fn fits_place(place: PlaceForm, word: &str) -> bool
    ensures { result ≡ spec.fits_place (place_in place) word.now }
{
    match place {
        PlaceForm::Keyword(text) => word == text,
        PlaceForm::File => true,
        PlaceForm::Number(least, most) => number_within(word.as_bytes(), least, most).is_some(),
    }
}

/// Whether there are as many words as places, and each place takes its word.
#[tactic(auto, using(crate::proofs::Arguments::other_lengths))]
fn fits_places(places: &[PlaceForm], words: &[&str]) -> bool
    ensures { result ≡ spec.fits_places (map place_in places.now) (words_in words.now) }
{
    if places.len() != words.len() {
        return false;
    }
    let mut at = 0;
    'places: while at < places.len() {
        if !fits_place(places[at], words[at]) {
            return false;
        }
        at += 1;
    }
    true
}

/// Whether a list has an option.
fn has(options: &[OptionName], index: usize) -> bool
    ensures { result ≡ list_any (λ o. arguments.index_of o == index) options.now }
{
    options.iter().any(|option| index_of(*option) == index)
}

/// The number of an option, if the option was given.
fn value_of(found: &FoundArguments<'_>, switch: OptionName) -> Option<u64>
    ensures { result ≡ get_or found.now.values (arguments.index_of switch) None }
{
    let values = found.values;
    values[index_of(switch)]
}

/// Whether an option wasn't given, or is one of the form's.
fn fits_switch(options: &[OptionName], found: &FoundArguments<'_>, switch: OptionName) -> bool
    ensures { result ≡ spec.fits_switch options.now found.now.values switch }
{
    value_of(found, switch).is_none() || has(options, index_of(switch))
}

/// Whether a name and the collected arguments fit a form.
fn fits(form: &Form, name: &str, found: &FoundArguments<'_>) -> bool
    ensures { result ≡ spec.fits (form_in form.now) name.now (filled_in found.now) }
{
    name == form.name
        && fits_places(form.places, found.words.as_slice())
        && (fits_switch(form.options, found, OptionName::Full)
            && fits_switch(form.options, found, OptionName::Mem)
            && fits_switch(form.options, found, OptionName::Limit)
            && fits_switch(form.options, found, OptionName::Trace)
            && fits_switch(form.options, found, OptionName::Checked)
            && fits_switch(form.options, found, OptionName::Cert))
}

/// The instruction set of a command: with `iaddq` if `--full` was given.
fn variant_with(full: Option<u64>) -> Variant
    ensures { result ≡ spec.variant_with full }
{
    match full {
        None => Variant::Base,
        Some(_) => Variant::Full,
    }
}

/// The number in a place, if it is within a range.
fn number_at(found: &FoundArguments<'_>, at: usize, least: u64, most: u64) -> Option<u64>
    ensures { result ≡ spec.number_at least most at (filled_in found.now) }
{
    let word = *found.words.as_slice().get(at)?;
    number_within(word.as_bytes(), least, most)
}

/// The command of a row with the collected arguments. An option that wasn't given has its default.
fn built_command<'a>(kind: CommandKind, found: &FoundArguments<'a>) -> Option<Cmd<'a>>
    ensures { option_map command_in result ≡ spec.built_command kind (filled_in found.now) }
{
    let variant = variant_with(value_of(found, OptionName::Full));
    let mem = value_of(found, OptionName::Mem).unwrap_or(DEFAULT_SIZE);
    let limit = value_of(found, OptionName::Limit).unwrap_or(DEFAULT_LIMIT);
    let trace = value_of(found, OptionName::Trace).is_some();
    let checked = value_of(found, OptionName::Checked).is_some();
    let words = found.words.as_slice();
    match kind {
        CommandKind::Yas => Some(Cmd::Yas {
            asm: *words.get(0)?,
            mem,
            variant,
        }),
        CommandKind::Yis => Some(Cmd::Yis {
            obj: *words.get(0)?,
            mem,
            limit,
            variant,
        }),
        CommandKind::Hcl => Some(Cmd::Hcl {
            hcl: *words.get(0)?,
        }),
        CommandKind::Ssim => Some(Cmd::Ssim {
            hcl: *words.get(0)?,
            obj: *words.get(1)?,
            mem,
            limit,
            variant,
        }),
        CommandKind::Ssimp => Some(Cmd::Ssimp {
            hcl: *words.get(0)?,
            obj: *words.get(1)?,
            mem,
            limit,
            variant,
        }),
        CommandKind::Psim => Some(Cmd::Psim {
            hcl: *words.get(0)?,
            obj: *words.get(1)?,
            mem,
            limit,
            trace,
            checked,
            variant,
        }),
        CommandKind::CheckSeq => Some(Cmd::CheckSeq {
            hcl: *words.get(1)?,
            variant,
        }),
        CommandKind::CheckPlus => Some(Cmd::CheckPlus {
            hcl: *words.get(1)?,
            variant,
        }),
        CommandKind::CheckPipe => Some(Cmd::CheckPipe {
            hcl: *words.get(1)?,
            variant,
        }),
        CommandKind::CertifyPipe => Some(Cmd::CertifyPipe {
            hcl: *words.get(1)?,
            variant,
        }),
        CommandKind::Recheck => Some(Cmd::Recheck {
            hcl: *words.get(0)?,
            cert: *words.get(1)?,
            variant,
        }),
        CommandKind::Sample => Some(Cmd::Sample {
            hcl: *words.get(0)?,
            seed: number_at(found, 1, 0, u64::MAX)?,
            count: number_at(found, 2, 0, MOST_DRAWN)?,
            variant,
        }),
        CommandKind::Aig => Some(Cmd::Aig {
            hcl: *words.get(0)?,
            variant,
        }),
        CommandKind::Aigrun => Some(Cmd::Aigrun {
            aag: *words.get(0)?,
            seed: number_at(found, 1, 0, u64::MAX)?,
        }),
        CommandKind::Big => Some(Cmd::Big {
            number: number_at(found, 0, 1, MOST_INSTRUCTIONS)?,
            hcl: *words.get(1)?,
            variant,
        }),
    }
}

/// The command of the first form that fits a name and the collected arguments.
#[tactic(auto, unfolding(crate::specs::Forms::first_fit))]
fn first_fit<'a>(forms: &[Form], name: &str, found: &FoundArguments<'a>) -> Option<Cmd<'a>>
    ensures { option_map command_in result ≡ spec.first_fit (map form_in forms.now) name.now (filled_in found.now) }
{
    for form in forms {
        if fits(form, name, found) {
            return built_command(form.kind, found);
        }
    }
    None
}

/// The command of a name and the collected arguments.
pub fn command_of<'a>(name: &str, found: &FoundArguments<'a>) -> Option<Cmd<'a>>
    ensures { option_map command_in result ≡ spec.first_fit spec.forms name.now (filled_in found.now) }
{
    first_fit(&FORMS, name, found)
}
