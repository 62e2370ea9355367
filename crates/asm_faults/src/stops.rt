//! Finds where a line stops being well-formed, and what the grammar requires there.
ghost use Rattle.std.specs.Prelude.{◌≡◌, MatchOption, None, Some};
ghost use Rattle.yas_asm.specs.Tokens as tokens;
ghost use Rattle.asm_faults.specs.Stops as spec;

use crate::parts::{Part, parts_of_directive, parts_of_shape};
use crate::reading::{after_label, after_part, directive, ends, name};
use y86_base::Variant;
use yas_asm::mnemonic;

/// The first part that is not where it should be, and the bytes there.
#[tactic(auto, unfolding(crate::specs::Stops::stop_of))]
fn stop_of<'a>(parts: &[Part], bytes: &'a [u8]) -> Option<(Part, &'a [u8])>
    ensures { MatchOption result (spec.stop_of parts.now bytes.now ≡ None)
        (λ x. spec.stop_of parts.now bytes.now ≡ Some (x.0, x.1.now)) }
{
    let mut rest = bytes;
    let mut left = parts;
    'parts: while let Some((part, others)) = left.split_first() {
        match after_part(*part, rest) {
            None => return Some((*part, rest)),
            Some(behind) => {
                rest = behind;
                left = others;
            }
        }
    }
    None
}

/// Where a mnemonic with its operands stops.
fn instruction_stop(variant: Variant, bytes: &[u8]) -> Option<(Part, &[u8])>
    ensures { MatchOption result (spec.instruction_stop variant bytes.now (tokens.name bytes.now) ≡ None)
        (λ x. spec.instruction_stop variant bytes.now (tokens.name bytes.now) ≡ Some (x.0, x.1.now)) }
{
    match name(bytes) {
        None => Some((Part::Statement, bytes)),
        Some((word, rest)) => match mnemonic(variant, word) {
            None => Some((Part::Statement, bytes)),
            Some(operation) => stop_of(parts_of_shape(operation.shape), rest),
        },
    }
}

/// Where an optional statement stops.
#[tactic(auto, unfolding(crate::specs::Stops::statement_stop))]
fn statement_stop(variant: Variant, bytes: &[u8]) -> Option<(Part, &[u8])>
    ensures { MatchOption result (spec.statement_stop variant bytes.now ≡ None)
        (λ x. spec.statement_stop variant bytes.now ≡ Some (x.0, x.1.now)) }
{
    if ends(bytes) {
        return None;
    }
    match directive(bytes) {
        Some((found, rest)) => stop_of(parts_of_directive(found), rest),
        None => instruction_stop(variant, bytes),
    }
}

/// Where a line stops being well-formed: the part that the grammar requires there, and the bytes from there on,
/// including blanks in front of them. `None` if the line is well-formed, whether or not its numbers are in bounds
/// (`law_of_stops`).
#[tactic(auto, unfolding(crate::specs::Stops::line_stop))]
pub fn line_stop(variant: Variant, bytes: &[u8]) -> Option<(Part, &[u8])>
    ensures { MatchOption result (spec.line_stop variant bytes.now ≡ None)
        (λ x. spec.line_stop variant bytes.now ≡ Some (x.0, x.1.now)) }
{
    statement_stop(variant, after_label(bytes))
}

/// A line stops somewhere exactly if it is not well-formed.
#[tactic(auto, using(crate::proofs::StopLemmas::stops_where_faulty))]
pub fn law_of_stops()
    ensures { spec.StopsWhereFaulty }
{}
