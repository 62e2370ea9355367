//! The fault of a statement: the first reason that applies.
ghost use Rattle.std.specs.Prelude.{◌≡◌};
ghost use Rattle.yas_asm.specs.Assembly as assembly;
ghost use Rattle.yas_asm.specs.Sound.{IsSound};

use crate::address::{place, width_of};
use crate::fault::AsmWhy;
use crate::grammar::greatest;
use crate::labels::{LABEL_LIMIT, Labels};
use crate::name::Name;
use crate::statement::{Operand, Parsed, Statement, Width};
use crate::used::{UsedRanges, overlaps};
use y86_base::Variant;

/// Whether an operand is a label whose value does not fit a width.
fn is_wide_label(labels: &Labels, width: Width, operand: &Operand) -> bool
    ensures { result ≡ assembly.is_wide_label labels.now width operand.now }
{
    match operand {
        Operand::Label(name) => labels.address_of(name.bytes()).unwrap_or(0) > greatest(width),
        _ => false,
    }
}

/// Whether an operand is a label that is not defined.
fn is_unknown_label(labels: &Labels, operand: &Operand) -> bool
    ensures { result ≡ assembly.is_unknown_label labels.now operand.now }
{
    match operand {
        Operand::Label(name) => labels.address_of(name.bytes()).is_none(),
        _ => false,
    }
}

/// Whether a statement names a label whose value is too wide for it.
#[tactic(auto, unfolding(crate::specs::Assembly::names_wide))]
fn names_wide(labels: &Labels, statement: &Statement) -> bool
    ensures { result ≡ assembly.names_wide labels.now statement.now }
{
    match statement {
        Statement::Instruction { constant, .. } => is_wide_label(labels, Width::Eight, constant),
        Statement::Data { width, value } => is_wide_label(labels, *width, value),
        _ => false,
    }
}

/// Whether a statement names a label that is not defined.
#[tactic(auto, unfolding(crate::specs::Assembly::names_unknown))]
fn names_unknown(labels: &Labels, statement: &Statement) -> bool
    ensures { result ≡ assembly.names_unknown labels.now statement.now }
{
    match statement {
        Statement::Instruction { constant, .. } => is_unknown_label(labels, constant),
        Statement::Data { value, .. } => is_unknown_label(labels, value),
        _ => false,
    }
}

/// Whether a line's label is defined already.
fn is_defined(known: &Labels, label: &Option<Name>) -> bool
    ensures { result ≡ assembly.is_defined known.now label.now }
{
    match label {
        None => false,
        Some(name) => known.address_of(name.bytes()).is_some(),
    }
}

/// Whether a line's label is beyond the largest number of labels.
fn is_past_limit(known: &Labels, label: &Option<Name>) -> bool
    ensures { result ≡ assembly.is_past_limit known.now label.now }
{
    match label {
        None => false,
        Some(name) => known.address_of(name.bytes()).is_none() && known.len() >= LABEL_LIMIT,
    }
}

/// What is fixed before the second pass: the instruction set, the size of the memory, and the labels that the first
/// pass collected.
#[derive(Clone, Copy)]
pub struct SecondPass<'a> {
    pub variant: Variant,
    pub size: u64,
    pub labels: &'a Labels,
}

/// The first fault of a well-formed line.
#[tactic(auto, unfolding(crate::specs::Assembly::statement_fault))]
pub fn statement_fault(
    pass: &SecondPass,
    known: &Labels,
    used: &UsedRanges,
    address: u64,
    parsed: &Parsed,
) -> Option<AsmWhy>
    requires { IsSound pass.now.variant parsed.now.statement }
    ensures { result ≡ assembly.statement_fault pass.now.variant pass.now.size pass.now.labels.now known.now used.now address parsed.now }
{
    if names_wide(pass.labels, &parsed.statement) {
        return Some(AsmWhy::NumberTooWide);
    }
    if is_defined(known, &parsed.label) {
        return Some(AsmWhy::LabelTwice);
    }
    if names_unknown(pass.labels, &parsed.statement) {
        return Some(AsmWhy::LabelUnknown);
    }
    if place(pass.variant, pass.size, address, &parsed.statement).is_none() {
        return Some(AsmWhy::OutsideMemory);
    }
    if overlaps(used, address, width_of(pass.variant, &parsed.statement)) {
        return Some(AsmWhy::Overlap);
    }
    if is_past_limit(known, &parsed.label) {
        return Some(AsmWhy::LabelLimit);
    }
    None
}
