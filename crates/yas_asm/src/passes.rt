//! The two passes: the first collects labels, the second emits bytes.
ghost use Rattle.std.specs.Prelude.{◌≡◌, ◌+◌, ◌++◌, ◌<◌, ◌^◌, IfOk, OnOk};
ghost use Rattle.yas_asm.specs.Assembly as assembly;
ghost use Rattle.yas_asm.specs.Outcome.{StopsWith, GivesOrFaults, line_for};
ghost use Rattle.yas_asm.specs.LabelMap.{items_of};
ghost use Rattle.yas_asm.specs.Sound.{IsSound};

use crate::address::{address_after, place, width_of};
use crate::bytes::bytes_at;
use crate::check::{SecondPass, statement_fault};
use crate::fault::{AsmFault, AsmWhy};
use crate::grammar::read_line;
use crate::labels::Labels;
use crate::listing::Line;
use crate::name::Name;
use crate::statement::{Parsed, Statement};
use crate::used::{UsedRanges, add_range};
use arrayvec::ArrayVec;
use std::alloc::{AllocError, Global};
use y86_base::{Variant, first_line};

/// The content of a line, or the fault that it has of its own.
type ParseResult<'a> = Result<Parsed<'a>, AsmWhy>;

/// Defines the label of a line, if it has one.
fn define(
    alloc: Global,
    labels: &mut Labels,
    address: u64,
    label: &Option<Name>,
) -> Result<(), AllocError>
    ensures { OnOk result (labels.new ≡ assembly.with_label labels.old address label.now) }
{
    if let Some(name) = label {
        labels.define(alloc, name.bytes(), address)?;
    }
    Ok(())
}

/// Defines the label of a line, if it has one and the line has no fault of its own.
fn define_read(
    alloc: Global,
    labels: &mut Labels,
    address: u64,
    read: &ParseResult,
) -> Result<(), AllocError>
    ensures { OnOk result (labels.new ≡ assembly.with_label labels.old address (assembly.label_of read.now)) }
{
    match read {
        Err(_) => Ok(()),
        Ok(parsed) => define(alloc, labels, address, &parsed.label),
    }
}

/// The labels of a source with their addresses.
#[tactic(auto, using(crate::proofs::PassLemmas::collecting))]
pub fn collect_labels(
    alloc: Global,
    variant: Variant,
    source: &[u8],
    size: u64,
) -> Result<Labels, AllocError>
    ensures { IfOk result (λ table. table ≡ assembly.labels (assembly.source_lines variant size source.now)) }
{
    let mut table = Labels::new(alloc);
    let mut address = 0;
    let mut rest = source;
    while let Some((text, behind)) = first_line(rest) {
        let read = read_line(variant, text);
        define_read(alloc, &mut table, address, &read)?;
        address = address_after(variant, size, address, &read);
        rest = behind;
    }
    Ok(table)
}

/// Adds a well-formed line to the labels and addresses of the lines before it, unless it has a fault.
fn enter(
    alloc: Global,
    pass: &SecondPass,
    known: &mut Labels,
    used: &mut UsedRanges,
    address: u64,
    parsed: &Parsed,
) -> Result<(), AsmWhy>
    requires { IsSound pass.now.variant parsed.now.statement }
    ensures fault { StopsWith result (assembly.statement_fault pass.now.variant pass.now.size pass.now.labels.now known.old used.old address parsed.now) }
    ensures known { OnOk result (known.new ≡ assembly.with_label known.old address parsed.now.label) }
    ensures used { OnOk result (used.new ≡ used.old ++ assembly.emitted pass.now.variant pass.now.size address parsed.now.statement) }
{
    if let Some(why) = statement_fault(pass, known, used, address, parsed) {
        return Err(why);
    }
    if define(alloc, known, address, &parsed.label).is_err() {
        return Err(AsmWhy::Memory);
    }
    let _size = pass.size; // brings its bound, so that no sum below wraps
    let width = width_of(pass.variant, &parsed.statement);
    match add_range(used, address, width) {
        Ok(()) => Ok(()),
        Err(_) => Err(AsmWhy::Memory),
    }
}

/// Adds a line to the labels and addresses of the lines before it, unless it has a fault.
#[tactic(auto, unfolding(crate::specs::Assembly::line_fault))]
fn enter_read(
    alloc: Global,
    pass: &SecondPass,
    known: &mut Labels,
    used: &mut UsedRanges,
    address: u64,
    read: &ParseResult,
) -> Result<(), AsmWhy>
    requires { IfOk read.now (λ parsed. IsSound pass.now.variant parsed.statement) }
    ensures fault { StopsWith result (assembly.line_fault pass.now.variant pass.now.size pass.now.labels.now known.old used.old address read.now) }
    ensures known { OnOk result (known.new ≡ assembly.with_label known.old address (assembly.label_of read.now)) }
    ensures used { OnOk result (used.new ≡ used.old ++ assembly.addresses pass.now.variant pass.now.size address read.now) }
{
    match read {
        Err(why) => Err(*why),
        Ok(parsed) => enter(alloc, pass, known, used, address, parsed),
    }
}

/// The address that a well-formed line shows.
fn shown(variant: Variant, size: u64, address: u64, parsed: &Parsed) -> Option<u64>
    requires { IsSound variant parsed.now.statement }
    ensures { result ≡ assembly.shown_at parsed.now.label address (assembly.place variant size address parsed.now.statement) parsed.now.statement }
{
    match &parsed.statement {
        Statement::Nothing if parsed.label.is_some() => Some(address),
        Statement::Instruction { .. } | Statement::Data { .. } => Some(address),
        Statement::Position(_) | Statement::Align(_) => {
            place(variant, size, address, &parsed.statement)
        }
        Statement::Nothing | Statement::Wide => None,
    }
}

/// A line in the listing.
#[tactic(auto, unfolding(crate::specs::Assembly::listed))]
fn listed(pass: &SecondPass, from: u64, to: u64, address: u64, read: &ParseResult) -> Line
    requires { IfOk read.now (λ parsed. IsSound pass.now.variant parsed.statement) }
    ensures { result ≡ assembly.listed pass.now.variant pass.now.size pass.now.labels.now from to address read.now }
{
    match read {
        Err(_) => Line {
            addr: None,
            bytes: ArrayVec::new(),
            from,
            to,
        },
        Ok(parsed) => Line {
            addr: shown(pass.variant, pass.size, address, parsed),
            bytes: bytes_at(pass.variant, pass.labels, &parsed.statement),
            from,
            to,
        },
    }
}

/// The fault of the line after the first `passed` lines.
fn fault(passed: u64, why: AsmWhy) -> AsmFault
    requires { passed + 1 < 2 ^ 64 }
    ensures why { result.why ≡ why }
    ensures line { result.line ≡ line_for passed why }
{
    let line = match why {
        AsmWhy::Memory => 0,
        _ => passed + 1,
    };
    AsmFault { line, why }
}

/// The listing of a source, given its labels, or the first line with a fault.
pub fn emit(alloc: Global, pass: &SecondPass, source: &[u8]) -> Result<Vec<Line>, AsmFault>
    ensures { GivesOrFaults items_of result
        (assembly.assembled_with pass.now.variant pass.now.size pass.now.labels.now (assembly.source_lines pass.now.variant pass.now.size source.now)) }
{
    let mut known = Labels::new(alloc);
    let mut used = UsedRanges::new(alloc);
    let mut listing = Vec::new(alloc);
    let mut address = 0;
    let mut from = 0;
    let mut passed = 0;
    let mut rest = source;
    while let Some((text, behind)) = first_line(rest) {
        let read = read_line(pass.variant, text);
        match enter_read(alloc, pass, &mut known, &mut used, address, &read) {
            Ok(()) => {}
            Err(why) => return Err(fault(passed, why)),
        }
        let to = from + text.len() as u64;
        if listing
            .push(listed(pass, from, to, address, &read))
            .is_err()
        {
            return Err(fault(passed, AsmWhy::Memory));
        }
        address = address_after(pass.variant, pass.size, address, &read);
        from = to + 1;
        passed += 1;
        rest = behind;
    }
    Ok(listing)
}
