//! Addresses: the number of bytes of a statement, and the address to which it leads.
ghost use Rattle.std.specs.Prelude.{◌≡◌, ◌<◌, IfOk};
ghost use Rattle.y86_base.specs.Text.{below_word};
ghost use Rattle.yas_asm.specs.Grammar as grammar;
ghost use Rattle.yas_asm.specs.Assembly as assembly;
ghost use Rattle.yas_asm.specs.Sound.{IsSound};

use crate::fault::AsmWhy;
use crate::statement::{Parsed, Statement, Width};
use y86_base::Variant;
use y86_isa::row;

pub fn bytes_of(width: Width) -> u64
    ensures { result ≡ grammar.bytes_of width }
{
    match width {
        Width::One => 1,
        Width::Two => 2,
        Width::Four => 4,
        Width::Eight => 8,
    }
}

/// The number of bytes that a statement emits.
#[tactic(auto, unfolding(crate::specs::Assembly::width_of))]
pub fn width_of(variant: Variant, statement: &Statement) -> u64
    ensures { result ≡ assembly.width_of variant statement.now }
{
    match statement {
        Statement::Instruction { icode, .. } => row(variant, u64::from(*icode)).length,
        Statement::Data { width, .. } => bytes_of(*width),
        _ => 0,
    }
}

/// The least multiple of a number that is not below an address, if it is below 2^64.
fn next_multiple(number: u64, address: u64) -> Option<u64>
    requires { 0 < number }
    ensures { result ≡ below_word (assembly.next_multiple number address) }
{
    let past = address % number;
    if past == 0 {
        return Some(address);
    }
    address.checked_add(number - past)
}

/// The address to which a statement leads, if it is below 2^64.
#[tactic(auto, unfolding(crate::specs::Assembly::destination))]
fn destination(variant: Variant, address: u64, statement: &Statement) -> Option<u64>
    requires { IsSound variant statement.now }
    ensures { result ≡ below_word (assembly.destination variant address statement.now) }
{
    match statement {
        Statement::Position(n) => Some(*n),
        Statement::Align(n) => next_multiple(*n, address),
        Statement::Instruction { icode, .. } => {
            address.checked_add(row(variant, u64::from(*icode)).length)
        }
        Statement::Data { width, .. } => address.checked_add(bytes_of(*width)),
        Statement::Nothing | Statement::Wide => Some(address),
    }
}

/// The address after a statement; None if it is past the size.
#[tactic(auto, unfolding(crate::specs::Assembly::place))]
pub fn place(variant: Variant, size: u64, address: u64, statement: &Statement) -> Option<u64>
    requires { IsSound variant statement.now }
    ensures { result ≡ assembly.place variant size address statement.now }
{
    let behind = destination(variant, address, statement)?;
    if behind <= size { Some(behind) } else { None }
}

/// The address after a line; a line with a fault of its own, or one that leads past the size, leaves it unchanged.
#[tactic(auto, unfolding(crate::specs::Assembly::address_after))]
pub fn address_after(
    variant: Variant,
    size: u64,
    address: u64,
    read: &Result<Parsed, AsmWhy>,
) -> u64
    requires { IfOk read.now (λ parsed. IsSound variant parsed.statement) }
    ensures { result ≡ assembly.address_after variant size address read.now }
{
    match read {
        Err(_) => address,
        Ok(parsed) => match place(variant, size, address, &parsed.statement) {
            None => address,
            Some(behind) => behind,
        },
    }
}
