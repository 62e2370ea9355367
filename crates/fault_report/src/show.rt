//! All sentences on one kind of fault, with `~` around the names of what is filled in.
use crate::asm_rules::{AsmRule, asm_rules};
use crate::binding_faults::{Saying, binding_sayings};
use crate::hcl_rules::{HclRule, hcl_rules};
use crate::object::object_sayings;
use std::alloc::Global;
use y86_base::{Memory, push};

/// Adds the sentences of rules on HCL.
fn put_hcl(out: &mut Vec<&'static [u8]>, rules: &[HclRule], code: &[u8]) -> Result<(), Memory> {
    for rule in rules {
        if rule.code == code {
            match push(out, rule.sentence) {
                Err(memory) => return Err(memory),
                Ok(()) => {}
            }
        }
    }
    Ok(())
}

/// Adds the sentences of rules on assembly.
fn put_assembly(
    out: &mut Vec<&'static [u8]>,
    rules: &[AsmRule],
    code: &[u8],
) -> Result<(), Memory> {
    for rule in rules {
        if rule.code == code {
            match push(out, rule.sentence) {
                Err(memory) => return Err(memory),
                Ok(()) => {}
            }
        }
    }
    Ok(())
}

/// Adds the sentences of all rules on HCL.
fn put_hcl_groups(out: &mut Vec<&'static [u8]>, code: &[u8]) -> Result<(), Memory> {
    for group in 0..99 {
        if let Some(rules) = hcl_rules(group) {
            match put_hcl(out, rules, code) {
                Err(memory) => return Err(memory),
                Ok(()) => {}
            }
        }
    }
    Ok(())
}

/// Adds the sentences of all rules on assembly.
fn put_assembly_groups(out: &mut Vec<&'static [u8]>, code: &[u8]) -> Result<(), Memory> {
    for group in 0..99 {
        if let Some(rules) = asm_rules(group) {
            match put_assembly(out, rules, code) {
                Err(memory) => return Err(memory),
                Ok(()) => {}
            }
        }
    }
    Ok(())
}

/// Adds the sentences that need no test.
fn put_sayings(
    out: &mut Vec<&'static [u8]>,
    sayings: &[Saying],
    code: &[u8],
) -> Result<(), Memory> {
    for saying in sayings {
        if saying.code == code {
            match push(out, saying.pattern) {
                Err(memory) => return Err(memory),
                Ok(()) => {}
            }
        }
    }
    Ok(())
}

/// The sentences for the code of a kind of fault, for example `hcl.semicolon`; none if the text isn't a code.
pub fn sentences_of(alloc: Global, code: &[u8]) -> Result<Vec<&'static [u8]>, Memory> {
    let mut out: Vec<&'static [u8]> = Vec::new(alloc);
    put_hcl_groups(&mut out, code)?;
    put_sayings(&mut out, binding_sayings(), code)?;
    put_assembly_groups(&mut out, code)?;
    put_sayings(&mut out, object_sayings(), code)?;
    Ok(out)
}
