//! Tests of the assembler and of object text: bytes that were assembled by hand, and each reason of a refusal.
#![tactic(auto)]

#[cfg(test)]
mod assembly;
#[cfg(test)]
mod listings;
#[cfg(test)]
mod objects;
