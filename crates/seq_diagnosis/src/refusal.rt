//! A refused file: its false obligations, each with its least counterexample.
use crate::diagnosis::Diagnosis;
use ctl_atoms::Atom;
use nets::Valuation;
use y86_base::Items;

/// An obligation that is false somewhere: its number, its least counterexample, and the diagnosis there.
#[derive(Drop)]
pub struct Refutation {
    pub rule: u32,
    pub valuation: Valuation,
    pub diagnosis: Diagnosis,
}

/// A refused file: the atoms of its valuations, the first obligation that is false somewhere, and all others.
#[derive(Drop)]
pub struct Refusal {
    pub atoms: Items<Atom>,
    pub first: Refutation,
    pub others: Items<Refutation>,
}
