//! Rules: their numbers and gates, over one net.
use ctl_atoms::Atom;
use nets::Net;
use y86_base::{Items, Variant};

/// A rule: its number, and the gate that is true if it is met.
#[derive(Clone, Copy, Debug, PartialEq, Eq)]
pub struct Rule {
    pub number: u32,
    pub gate: u64,
}

/// The rules of a datapath in their order, for one instruction set, over one net; and the atoms of the design, in the
/// order in which their truths follow the fields.
#[derive(Drop)]
pub struct Rules {
    pub variant: Variant,
    pub net: Net,
    pub list: Items<Rule>,
    pub atoms: Items<Atom>,
}
