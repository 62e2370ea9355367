//! What is reported of a file: its faults, each with its place, its sentence and related facts.
ghost use Rattle.std.specs.Prelude.{◌≡◌, true};
ghost use Rattle.fault_report.specs.Datapaths as spec;
ghost use Rattle.fault_report.specs.Told.{IsTold};

use hcl_tree::Text;
use hcl_types::{Datapath, Table};
use std::alloc::Global;
use y86_base::{Items, Memory};

/// The tables of names of the three datapaths.
#[derive(Drop)]
pub struct Tables {
    pub seq: Table,
    pub seq_plus: Table,
    pub pipe: Table,
}

/// Another place that a fault refers to, and what is there.
#[derive(Debug, Drop)]
pub struct Related {
    /// `bracket`, `before`, `first`, `cycle`
    pub role: &'static [u8],
    pub text: Text,
    pub line: u64,
    pub column: u64,
}

/// A fault of a file.
#[derive(Debug, Drop)]
pub struct Fault {
    /// From 1; 0 if the fault belongs to no line, for example a missing signal.
    pub line: u64,
    /// In bytes, from 1; 0 if the fault is the whole line.
    pub column: u64,
    /// The stable name of this kind of fault, for example `hcl.semicolon`.
    pub code: &'static [u8],
    /// The word that `y86` prints as the reason for refusing the file.
    pub reason: &'static [u8],
    /// One or two sentences without a line feed.
    pub sentence: Text,
    /// The token or the name that it is about; empty at the end of the text.
    pub found: Text,
    /// What could stand at the place, by name.
    pub expected: Items<&'static [u8]>,
    pub related: Items<Related>,
}

/// The faults of a file, in the order in which they are printed. A file without faults is accepted; if it is HCL, it is
/// a design for the datapath.
#[derive(Debug, Drop)]
pub struct Report {
    pub datapath: Option<Datapath>,
    pub faults: Items<Fault>,
}

/// Whether a fault on this line has been reported.
#[tactic(auto, using(crate::proofs::Telling::told_at))]
pub fn has_line(faults: &[Fault], line: u64) -> bool
    ensures { result ≡ true → IsTold line faults.now }
{
    for fault in faults {
        if fault.line == line {
            return true;
        }
    }
    false
}

/// The name of a datapath.
pub fn datapath_name(datapath: Datapath) -> &'static [u8]
    ensures { result.now ≡ spec.datapath_name datapath }
{
    match datapath {
        Datapath::Seq => b"SEQ",
        Datapath::SeqPlus => b"SEQ+",
        Datapath::Pipe => b"PIPE",
    }
}

/// The part of a text between two places; nothing if they aren't places of it, in this order.
pub fn part(text: &[u8], from: usize, to: usize) -> &[u8] {
    if from <= to && to <= text.len() {
        let front = text.split_at(to).0;
        front.split_at(from).1
    } else {
        text.split_at(text.len()).1
    }
}

/// Another place with what is there.
pub fn other_place(
    alloc: Global,
    role: &'static [u8],
    bytes: &[u8],
    line: u64,
    column: u64,
) -> Result<Related, Memory> {
    match Text::of(alloc, bytes) {
        Err(memory) => Err(memory),
        Ok(text) => Ok(Related {
            role,
            text,
            line,
            column,
        }),
    }
}
