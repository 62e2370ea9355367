//! Tables of signals: names, kinds and the sources of their values.
ghost use Rattle.std.specs.Prelude.{◌≡◌};
ghost use Rattle.hcl_types.specs.Tables as tables;

use crate::term::{NameId, Term};
use hcl_tree::Text;
use y86_base::Items;

/// The kind of a row's values.
#[derive(Clone, Copy, Debug, PartialEq, Eq)]
pub enum Class {
    /// A constant.
    Number,
    /// A code: an instruction or function code, a status, a register. It is a number of 64 bits, and nothing cuts it to 4.
    Code,
    /// A word of 64 bits.
    Value,
    /// A Boolean, 0 or 1.
    Truth,
}

/// Where the value of a row comes from.
#[derive(Debug, PartialEq, Drop)]
pub enum Role {
    /// A number that never changes.
    Constant(u64),
    /// A field of the processor's state.
    State,
    /// A hardware block, whose value depends on these rows.
    Hardware(Items<NameId>),
    /// A definition of the HCL file.
    Defined,
}

/// A name of a datapath.
#[derive(Debug, PartialEq, Drop)]
pub struct Row {
    pub name: Text,
    pub class: Class,
    pub role: Role,
}

/// The names of a datapath: what a file may use, and what it must define.
#[derive(Debug, PartialEq, Drop)]
pub struct Table {
    pub rows: Items<Row>,
}

/// The control logic of a datapath: one term for each defined row of its table, in table order.
#[derive(Debug, PartialEq, Drop)]
pub struct Design {
    pub terms: Items<Term>,
}

/// The rows that a cycle computes, in an order in which each comes after all that it depends on.
#[derive(Debug, PartialEq, Drop)]
pub struct Order {
    pub ids: Items<NameId>,
}

/// A design, and an order in which its signals can be computed.
#[derive(Debug, PartialEq, Drop)]
pub struct OrderedDesign {
    pub design: Design,
    pub order: Order,
}

/// A table, and a design bound over it with an order of its signals.
#[derive(Debug, PartialEq, Drop)]
pub struct BoundDesign {
    pub table: Table,
    pub ordered: OrderedDesign,
}

/// A datapath that does one instruction in each cycle.
#[derive(Clone, Copy, Debug, PartialEq, Eq)]
pub enum SequentialDatapath {
    /// SEQ, whose state holds the PC.
    Seq,
    /// SEQ+, which computes the PC at the beginning of a cycle, from what it stored of the instruction before.
    SeqPlus,
}

/// A datapath.
#[derive(Clone, Copy, Debug, PartialEq, Eq)]
pub enum Datapath {
    Seq,
    SeqPlus,
    Pipe,
}

/// Whether a file must define the row.
pub fn is_defined(role: &Role) -> bool
    ensures { result ≡ tables.is_defined role.now }
{
    match role {
        Role::Constant(_) => false,
        Role::State => false,
        Role::Hardware(_) => false,
        Role::Defined => true,
    }
}
