//! HCL over a datapath's table of names (CS:APP 3e, section 4.2 and its HCL guide): terms and their values, the
//! tables, the equations of a cycle and their order.
#![tactic(auto)]

mod eval;
mod kinds;
mod laws;
mod names;
mod table;
mod term;
mod value;

pub use eval::{Plain, SignalEval};
pub use hcl_tree::{CmpOp, Kind, Text};
pub use kinds::{Kinds, can_be, is_boolean, kinds_of};
pub use laws::{law_of_orders, law_of_values};
pub use names::put_names;
pub use table::{
    BoundDesign, Class, Datapath, Design, Order, OrderedDesign, Role, Row, SequentialDatapath,
    Table, is_defined,
};
pub use term::{NameId, Term, TermBranch};
pub use value::{compare, is_below, value_of};
