//! Numbers and names as operands, and the rows that hold their values.
ghost use Rattle.std.specs.Prelude.{◌≡◌, ◌+◌, IfSome, List, ℕ};
ghost use Rattle.hcl_types.specs.declared.term.Term.{Term};
ghost use Rattle.hcl_compile.specs.declared.node.Node.{Node};
ghost use Rattle.hcl_compile.specs.Making.{IsNumber, IsOperand};
ghost use Rattle.hcl_compile.specs.Walks.{Begins, Ends, Within};
ghost use Rattle.hcl_types.specs.Terms.{names, value, word_meaning};

use crate::node::ROWS;
use hcl_types::{NameId, Term};

/// Rows from here on have no target.
const FARTHEST: u32 = u32::MAX - ROWS;

/// One side of a comparison.
#[derive(Clone, Copy, Debug, PartialEq, Eq)]
pub enum Operand {
    /// A number, or the name of a constant.
    Number(u64),
    /// Any other name.
    Row(NameId),
    Other,
}

/// A term as an operand.
pub fn read_operand(t: &Term, constants: &[u64]) -> Operand
    ensures { IsOperand constants.now t.now result }
{
    match t {
        Term::Num(n) => Operand::Number(*n),
        Term::Name(id) => match constants.get(*id as usize) {
            Some(n) => Operand::Number(*n),
            None => Operand::Row(*id),
        },
        _ => Operand::Other,
    }
}

/// The target of the first constant that is this number, if there is one.
pub fn number_target(n: u64, constants: &[u64]) -> Option<u32>
    ensures { IfSome result (IsNumber constants.now n) }
{
    for (id, constant) in constants.iter().enumerate() {
        if *constant == n && id < FARTHEST as usize {
            return Some(ROWS + id as u32);
        }
    }
    None
}

/// The target of a number or of a name, if it has one.
pub fn operand_target(t: &Term, constants: &[u64]) -> Option<u32>
    ensures { IfSome result (λ target. (terms : List Term) (nodes : List Node) (env : ℕ → ℕ) (rows : ℕ) → Begins constants.now env rows → Within rows (names t.now) → Ends env rows terms nodes target (value word_meaning env t.now)) }
{
    match read_operand(t, constants) {
        Operand::Number(n) => number_target(n, constants),
        Operand::Row(id) => { if id < FARTHEST { Some(ROWS + id) } else { None } }
        Operand::Other => None,
    }
}
