//! Compiles the equality of two operands.
ghost use Rattle.std.specs.Prelude.{◌≡◌, ◌++◌, nat_eq, IfOk};
ghost use Rattle.hcl_types.specs.Terms.{names, value, word_meaning};
ghost use Rattle.hcl_compile.specs.Making.{IsEquality, IsSmall, MayDecide, code_equality};

use crate::decisions::{Decisions, put_code, put_same};
use crate::numbers::{Operand, read_operand};
use crate::targets::Targets;
use hcl_types::{NameId, Term};
use y86_base::Memory;

/// What a node must ask to know whether two words are equal. `Other` is nothing that a node can ask of rows.
#[derive(Clone, Copy, Debug, PartialEq, Eq)]
pub enum Equality {
    Known(bool),
    Rows(NameId, NameId),
    /// A row has a code, below 16.
    Code(NameId, u64),
    Other,
}

/// The equality of a row and a number.
fn of_row(id: NameId, n: u64) -> Equality
    ensures is { result ≡ code_equality id n }
    ensures small { IsSmall result }
{
    if n < 16 {
        Equality::Code(id, n)
    } else {
        Equality::Other
    }
}

/// The equality of two terms.
fn compared(x: &Term, y: &Term, constants: &[u64]) -> Equality
    ensures is { IsEquality constants.now x.now y.now result }
    ensures small { IsSmall result }
{
    match (read_operand(x, constants), read_operand(y, constants)) {
        (Operand::Number(n), Operand::Number(m)) => Equality::Known(n == m),
        (Operand::Row(id), Operand::Row(other)) => Equality::Rows(id, other),
        (Operand::Row(id), Operand::Number(n)) => of_row(id, n),
        (Operand::Number(n), Operand::Row(id)) => of_row(id, n),
        _ => Equality::Other,
    }
}

/// Decides whether two terms are equal, if nodes can ask for it.
pub fn put_equal(
    x: &Term,
    y: &Term,
    constants: &[u64],
    to: Targets,
    d: &mut Decisions,
) -> Result<Option<u32>, Memory>
    ensures { IfOk result (MayDecide constants.now (names x.now ++ names y.now) (λ env. nat_eq (value word_meaning env x.now) (value word_meaning env y.now)) d.old d.new to) }
{
    match compared(x, y, constants) {
        Equality::Known(equal) => Ok(Some(to.chosen(equal))),
        Equality::Rows(left, right) => Ok(Some(put_same(left, right, to, d)?)),
        Equality::Code(name, code) => Ok(Some(put_code(name, code, to, d)?)),
        Equality::Other => Ok(None),
    }
}
