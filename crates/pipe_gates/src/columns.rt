//! Tests on rows of the instruction table, by name.
ghost use Rattle.std.specs.Prelude.{◌≡◌};
ghost use Rattle.pipe_gates.specs.Columns as spec;

use y86_isa::{
    Row, has_operand_a, is_load, is_store, next_is_branch, next_is_val_m, select_a_is_val_a,
    select_a_is_val_p, stores_val_a,
};

/// A test on a row of the instruction table: its instruction is a ret, is a jump (also `jmp`), stores valA, carries valP in
/// the place of valA to M, carries valA itself there, reads memory, writes it, sets the flags, has a destination only where
/// its condition holds, uses the ALU.
#[derive(Clone, Copy, Debug, PartialEq, Eq)]
pub enum RowTest {
    Ret,
    Jump,
    StoresA,
    CarriesP,
    CarriesA,
    Loads,
    Stores,
    SetsFlags,
    Conditional,
    Computes,
}

/// The row passes the test.
pub fn row_passes(row: &Row, test: RowTest) -> bool
    ensures { result ≡ spec.row_passes row.now test }
{
    match test {
        RowTest::Ret => next_is_val_m(row.next),
        RowTest::Jump => next_is_branch(row.next),
        RowTest::StoresA => stores_val_a(row.memory),
        RowTest::CarriesP => select_a_is_val_p(row),
        RowTest::CarriesA => select_a_is_val_a(row),
        RowTest::Loads => is_load(row.memory),
        RowTest::Stores => is_store(row.memory),
        RowTest::SetsFlags => row.sets_flags,
        RowTest::Conditional => row.conditional,
        RowTest::Computes => has_operand_a(row.alu_a),
    }
}
