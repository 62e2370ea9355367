//! The columns of the instruction table, applied to numbers.
ghost use Rattle.std.specs.Prelude.{◌≡◌};
ghost use Rattle.y86_base.specs.Stat.{stat_number};
ghost use Rattle.y86_base.specs.Words as words;
ghost use Rattle.y86_isa.specs.Blocks as blocks;

use y86_isa::RegisterColumn;

/// Whether a number isn't 0.
pub fn set(n: u64) -> bool
    ensures { result ≡ words.set n }
{
    n != 0
}

/// The register that a column names.
pub fn register_number(column: RegisterColumn, r_a: u64, r_b: u64) -> u64
    ensures { result ≡ blocks.register_number column r_a r_b }
{
    match column {
        RegisterColumn::Dash => 15,
        RegisterColumn::FieldA => r_a,
        RegisterColumn::FieldB => r_b,
        RegisterColumn::Stack => 4,
    }
}

/// The number of the status that fetch finds.
pub fn fetched_status(error: bool, icode: u64) -> u64
    ensures { result ≡ stat_number (blocks.fetch_status error icode) }
{
    if error {
        3
    } else if icode == 15 {
        4
    } else if icode == 0 {
        2
    } else {
        1
    }
}

/// The function of the ALU.
pub fn alu_function(selects: bool, ifun: u64) -> u64
    ensures { result ≡ blocks.alu_function selects ifun }
{
    if selects { ifun } else { 0 }
}

/// A destination after the condition.
pub fn destination_e(conditional: bool, cnd: bool, raw: u64) -> u64
    ensures { result ≡ blocks.destination_e conditional cnd raw }
{
    if conditional && !cnd { 15 } else { raw }
}
