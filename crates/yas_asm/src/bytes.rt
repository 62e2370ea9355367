//! The bytes that a statement emits.
ghost use Rattle.std.specs.Prelude.{◌≡◌, take};
ghost use Rattle.std.specs.Int.{to_le_bytes, w64};
ghost use Rattle.yas_asm.specs.Assembly as assembly;
ghost use Rattle.yas_asm.specs.Grammar as grammar;
ghost use Rattle.yas_asm.specs.Sound.{IsSound};

use crate::address::bytes_of;
use crate::labels::Labels;
use crate::statement::{Operand, Statement, Width};
use arrayvec::ArrayVec;
use y86_base::Variant;
use y86_isa::{Instr, encode};

/// The number that an operand means; 0 for a label that is not defined.
#[tactic(auto, unfolding(crate::specs::Assembly::value_of))]
fn value_of(labels: &Labels, operand: &Operand) -> u64
    ensures { result ≡ assembly.value_of labels.now operand.now }
{
    match operand {
        Operand::Word(n) => *n,
        Operand::Label(name) => labels.address_of(name.bytes()).unwrap_or(0),
        Operand::Wide => 0,
    }
}

/// The lowest bytes of a number, as many as the width has, the lowest first.
fn data(width: Width, value: u64) -> ArrayVec<u8, 10>
    ensures { result.items ≡ take (grammar.bytes_of width) (to_le_bytes w64 value) }
{
    let bytes = value.to_le_bytes();
    let mut data = ArrayVec::new();
    let _ = data.try_extend_from_slice(&bytes[..bytes_of(width) as usize]);
    data
}

/// The bytes that a statement emits.
#[tactic(auto, unfolding(crate::specs::Assembly::bytes_at, crate::specs::Assembly::value_of))]
pub fn bytes_at(variant: Variant, labels: &Labels, statement: &Statement) -> ArrayVec<u8, 10>
    requires { IsSound variant statement.now }
    ensures { result.items ≡ assembly.bytes_at labels.now statement.now }
{
    match statement {
        Statement::Instruction {
            icode,
            ifun,
            r_a,
            r_b,
            constant,
        } => {
            let val_c = value_of(labels, constant);
            encode(&Instr {
                icode: *icode,
                ifun: *ifun,
                r_a: *r_a,
                r_b: *r_b,
                val_c,
            })
        }
        Statement::Data { width, value } => data(*width, value_of(labels, value)),
        _ => ArrayVec::new(),
    }
}
