//! Instructions as their fields, and the bytes that encode them.
ghost use Rattle.std.specs.Prelude.{◌≡◌, ◌+◌, ◌*◌, ◌≤◌, ◌↔◌, ◌++◌, IsTrue, length};
ghost use Rattle.std.specs.Int.{to_le_bytes, w64};
ghost use Rattle.arrayvec.specs.ArrayVec.{array_vec_len};
ghost use Rattle.y86_isa.specs.Encoding as encoding;

use crate::columns::Row;
use crate::table::{icode_count, row};
use arrayvec::ArrayVec;
use y86_base::Variant;

/// The variant that has every instruction.
const WIDEST: Variant = Variant::Full;

/// An instruction as its fields. A register field that the instruction doesn't use is 15, and a constant that it
/// doesn't have is 0.
#[derive(Clone, Copy, Debug, PartialEq, Eq)]
pub struct Instr {
    pub icode: u8,
    pub ifun: u8,
    pub r_a: u8,
    pub r_b: u8,
    pub val_c: u64,
}

fn names_register(used: bool, field: u8) -> bool
    ensures { IsTrue result ↔ encoding.NamesRegister used field }
{
    if used { field < 15 } else { field == 15 }
}

fn fits_row(row: &Row, i: &Instr) -> bool
    ensures { IsTrue result ↔ encoding.FitsRow row.now i.now }
{
    let top = if row.ifun_top == 15 { 0 } else { row.ifun_top };
    u64::from(i.ifun) <= top
        && names_register(row.uses_a, i.r_a)
        && names_register(row.uses_b, i.r_b)
        && (row.has_const || i.val_c == 0)
}

/// Whether the fields are those of an instruction of the variant. Its icode has a row; its ifun is 0 to 6 for icodes 2
/// and 7, 0 to 3 for icode 6 and 0 for all others; the register fields that it uses name registers. An unused field is
/// 15, or 0 for the constant.
pub fn valid(v: Variant, i: &Instr) -> bool
    ensures { IsTrue result ↔ encoding.IsValid v i.now }
{
    let icode = u64::from(i.icode);
    icode < icode_count(v) && fits_row(&row(v, icode), i)
}

/// A byte from its two halves.
fn joined(high: u8, low: u8) -> u8
    requires high { high ≤ 15 }
    requires low { low ≤ 15 }
    ensures { result ≡ 16 * high + low }
{
    16 * high + low
}

/// Appends a word, its lowest byte first.
fn push_word(bytes: &mut ArrayVec<u8, 10>, word: u64)
    requires { array_vec_len bytes.old ≤ 2 }
    ensures { bytes.new.items ≡ bytes.old.items ++ to_le_bytes w64 word }
{
    let _ = bytes.try_extend_from_slice(&word.to_le_bytes());
}

/// The bytes of an instruction, 1 to 10 of them.
#[tactic(auto, using(crate::proofs::Encodings::field_most), unfolding(crate::specs::Encoding::encoded))]
pub fn encode(i: &Instr) -> ArrayVec<u8, 10>
    requires { encoding.IsValid encoding.widest i.now }
    ensures { result.items ≡ encoding.encoded i.now }
{
    let row = row(WIDEST, u64::from(i.icode));
    let mut bytes = ArrayVec::new();
    bytes.push(joined(i.icode, i.ifun));
    if row.has_byte {
        bytes.push(joined(i.r_a, i.r_b));
    }
    if row.has_const {
        push_word(&mut bytes, i.val_c);
    }
    bytes
}
