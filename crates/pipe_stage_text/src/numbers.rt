//! Texts of labels and numbers.
ghost use Rattle.std.specs.Prelude.{◌≡◌, ◌++◌, [], OnOk, slice_index_or};
ghost use Rattle.pipe_stage_text.specs.Numbers as text;

use y86_base::{Memory, Numeral, Regs, Stat, put, put_decimal};

const NO_REGISTER: u64 = 15;

/// The number of functions of the ALU.
const ALU_FUNCTIONS: u64 = 4;

/// Appends an address.
#[tactic(auto, unfolding(crate::specs::Numbers::address))]
pub fn put_address(out: &mut Vec<u8>, n: u64) -> Result<(), Memory>
    ensures { OnOk result (out.new.items ≡ out.old.items ++ text.address n) }
{
    put(out, b"0x")?;
    put(out, Numeral::hex(3, n).as_bytes())
}

/// Appends a register by its number.
#[tactic(auto, unfolding(crate::specs::Numbers::register))]
pub(crate) fn put_register(out: &mut Vec<u8>, n: u64) -> Result<(), Memory>
    ensures { OnOk result (out.new.items ≡ out.old.items ++ text.register n) }
{
    if n < NO_REGISTER {
        put(out, Regs::name(n))
    } else if n == NO_REGISTER {
        put(out, b"-")
    } else {
        put_decimal(out, n)
    }
}

/// Appends a key and a text.
#[tactic(auto, unfolding(crate::specs::Numbers::text_pair))]
pub fn put_text_pair(out: &mut Vec<u8>, key: &[u8], value: &[u8]) -> Result<(), Memory>
    ensures { OnOk result (out.new.items ≡ out.old.items ++ text.text_pair key.now value.now) }
{
    put(out, key)?;
    put(out, value)
}

/// Appends a key and a word.
#[tactic(auto, unfolding(crate::specs::Numbers::word_pair))]
pub fn put_word_pair(out: &mut Vec<u8>, key: &[u8], n: u64) -> Result<(), Memory>
    ensures { OnOk result (out.new.items ≡ out.old.items ++ text.word_pair key.now n) }
{
    put(out, key)?;
    put(out, b"0x")?;
    put(out, Numeral::hex(1, n).as_bytes())
}

/// Appends a key and a register.
#[tactic(auto, unfolding(crate::specs::Numbers::register_pair))]
pub fn put_register_pair(out: &mut Vec<u8>, key: &[u8], n: u64) -> Result<(), Memory>
    ensures { OnOk result (out.new.items ≡ out.old.items ++ text.register_pair key.now n) }
{
    put(out, key)?;
    put_register(out, n)
}

/// Appends a key and a number.
#[tactic(auto, unfolding(crate::specs::Numbers::number_pair))]
pub fn put_number_pair(out: &mut Vec<u8>, key: &[u8], n: u64) -> Result<(), Memory>
    ensures { OnOk result (out.new.items ≡ out.old.items ++ text.number_pair key.now n) }
{
    put(out, key)?;
    put_decimal(out, n)
}

/// The name of a function of the ALU; no bytes for another number.
#[tactic(auto, unfolding(crate::specs::Numbers::functions))]
fn function_name(n: u64) -> &'static [u8]
    ensures { result.now ≡ slice_index_or text.functions n [] }
{
    match n {
        0 => b"add",
        1 => b"sub",
        2 => b"and",
        3 => b"xor",
        _ => b"",
    }
}

/// Appends a function of the ALU by its number.
#[tactic(auto, unfolding(crate::specs::Numbers::function))]
fn put_function(out: &mut Vec<u8>, n: u64) -> Result<(), Memory>
    ensures { OnOk result (out.new.items ≡ out.old.items ++ text.function n) }
{
    if n < ALU_FUNCTIONS {
        put(out, function_name(n))
    } else {
        put_decimal(out, n)
    }
}

/// Appends a key and a function of the ALU.
#[tactic(auto, unfolding(crate::specs::Numbers::function_pair))]
pub fn put_function_pair(out: &mut Vec<u8>, key: &[u8], n: u64) -> Result<(), Memory>
    ensures { OnOk result (out.new.items ≡ out.old.items ++ text.function_pair key.now n) }
{
    put(out, key)?;
    put_function(out, n)
}

/// Appends a key and a status by its number.
#[tactic(auto, unfolding(crate::specs::Numbers::status_pair))]
pub fn put_status_pair(out: &mut Vec<u8>, key: &[u8], n: u64) -> Result<(), Memory>
    ensures { OnOk result (out.new.items ≡ out.old.items ++ text.status_pair key.now n) }
{
    put(out, key)?;
    put(out, Stat::of(n).name())
}
