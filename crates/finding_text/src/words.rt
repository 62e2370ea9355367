//! Names of numbers: instructions, registers, statuses, and the constants of HCL.
use std::alloc::AllocError;

static REGISTERS: [&'static str; 15] = [
    "%rax", "%rcx", "%rdx", "%rbx", "%rsp", "%rbp", "%rsi", "%rdi", "%r8", "%r9", "%r10", "%r11",
    "%r12", "%r13", "%r14",
];

static ICODES: [&'static str; 13] = [
    "IHALT", "INOP", "IRRMOVQ", "IIRMOVQ", "IRMMOVQ", "IMRMOVQ", "IOPQ", "IJXX", "ICALL", "IRET",
    "IPUSHQ", "IPOPQ", "IIADDQ",
];

static INSTRUCTIONS: [&'static str; 13] = [
    "halt", "nop", "rrmovq", "irmovq", "rmmovq", "mrmovq", "OPq", "jXX", "call", "ret", "pushq",
    "popq", "iaddq",
];

static OPERATIONS: [&'static str; 4] = ["addq", "subq", "andq", "xorq"];

static JUMPS: [&'static str; 7] = ["jmp", "jle", "jl", "je", "jne", "jge", "jg"];

static MOVES: [&'static str; 7] = [
    "rrmovq", "cmovle", "cmovl", "cmove", "cmovne", "cmovge", "cmovg",
];

static STATUSES: [&'static str; 5] = ["SBUB", "SAOK", "SHLT", "SADR", "SINS"];

/// The name at a place of a table.
fn entry(table: &'static [&'static str], n: u64) -> Option<&'static str> {
    match usize::try_from(n) {
        Ok(place) => table.get(place).copied(),
        Err(_) => None,
    }
}

/// The name of a register: `%rax` to `%r14`, or none.
fn register(n: u64) -> Option<&'static str> {
    entry(&REGISTERS, n)
}

/// Writes the name of a register after its purpose, unless it is RNONE.
pub fn put_register(out: &mut String, what: &str, n: u64) -> Result<(), AllocError> {
    match register(n) {
        Some(name) => write!(out, ", {what} {name}"),
        None => Ok(()),
    }
}

/// The name of a status: `SBUB` to `SINS`.
pub fn status(n: u64) -> Option<&'static str> {
    entry(&STATUSES, n)
}

/// An instruction without its function: `OPq`, `jXX`.
pub fn instruction(icode: u64) -> &'static str {
    entry(&INSTRUCTIONS, icode).unwrap_or("invalid")
}

/// An instruction with its function: `subq`, `jle`.
pub fn mnemonic(icode: u64, ifun: u64) -> &'static str {
    let own = match icode {
        2 => entry(&MOVES, ifun),
        6 => entry(&OPERATIONS, ifun),
        7 => entry(&JUMPS, ifun),
        _ => None,
    };
    own.unwrap_or(instruction(icode))
}

/// What follows the last `_` of a name.
fn after_stage(name: &str) -> &str {
    match name.split_once('_') {
        Some((_, rest)) => rest,
        None => name,
    }
}

/// The name of the register that a signal names, or `RNONE` if it names none.
fn register_or_none(n: u64) -> Option<&'static str> {
    if n == 15 { Some("RNONE") } else { register(n) }
}

/// The name of a number that this signal can have: a constant of HCL, or a register.
pub fn value_name(signal: &str, n: u64) -> Option<&'static str> {
    match after_stage(signal) {
        "icode" => entry(&ICODES, n),
        "pIcode" => entry(&ICODES, n),
        "stat" => status(n),
        "Stat" => status(n),
        "srcA" => register_or_none(n),
        "srcB" => register_or_none(n),
        "dstE" => register_or_none(n),
        "dstM" => register_or_none(n),
        "rA" => register_or_none(n),
        "rB" => register_or_none(n),
        _ => None,
    }
}

/// Writes a number of a signal, with its name if it has one: `6 (IOPQ)`.
pub fn put_value(out: &mut String, signal: &str, n: u64) -> Result<(), AllocError> {
    write!(out, "{n}")?;
    match value_name(signal, n) {
        Some(name) => write!(out, " ({name})"),
        None => Ok(()),
    }
}
