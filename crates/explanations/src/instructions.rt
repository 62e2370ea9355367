//! What the instructions do, in a few words: `V` is a number or a label, `D` a displacement.

static OPERATIONS: [&str; 4] = [
    "rB = rB + rA, and the flags are set",
    "rB = rB - rA, and the flags are set",
    "rB = rB & rA, and the flags are set",
    "rB = rB ^ rA, and the flags are set",
];

/// What an instruction does: a move or a jump with function 0 has no condition.
pub fn instruction_meaning(icode: u64, ifun: u64) -> &'static str {
    match icode {
        0 => "ends the program with status HLT",
        1 => "nothing",
        2 => {
            if ifun == 0 {
                "rB = rA"
            } else {
                "rB = rA if the condition holds"
            }
        }
        3 => "rB = V",
        4 => "the word at rB + D = rA",
        5 => "rA = the word at rB + D",
        6 => match OPERATIONS.get(ifun as usize) {
            Some(meaning) => *meaning,
            None => "",
        },
        7 => {
            if ifun == 0 {
                "goes on at V"
            } else {
                "goes on at V if the condition holds"
            }
        }
        8 => "pushes the address of the next instruction and goes on at V",
        9 => "pops an address and goes on there",
        10 => "`%rsp` = `%rsp` - 8, and the word there = rA (`pushq %rsp` stores the old value)",
        11 =>
            "rA = the word at `%rsp`, and `%rsp` = `%rsp` + 8 (`popq %rsp` leaves the word that was read)",
        12 => "rB = rB + V, and the flags are set",
        _ => "",
    }
}
