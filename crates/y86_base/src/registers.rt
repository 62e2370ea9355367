//! The program registers and their names.
ghost use Rattle.std.specs.Prelude.{◌≡◌, map, replicate};
ghost use Rattle.y86_base.specs.Keyword.{entry};
ghost use Rattle.y86_base.specs.Registers.{register, register_name, with_register};
ghost use Rattle.y86_base.specs.Registers as names;

use crate::keyword::Keyword;
use std::marker::Model;

/// The 15 program registers `%rax` to `%r14`, seen as the list of their words.
#[derive(Clone, Copy, Debug, PartialEq, Eq)]
pub struct Regs {
    words: [u64; 15],
}

impl Model for Regs {
    ghost use Rattle.std.specs.Prelude.{List, ℕ};

    ghost Value = { List ℕ };

    ghost view = { λ registers. registers.words };

    ghost inverse = { λ words. record { words = words } };
}

impl Regs {
    /// A register file of zeros.
    pub fn zero() -> Regs
        ensures { result ≡ replicate 15 0 }
    {
        Regs { words: [0; 15] }
    }

    /// The register numbered `n`, or 0 for a number over 14.
    #[tactic(auto, unfolding(crate::specs::Registers::register))]
    pub fn get(&self, n: u64) -> u64
        ensures { result ≡ register self.now n }
    {
        if n < 15 { self.words[n as usize] } else { 0 }
    }

    /// Writes the register numbered `n`; a number over 14 writes nothing.
    #[tactic(auto, unfolding(crate::specs::Registers::with_register))]
    pub fn set(&mut self, n: u64, word: u64)
        ensures { self.new ≡ with_register self.old n word }
    {
        if n < 15 {
            self.words[n as usize] = word;
        }
    }

    /// The name of the register numbered `n`, such as `%rax`; no bytes for a number over 14.
    #[tactic(auto, unfolding(crate::specs::Registers::register_name, crate::specs::Registers::register_names))]
    pub fn name(n: u64) -> &'static [u8]
        ensures { result.now ≡ register_name n }
    {
        match n {
            0 => b"%rax",
            1 => b"%rcx",
            2 => b"%rdx",
            3 => b"%rbx",
            4 => b"%rsp",
            5 => b"%rbp",
            6 => b"%rsi",
            7 => b"%rdi",
            8 => b"%r8",
            9 => b"%r9",
            10 => b"%r10",
            11 => b"%r11",
            12 => b"%r12",
            13 => b"%r13",
            14 => b"%r14",
            _ => b"",
        }
    }
}

static REGISTERS: [Keyword<u8>; 15] = [
    Keyword {
        text: b"%rax",
        meaning: 0,
    },
    Keyword {
        text: b"%rcx",
        meaning: 1,
    },
    Keyword {
        text: b"%rdx",
        meaning: 2,
    },
    Keyword {
        text: b"%rbx",
        meaning: 3,
    },
    Keyword {
        text: b"%rsp",
        meaning: 4,
    },
    Keyword {
        text: b"%rbp",
        meaning: 5,
    },
    Keyword {
        text: b"%rsi",
        meaning: 6,
    },
    Keyword {
        text: b"%rdi",
        meaning: 7,
    },
    Keyword {
        text: b"%r8",
        meaning: 8,
    },
    Keyword {
        text: b"%r9",
        meaning: 9,
    },
    Keyword {
        text: b"%r10",
        meaning: 10,
    },
    Keyword {
        text: b"%r11",
        meaning: 11,
    },
    Keyword {
        text: b"%r12",
        meaning: 12,
    },
    Keyword {
        text: b"%r13",
        meaning: 13,
    },
    Keyword {
        text: b"%r14",
        meaning: 14,
    },
];

/// The names of the registers with their numbers, in order of number.
#[tactic(auto, unfolding(crate::specs::Registers::register_names))]
pub fn register_names() -> &'static [Keyword<u8>]
    ensures { map entry result.now ≡ names.register_names }
{
    &REGISTERS
}
