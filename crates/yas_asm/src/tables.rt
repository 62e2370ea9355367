//! The mnemonics and the directives.
ghost use Rattle.std.specs.Prelude.{◌≡◌, map};
ghost use Rattle.y86_base.specs.Keyword.{entry};
ghost use Rattle.yas_asm.specs.Tables as tables;

use crate::statement::{Directive, Operation, Shape, Width};
use y86_base::{Keyword, Variant};

static DIRECTIVES: [Keyword<Directive>; 6] = [
    Keyword {
        text: b".pos",
        meaning: Directive::Position,
    },
    Keyword {
        text: b".align",
        meaning: Directive::Align,
    },
    Keyword {
        text: b".byte",
        meaning: Directive::Data(Width::One),
    },
    Keyword {
        text: b".word",
        meaning: Directive::Data(Width::Two),
    },
    Keyword {
        text: b".long",
        meaning: Directive::Data(Width::Four),
    },
    Keyword {
        text: b".quad",
        meaning: Directive::Data(Width::Eight),
    },
];

/// All mnemonics: the first 27 are those of `Base`; only `Full` has the last.
static MNEMONICS: [Keyword<Operation>; 28] = [
    Keyword {
        text: b"halt",
        meaning: Operation {
            shape: Shape::Alone,
            icode: 0,
            ifun: 0,
        },
    },
    Keyword {
        text: b"nop",
        meaning: Operation {
            shape: Shape::Alone,
            icode: 1,
            ifun: 0,
        },
    },
    Keyword {
        text: b"ret",
        meaning: Operation {
            shape: Shape::Alone,
            icode: 9,
            ifun: 0,
        },
    },
    Keyword {
        text: b"rrmovq",
        meaning: Operation {
            shape: Shape::Registers,
            icode: 2,
            ifun: 0,
        },
    },
    Keyword {
        text: b"cmovle",
        meaning: Operation {
            shape: Shape::Registers,
            icode: 2,
            ifun: 1,
        },
    },
    Keyword {
        text: b"cmovl",
        meaning: Operation {
            shape: Shape::Registers,
            icode: 2,
            ifun: 2,
        },
    },
    Keyword {
        text: b"cmove",
        meaning: Operation {
            shape: Shape::Registers,
            icode: 2,
            ifun: 3,
        },
    },
    Keyword {
        text: b"cmovne",
        meaning: Operation {
            shape: Shape::Registers,
            icode: 2,
            ifun: 4,
        },
    },
    Keyword {
        text: b"cmovge",
        meaning: Operation {
            shape: Shape::Registers,
            icode: 2,
            ifun: 5,
        },
    },
    Keyword {
        text: b"cmovg",
        meaning: Operation {
            shape: Shape::Registers,
            icode: 2,
            ifun: 6,
        },
    },
    Keyword {
        text: b"irmovq",
        meaning: Operation {
            shape: Shape::Immediate,
            icode: 3,
            ifun: 0,
        },
    },
    Keyword {
        text: b"rmmovq",
        meaning: Operation {
            shape: Shape::Store,
            icode: 4,
            ifun: 0,
        },
    },
    Keyword {
        text: b"mrmovq",
        meaning: Operation {
            shape: Shape::Load,
            icode: 5,
            ifun: 0,
        },
    },
    Keyword {
        text: b"addq",
        meaning: Operation {
            shape: Shape::Registers,
            icode: 6,
            ifun: 0,
        },
    },
    Keyword {
        text: b"subq",
        meaning: Operation {
            shape: Shape::Registers,
            icode: 6,
            ifun: 1,
        },
    },
    Keyword {
        text: b"andq",
        meaning: Operation {
            shape: Shape::Registers,
            icode: 6,
            ifun: 2,
        },
    },
    Keyword {
        text: b"xorq",
        meaning: Operation {
            shape: Shape::Registers,
            icode: 6,
            ifun: 3,
        },
    },
    Keyword {
        text: b"jmp",
        meaning: Operation {
            shape: Shape::Target,
            icode: 7,
            ifun: 0,
        },
    },
    Keyword {
        text: b"jle",
        meaning: Operation {
            shape: Shape::Target,
            icode: 7,
            ifun: 1,
        },
    },
    Keyword {
        text: b"jl",
        meaning: Operation {
            shape: Shape::Target,
            icode: 7,
            ifun: 2,
        },
    },
    Keyword {
        text: b"je",
        meaning: Operation {
            shape: Shape::Target,
            icode: 7,
            ifun: 3,
        },
    },
    Keyword {
        text: b"jne",
        meaning: Operation {
            shape: Shape::Target,
            icode: 7,
            ifun: 4,
        },
    },
    Keyword {
        text: b"jge",
        meaning: Operation {
            shape: Shape::Target,
            icode: 7,
            ifun: 5,
        },
    },
    Keyword {
        text: b"jg",
        meaning: Operation {
            shape: Shape::Target,
            icode: 7,
            ifun: 6,
        },
    },
    Keyword {
        text: b"call",
        meaning: Operation {
            shape: Shape::Target,
            icode: 8,
            ifun: 0,
        },
    },
    Keyword {
        text: b"pushq",
        meaning: Operation {
            shape: Shape::Single,
            icode: 10,
            ifun: 0,
        },
    },
    Keyword {
        text: b"popq",
        meaning: Operation {
            shape: Shape::Single,
            icode: 11,
            ifun: 0,
        },
    },
    Keyword {
        text: b"iaddq",
        meaning: Operation {
            shape: Shape::Immediate,
            icode: 12,
            ifun: 0,
        },
    },
];

/// The directives.
#[tactic(auto, unfolding(crate::specs::Tables::directives))]
pub fn directives() -> &'static [Keyword<Directive>]
    ensures { map entry result.now ≡ tables.directives }
{
    &DIRECTIVES
}

/// The mnemonics of an instruction set.
#[tactic(auto, unfolding(crate::specs::Tables::base_mnemonics))]
pub fn mnemonics(variant: Variant) -> &'static [Keyword<Operation>]
    ensures { map entry result.now ≡ tables.mnemonics variant }
{
    match variant {
        Variant::Base => &MNEMONICS[..27],
        Variant::Full => &MNEMONICS,
    }
}
