//! The sentences on faulty lines of assembly, as data. They depend on what the grammar requires, what was found, and
//! after which mnemonic. The first rule whose tests all hold gives the sentence.
use crate::asm_tests::{AsmTest, Form};
use asm_faults::Part;
use yas_asm::AsmWhy;

/// A sentence, and the tests under which it is printed.
pub struct AsmRule {
    pub when: &'static [AsmTest],
    pub code: &'static [u8],
    pub sentence: &'static [u8],
}

static LIMITS: [AsmRule; 3] = [
    AsmRule {
        when: &[AsmTest::Refused(AsmWhy::BadByte)],
        code: b"asm.byte",
        sentence: b"The byte here is no printable ASCII. Outside comments a line has nothing else; often it is a quotation mark, a dash or a blank from a word processor.",
    },
    AsmRule {
        when: &[
            AsmTest::Refused(AsmWhy::NumberTooWide),
            AsmTest::Of(&[Form::Data]),
        ],
        code: b"asm.number",
        sentence: b"The number does not fit into the bytes of `~name~`.",
    },
    AsmRule {
        when: &[AsmTest::Refused(AsmWhy::NumberTooWide)],
        code: b"asm.number",
        sentence: b"The number is out of range: numbers go from -2^63 to 2^64-1.",
    },
];

/// Bytes and numbers beyond the limits.
fn limits() -> &'static [AsmRule] {
    &LIMITS
}

static WHOLE_TEXT: [AsmRule; 5] = [
    AsmRule {
        when: &[AsmTest::Refused(AsmWhy::LabelTwice)],
        code: b"asm.label_twice",
        sentence: b"`~found~` is defined a second time; its first definition is in line ~before_line~.",
    },
    AsmRule {
        when: &[AsmTest::Refused(AsmWhy::LabelUnknown)],
        code: b"asm.label_unknown",
        sentence: b"No line defines the label `~found~`. A label is a name with `:` at the beginning of a line.",
    },
    AsmRule {
        when: &[AsmTest::Refused(AsmWhy::OutsideMemory)],
        code: b"asm.outside",
        sentence: b"The line goes past the end of the memory, which has ~number~ bytes (`--mem`).",
    },
    AsmRule {
        when: &[AsmTest::Refused(AsmWhy::Overlap)],
        code: b"asm.overlap",
        sentence: b"The line puts a byte at an address that has one already: a `.pos` before it goes back.",
    },
    AsmRule {
        when: &[AsmTest::Refused(AsmWhy::LabelLimit)],
        code: b"asm.labels",
        sentence: b"`~found~` is the 65,536th different label; a file has at most 65,535.",
    },
];

/// Faults that depend on other lines.
fn whole_text() -> &'static [AsmRule] {
    &WHOLE_TEXT
}

static COMMENTS: [AsmRule; 2] = [
    AsmRule {
        when: &[AsmTest::Begins(&[b";"])],
        code: b"asm.comment",
        sentence: b"A comment begins with `#` or `//`, not with `;`.",
    },
    AsmRule {
        when: &[AsmTest::Begins(&[b"/*"])],
        code: b"asm.comment",
        sentence: b"A comment between `/*` and `*/` ends on its line, and nothing follows it.",
    },
];

/// Comments of other languages.
fn comments() -> &'static [AsmRule] {
    &COMMENTS
}

static MOVES: [AsmRule; 3] = [
    AsmRule {
        when: &[AsmTest::Wants(&[Part::Statement]), AsmTest::IsCapital],
        code: b"asm.capital",
        sentence: b"`~found~` is written in lower case: mnemonics, directives and registers have no capital letters.",
    },
    AsmRule {
        when: &[
            AsmTest::Wants(&[Part::Statement]),
            AsmTest::WordIs(&[b"movq", b"mov"]),
        ],
        code: b"asm.mnemonic",
        sentence: b"Y86-64 has no `~found~`, but four moves: `rrmovq rA, rB`, `irmovq V, rB`, `rmmovq rA, D(rB)` and `mrmovq D(rB), rA`.",
    },
    AsmRule {
        when: &[
            AsmTest::Wants(&[Part::Statement]),
            AsmTest::WordIs(&[
                b"movl", b"movw", b"movb", b"movabsq", b"movslq", b"movzbl", b"movzbq", b"movsbq",
                b"cmov",
            ]),
        ],
        code: b"asm.mnemonic",
        sentence: b"Y86-64 has no `~found~`. It moves words of 8 bytes by `rrmovq`, `irmovq`, `rmmovq` and `mrmovq`, and under a condition by `cmovle` to `cmovg`.",
    },
];

/// Capital letters, and moves of x86-64.
fn moves() -> &'static [AsmRule] {
    &MOVES
}

static OTHER_INSTRUCTIONS: [AsmRule; 4] = [
    AsmRule {
        when: &[
            AsmTest::Wants(&[Part::Statement]),
            AsmTest::WordIs(&[
                b"rrmovl", b"irmovl", b"rmmovl", b"mrmovl", b"addl", b"subl", b"andl", b"xorl",
                b"pushl", b"popl", b"iaddl",
            ]),
        ],
        code: b"asm.mnemonic",
        sentence: b"`~found~` is of the 32-bit Y86. In Y86-64 the name ends in `q`.",
    },
    AsmRule {
        when: &[
            AsmTest::Wants(&[Part::Statement]),
            AsmTest::WordIs(&[b"cmpq", b"cmpl"]),
        ],
        code: b"asm.mnemonic",
        sentence: b"Y86-64 has no `~found~`. `subq` sets the same flags: copy one operand into a register that is free and subtract there.",
    },
    AsmRule {
        when: &[
            AsmTest::Wants(&[Part::Statement]),
            AsmTest::WordIs(&[b"testq", b"testl"]),
        ],
        code: b"asm.mnemonic",
        sentence: b"Y86-64 has no `~found~`. `andq rA, rA` sets the same flags and leaves rA as it is.",
    },
    AsmRule {
        when: &[
            AsmTest::Wants(&[Part::Statement]),
            AsmTest::WordIs(&[b"leaq", b"lea"]),
        ],
        code: b"asm.mnemonic",
        sentence: b"Y86-64 has no `~found~`. Compute the address by `irmovq`, `rrmovq` and `addq`.",
    },
];

/// Other instructions of x86.
fn other_instructions() -> &'static [AsmRule] {
    &OTHER_INSTRUCTIONS
}

static ARITHMETIC: [AsmRule; 3] = [
    AsmRule {
        when: &[
            AsmTest::Wants(&[Part::Statement]),
            AsmTest::WordIs(&[
                b"imulq", b"mulq", b"idivq", b"divq", b"salq", b"shlq", b"sarq", b"shrq", b"orq",
                b"notq", b"negq", b"incq", b"decq", b"adcq", b"sbbq", b"rolq", b"rorq", b"cqto",
                b"imull", b"idivl", b"sall", b"orl", b"notl", b"negl", b"incl", b"decl",
            ]),
        ],
        code: b"asm.mnemonic",
        sentence: b"Y86-64 has no `~found~`. It computes by `addq`, `subq`, `andq` and `xorq` alone.",
    },
    AsmRule {
        when: &[
            AsmTest::Wants(&[Part::Statement]),
            AsmTest::WordIs(&[b"iaddq"]),
        ],
        code: b"asm.mnemonic",
        sentence: b"`iaddq` is an instruction with `--full` alone. Without it, load the number by `irmovq` and use `addq`.",
    },
    AsmRule {
        when: &[
            AsmTest::Wants(&[Part::Statement]),
            AsmTest::WordIs(&[b"isubq", b"iandq", b"ixorq"]),
        ],
        code: b"asm.mnemonic",
        sentence: b"Y86-64 has no `~found~`: of the instructions with a constant it has `iaddq` alone, with `--full`.",
    },
];

/// Arithmetic that Y86-64 lacks.
fn arithmetic() -> &'static [AsmRule] {
    &ARITHMETIC
}

static CONDITIONS: [AsmRule; 4] = [
    AsmRule {
        when: &[
            AsmTest::Wants(&[Part::Statement]),
            AsmTest::WordIs(&[b"jz", b"setz", b"cmovz"]),
        ],
        code: b"asm.mnemonic",
        sentence: b"Y86-64 has no `~found~`. Its names for \"equal\" and \"not equal\" end in `e` and `ne`.",
    },
    AsmRule {
        when: &[
            AsmTest::Wants(&[Part::Statement]),
            AsmTest::WordIs(&[b"jnz", b"setnz", b"cmovnz"]),
        ],
        code: b"asm.mnemonic",
        sentence: b"Y86-64 has no `~found~`. Its names for \"equal\" and \"not equal\" end in `e` and `ne`.",
    },
    AsmRule {
        when: &[
            AsmTest::Wants(&[Part::Statement]),
            AsmTest::WordIs(&[
                b"ja", b"jae", b"jb", b"jbe", b"jc", b"jnc", b"js", b"jns", b"jo", b"jno",
                b"cmova", b"cmovb", b"cmovs", b"cmovns", b"jnge", b"jnl", b"jng", b"jnle",
            ]),
        ],
        code: b"asm.mnemonic",
        sentence: b"Y86-64 has no `~found~`. Its conditions are `le`, `l`, `e`, `ne`, `ge` and `g`, on signed numbers.",
    },
    AsmRule {
        when: &[
            AsmTest::Wants(&[Part::Statement]),
            AsmTest::WordIs(&[b"sete", b"setne", b"setl", b"setle", b"setg", b"setge"]),
        ],
        code: b"asm.mnemonic",
        sentence: b"Y86-64 has no `~found~`. Move a 0 and a 1 into registers, and choose by a conditional move.",
    },
];

/// Conditions that Y86-64 lacks.
fn conditions() -> &'static [AsmRule] {
    &CONDITIONS
}

static WORDS: [AsmRule; 3] = [
    AsmRule {
        when: &[
            AsmTest::Wants(&[Part::Statement]),
            AsmTest::WordIs(&[
                b"push", b"pop", b"add", b"sub", b"and", b"xor", b"cmp", b"callq", b"retq",
                b"leave", b"jmpq", b"pushfq", b"popfq", b"movs", b"hlt", b"exit", b"syscall",
                b"int", b"enter",
            ]),
        ],
        code: b"asm.mnemonic",
        sentence: b"`~found~` is no mnemonic of Y86-64: see the instructions in docs/ASSEMBLY.md, such as `pushq`, `popq`, `addq`, `call`, `ret` and `halt`.",
    },
    AsmRule {
        when: &[AsmTest::Wants(&[Part::Statement]), AsmTest::Begins(&[b"."])],
        code: b"asm.directive",
        sentence: b"`~found~` is no directive: there are `.pos`, `.align`, `.byte`, `.word`, `.long` and `.quad`.",
    },
    AsmRule {
        when: &[AsmTest::Wants(&[Part::Statement]), AsmTest::Begins(&[b"%"])],
        code: b"asm.statement",
        sentence: b"A line begins with a label, a mnemonic or a directive, and not with a register.",
    },
];

/// Names of other assemblers, and directives.
fn words() -> &'static [AsmRule] {
    &WORDS
}

static LINE_BEGINS: [AsmRule; 5] = [
    AsmRule {
        when: &[
            AsmTest::Wants(&[Part::Statement]),
            AsmTest::Begins(&[b"0x", b"0X"]),
        ],
        code: b"asm.statement",
        sentence: b"A line begins with a label, a mnemonic or a directive. Is this a line of an object file? Those are run, not assembled.",
    },
    AsmRule {
        when: &[AsmTest::Wants(&[Part::Statement]), AsmTest::BeginsDigit],
        code: b"asm.label",
        sentence: b"A label begins with a letter or `_`, and not with a digit.",
    },
    AsmRule {
        when: &[AsmTest::Wants(&[Part::Statement]), AsmTest::Begins(&[b":"])],
        code: b"asm.label",
        sentence: b"The name of the label is missing before its `:`.",
    },
    AsmRule {
        when: &[AsmTest::Wants(&[Part::Statement]), AsmTest::IsLabelLike],
        code: b"asm.mnemonic",
        sentence: b"`~found~` is no mnemonic of Y86-64. If it is a label, its `:` is missing.",
    },
    AsmRule {
        when: &[AsmTest::Wants(&[Part::Statement])],
        code: b"asm.mnemonic",
        sentence: b"`~found~` is no mnemonic of Y86-64.",
    },
];

/// What cannot begin a statement.
fn line_begins() -> &'static [AsmRule] {
    &LINE_BEGINS
}

static REGISTERS: [AsmRule; 5] = [
    AsmRule {
        when: &[AsmTest::Wants(&[Part::Register]), AsmTest::IsCapital],
        code: b"asm.capital",
        sentence: b"`~found~` is written in lower case: mnemonics, directives and registers have no capital letters.",
    },
    AsmRule {
        when: &[AsmTest::Wants(&[Part::Register]), AsmTest::IsNakedRegister],
        code: b"asm.register",
        sentence: b"A register is written with `%`: `%~found~`.",
    },
    AsmRule {
        when: &[
            AsmTest::Wants(&[Part::Register]),
            AsmTest::Begins(&[b"%r15"]),
        ],
        code: b"asm.register",
        sentence: b"Y86-64 has no `%r15`: the number 15 means \"no register\". There are `%rax` `%rcx` `%rdx` `%rbx` `%rsp` `%rbp` `%rsi` `%rdi` and `%r8` to `%r14`.",
    },
    AsmRule {
        when: &[
            AsmTest::Wants(&[Part::Register]),
            AsmTest::WordIs(&[
                b"%eax", b"%ecx", b"%edx", b"%ebx", b"%esp", b"%ebp", b"%esi", b"%edi",
            ]),
        ],
        code: b"asm.register",
        sentence: b"`~found~` names 32 bits of a register. Y86-64 has whole registers alone: `%rax` `%rcx` `%rdx` `%rbx` `%rsp` `%rbp` `%rsi` `%rdi` and `%r8` to `%r14`.",
    },
    AsmRule {
        when: &[AsmTest::Wants(&[Part::Register]), AsmTest::Begins(&[b"%"])],
        code: b"asm.register",
        sentence: b"`~found~` is no register. There are `%rax` `%rcx` `%rdx` `%rbx` `%rsp` `%rbp` `%rsi` `%rdi` and `%r8` to `%r14`.",
    },
];

/// Registers.
fn registers() -> &'static [AsmRule] {
    &REGISTERS
}

static REGISTER_OPERANDS: [AsmRule; 5] = [
    AsmRule {
        when: &[
            AsmTest::Wants(&[Part::Register]),
            AsmTest::Of(&[Form::Registers]),
            AsmTest::Begins(&[b"$"]),
        ],
        code: b"asm.operand",
        sentence: b"`~name~` works on two registers. Load the number into a register by `irmovq` first.",
    },
    AsmRule {
        when: &[
            AsmTest::Wants(&[Part::Register]),
            AsmTest::Of(&[Form::Registers]),
            AsmTest::Begins(&[b"("]),
        ],
        code: b"asm.operand",
        sentence: b"`~name~` works on two registers. Load the word from memory by `mrmovq` first.",
    },
    AsmRule {
        when: &[
            AsmTest::Wants(&[Part::Register]),
            AsmTest::Of(&[Form::Registers]),
            AsmTest::BeginsWord,
        ],
        code: b"asm.operand",
        sentence: b"`~name~` works on two registers. Load the number by `irmovq`, or a word of memory by `mrmovq`, first.",
    },
    AsmRule {
        when: &[
            AsmTest::Wants(&[Part::Register]),
            AsmTest::Of(&[Form::Store]),
            AsmTest::Begins(&[b"$"]),
        ],
        code: b"asm.operand",
        sentence: b"`rmmovq` stores a register. Load the number into one by `irmovq` first.",
    },
    AsmRule {
        when: &[
            AsmTest::Wants(&[Part::Register]),
            AsmTest::Of(&[Form::Store]),
            AsmTest::Begins(&[b"("]),
        ],
        code: b"asm.operand",
        sentence: b"`rmmovq rA, D(rB)` stores a register into memory; `mrmovq D(rB), rA` loads.",
    },
];

/// Operands that are no registers.
fn register_operands() -> &'static [AsmRule] {
    &REGISTER_OPERANDS
}

static STORES: [AsmRule; 4] = [
    AsmRule {
        when: &[
            AsmTest::Wants(&[Part::Register]),
            AsmTest::Of(&[Form::Single]),
            AsmTest::Begins(&[b"$"]),
        ],
        code: b"asm.operand",
        sentence: b"`~name~` takes a register. Load the number into one by `irmovq` first.",
    },
    AsmRule {
        when: &[
            AsmTest::Wants(&[Part::Register]),
            AsmTest::Of(&[Form::Immediate, Form::Load]),
            AsmTest::Begins(&[b"(", b"$"]),
        ],
        code: b"asm.operand",
        sentence: b"The second operand of `~name~` is a register. Write `~name~~usage~`.",
    },
    AsmRule {
        when: &[AsmTest::Wants(&[Part::Register]), AsmTest::AtEnd],
        code: b"asm.operand",
        sentence: b"A register is missing at the end of the line. Write `~name~~usage~`.",
    },
    AsmRule {
        when: &[AsmTest::Wants(&[Part::Register])],
        code: b"asm.operand",
        sentence: b"A register belongs here, and not `~found~`. Write `~name~~usage~`.",
    },
];

/// Operands of stores, and registers that are missing.
fn stores() -> &'static [AsmRule] {
    &STORES
}

static VALUES: [AsmRule; 4] = [
    AsmRule {
        when: &[
            AsmTest::Wants(&[Part::Value]),
            AsmTest::Of(&[Form::Immediate]),
            AsmTest::Begins(&[b"%"]),
        ],
        code: b"asm.operand",
        sentence: b"The first operand of `~name~` is a number or a label. `rrmovq` copies a register, and `addq` adds one.",
    },
    AsmRule {
        when: &[
            AsmTest::Wants(&[Part::Value]),
            AsmTest::Of(&[Form::Immediate]),
            AsmTest::Begins(&[b"("]),
        ],
        code: b"asm.operand",
        sentence: b"The first operand of `~name~` is a number or a label. `mrmovq` loads from memory.",
    },
    AsmRule {
        when: &[
            AsmTest::Wants(&[Part::Value]),
            AsmTest::Of(&[Form::Target]),
            AsmTest::Begins(&[b"%", b"*", b"("]),
        ],
        code: b"asm.operand",
        sentence: b"`~name~` goes to a fixed address, a label or a number, and not to one in a register or in memory.",
    },
    AsmRule {
        when: &[AsmTest::Wants(&[Part::Value]), AsmTest::Begins(&[b"$"])],
        code: b"asm.operand",
        sentence: b"After `$` a number or a label is missing.",
    },
];

/// Numbers and labels.
fn values() -> &'static [AsmRule] {
    &VALUES
}

static VALUES_MISSING: [AsmRule; 3] = [
    AsmRule {
        when: &[
            AsmTest::Wants(&[Part::Value, Part::Displacement]),
            AsmTest::Begins(&[b"'", b"\""]),
        ],
        code: b"asm.operand",
        sentence: b"There are no characters and no texts: write the number.",
    },
    AsmRule {
        when: &[AsmTest::Wants(&[Part::Value]), AsmTest::AtEnd],
        code: b"asm.operand",
        sentence: b"A number or a label is missing at the end of the line. Write `~name~~usage~`.",
    },
    AsmRule {
        when: &[AsmTest::Wants(&[Part::Value])],
        code: b"asm.operand",
        sentence: b"A number or a label belongs here, and not `~found~`. Write `~name~~usage~`.",
    },
];

/// Numbers and labels that are missing.
fn values_missing() -> &'static [AsmRule] {
    &VALUES_MISSING
}

static ADDRESSES: [AsmRule; 4] = [
    AsmRule {
        when: &[
            AsmTest::Wants(&[Part::Displacement]),
            AsmTest::Of(&[Form::Load]),
            AsmTest::Begins(&[b"%"]),
        ],
        code: b"asm.operand",
        sentence: b"`mrmovq` loads from memory: its first operand is an address, `D(rB)`. `rrmovq` copies a register, and `rmmovq` stores one.",
    },
    AsmRule {
        when: &[
            AsmTest::Wants(&[Part::Displacement]),
            AsmTest::Of(&[Form::Store]),
            AsmTest::Begins(&[b"%"]),
        ],
        code: b"asm.operand",
        sentence: b"`rmmovq` stores into memory: its second operand is an address, `D(rB)`. `rrmovq` copies a register.",
    },
    AsmRule {
        when: &[
            AsmTest::Wants(&[Part::Displacement]),
            AsmTest::Begins(&[b"$"]),
        ],
        code: b"asm.operand",
        sentence: b"After `$` a number or a label is missing.",
    },
    AsmRule {
        when: &[AsmTest::Wants(&[Part::Displacement])],
        code: b"asm.operand",
        sentence: b"An address, `D(rB)`, belongs here. Write `~name~~usage~`.",
    },
];

/// Addresses.
fn addresses() -> &'static [AsmRule] {
    &ADDRESSES
}

static BASES: [AsmRule; 4] = [
    AsmRule {
        when: &[
            AsmTest::Wants(&[Part::OpenParenthesis]),
            AsmTest::Begins(&[b"+", b"-", b"*", b"/"]),
        ],
        code: b"asm.arithmetic",
        sentence: b"There are no sums of numbers or labels: write the number itself.",
    },
    AsmRule {
        when: &[AsmTest::Wants(&[Part::OpenParenthesis])],
        code: b"asm.base",
        sentence: b"An address has a base register, as in `8(%rax)`. For a fixed address take a register that is 0.",
    },
    AsmRule {
        when: &[
            AsmTest::Wants(&[Part::CloseParenthesis]),
            AsmTest::Begins(&[b","]),
        ],
        code: b"asm.index",
        sentence: b"An address has one base register and no index: `D(rB)`.",
    },
    AsmRule {
        when: &[AsmTest::Wants(&[Part::CloseParenthesis])],
        code: b"asm.parenthesis",
        sentence: b"The `)` after the base register is missing.",
    },
];

/// Base registers.
fn bases() -> &'static [AsmRule] {
    &BASES
}

static COMMAS: [AsmRule; 6] = [
    AsmRule {
        when: &[
            AsmTest::Wants(&[Part::Comma]),
            AsmTest::Begins(&[b"+", b"-", b"*", b"/"]),
        ],
        code: b"asm.arithmetic",
        sentence: b"There are no sums of numbers or labels: write the number itself.",
    },
    AsmRule {
        when: &[
            AsmTest::Wants(&[Part::Comma]),
            AsmTest::Of(&[Form::Immediate]),
            AsmTest::Begins(&[b"("]),
        ],
        code: b"asm.operand",
        sentence: b"The first operand of `~name~` is a number or a label. `mrmovq` loads from memory.",
    },
    AsmRule {
        when: &[
            AsmTest::Wants(&[Part::Comma]),
            AsmTest::Of(&[Form::Registers, Form::Store]),
            AsmTest::Begins(&[b"("]),
        ],
        code: b"asm.operand",
        sentence: b"The first operand of `~name~` is a register. Write `~name~~usage~`.",
    },
    AsmRule {
        when: &[AsmTest::Wants(&[Part::Comma]), AsmTest::AtEnd],
        code: b"asm.operand",
        sentence: b"The second operand is missing. Write `~name~~usage~`.",
    },
    AsmRule {
        when: &[
            AsmTest::Wants(&[Part::Comma]),
            AsmTest::Of(&[Form::Immediate]),
            AsmTest::Begins(&[b"x", b"X", b"."]),
        ],
        code: b"asm.operand",
        sentence: b"A number is decimal, perhaps with a `-`, or it is `0x` and hex digits.",
    },
    AsmRule {
        when: &[AsmTest::Wants(&[Part::Comma])],
        code: b"asm.comma",
        sentence: b"The `,` between the operands is missing before `~found~`. Write `~name~~usage~`.",
    },
];

/// Commas.
fn commas() -> &'static [AsmRule] {
    &COMMAS
}

static NUMBERS: [AsmRule; 5] = [
    AsmRule {
        when: &[
            AsmTest::Wants(&[Part::Natural, Part::Positive]),
            AsmTest::Begins(&[b"-"]),
        ],
        code: b"asm.operand",
        sentence: b"`~name~` takes a number that is not negative.",
    },
    AsmRule {
        when: &[AsmTest::Wants(&[Part::Positive]), AsmTest::BeginsDigit],
        code: b"asm.operand",
        sentence: b"`.align` takes a number that is 1 at least.",
    },
    AsmRule {
        when: &[
            AsmTest::Wants(&[Part::Natural, Part::Positive]),
            AsmTest::Begins(&[b"$"]),
        ],
        code: b"asm.operand",
        sentence: b"`~name~` takes a number without `$`.",
    },
    AsmRule {
        when: &[
            AsmTest::Wants(&[Part::Natural, Part::Positive]),
            AsmTest::AtEnd,
        ],
        code: b"asm.operand",
        sentence: b"`~name~` takes a number, which is missing.",
    },
    AsmRule {
        when: &[AsmTest::Wants(&[Part::Natural, Part::Positive])],
        code: b"asm.operand",
        sentence: b"`~name~` takes a number, and not `~found~`.",
    },
];

/// Numbers after directives.
fn numbers() -> &'static [AsmRule] {
    &NUMBERS
}

static LINE_ENDS: [AsmRule; 4] = [
    AsmRule {
        when: &[
            AsmTest::Wants(&[Part::LineEnd]),
            AsmTest::Begins(&[b"+", b"-", b"*"]),
        ],
        code: b"asm.arithmetic",
        sentence: b"There are no sums of numbers or labels: write the number itself.",
    },
    AsmRule {
        when: &[
            AsmTest::Wants(&[Part::LineEnd]),
            AsmTest::Of(&[Form::Target]),
            AsmTest::Begins(&[b"("]),
        ],
        code: b"asm.operand",
        sentence: b"`~name~` goes to a fixed address, a label or a number, and not to one in a register or in memory.",
    },
    AsmRule {
        when: &[
            AsmTest::Wants(&[Part::LineEnd]),
            AsmTest::Of(&[Form::Data]),
            AsmTest::Begins(&[b","]),
        ],
        code: b"asm.extra",
        sentence: b"`~name~` puts one number: write a line for each.",
    },
    AsmRule {
        when: &[
            AsmTest::Wants(&[Part::LineEnd]),
            AsmTest::Of(&[Form::Alone]),
        ],
        code: b"asm.extra",
        sentence: b"`~name~` takes no operand.",
    },
];

/// What follows a statement.
fn line_ends() -> &'static [AsmRule] {
    &LINE_ENDS
}

static LAST: [AsmRule; 4] = [
    AsmRule {
        when: &[AsmTest::Wants(&[Part::LineEnd]), AsmTest::Begins(&[b","])],
        code: b"asm.extra",
        sentence: b"There are more operands than `~name~` takes. Write `~name~~usage~`.",
    },
    AsmRule {
        when: &[AsmTest::Wants(&[Part::LineEnd]), AsmTest::Begins(&[b":"])],
        code: b"asm.label",
        sentence: b"A label is a name and `:` at the beginning of the line.",
    },
    AsmRule {
        when: &[AsmTest::Wants(&[Part::LineEnd])],
        code: b"asm.extra",
        sentence: b"The statement is complete before `~found~`. A line has one statement, and a comment begins with `#` or `//`.",
    },
    AsmRule {
        when: &[],
        code: b"asm.line",
        sentence: b"The line is not of the form LABEL: STATEMENT # COMMENT.",
    },
];

/// The rest.
fn last() -> &'static [AsmRule] {
    &LAST
}

/// The rules in groups, in the order in which they are tried; `None` after the last group.
pub fn asm_rules(group: usize) -> Option<&'static [AsmRule]> {
    match group {
        0 => Some(limits()),
        1 => Some(whole_text()),
        2 => Some(comments()),
        3 => Some(moves()),
        4 => Some(other_instructions()),
        5 => Some(arithmetic()),
        6 => Some(conditions()),
        7 => Some(words()),
        8 => Some(line_begins()),
        9 => Some(registers()),
        10 => Some(register_operands()),
        11 => Some(stores()),
        12 => Some(values()),
        13 => Some(values_missing()),
        14 => Some(addresses()),
        15 => Some(bases()),
        16 => Some(commas()),
        17 => Some(numbers()),
        18 => Some(line_ends()),
        19 => Some(last()),
        _ => None,
    }
}
