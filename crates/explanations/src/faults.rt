//! The kinds of faults of HCL, assembly and object text in sentences, each with an example and its correction.

/// A kind of fault: its stable code, what is wrong, a text that has it, and the text without it.
/// The texts are empty if there is no short one.
#[derive(Clone, Copy, Debug)]
pub struct FaultKind {
    pub code: &'static str,
    pub meaning: &'static str,
    pub example: &'static str,
    pub mend: &'static str,
}

/// The faults of HCL.
static HCL: &[FaultKind] = &[
    FaultKind {
        code: "hcl.byte",
        meaning: "A byte outside comments and quoted texts isn't printable ASCII.",
        example: "bool F_bubble = 0\u{a0};",
        mend: "bool F_bubble = 0;",
    },
    FaultKind {
        code: "hcl.number",
        meaning: "A number doesn't fit into a signed word of 64 bits.",
        example: "word aluA = 9223372036854775808;",
        mend: "word aluA = 9223372036854775807;",
    },
    FaultKind {
        code: "hcl.depth",
        meaning: "More than 64 brackets and `!` are open at one place.",
        example: "",
        mend: "",
    },
    FaultKind {
        code: "hcl.names",
        meaning: "A file has more than 256 different names.",
        example: "",
        mend: "",
    },
    FaultKind {
        code: "hcl.comment",
        meaning: "A comment is written as in C.",
        example: "bool F_bubble = 0; // never",
        mend: "bool F_bubble = 0; # never",
    },
    FaultKind {
        code: "hcl.operator",
        meaning: "An operator is missing, or it is written as in another language.",
        example: "bool F_stall = D_stall | E_stall;",
        mend: "bool F_stall = D_stall || E_stall;",
    },
    FaultKind {
        code: "hcl.quoted",
        meaning: "A quoted text isn't closed, is in other quotation marks, or is where none belongs.",
        example: "wordsig f_pc \"pc\"",
        mend: "wordsig f_pc 'pc'",
    },
    FaultKind {
        code: "hcl.conditional",
        meaning: "HCL has no `if`, `switch` or `? :`. It has lists of cases.",
        example: "word f_pc = M_Cnd ? F_predPC : M_valA;",
        mend: "word f_pc = [ M_Cnd : F_predPC; 1 : M_valA; ];",
    },
    FaultKind {
        code: "hcl.arithmetic",
        meaning: "HCL has no arithmetic: only the ALU adds.",
        example: "word aluA = 4 + 4;",
        mend: "word aluA = 8;",
    },
    FaultKind {
        code: "hcl.stray",
        meaning: "No token of HCL begins with this character.",
        example: "bool F_bubble = @;",
        mend: "bool F_bubble = 0;",
    },
    FaultKind {
        code: "hcl.hexadecimal",
        meaning: "Numbers are decimal.",
        example: "word aluA = 0x10;",
        mend: "word aluA = 16;",
    },
    FaultKind {
        code: "hcl.equals",
        meaning: "`=` is written for `==`, or `==` for `=`, or it is missing.",
        example: "bool set_cc = E_icode = IOPQ;",
        mend: "bool set_cc = E_icode == IOPQ;",
    },
    FaultKind {
        code: "hcl.set",
        meaning: "A set is written in braces, after `in`, and has a member.",
        example: "bool set_cc = E_icode in ( IOPQ );",
        mend: "bool set_cc = E_icode in { IOPQ };",
    },
    FaultKind {
        code: "hcl.semicolon",
        meaning: "A `;` is missing: at the end of a definition, or of a case.",
        example: "bool F_bubble = 0\nbool E_stall = 0;",
        mend: "bool F_bubble = 0;\nbool E_stall = 0;",
    },
    FaultKind {
        code: "hcl.unclosed",
        meaning: "A bracket isn't closed, or another one is closed first.",
        example: "bool set_cc = E_icode in { IOPQ;",
        mend: "bool set_cc = E_icode in { IOPQ };",
    },
    FaultKind {
        code: "hcl.end",
        meaning: "The file ends in the midst of an item.",
        example: "bool F_bubble =",
        mend: "bool F_bubble = 0;",
    },
    FaultKind {
        code: "hcl.keyword",
        meaning: "A keyword of HCL can't name a signal.",
        example: "word in = 0;",
        mend: "word aluA = 0;",
    },
    FaultKind {
        code: "hcl.name",
        meaning: "The name of a signal is missing.",
        example: "word = F_predPC;",
        mend: "word f_pc = F_predPC;",
    },
    FaultKind {
        code: "hcl.declaration",
        meaning: "A declaration has a name and a quoted text, and no `=`.",
        example: "wordsig f_pc = 'pc'",
        mend: "wordsig f_pc 'pc'",
    },
    FaultKind {
        code: "hcl.definition",
        meaning: "A definition begins with `word` or `bool`.",
        example: "F_bubble = 0;",
        mend: "bool F_bubble = 0;",
    },
    FaultKind {
        code: "hcl.extra",
        meaning: "A `;` is too many.",
        example: "bool F_bubble = 0;;",
        mend: "bool F_bubble = 0;",
    },
    FaultKind {
        code: "hcl.unopened",
        meaning: "A bracket is closed that wasn't opened.",
        example: "bool F_bubble = 0; )",
        mend: "bool F_bubble = 0;",
    },
    FaultKind {
        code: "hcl.item",
        meaning: "Only `word`, `bool`, `wordsig`, `boolsig` and `quote` begin an item.",
        example: "0 = F_bubble;",
        mend: "bool F_bubble = 0;",
    },
    FaultKind {
        code: "hcl.case",
        meaning: "A case isn't of the form `guard : value;`.",
        example: "word f_pc = [ F_predPC; ];",
        mend: "word f_pc = [ 1 : F_predPC; ];",
    },
    FaultKind {
        code: "hcl.comma",
        meaning: "A `,` is missing in a set, or is where none belongs.",
        example: "bool set_cc = E_icode in { IOPQ IIADDQ };",
        mend: "bool set_cc = E_icode in { IOPQ, IIADDQ };",
    },
    FaultKind {
        code: "hcl.operand",
        meaning: "An operand is missing.",
        example: "bool set_cc = E_icode ==;",
        mend: "bool set_cc = E_icode == IOPQ;",
    },
    FaultKind {
        code: "hcl.chain",
        meaning: "Comparisons don't chain.",
        example: "bool set_cc = INOP < E_icode < IJXX;",
        mend: "bool set_cc = INOP < E_icode && E_icode < IJXX;",
    },
    FaultKind {
        code: "hcl.token",
        meaning: "A token is where it can't be.",
        example: "",
        mend: "",
    },
    FaultKind {
        code: "hcl.unknown",
        meaning: "The datapath has no signal and no constant of this name.",
        example: "bool F_stall = d_stall;",
        mend: "bool F_stall = D_stall;",
    },
    FaultKind {
        code: "hcl.twice",
        meaning: "A signal is defined twice.",
        example: "bool F_bubble = 0;\nbool F_bubble = 0;",
        mend: "bool F_bubble = 0;",
    },
    FaultKind {
        code: "hcl.missing",
        meaning: "A signal of the datapath has no definition. A file defines all of them.",
        example: "bool F_bubble = 0;",
        mend: "",
    },
    FaultKind {
        code: "hcl.redefines",
        meaning: "A constant, or a signal that the datapath computes, can't be defined.",
        example: "word e_valE = aluA;",
        mend: "word aluA = e_valE;",
    },
    FaultKind {
        code: "hcl.kind",
        meaning: "A word is where a Boolean belongs, or a Boolean where a word belongs.",
        example: "bool set_cc = E_icode;",
        mend: "bool set_cc = E_icode == IOPQ;",
    },
    FaultKind {
        code: "hcl.cycle",
        meaning: "Definitions depend on each other in a circle.",
        example: "",
        mend: "",
    },
    FaultKind {
        code: "hcl.datapath",
        meaning: "The file is for another processor than the one that was named.",
        example: "",
        mend: "",
    },
];

/// The faults of assembly.
static ASSEMBLY: &[FaultKind] = &[
    FaultKind {
        code: "asm.byte",
        meaning: "A byte outside comments isn't printable ASCII.",
        example: "    irmovq $1,\u{a0}%rax",
        mend: "    irmovq $1, %rax",
    },
    FaultKind {
        code: "asm.number",
        meaning: "A number is out of range, or doesn't fit into the bytes of a directive.",
        example: "    .byte 256",
        mend: "    .byte 255",
    },
    FaultKind {
        code: "asm.label_twice",
        meaning: "A label is defined twice.",
        example: "loop: nop\nloop: nop",
        mend: "loop: nop\nnext: nop",
    },
    FaultKind {
        code: "asm.label_unknown",
        meaning: "No line defines a label.",
        example: "    jmp done",
        mend: "done: jmp done",
    },
    FaultKind {
        code: "asm.outside",
        meaning: "A line goes past the end of the memory (`--mem`).",
        example: "    .pos 8192\n    halt",
        mend: "    .pos 8184\n    halt",
    },
    FaultKind {
        code: "asm.overlap",
        meaning: "A line puts a byte at an address that has one.",
        example: "    nop\n    .pos 0\n    halt",
        mend: "    nop\n    .pos 8\n    halt",
    },
    FaultKind {
        code: "asm.labels",
        meaning: "A file has more than 65,535 labels.",
        example: "",
        mend: "",
    },
    FaultKind {
        code: "asm.comment",
        meaning: "A comment begins with another sign, goes over several lines, or isn't the last of its line.",
        example: "    nop ; waits",
        mend: "    nop # waits",
    },
    FaultKind {
        code: "asm.capital",
        meaning: "Mnemonics, directives and registers have no capital letters.",
        example: "    HALT",
        mend: "    halt",
    },
    FaultKind {
        code: "asm.mnemonic",
        meaning: "Y86-64 has no instruction of this name.",
        example: "    movq %rax, %rbx",
        mend: "    rrmovq %rax, %rbx",
    },
    FaultKind {
        code: "asm.directive",
        meaning: "There is no directive of this name.",
        example: "    .string 0",
        mend: "    .byte 0",
    },
    FaultKind {
        code: "asm.statement",
        meaning: "A line begins with a label, a mnemonic or a directive.",
        example: "    %rax",
        mend: "    halt",
    },
    FaultKind {
        code: "asm.label",
        meaning: "A label is a name and `:` at the beginning of a line.",
        example: "1: nop",
        mend: "one: nop",
    },
    FaultKind {
        code: "asm.register",
        meaning: "There is no register of this name, or its `%` is missing.",
        example: "    pushq rax",
        mend: "    pushq %rax",
    },
    FaultKind {
        code: "asm.operand",
        meaning: "An operand is missing, or of another kind than the instruction takes.",
        example: "    addq $1, %rax",
        mend: "    addq %rcx, %rax",
    },
    FaultKind {
        code: "asm.arithmetic",
        meaning: "There are no sums of numbers or labels.",
        example: "    irmovq 8+8, %rax",
        mend: "    irmovq 16, %rax",
    },
    FaultKind {
        code: "asm.base",
        meaning: "An address in memory has a base register.",
        example: "    mrmovq 8, %rax",
        mend: "    mrmovq 8(%rcx), %rax",
    },
    FaultKind {
        code: "asm.index",
        meaning: "An address in memory has no index.",
        example: "    mrmovq (%rcx, %rdx), %rax",
        mend: "    mrmovq (%rcx), %rax",
    },
    FaultKind {
        code: "asm.parenthesis",
        meaning: "The `)` after a base register is missing.",
        example: "    rmmovq %rax, 8(%rcx",
        mend: "    rmmovq %rax, 8(%rcx)",
    },
    FaultKind {
        code: "asm.comma",
        meaning: "The `,` between two operands is missing.",
        example: "    addq %rcx %rax",
        mend: "    addq %rcx, %rax",
    },
    FaultKind {
        code: "asm.extra",
        meaning: "A line has more than its statement takes.",
        example: "    ret %rax",
        mend: "    ret",
    },
    FaultKind {
        code: "asm.line",
        meaning: "A line isn't of the form LABEL: STATEMENT # COMMENT.",
        example: "",
        mend: "",
    },
];

/// The faults of object text.
static OBJECT: &[FaultKind] = &[
    FaultKind {
        code: "yo.line",
        meaning: "A line that begins with `0x` isn't of the form `0xADDRESS: BYTES | COMMENT`.",
        example: "0x000 00",
        mend: "0x000: 00",
    },
    FaultKind {
        code: "yo.digits",
        meaning: "The bytes of a line have a hex digit too few.",
        example: "0x000: 000",
        mend: "0x000: 0000",
    },
    FaultKind {
        code: "yo.outside",
        meaning: "A byte is past the end of the memory (`--mem`).",
        example: "0x2000: 00",
        mend: "0x1fff: 00",
    },
    FaultKind {
        code: "yo.address",
        meaning: "An address has more than 16 hex digits.",
        example: "0x00000000000000000: 00",
        mend: "0x0000000000000000: 00",
    },
    FaultKind {
        code: "yo.memory",
        meaning: "The program is out of memory.",
        example: "",
        mend: "",
    },
    FaultKind {
        code: "yo.source",
        meaning: "The file is a source, and wasn't assembled.",
        example: "    halt",
        mend: "0x000: 00 |     halt",
    },
    FaultKind {
        code: "yo.empty",
        meaning: "No line puts a byte anywhere.",
        example: "| nothing",
        mend: "0x000: 00 | halt",
    },
];

/// The kinds of faults of a language: 0 is HCL, 1 is assembly, 2 is object text.
pub fn fault_kinds(language: usize) -> &'static [FaultKind] {
    match language {
        0 => HCL,
        1 => ASSEMBLY,
        2 => OBJECT,
        _ => &[],
    }
}
