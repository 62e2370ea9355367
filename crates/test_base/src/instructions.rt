//! Tests of single steps and of the encoding of instructions, against results worked out by hand.
use std::alloc::Global;
use std::process::Abort;
use std::test::Fail;
use y86_base::{Flags, Image, Stat, Variant};
use y86_isa::{Fetched, Instr, Machine, Rec, Store, encode, split, step, valid};

const MAX: u64 = 0xffff_ffff_ffff_ffff;
/// The least and the greatest number of a word in two's complement.
const LOW: u64 = 0x8000_0000_0000_0000;

const HIGH: u64 = 0x7fff_ffff_ffff_ffff;

const NONE: Flags = Flags {
    zf: false,
    sf: false,
    of: false,
};

const Z: Flags = Flags { zf: true, ..NONE };

const S: Flags = Flags { sf: true, ..NONE };

const O: Flags = Flags { of: true, ..NONE };

const SO: Flags = Flags { sf: true, ..O };

const ZO: Flags = Flags { zf: true, ..O };

/// The record of an instruction at 0 that changes nothing and ends with AOK.
const NOTHING: Rec = Rec {
    pc: 0,
    icode: 1,
    ifun: 0,
    dst_e: 15,
    val_e: 0,
    dst_m: 15,
    val_m: 0,
    store: None,
    flags: NONE,
    stat: Stat::Aok,
};

/// Steps that end with a status other than AOK, on 64 bytes of memory: the PC, the bytes there, the word in every
/// register, and then the status, icode and ifun of the record.
static REFUSED: [(u64, &[u8], u64, Stat, u64, u64); 28] = [
    // halt, also with an ifun, which it ignores
    (0, &[0x00], 0, Stat::Hlt, 0, 0),
    (63, &[0x05], 0, Stat::Hlt, 0, 5),
    // the first byte is outside
    (64, &[], 0, Stat::Adr, 1, 0),
    (MAX, &[], 0, Stat::Adr, 1, 0),
    // the first byte begins no instruction; this comes before a later byte outside
    (63, &[0xc0], 0, Stat::Ins, 15, 0),
    (63, &[0xf0], 0, Stat::Ins, 15, 0),
    (0, &[0x27, 0x12], 0, Stat::Ins, 15, 0),
    (63, &[0x27], 0, Stat::Ins, 15, 0),
    (63, &[0x64], 0, Stat::Ins, 15, 0),
    (63, &[0x77], 0, Stat::Ins, 15, 0),
    // a later byte is outside; this comes before a register field of 15
    (63, &[0x60], 0, Stat::Adr, 1, 0),
    (63, &[0xa0], 0, Stat::Adr, 1, 0),
    (56, &[0x70], 0, Stat::Adr, 1, 0),
    (56, &[0x80], 0, Stat::Adr, 1, 0),
    (55, &[0x50, 0x12], 0, Stat::Adr, 1, 0),
    (62, &[0x30, 0xff], 0, Stat::Adr, 1, 0),
    // a register field that is used is 15
    (62, &[0x60, 0xf0], 0, Stat::Ins, 15, 0),
    (62, &[0x20, 0x0f], 0, Stat::Ins, 15, 0),
    (54, &[0x30, 0x0f], 0, Stat::Ins, 15, 0),
    (54, &[0x40, 0x1f], 0, Stat::Ins, 15, 0),
    (62, &[0xb0, 0xf1], 0, Stat::Ins, 15, 0),
    // the data is not all inside: below 0, and at the end
    (0, &[0xa0, 0x1f], 0, Stat::Adr, 10, 0),
    (0, &[0x80, 40], 7, Stat::Adr, 8, 0),
    (0, &[0xa0, 0x1f], 65, Stat::Adr, 10, 0),
    (0, &[0xb0, 0x1f], 57, Stat::Adr, 11, 0),
    (0, &[0x90], 64, Stat::Adr, 9, 0),
    (0, &[0x50, 0x12], 57, Stat::Adr, 5, 0),
    (
        0,
        &[0x40, 0x12, 0xff, 0xff, 0xff, 0xff, 0xff, 0xff, 0xff, 0xff],
        0,
        Stat::Adr,
        4,
        0,
    ),
];

/// A step that ends with AOK and doesn't change the flags.
struct Done {
    pc: u64,
    code: &'static [u8],
    /// `%rcx`, `%rdx` and `%rsp`, a word of the memory with its address, and the flags.
    registers: (u64, u64, u64),
    word: (u64, u64),
    flags: Flags,

    icode: u64,
    ifun: u64,
    /// The destinations with their values, the store and the PC after the step.
    e: (u64, u64),
    m: (u64, u64),
    store: Option<(u64, u64)>,
    next: u64,
}

const DONE: Done = Done {
    pc: 0,
    code: &[],
    registers: (0, 0, 0),
    word: (48, 0),
    flags: NONE,
    icode: 1,
    ifun: 0,
    e: (15, 0),
    m: (15, 0),
    store: None,
    next: 0,
};

static MOVES: [Done; 22] = [
    // nop, also as the last byte and with an ifun, which it ignores
    Done {
        code: &[0x10],
        next: 1,
        ..DONE
    },
    Done {
        pc: 63,
        code: &[0x1f],
        ifun: 15,
        next: 64,
        ..DONE
    },
    // rrmovq %rcx, %rdx
    Done {
        code: &[0x20, 0x12],
        registers: (7, 9, 0),
        icode: 2,
        e: (2, 7),
        next: 2,
        ..DONE
    },
    // irmovq: the lowest byte first, and an rA that is ignored
    Done {
        code: &[0x30, 0xf3, 8, 7, 6, 5, 4, 3, 2, 1],
        icode: 3,
        e: (3, 0x0102_0304_0506_0708),
        next: 10,
        ..DONE
    },
    Done {
        code: &[0x3a, 0x03, 5],
        icode: 3,
        ifun: 10,
        e: (3, 5),
        next: 10,
        ..DONE
    },
    // rmmovq %rcx, D(%rdx), with D also -8
    Done {
        code: &[0x40, 0x12, 8],
        registers: (0xaabb, 16, 0),
        icode: 4,
        store: Some((24, 0xaabb)),
        next: 10,
        ..DONE
    },
    Done {
        code: &[0x40, 0x12, 0xf8, 0xff, 0xff, 0xff, 0xff, 0xff, 0xff, 0xff],
        registers: (1, 32, 0),
        icode: 4,
        store: Some((24, 1)),
        next: 10,
        ..DONE
    },
    // rmmovq of the last word
    Done {
        code: &[0x40, 0x12],
        registers: (3, 56, 0),
        icode: 4,
        store: Some((56, 3)),
        next: 10,
        ..DONE
    },
    // mrmovq D(%rdx), %rcx, also of the last word
    Done {
        code: &[0x50, 0x12, 8],
        registers: (1, 32, 0),
        word: (40, 99),
        icode: 5,
        m: (1, 99),
        next: 10,
        ..DONE
    },
    Done {
        code: &[0x50, 0x12],
        registers: (1, 56, 0),
        word: (56, MAX),
        icode: 5,
        m: (1, MAX),
        next: 10,
        ..DONE
    },
    // mrmovq 0(%rcx), %rcx reads at the old value
    Done {
        code: &[0x50, 0x11],
        registers: (48, 0, 0),
        word: (48, 6),
        icode: 5,
        m: (1, 6),
        next: 10,
        ..DONE
    },
    // jmp, also to an address outside
    Done {
        code: &[0x70, 40],
        icode: 7,
        next: 40,
        ..DONE
    },
    Done {
        code: &[0x70, 0xff, 0xff, 0xff, 0xff, 0xff, 0xff, 0xff, 0xff],
        icode: 7,
        next: MAX,
        ..DONE
    },
    // call at 3: the return address is 12; the stack is at the image's end
    Done {
        pc: 3,
        code: &[0x80, 40],
        registers: (0, 0, 64),
        icode: 8,
        e: (4, 56),
        store: Some((56, 12)),
        next: 40,
        ..DONE
    },
    // ret, also from the first word and from the last
    Done {
        code: &[0x90],
        registers: (0, 0, 48),
        word: (48, 33),
        icode: 9,
        e: (4, 56),
        next: 33,
        ..DONE
    },
    Done {
        code: &[0x90],
        registers: (0, 0, 56),
        word: (56, MAX),
        icode: 9,
        e: (4, 64),
        next: MAX,
        ..DONE
    },
    // pushq %rcx, to the last word and, from 8, to the first; an rB that is ignored
    Done {
        code: &[0xa0, 0x1f],
        registers: (5, 0, 64),
        icode: 10,
        e: (4, 56),
        store: Some((56, 5)),
        next: 2,
        ..DONE
    },
    Done {
        pc: 16,
        code: &[0xa3, 0x10],
        registers: (5, 0, 8),
        icode: 10,
        ifun: 3,
        e: (4, 0),
        store: Some((0, 5)),
        next: 18,
        ..DONE
    },
    // pushq %rsp stores the old value
    Done {
        code: &[0xa0, 0x4f],
        registers: (0, 0, 64),
        icode: 10,
        e: (4, 56),
        store: Some((56, 64)),
        next: 2,
        ..DONE
    },
    // popq %rcx
    Done {
        code: &[0xb0, 0x1f],
        registers: (0, 0, 48),
        word: (48, 77),
        icode: 11,
        e: (4, 56),
        m: (1, 77),
        next: 2,
        ..DONE
    },
    // popq %rsp leaves the word that was loaded
    Done {
        code: &[0xb0, 0x4f],
        registers: (0, 0, 48),
        word: (48, 77),
        icode: 11,
        e: (4, 56),
        m: (4, 77),
        next: 2,
        ..DONE
    },
    // the flags don't change
    Done {
        code: &[0xb0, 0x2f],
        registers: (0, 0, 56),
        word: (56, 0),
        flags: SO,
        icode: 11,
        e: (4, 64),
        m: (2, 0),
        next: 2,
        ..DONE
    },
];

/// The ifun of an OPq `%rcx, %rdx`, the two words, the word left in `%rdx`, and the flags.
static OPERATIONS: [(u8, u64, u64, u64, Flags); 17] = [
    (0, 3, 5, 8, NONE),
    (0, 0, 0, 0, Z),
    (0, 1, HIGH, LOW, SO),
    (0, 1, MAX, 0, Z),
    (0, LOW, LOW, 0, ZO),
    (0, LOW, MAX, HIGH, O),
    (1, 3, 5, 2, NONE),
    (1, 5, 3, MAX - 1, S),
    (1, 7, 7, 0, Z),
    (1, 1, LOW, HIGH, O),
    (1, LOW, 0, LOW, SO),
    (1, LOW, LOW, 0, Z),
    (2, 12, 10, 8, NONE),
    (2, LOW, MAX, LOW, S),
    (2, 1, 2, 0, Z),
    (3, 12, 10, 6, NONE),
    (3, HIGH, MAX, LOW, S),
];

/// Whether the conditions 0 to 6 (always, le, l, e, ne, ge, g) hold for the flags.
static CONDITIONS: [(Flags, [bool; 7]); 6] = [
    (NONE, [true, false, false, false, true, true, true]),
    (Z, [true, true, false, true, false, true, false]),
    (S, [true, true, true, false, true, false, false]),
    (O, [true, true, true, false, true, false, false]),
    (SO, [true, false, false, false, true, true, true]),
    (ZO, [true, true, true, true, false, false, false]),
];

/// A machine on 64 bytes of memory with `code` at `pc`.
fn machine(alloc: Global, pc: u64, code: &[u8]) -> Result<Machine, Fail> {
    let mut mem = Image::new(alloc, 64)?;
    let mut address = pc;
    for byte in code {
        let _ = mem.put_byte(address, *byte);
        address = address.wrapping_add(1);
    }
    let mut m = Machine::start(mem);
    m.pc = pc;
    Ok(m)
}

/// Takes a step, and compares its record and the machine after it.
fn check_step(rt: &impl Abort, v: Variant, m: &mut Machine, wanted: &Rec, next: u64) {
    let mut left = m.regs;
    left.set(wanted.dst_e, wanted.val_e);
    left.set(wanted.dst_m, wanted.val_m);
    let record = step(v, m);
    assert_eq!(rt; record, Some(*wanted));
    assert_eq!(rt; m.regs, left, "after {wanted:?}");
    assert_eq!(rt;
        (m.pc, m.flags, m.stat),
        (next, wanted.flags, wanted.stat),
        "after {wanted:?}"
    );
    if let Some(store) = wanted.store {
        assert_eq!(rt;
            m.mem.word(store.addr),
            Some(store.word),
            "after {wanted:?}"
        );
    }
}

fn check_move(rt: &impl Abort, m: &mut Machine, case: &Done) {
    m.regs.set(1, case.registers.0);
    m.regs.set(2, case.registers.1);
    m.regs.set(4, case.registers.2);
    m.flags = case.flags;
    assert!(rt; case.word.1 == 0 || m.mem.put(case.word.0, case.word.1));
    let wanted = Rec {
        pc: case.pc,
        icode: case.icode,
        ifun: case.ifun,
        dst_e: case.e.0,
        val_e: case.e.1,
        dst_m: case.m.0,
        val_m: case.m.1,
        store: case.store.map(|(addr, word)| Store { addr, word }),
        flags: case.flags,
        stat: Stat::Aok,
    };
    check_step(rt, Variant::Base, m, &wanted, case.next);
}

#[test]
fn steps(rt: HostRuntime) -> Result<(), Fail> {
    for (pc, code, word, stat, icode, ifun) in &REFUSED {
        let mut m = machine(rt.alloc(), *pc, code)?;
        for n in 0..15 {
            m.regs.set(n, *word);
        }
        let wanted = Rec {
            pc: *pc,
            icode: *icode,
            ifun: *ifun,
            flags: Z,
            stat: *stat,
            ..NOTHING
        };
        check_step(&rt, Variant::Base, &mut m, &wanted, *pc);
        assert_eq!(rt; step(Variant::Base, &mut m), None);
    }
    for case in &MOVES {
        let mut m = machine(rt.alloc(), case.pc, case.code)?;
        check_move(&rt, &mut m, case);
    }
    Ok(())
}

/// An instruction of two bytes at 0, whose second byte is `12`, with 7 in `%rcx`.
fn pair(alloc: Global, first: u8, flags: Flags) -> Result<Machine, Fail> {
    let mut m = machine(alloc, 0, &[first, 0x12])?;
    m.regs.set(1, 7);
    m.flags = flags;
    Ok(m)
}

fn check_condition(
    rt: &impl Abort,
    moved: &mut Machine,
    jumped: &mut Machine,
    ifun: u64,
    held: bool,
) {
    let cmov = Rec {
        icode: 2,
        ifun,
        dst_e: if held { 2 } else { 15 },
        val_e: if held { 7 } else { 0 },
        flags: moved.flags,
        ..NOTHING
    };
    check_step(rt, Variant::Base, moved, &cmov, 2);
    let jump = Rec {
        icode: 7,
        ifun,
        flags: jumped.flags,
        ..NOTHING
    };
    check_step(
        rt,
        Variant::Base,
        jumped,
        &jump,
        if held { 0x12 } else { 9 },
    );
}

#[test]
fn operations_and_conditions(rt: HostRuntime) -> Result<(), Fail> {
    for (ifun, a, b, left, flags) in &OPERATIONS {
        let mut m = pair(rt.alloc(), 0x60 | *ifun, SO)?;
        m.regs.set(1, *a);
        m.regs.set(2, *b);
        let wanted = Rec {
            icode: 6,
            ifun: u64::from(*ifun),
            dst_e: 2,
            val_e: *left,
            flags: *flags,
            ..NOTHING
        };
        check_step(&rt, Variant::Base, &mut m, &wanted, 2);
    }
    for (flags, holds) in &CONDITIONS {
        let mut ifun = 0u8;
        for held in holds {
            let mut moved = pair(rt.alloc(), 0x20 | ifun, *flags)?;
            let mut jumped = pair(rt.alloc(), 0x70 | ifun, *flags)?;
            check_condition(&rt, &mut moved, &mut jumped, u64::from(ifun), *held);
            ifun = ifun.wrapping_add(1);
        }
    }
    Ok(())
}

/// An `iaddq V, %rdx`: its first two bytes, the byte that V has eight times, the word before and after, and the flags.
static ADDED: [(u8, u8, u8, u64, u64, Flags); 5] = [
    (0xc0, 0xf2, 0x00, 5, 5, NONE),
    (0xc0, 0xf2, 0xff, 1, 0, Z),
    (0xc0, 0xf2, 0xff, LOW, HIGH, O),
    (0xc0, 0xf2, 0xff, 0, MAX, S),
    // an ifun and an rA that it ignores
    (0xc7, 0x12, 0x01, 1, 0x0101_0101_0101_0102, NONE),
];

/// What isn't an instruction of the larger set: the PC, the bytes there, the status and the icode of the record.
static REFUSED_IN_FULL: [(u64, &[u8], Stat, u64); 4] = [
    (63, &[0xc0], Stat::Adr, 1),
    (55, &[0xc0, 0xf2], Stat::Adr, 1),
    (54, &[0xc0, 0x2f], Stat::Ins, 15),
    (0, &[0xd0], Stat::Ins, 15),
];

#[test]
fn the_larger_set(rt: HostRuntime) -> Result<(), Fail> {
    for (first, fields, byte, before, left, flags) in &ADDED {
        let b = *byte;
        let mut m = machine(rt.alloc(), 0, &[*first, *fields, b, b, b, b, b, b, b, b])?;
        m.regs.set(2, *before);
        m.flags = SO;
        let wanted = Rec {
            icode: 12,
            ifun: u64::from(*first % 16),
            dst_e: 2,
            val_e: *left,
            flags: *flags,
            ..NOTHING
        };
        check_step(&rt, Variant::Full, &mut m, &wanted, 10);
    }
    for (pc, code, stat, icode) in &REFUSED_IN_FULL {
        let mut m = machine(rt.alloc(), *pc, code)?;
        let wanted = Rec {
            pc: *pc,
            icode: *icode,
            flags: Z,
            stat: *stat,
            ..NOTHING
        };
        check_step(&rt, Variant::Full, &mut m, &wanted, *pc);
    }
    Ok(())
}

/// For each icode its largest ifun in a valid instruction, the register fields and the constant of an example, and the
/// bytes of the example with ifun 0: the first byte, and those after it.
static ENCODINGS: [(u8, u8, u8, u8, u64, u8, &[u8]); 13] = [
    (0, 0, 15, 15, 0, 0x00, &[]),
    (1, 0, 15, 15, 0, 0x10, &[]),
    (2, 6, 1, 14, 0, 0x20, &[0x1e]),
    (
        3,
        0,
        15,
        2,
        0x01020304,
        0x30,
        &[0xf2, 4, 3, 2, 1, 0, 0, 0, 0],
    ),
    (4, 0, 1, 2, LOW, 0x40, &[0x12, 0, 0, 0, 0, 0, 0, 0, 0x80]),
    (5, 0, 14, 0, 8, 0x50, &[0xe0, 8, 0, 0, 0, 0, 0, 0, 0]),
    (6, 3, 3, 3, 0, 0x60, &[0x33]),
    (7, 6, 15, 15, 0x1234, 0x70, &[0x34, 0x12, 0, 0, 0, 0, 0, 0]),
    (8, 0, 15, 15, LOW, 0x80, &[0, 0, 0, 0, 0, 0, 0, 0x80]),
    (9, 0, 15, 15, 0, 0x90, &[]),
    (10, 0, 4, 15, 0, 0xa0, &[0x4f]),
    (11, 0, 0, 15, 0, 0xb0, &[0x0f]),
    (12, 0, 15, 3, 7, 0xc0, &[0xf3, 7, 0, 0, 0, 0, 0, 0, 0]),
];

fn same_bytes(a: &[u8], b: &[u8]) -> bool {
    a == b
}

/// Encodes a valid instruction, compares its bytes, and splits them again in the last bytes of a memory.
fn check_encoding(
    rt: &impl Abort,
    alloc: Global,
    i: &Instr,
    first: u8,
    rest: &[u8],
) -> Result<(), Fail> {
    assert!(rt; valid(Variant::Full, i));
    assert_eq!(rt; valid(Variant::Base, i), i.icode < 12);
    let code = encode(i);
    let bytes = code.as_slice();
    let (head, tail) = bytes.split_first().ok_or("no byte")?;
    assert_eq!(rt; *head, first, "{i:?}");
    assert!(rt; same_bytes(tail, rest), "{i:?}");
    let pc = 64u64.saturating_sub(bytes.len() as u64);
    let mem = machine(alloc, pc, bytes)?.mem;
    let wanted = Fetched {
        error: false,
        icode: u64::from(i.icode),
        ifun: u64::from(i.ifun),
        r_a: u64::from(i.r_a),
        r_b: u64::from(i.r_b),
        val_c: i.val_c,
        val_p: 64,
    };
    assert_eq!(rt; split(Variant::Full, &mem, pc), wanted);
    Ok(())
}

/// Changes that make a valid instruction invalid: 15 in a used register field, another number in an unused one, and a
/// constant if the instruction has none.
fn check_invalid(rt: &impl Abort, i: &Instr, has_const: bool) {
    let r_a = if i.r_a == 15 { 0 } else { 15 };
    assert!(rt; !valid(Variant::Full, &Instr { r_a, ..*i }), "{i:?}");
    let r_b = if i.r_b == 15 { 0 } else { 15 };
    assert!(rt; !valid(Variant::Full, &Instr { r_b, ..*i }), "{i:?}");
    assert_eq!(rt;
        valid(Variant::Full, &Instr { val_c: 1, ..*i }),
        has_const,
        "{i:?}"
    );
}

#[test]
fn encodings(rt: HostRuntime) -> Result<(), Fail> {
    for (icode, top, r_a, r_b, val_c, first, rest) in &ENCODINGS {
        for ifun in 0..=255u8 {
            let i = Instr {
                icode: *icode,
                ifun,
                r_a: *r_a,
                r_b: *r_b,
                val_c: *val_c,
            };
            if ifun <= *top {
                check_encoding(&rt, rt.alloc(), &i, *first | ifun, rest)?;
                check_invalid(&rt, &i, rest.len() > 1);
            } else {
                assert!(rt; !valid(Variant::Full, &i), "{i:?}");
            }
        }
    }
    for icode in 13..=255u8 {
        let i = Instr {
            icode,
            ifun: 0,
            r_a: 15,
            r_b: 15,
            val_c: 0,
        };
        assert!(rt; !valid(Variant::Full, &i), "icode {icode}");
    }
    Ok(())
}
