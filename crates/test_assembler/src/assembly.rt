//! Tests of statements that are accepted, with bytes assembled by hand, and of sources that are refused.
use std::process::Abort;
use std::test::Fail;
use y86_base::Variant;
use yas_asm::{AsmWhy, assemble};

/// A line that is accepted, with the address that it shows and its bytes.
struct Accepted {
    source: &'static [u8],
    addr: u64,
    bytes: &'static [u8],
}

/// A source that is refused, with the first line with a fault and its least reason.
struct Refused {
    source: &'static [u8],
    size: u64,
    line: u64,
    why: AsmWhy,
}

static ACCEPTED: [Accepted; 55] = [
    Accepted {
        source: b"halt",
        addr: 0,
        bytes: &[0x00],
    },
    Accepted {
        source: b"nop",
        addr: 0,
        bytes: &[0x10],
    },
    Accepted {
        source: b"ret",
        addr: 0,
        bytes: &[0x90],
    },
    Accepted {
        source: b"rrmovq %rax,%rcx",
        addr: 0,
        bytes: &[0x20, 0x01],
    },
    Accepted {
        source: b"cmovle %rdx,%rbx",
        addr: 0,
        bytes: &[0x21, 0x23],
    },
    Accepted {
        source: b"cmovl %rsp,%rbp",
        addr: 0,
        bytes: &[0x22, 0x45],
    },
    Accepted {
        source: b"cmove %rsi,%rdi",
        addr: 0,
        bytes: &[0x23, 0x67],
    },
    Accepted {
        source: b"cmovne %r8,%r9",
        addr: 0,
        bytes: &[0x24, 0x89],
    },
    Accepted {
        source: b"cmovge %r10,%r11",
        addr: 0,
        bytes: &[0x25, 0xab],
    },
    Accepted {
        source: b"cmovg %r12,%r13",
        addr: 0,
        bytes: &[0x26, 0xcd],
    },
    Accepted {
        source: b"irmovq $-1,%r14",
        addr: 0,
        bytes: &[0x30, 0xfe, 0xff, 0xff, 0xff, 0xff, 0xff, 0xff, 0xff, 0xff],
    },
    Accepted {
        source: b"irmovq 0x0123456789aBcDeF,%rax",
        addr: 0,
        bytes: &[0x30, 0xf0, 0xef, 0xcd, 0xab, 0x89, 0x67, 0x45, 0x23, 0x01],
    },
    Accepted {
        source: b"rmmovq %rcx,8(%rsp)",
        addr: 0,
        bytes: &[0x40, 0x14, 8, 0, 0, 0, 0, 0, 0, 0],
    },
    Accepted {
        source: b"rmmovq %rcx , ( %rsp )",
        addr: 0,
        bytes: &[0x40, 0x14, 0, 0, 0, 0, 0, 0, 0, 0],
    },
    Accepted {
        source: b"mrmovq -8(%rbp),%rdx",
        addr: 0,
        bytes: &[0x50, 0x25, 0xf8, 0xff, 0xff, 0xff, 0xff, 0xff, 0xff, 0xff],
    },
    Accepted {
        source: b"addq %rdx,%rax",
        addr: 0,
        bytes: &[0x60, 0x20],
    },
    Accepted {
        source: b"subq %rax,%rcx",
        addr: 0,
        bytes: &[0x61, 0x01],
    },
    Accepted {
        source: b"andq %rcx,%rcx",
        addr: 0,
        bytes: &[0x62, 0x11],
    },
    Accepted {
        source: b"xorq %r14,%rax",
        addr: 0,
        bytes: &[0x63, 0xe0],
    },
    Accepted {
        source: b"jmp 0x100",
        addr: 0,
        bytes: &[0x70, 0, 1, 0, 0, 0, 0, 0, 0],
    },
    Accepted {
        source: b"jle 1",
        addr: 0,
        bytes: &[0x71, 1, 0, 0, 0, 0, 0, 0, 0],
    },
    Accepted {
        source: b"jl 1",
        addr: 0,
        bytes: &[0x72, 1, 0, 0, 0, 0, 0, 0, 0],
    },
    Accepted {
        source: b"je 1",
        addr: 0,
        bytes: &[0x73, 1, 0, 0, 0, 0, 0, 0, 0],
    },
    Accepted {
        source: b"jne 1",
        addr: 0,
        bytes: &[0x74, 1, 0, 0, 0, 0, 0, 0, 0],
    },
    Accepted {
        source: b"jge 1",
        addr: 0,
        bytes: &[0x75, 1, 0, 0, 0, 0, 0, 0, 0],
    },
    Accepted {
        source: b"jg $1",
        addr: 0,
        bytes: &[0x76, 1, 0, 0, 0, 0, 0, 0, 0],
    },
    Accepted {
        source: b"call 0x20",
        addr: 0,
        bytes: &[0x80, 0x20, 0, 0, 0, 0, 0, 0, 0],
    },
    Accepted {
        source: b"pushq %rbx",
        addr: 0,
        bytes: &[0xa0, 0x3f],
    },
    Accepted {
        source: b"popq %r14",
        addr: 0,
        bytes: &[0xb0, 0xef],
    },
    Accepted {
        source: b".pos 0x10",
        addr: 16,
        bytes: &[],
    },
    Accepted {
        source: b".pos0x10",
        addr: 16,
        bytes: &[],
    },
    Accepted {
        source: b"a: .pos 64",
        addr: 64,
        bytes: &[],
    },
    Accepted {
        source: b".pos -0",
        addr: 0,
        bytes: &[],
    },
    Accepted {
        source: b".align 8",
        addr: 0,
        bytes: &[],
    },
    Accepted {
        source: b".byte 255",
        addr: 0,
        bytes: &[0xff],
    },
    Accepted {
        source: b".byte $ -128",
        addr: 0,
        bytes: &[0x80],
    },
    Accepted {
        source: b".word 0x1234",
        addr: 0,
        bytes: &[0x34, 0x12],
    },
    Accepted {
        source: b".long -2",
        addr: 0,
        bytes: &[0xfe, 0xff, 0xff, 0xff],
    },
    Accepted {
        source: b".quad 18446744073709551615",
        addr: 0,
        bytes: &[0xff, 0xff, 0xff, 0xff, 0xff, 0xff, 0xff, 0xff],
    },
    Accepted {
        source: b".quad -9223372036854775808",
        addr: 0,
        bytes: &[0, 0, 0, 0, 0, 0, 0, 0x80],
    },
    Accepted {
        source: b".quad-1",
        addr: 0,
        bytes: &[0xff, 0xff, 0xff, 0xff, 0xff, 0xff, 0xff, 0xff],
    },
    Accepted {
        source: b"halt: jmp halt",
        addr: 0,
        bytes: &[0x70, 0, 0, 0, 0, 0, 0, 0, 0],
    },
    Accepted {
        source: b"irmovq$1,%rax",
        addr: 0,
        bytes: &[0x30, 0xf0, 1, 0, 0, 0, 0, 0, 0, 0],
    },
    Accepted {
        source: b" \t halt\r",
        addr: 0,
        bytes: &[0x00],
    },
    Accepted {
        source: b"halt # \xff",
        addr: 0,
        bytes: &[0x00],
    },
    Accepted {
        source: b"halt//\x01",
        addr: 0,
        bytes: &[0x00],
    },
    Accepted {
        source: b"halt /* \x01 */ ",
        addr: 0,
        bytes: &[0x00],
    },
    Accepted {
        source: b"halt/**/",
        addr: 0,
        bytes: &[0x00],
    },
    Accepted {
        source: b"_a1:",
        addr: 0,
        bytes: &[],
    },
    Accepted {
        source: b".word -32768",
        addr: 0,
        bytes: &[0x00, 0x80],
    },
    Accepted {
        source: b".word 65535",
        addr: 0,
        bytes: &[0xff, 0xff],
    },
    Accepted {
        source: b".long -2147483648",
        addr: 0,
        bytes: &[0, 0, 0, 0x80],
    },
    Accepted {
        source: b".long 4294967295",
        addr: 0,
        bytes: &[0xff, 0xff, 0xff, 0xff],
    },
    Accepted {
        source: b"ABCDEFGHIJKLMNOPQRSTUVWXYZ_abcdefghijklmnopqrstuvwxyz0123456789:.byte 1",
        addr: 0,
        bytes: &[1],
    },
    Accepted {
        source: b"halt /* !\"#$%&'()+,-./0123456789:;<=>?@ABCDEFGHIJKLMNOPQRSTUVWXYZ[\\]^_`abcdefghijklmnopqrstuvwxyz{|}~ */",
        addr: 0,
        bytes: &[0x00],
    },
];

static REFUSED: [Refused; 55] = [
    Refused {
        source: b"a: halt\na: nop",
        size: 64,
        line: 2,
        why: AsmWhy::LabelTwice,
    },
    Refused {
        source: b"jmp b",
        size: 64,
        line: 1,
        why: AsmWhy::LabelUnknown,
    },
    Refused {
        source: b"halt\n.pos 0\nnop",
        size: 64,
        line: 3,
        why: AsmWhy::Overlap,
    },
    Refused {
        source: b".pos 64\nhalt",
        size: 64,
        line: 2,
        why: AsmWhy::OutsideMemory,
    },
    Refused {
        source: b".byte 256",
        size: 64,
        line: 1,
        why: AsmWhy::NumberTooWide,
    },
    Refused {
        source: b".byte -129",
        size: 64,
        line: 1,
        why: AsmWhy::NumberTooWide,
    },
    Refused {
        source: b".quad -9223372036854775809",
        size: 64,
        line: 1,
        why: AsmWhy::NumberTooWide,
    },
    Refused {
        source: b"rmmovq %rax,0",
        size: 64,
        line: 1,
        why: AsmWhy::Syntax,
    },
    Refused {
        source: b"iaddq $1,%rax",
        size: 64,
        line: 1,
        why: AsmWhy::Syntax,
    },
    // Tokens are as long as possible, and a blank ends a name.
    Refused {
        source: b"jmp5",
        size: 64,
        line: 1,
        why: AsmWhy::Syntax,
    },
    Refused {
        source: b"callmain",
        size: 64,
        line: 1,
        why: AsmWhy::Syntax,
    },
    Refused {
        source: b"Halt",
        size: 64,
        line: 1,
        why: AsmWhy::Syntax,
    },
    Refused {
        source: b"pushq %r15",
        size: 64,
        line: 1,
        why: AsmWhy::Syntax,
    },
    Refused {
        source: b".byte 0x",
        size: 64,
        line: 1,
        why: AsmWhy::Syntax,
    },
    Refused {
        source: b".byte 0X1",
        size: 64,
        line: 1,
        why: AsmWhy::Syntax,
    },
    Refused {
        source: b".byte -0x1",
        size: 64,
        line: 1,
        why: AsmWhy::Syntax,
    },
    Refused {
        source: b"a: b: halt",
        size: 64,
        line: 1,
        why: AsmWhy::Syntax,
    },
    // Only one comment, and only at the end of the line.
    Refused {
        source: b"/* a */ halt",
        size: 64,
        line: 1,
        why: AsmWhy::Syntax,
    },
    Refused {
        source: b"a: /* x */ halt",
        size: 64,
        line: 1,
        why: AsmWhy::Syntax,
    },
    Refused {
        source: b"halt /* a */ # b",
        size: 64,
        line: 1,
        why: AsmWhy::Syntax,
    },
    Refused {
        source: b"/* \x01 */ halt",
        size: 64,
        line: 1,
        why: AsmWhy::Syntax,
    },
    Refused {
        source: b"halt /*/",
        size: 64,
        line: 1,
        why: AsmWhy::Syntax,
    },
    Refused {
        source: b"halt /* /* \x01",
        size: 64,
        line: 1,
        why: AsmWhy::BadByte,
    },
    Refused {
        source: b"\nx /* a */ \x7f # b",
        size: 64,
        line: 2,
        why: AsmWhy::BadByte,
    },
    // The operands of `.pos` and `.align`.
    Refused {
        source: b".align 0",
        size: 64,
        line: 1,
        why: AsmWhy::Syntax,
    },
    Refused {
        source: b".align -0",
        size: 64,
        line: 1,
        why: AsmWhy::Syntax,
    },
    Refused {
        source: b".pos -99999999999999999999",
        size: 64,
        line: 1,
        why: AsmWhy::Syntax,
    },
    Refused {
        source: b".pos $5",
        size: 64,
        line: 1,
        why: AsmWhy::Syntax,
    },
    Refused {
        source: b".pos a",
        size: 64,
        line: 1,
        why: AsmWhy::Syntax,
    },
    Refused {
        source: b".pos 0x10000000000000000",
        size: 64,
        line: 1,
        why: AsmWhy::NumberTooWide,
    },
    Refused {
        source: b".pos 0xffffffffffffffff",
        size: 64,
        line: 1,
        why: AsmWhy::OutsideMemory,
    },
    Refused {
        source: b"halt\n.align 0xffffffffffffffff",
        size: 64,
        line: 2,
        why: AsmWhy::OutsideMemory,
    },
    Refused {
        source: b"jmp 0",
        size: 8,
        line: 1,
        why: AsmWhy::OutsideMemory,
    },
    // Which faulty lines move the address: a later label decides on the first line.
    Refused {
        source: b".byte c\n.pos 256\nc:",
        size: 512,
        line: 1,
        why: AsmWhy::NumberTooWide,
    },
    Refused {
        source: b".byte c\na: .pos 255\na: nop\nc:",
        size: 512,
        line: 1,
        why: AsmWhy::NumberTooWide,
    },
    Refused {
        source: b".byte c\n.pos 255\n.byte x\nc:",
        size: 512,
        line: 1,
        why: AsmWhy::NumberTooWide,
    },
    Refused {
        source: b".byte c\n.pos 255\n.byte d\nc:\n.pos 256\nd:",
        size: 512,
        line: 1,
        why: AsmWhy::NumberTooWide,
    },
    Refused {
        source: b".byte c\n.pos 255\n.byte 256\nc:",
        size: 512,
        line: 3,
        why: AsmWhy::NumberTooWide,
    },
    Refused {
        source: b".byte c\n.pos 255\nhalt x\nc:",
        size: 512,
        line: 3,
        why: AsmWhy::Syntax,
    },
    Refused {
        source: b".byte c\n.pos 255\n.quad 0\nc:",
        size: 256,
        line: 3,
        why: AsmWhy::OutsideMemory,
    },
    // Which faulty lines define their labels.
    Refused {
        source: b"jmp b\nb: halt x",
        size: 64,
        line: 1,
        why: AsmWhy::LabelUnknown,
    },
    Refused {
        source: b"jmp b\nb: .byte 256",
        size: 64,
        line: 1,
        why: AsmWhy::LabelUnknown,
    },
    Refused {
        source: b"jmp b\nb: .quad 0",
        size: 16,
        line: 2,
        why: AsmWhy::OutsideMemory,
    },
    // Of several faults on a line the least counts.
    Refused {
        source: b"a:\na: .byte 256",
        size: 64,
        line: 2,
        why: AsmWhy::NumberTooWide,
    },
    Refused {
        source: b"a:\na: jmp x",
        size: 8,
        line: 2,
        why: AsmWhy::LabelTwice,
    },
    Refused {
        source: b"jmp x",
        size: 8,
        line: 1,
        why: AsmWhy::LabelUnknown,
    },
    Refused {
        source: b"nop\n.pos 0\njmp 0",
        size: 8,
        line: 3,
        why: AsmWhy::OutsideMemory,
    },
    Refused {
        source: b".word -32769",
        size: 64,
        line: 1,
        why: AsmWhy::NumberTooWide,
    },
    Refused {
        source: b".word 65536",
        size: 64,
        line: 1,
        why: AsmWhy::NumberTooWide,
    },
    Refused {
        source: b".long -2147483649",
        size: 64,
        line: 1,
        why: AsmWhy::NumberTooWide,
    },
    Refused {
        source: b".long 4294967296",
        size: 64,
        line: 1,
        why: AsmWhy::NumberTooWide,
    },
    Refused {
        source: b"halt ~",
        size: 64,
        line: 1,
        why: AsmWhy::Syntax,
    },
    Refused {
        source: b"halt !",
        size: 64,
        line: 1,
        why: AsmWhy::Syntax,
    },
    Refused {
        source: b"halt \x7f",
        size: 64,
        line: 1,
        why: AsmWhy::BadByte,
    },
    Refused {
        source: b"hal\x80t",
        size: 64,
        line: 1,
        why: AsmWhy::BadByte,
    },
];

/// Each kind of statement once, and the forms of blanks, comments and numbers, with bytes assembled by hand.
#[test]
fn assembles_statements(rt: HostRuntime) {
    for Accepted {
        source,
        addr,
        bytes,
    } in &ACCEPTED {
        match assemble(rt.alloc(), Variant::Base, source, 64) {
            Err(fault) => panic!(rt; "{fault} in {source:?}"),
            Ok(listing) => {
                assert_eq!(rt; listing.lines().len(), 1);
                let line = &listing.lines()[0];
                assert_eq!(rt; line.addr, Some(*addr), "{source:?}");
                assert_eq!(rt; line.bytes.as_slice(), *bytes, "{source:?}");
            }
        }
    }
}

/// The first line with a fault and the least fault on it, and the text of both: the reason's text is its name.
#[test]
fn tells_faults(rt: HostRuntime) -> Result<(), Fail> {
    for Refused {
        source,
        size,
        line,
        why,
    } in &REFUSED {
        match assemble(rt.alloc(), Variant::Base, source, *size) {
            Ok(_) => panic!(rt; "accepted {source:?}"),
            Err(fault) => {
                assert_eq!(rt; fault.line, *line, "{source:?}");
                assert_eq!(rt; fault.why, *why, "{source:?}");
                let text = format!(in rt.alloc(); "{line}: {why:?}")?;
                assert!(rt; format!(in rt.alloc(); "{fault}")? == text);
            }
        }
    }
    Ok(())
}

/// A source with nothing but labels, whose names are the digits of numbers.
fn labels(rt: &HostRuntime, count: u64) -> Result<Vec<u8>, Fail> {
    let mut source = Vec::new(rt.alloc());
    for n in 0..count {
        source.push(b'_')?;
        source.push(b'a' + (n / 4096 % 16) as u8)?;
        source.push(b'a' + (n / 256 % 16) as u8)?;
        source.push(b'a' + (n / 16 % 16) as u8)?;
        source.push(b'a' + (n % 16) as u8)?;
        if n >= 65536 {
            source.push(b'z')?;
        }
        source.push(b':')?;
        source.push(b'\n')?;
    }
    Ok(source)
}

/// 65,535 labels are accepted, also if one is used again. Another label is refused, and isn't defined.
#[test]
fn counts_labels(rt: HostRuntime) -> Result<(), Fail> {
    let mut source = labels(&rt, 65535)?;
    assert_eq!(rt;
        assemble(rt.alloc(), Variant::Base, &source, 64)?
            .lines()
            .len(),
        65535
    );
    source.extend_from_slice(b"one_more:\n")?;
    match assemble(rt.alloc(), Variant::Base, &source, 64) {
        Ok(_) => panic!(rt; "accepted"),
        Err(fault) => {
            assert_eq!(rt; fault.line, 65536);
            assert_eq!(rt; fault.why, AsmWhy::LabelLimit);
        }
    }
    let mut used = b"jmp one_more\n".to_vec(rt.alloc())?;
    used.extend_from_slice(&source)?;
    match assemble(rt.alloc(), Variant::Base, &used, 64) {
        Ok(_) => panic!(rt; "accepted"),
        Err(fault) => {
            assert_eq!(rt; fault.line, 1);
            assert_eq!(rt; fault.why, AsmWhy::LabelUnknown);
        }
    }
    Ok(())
}
