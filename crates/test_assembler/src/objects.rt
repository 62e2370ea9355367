//! Tests of object text: it is printed and read back, and refused for each reason.
use std::test::Fail;
use y86_base::Variant;
use yas_asm::assemble;
use yo_object::{YoFault, YoWhy, load, print};

/// A source, its object text, and the bytes of its image of `size` bytes that aren't 0, by address.
struct Printed {
    source: &'static [u8],
    size: u64,
    text: &'static [u8],
    bytes: &'static [(u64, u8)],
}

static PRINTED: [Printed; 7] = [
    Printed {
        source: b"    irmovq $10,%rdx\nloop: addq %rdx,%rax # add\n    jmp loop\n",
        size: 64,
        text: b"0x000: 30f20a00000000000000 |     irmovq $10,%rdx\n0x00a: 6020                 | loop: addq %rdx,%rax # add\n0x00c: 700a00000000000000   |     jmp loop\n",
        bytes: &[
            (0, 0x30),
            (1, 0xf2),
            (2, 0x0a),
            (10, 0x60),
            (11, 0x20),
            (12, 0x70),
            (13, 0x0a),
        ],
    },
    Printed {
        source: b"    .pos 0\n    irmovq stack, %rsp  # set up\n    call main\n    halt\nmain: ret\n    .pos 0x40\nstack:\n",
        size: 64,
        text: b"0x000:                      |     .pos 0\n0x000: 30f44000000000000000 |     irmovq stack, %rsp  # set up\n0x00a: 801400000000000000   |     call main\n0x013: 00                   |     halt\n0x014: 90                   | main: ret\n0x040:                      |     .pos 0x40\n0x040:                      | stack:\n",
        bytes: &[
            (0, 0x30),
            (1, 0xf4),
            (2, 0x40),
            (10, 0x80),
            (11, 0x14),
            (20, 0x90),
        ],
    },
    Printed {
        source: b"",
        size: 64,
        text: b"",
        bytes: &[],
    },
    Printed {
        source: b"\n# 0x000: 11\nnop",
        size: 64,
        text: b"                            | \n                            | # 0x000: 11\n0x000: 10                   | nop\n",
        bytes: &[(0, 0x10)],
    },
    Printed {
        source: b"\n",
        size: 64,
        text: b"                            | \n",
        bytes: &[],
    },
    Printed {
        source: b".byte 7 # 0x001: 11\r\n.byte -1",
        size: 64,
        text: b"0x000: 07                   | .byte 7 # 0x001: 11\r\n0x001: ff                   | .byte -1\n",
        bytes: &[(0, 0x07), (1, 0xff)],
    },
    Printed {
        source: b"  .pos 0x1ffe\n.word 0xcdab",
        size: 8192,
        text: b"0x1ffe:                      |   .pos 0x1ffe\n0x1ffe: abcd                 | .word 0xcdab\n",
        bytes: &[(0x1ffe, 0xab), (0x1fff, 0xcd)],
    },
];

fn expected_byte(bytes: &[(u64, u8)], address: u64) -> u8 {
    let mut byte = 0;
    for (at, value) in bytes {
        if *at == address {
            byte = *value;
        }
    }
    byte
}

/// The output for a source, byte by byte, and its image at the size of the case.
#[test]
fn prints_and_reads_back(rt: HostRuntime) -> Result<(), Fail> {
    for case in PRINTED.iter() {
        let listing = assemble(rt.alloc(), Variant::Base, case.source, case.size)?;
        let text = print(rt.alloc(), &listing)?;
        assert!(rt; text.as_slice() == case.text);
        let image = load(rt.alloc(), &text, case.size)?;
        assert_eq!(rt; image.size(), case.size);
        for address in 0..case.size {
            assert_eq!(rt;
                image.byte(address),
                Some(expected_byte(case.bytes, address))
            );
        }
    }
    Ok(())
}

struct Accepted {
    text: &'static [u8],
    bytes: &'static [(u64, u8)],
}

/// Texts without a fault at 64 bytes, and some of the bytes that they put; the test checks all other bytes too.
static ACCEPTED: [Accepted; 14] = [
    Accepted {
        text: b"",
        bytes: &[],
    },
    Accepted {
        text: b"| 0x000: 12\n# 0x000: 12\n0X000: 12\n x",
        bytes: &[],
    },
    Accepted {
        text: b"0x0:00|x",
        bytes: &[],
    },
    Accepted {
        text: b"0x001: fF | comment",
        bytes: &[(1, 255)],
    },
    Accepted {
        text: b" \t\r0x3f:\t9A \r|",
        bytes: &[(63, 154)],
    },
    Accepted {
        text: b"0x000: 0102030405\n0x002: aabb\n",
        bytes: &[(0, 1), (1, 2), (2, 170), (3, 187), (4, 5)],
    },
    Accepted {
        text: b"0x9999:",
        bytes: &[],
    },
    Accepted {
        text: b"0xffffffffffffffff: | far away",
        bytes: &[],
    },
    Accepted {
        text: b"0x0000000000000004: 7f",
        bytes: &[(4, 127)],
    },
    Accepted {
        text: b"0x008:12\r\n\r\n0x009: 34\r\n",
        bytes: &[(8, 18), (9, 52)],
    },
    Accepted {
        text: b"0xAbC:|\n0x03E: 0Aa0",
        bytes: &[(62, 10), (63, 160)],
    },
    Accepted {
        text: b"\n\n0x0: 30",
        bytes: &[(0, 48)],
    },
    Accepted {
        text: b"0x10: 01\n0x10: 00",
        bytes: &[],
    },
    Accepted {
        text: b"0 x0: 11",
        bytes: &[],
    },
];

struct Refused {
    text: &'static [u8],
    line: u64,
    why: YoWhy,
}

/// Texts with a fault at 64 bytes, the line and the reason, whose text is its name.
static REFUSED: [Refused; 20] = [
    Refused {
        text: b"0x: 00",
        line: 1,
        why: YoWhy::Syntax,
    },
    Refused {
        text: b"0x000 00",
        line: 1,
        why: YoWhy::Syntax,
    },
    Refused {
        text: b"0x000 : 00",
        line: 1,
        why: YoWhy::Syntax,
    },
    Refused {
        text: b"0x000: 00 11",
        line: 1,
        why: YoWhy::Syntax,
    },
    Refused {
        text: b"0x000: 00 # no",
        line: 1,
        why: YoWhy::Syntax,
    },
    Refused {
        text: b"0x000: 0g",
        line: 1,
        why: YoWhy::Syntax,
    },
    Refused {
        text: b"0x",
        line: 1,
        why: YoWhy::Syntax,
    },
    Refused {
        text: b"0x000: 30f",
        line: 1,
        why: YoWhy::OddDigits,
    },
    Refused {
        text: b"0x040: 0",
        line: 1,
        why: YoWhy::OddDigits,
    },
    Refused {
        text: b"0x03f: 0000",
        line: 1,
        why: YoWhy::OutsideMemory,
    },
    Refused {
        text: b"0x040: 00",
        line: 1,
        why: YoWhy::OutsideMemory,
    },
    Refused {
        text: b"0xfffffffffffffffe: 000000",
        line: 1,
        why: YoWhy::OutsideMemory,
    },
    Refused {
        text: b"0x00000000000000000: 00",
        line: 1,
        why: YoWhy::AddressTooWide,
    },
    Refused {
        text: b"0x12345678901234567: 0",
        line: 1,
        why: YoWhy::AddressTooWide,
    },
    Refused {
        text: b"0x12345678901234567 0",
        line: 1,
        why: YoWhy::Syntax,
    },
    Refused {
        text: b"0x000: 00\n| a comment\n\n0x001: 0\n0x: 00",
        line: 4,
        why: YoWhy::OddDigits,
    },
    Refused {
        text: b"\n0x040: 11\n0x: 00\n",
        line: 2,
        why: YoWhy::OutsideMemory,
    },
    Refused {
        text: b"0x000: 11\r\n0x001: 2\r\n",
        line: 2,
        why: YoWhy::OddDigits,
    },
    Refused {
        text: b"0x0:\n0x1:\n0x2:\n0x3;",
        line: 4,
        why: YoWhy::Syntax,
    },
    Refused {
        text: b"0x000: 00 \x00|",
        line: 1,
        why: YoWhy::Syntax,
    },
];

#[test]
fn edges_of_object_text(rt: HostRuntime) -> Result<(), Fail> {
    for case in ACCEPTED.iter() {
        let image = load(rt.alloc(), case.text, 64)?;
        assert_eq!(rt; image.size(), 64);
        for address in 0..64 {
            assert_eq!(rt;
                image.byte(address),
                Some(expected_byte(case.bytes, address))
            );
        }
    }
    for case in REFUSED.iter() {
        match load(rt.alloc(), case.text, 64) {
            Ok(_) => assert_eq!(rt; case.line, 0),
            Err(fault) => {
                assert_eq!(rt; fault.line, case.line);
                assert_eq!(rt; fault.why, case.why);
                let text = format!(in rt.alloc(); "{}: {:?}", case.line, case.why)?;
                assert!(rt; format!(in rt.alloc(); "{fault}")? == text);
            }
        }
    }
    let fault = load(rt.alloc(), b"0x1fff: 0000", 8192).err();
    let line = 1;
    let why = YoWhy::OutsideMemory;
    assert_eq!(rt; fault, Some(YoFault { line, why }));
    Ok(())
}
