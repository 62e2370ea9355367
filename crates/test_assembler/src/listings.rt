//! Tests of the assembler's listings, line by line.
use std::process::Abort;
use std::test::Fail;
use y86_base::Variant;
use yas_asm::assemble;

/// A line of a listing: its address, its bytes, and where its text begins and ends.
struct Listed {
    addr: Option<u64>,
    bytes: &'static [u8],
    from: u64,
    to: u64,
}

static LOOP: &[u8] = b"    irmovq $10,%rdx\nloop: addq %rdx,%rax # add\n    jmp loop\n";

static LOOP_LINES: [Listed; 3] = [
    Listed {
        addr: Some(0),
        bytes: &[0x30, 0xf2, 0x0a, 0, 0, 0, 0, 0, 0, 0],
        from: 0,
        to: 19,
    },
    Listed {
        addr: Some(10),
        bytes: &[0x60, 0x20],
        from: 20,
        to: 46,
    },
    Listed {
        addr: Some(12),
        bytes: &[0x70, 0x0a, 0, 0, 0, 0, 0, 0, 0],
        from: 47,
        to: 59,
    },
];

static CALL: &[u8] =
    b"    .pos 0\n    irmovq stack, %rsp  # set up\n    call main\n    halt\nmain: ret\r\n    .pos 0x40\nstack:";

static CALL_LINES: [Listed; 7] = [
    Listed {
        addr: Some(0),
        bytes: &[],
        from: 0,
        to: 10,
    },
    Listed {
        addr: Some(0),
        bytes: &[0x30, 0xf4, 0x40, 0, 0, 0, 0, 0, 0, 0],
        from: 11,
        to: 43,
    },
    Listed {
        addr: Some(10),
        bytes: &[0x80, 0x14, 0, 0, 0, 0, 0, 0, 0],
        from: 44,
        to: 57,
    },
    Listed {
        addr: Some(19),
        bytes: &[0x00],
        from: 58,
        to: 66,
    },
    Listed {
        addr: Some(20),
        bytes: &[0x90],
        from: 67,
        to: 77,
    },
    Listed {
        addr: Some(64),
        bytes: &[],
        from: 78,
        to: 91,
    },
    Listed {
        addr: Some(64),
        bytes: &[],
        from: 92,
        to: 98,
    },
];

static DATA: &[u8] = b"nop\n\n .align 64\n.align 0x40\n.byte end\nend: .word end # 65\n# end";

static DATA_LINES: [Listed; 7] = [
    Listed {
        addr: Some(0),
        bytes: &[0x10],
        from: 0,
        to: 3,
    },
    Listed {
        addr: None,
        bytes: &[],
        from: 4,
        to: 4,
    },
    Listed {
        addr: Some(64),
        bytes: &[],
        from: 5,
        to: 15,
    },
    Listed {
        addr: Some(64),
        bytes: &[],
        from: 16,
        to: 27,
    },
    Listed {
        addr: Some(64),
        bytes: &[65],
        from: 28,
        to: 37,
    },
    Listed {
        addr: Some(65),
        bytes: &[65, 0],
        from: 38,
        to: 57,
    },
    Listed {
        addr: None,
        bytes: &[],
        from: 58,
        to: 63,
    },
];

/// The second instruction set has another mnemonic, and otherwise the same bytes.
static FULL: &[u8] = b"iaddq $5,%rax\naddq %rdx,%rax";

static FULL_LINES: [Listed; 2] = [
    Listed {
        addr: Some(0),
        bytes: &[0xc0, 0xf0, 5, 0, 0, 0, 0, 0, 0, 0],
        from: 0,
        to: 13,
    },
    Listed {
        addr: Some(10),
        bytes: &[0x60, 0x20],
        from: 14,
        to: 28,
    },
];

/// Compares a listing line by line.
fn compare(
    rt: &(impl Abort + AllocGlobal),
    variant: Variant,
    source: &[u8],
    lines: &[Listed],
) -> Result<(), Fail> {
    let listing = assemble(rt.alloc(), variant, source, 67)?;
    assert_eq!(rt; listing.source(), source);
    assert_eq!(rt; listing.lines().len(), lines.len());
    for (line, wanted) in listing.lines().iter().zip(lines) {
        let at = wanted.from;
        assert_eq!(rt; line.addr, wanted.addr, "at {at}");
        assert_eq!(rt; line.bytes.as_slice(), wanted.bytes, "at {at}");
        assert_eq!(rt; line.from, wanted.from, "at {at}");
        assert_eq!(rt; line.to, wanted.to, "at {at}");
    }
    Ok(())
}

/// Listings with their addresses, labels that are defined later, and the copy of the source.
#[test]
fn lists_lines(rt: HostRuntime) -> Result<(), Fail> {
    compare(&rt, Variant::Base, LOOP, &LOOP_LINES)?;
    compare(&rt, Variant::Base, CALL, &CALL_LINES)?;
    compare(&rt, Variant::Base, DATA, &DATA_LINES)?;
    compare(&rt, Variant::Base, b"", &[])?;
    compare(&rt, Variant::Full, FULL, &FULL_LINES)
}
