//! Tests of runs at the level of instructions, and of their reports.
use std::test::Fail;
use wb_io::{Failed, MemSink};
use y86_base::{Image, Variant};
use y86_isa::Machine;
use yis_run::{End, report, run};

/// A program from address 0, the limit of its run, and the report.
struct Case {
    program: &'static [u8],
    limit: u64,
    report: &'static str,
}

static CASES: [Case; 6] = [
    // halt
    Case {
        program: &[0x00],
        limit: 10000,
        report: "Stopped in 1 steps at PC = 0x0.  Status 'HLT', CC Z=1 S=0 O=0\nChanges to registers:\n\nChanges to memory:\n",
    },
    // irmovq $10,%rdx; irmovq $3,%rax; addq %rdx,%rax; halt
    Case {
        program: &[
            0x30, 0xf2, 10, 0, 0, 0, 0, 0, 0, 0, 0x30, 0xf0, 3, 0, 0, 0, 0, 0, 0, 0, 0x60, 0x20,
            0x00,
        ],
        limit: 10000,
        report: "Stopped in 4 steps at PC = 0x16.  Status 'HLT', CC Z=0 S=0 O=0\nChanges to registers:\n%rax:\t0x0000000000000000\t0x000000000000000d\n%rdx:\t0x0000000000000000\t0x000000000000000a\n\nChanges to memory:\n",
    },
    // irmovq $0x100,%rsp; call 0x14; halt; ret
    Case {
        program: &[
            0x30, 0xf4, 0, 1, 0, 0, 0, 0, 0, 0, 0x80, 0x14, 0, 0, 0, 0, 0, 0, 0, 0x00, 0x90,
        ],
        limit: 10000,
        report: "Stopped in 4 steps at PC = 0x13.  Status 'HLT', CC Z=1 S=0 O=0\nChanges to registers:\n%rsp:\t0x0000000000000000\t0x0000000000000100\n\nChanges to memory:\n0x00f8:\t0x0000000000000000\t0x0000000000000013\n",
    },
    // irmovq $1,%rcx; mrmovq 0x1ff8(%rcx),%rax: its last byte is outside
    Case {
        program: &[
            0x30, 0xf1, 1, 0, 0, 0, 0, 0, 0, 0, 0x50, 0x01, 0xf8, 0x1f, 0, 0, 0, 0, 0, 0, 0x60,
            0x11, 0x00,
        ],
        limit: 10000,
        report: "Stopped in 2 steps at PC = 0xa.  Status 'ADR', CC Z=1 S=0 O=0\nChanges to registers:\n%rcx:\t0x0000000000000000\t0x0000000000000001\n\nChanges to memory:\n",
    },
    // an icode that has no instruction
    Case {
        program: &[0xc0, 0xf0, 5, 0, 0, 0, 0, 0, 0, 0],
        limit: 10000,
        report: "Stopped in 1 steps at PC = 0x0.  Status 'INS', CC Z=1 S=0 O=0\nChanges to registers:\n\nChanges to memory:\n",
    },
    // jmp 0, five times
    Case {
        program: &[0x70, 0, 0, 0, 0, 0, 0, 0, 0],
        limit: 5,
        report: "Stopped in 5 steps at PC = 0x0.  Status 'AOK', CC Z=1 S=0 O=0\nChanges to registers:\n\nChanges to memory:\n",
    },
];

#[test]
fn reports_of_runs(rt: HostRuntime) -> Result<(), Fail> {
    for case in &CASES {
        let mut first = Image::new(rt.alloc(), 8192)?;
        for (at, byte) in case.program.iter().enumerate() {
            first.put_byte(at as u64, *byte);
        }
        let mut machine = Machine::start(first.copy(rt.alloc())?);
        let ran = run(Variant::Base, &mut machine, case.limit);
        assert_eq!(rt; machine.mem.size(), first.size());
        let end = End::of(&machine);

        let mut out = MemSink::new(rt.alloc(), Vec::new(rt.alloc()));
        out.reserve(1000)?;
        assert_eq!(rt; report(&first, &end, ran.steps, &mut out), Ok(()));
        assert_eq!(rt; out.bytes(), case.report.as_bytes(), "{}", case.report);

        // A sink that fills up, and one whose third write fails.
        let mut small = MemSink::new(rt.alloc(), Vec::new(rt.alloc()));
        small.reserve(10)?;
        assert_eq!(rt; report(&first, &end, ran.steps, &mut small), Err(Failed));
        assert_eq!(rt; small.bytes(), b"Stopped in".as_slice());
        let mut failing = MemSink::new(rt.alloc(), [2].to_vec(rt.alloc())?);
        failing.reserve(1000)?;
        assert_eq!(rt; report(&first, &end, 12, &mut failing), Err(Failed));
        assert_eq!(rt; failing.bytes(), b"Stopped in 12".as_slice());
    }
    Ok(())
}
