//! All that an instruction reads and computes, stage by stage.
ghost use Rattle.std.specs.Prelude.{◌≡◌};
ghost use Rattle.y86_isa.specs.Blocks as blocks;
ghost use Rattle.y86_isa.specs.Work as spec;

use crate::columns::{NextPcColumn, Row};
use crate::fetch::{Fetched, split};
use crate::machine::{Machine, Store};
use crate::stages::{access, decode, execute};
use crate::table::{IHALT, INVALID_ICODE, row};
use y86_base::{Flags, Stat, Variant};

/// What one instruction reads and computes, stage by stage, with the names of CS:APP 3e, section 4.3.1.
#[derive(Clone, Copy, Debug)]
pub struct Work {
    /// The status from what was fetched alone.
    pub fetch_stat: Stat,
    pub icode: u64,
    pub ifun: u64,
    pub r_a: u64,
    pub r_b: u64,
    pub val_c: u64,
    pub val_p: u64,

    pub src_a: u64,
    pub src_b: u64,
    /// The destination of valE, as if its condition held.
    pub raw_dst_e: u64,
    pub dst_m: u64,
    pub val_a: u64,
    pub val_b: u64,

    pub val_e: u64,
    /// The flags after the ALU.
    pub flags: Flags,
    pub cnd: bool,
    pub dst_e: u64,

    /// The address of the data, and whether a word is to be read or written there and isn't all inside.
    pub address: u64,
    pub fault: bool,
    pub val_m: u64,
    pub store: Option<Store>,

    /// The next PC, if the instruction ends with AOK.
    pub next_pc: u64,
    /// The status with which the instruction ends.
    pub stat: Stat,
}

fn fetch_status(fetched: &Fetched) -> Stat
    ensures { result ≡ blocks.fetch_status fetched.now.error fetched.now.icode }
{
    if fetched.error {
        return Stat::Adr;
    }
    match fetched.icode {
        INVALID_ICODE => Stat::Ins,
        IHALT => Stat::Hlt,
        _ => Stat::Aok,
    }
}

fn next_address(next: NextPcColumn, pc: u64, fetched: &Fetched, val_m: u64, cnd: bool) -> u64
    ensures { result ≡ blocks.next_address next pc fetched.now.val_p fetched.now.val_c val_m cnd }
{
    match next {
        NextPcColumn::Itself => pc,
        NextPcColumn::Fall => fetched.val_p,
        NextPcColumn::Branch => { if cnd { fetched.val_c } else { fetched.val_p } }
        NextPcColumn::Target => fetched.val_c,
        NextPcColumn::Loaded => val_m,
    }
}

impl Work {
    /// The work of an instruction that was fetched.
    #[inline(always)]
    pub fn after_fetch(m: &Machine, row: &Row, fetched: &Fetched) -> Work
        ensures { result ≡ spec.worked m.now row.now fetched.now }
    {
        let decoded = decode(&m.regs, row, fetched);
        let executed = execute(m.flags, row, fetched, &decoded);
        let data = access(&m.mem, row, fetched, decoded.val_a, executed.val_e);
        let fetch_stat = fetch_status(fetched);
        Work {
            fetch_stat,
            icode: fetched.icode,
            ifun: fetched.ifun,
            r_a: fetched.r_a,
            r_b: fetched.r_b,
            val_c: fetched.val_c,
            val_p: fetched.val_p,
            src_a: decoded.src_a,
            src_b: decoded.src_b,
            raw_dst_e: decoded.raw_dst_e,
            dst_m: decoded.dst_m,
            val_a: decoded.val_a,
            val_b: decoded.val_b,
            val_e: executed.val_e,
            flags: executed.flags,
            cnd: executed.cnd,
            dst_e: executed.dst_e,
            address: data.address,
            fault: data.fault,
            val_m: data.val_m,
            store: data.store,
            next_pc: next_address(row.next, m.pc, fetched, data.val_m, executed.cnd),
            stat: if data.fault { Stat::Adr } else { fetch_stat },
        }
    }

    /// The work of the instruction at the PC of a machine.
    #[tactic(auto, unfolding(crate::specs::Work::work))]
    pub fn of(v: Variant, m: &Machine) -> Work
        ensures { result ≡ spec.work v m.now }
    {
        let fetched = split(v, &m.mem, m.pc);
        let row = row(v, fetched.icode);
        Work::after_fetch(m, &row, &fetched)
    }
}
