//! The small types of all crates: out of memory, the instruction set, flags and statuses.
ghost use Rattle.std.specs.Prelude.{◌≡◌};
ghost use Rattle.y86_base.specs.Stat.{stat_name, stat_number, stat_of};

/// Out of memory: an allocation was refused.
#[derive(Clone, Copy, Debug, PartialEq, Eq)]
pub struct Memory;

/// Which instruction set is meant. `Base` is the Y86-64 of CS:APP 3e, section 4.1, and `Full` is `Base` with
/// `iaddq` (exercises 4.51 and 4.52) as icode 12.
#[derive(Clone, Copy, Debug, PartialEq, Eq)]
pub enum Variant {
    Base,
    Full,
}

/// The condition codes of CS:APP 3e, section 4.1.1: zero, sign and signed overflow.
#[derive(Clone, Copy, Debug, PartialEq, Eq)]
pub struct Flags {
    pub zf: bool,
    pub sf: bool,
    pub of: bool,
}

/// The status of a machine, of an instruction or of a pipeline stage (CS:APP 3e, figure 4.5).
///
/// `Bub` is the status of a bubble, `Pip` that of a pipeline register that is stalled and bubbled at once, and
/// `Bad` means a number that is no status.
#[derive(Clone, Copy, Debug, PartialEq, Eq)]
pub enum Stat {
    Bub,
    Aok,
    Hlt,
    Adr,
    Ins,
    Pip,
    Bad,
}

impl Stat {
    /// The status with a number: bubble 0, AOK 1, HLT 2, ADR 3, INS 4, and `Bad` for any other.
    pub fn of(n: u64) -> Stat
        ensures { result ≡ stat_of n }
    {
        match n {
            0 => Stat::Bub,
            1 => Stat::Aok,
            2 => Stat::Hlt,
            3 => Stat::Adr,
            4 => Stat::Ins,
            _ => Stat::Bad,
        }
    }

    /// The number of a status: 0 to 4, which `of` reads back; 5 for `Pip` and 6 for `Bad`, which have no number in HCL.
    pub fn number(self) -> u64
        ensures { result ≡ stat_number self }
    {
        match self {
            Stat::Bub => 0,
            Stat::Aok => 1,
            Stat::Hlt => 2,
            Stat::Adr => 3,
            Stat::Ins => 4,
            Stat::Pip => 5,
            Stat::Bad => 6,
        }
    }

    /// The name of a status in output.
    pub fn name(self) -> &'static [u8]
        ensures { result.now ≡ stat_name self }
    {
        match self {
            Stat::Bub => b"BUB",
            Stat::Aok => b"AOK",
            Stat::Hlt => b"HLT",
            Stat::Adr => b"ADR",
            Stat::Ins => b"INS",
            Stat::Pip => b"PIP",
            Stat::Bad => b"BAD",
        }
    }
}
