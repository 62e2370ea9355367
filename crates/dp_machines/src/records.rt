//! What the calls of every machine share: whether it goes on, and how many records a cycle leaves.
ghost use Rattle.std.specs.Prelude.{◌≡◌, ◌≤◌, length};
ghost use Rattle.std.specs.Option.{option_to_list};
ghost use Rattle.y86_isa.specs.Machine.{is_aok};

use y86_base::Stat;
use y86_isa::Rec;

/// Whether a machine of this status goes on.
pub fn is_aok_stat(stat: Stat) -> bool
    ensures { result ≡ is_aok stat }
{
    matches!(stat, Stat::Aok)
}

/// The number of records of a cycle that retires this: 1 or 0.
pub fn record_count(retired: Option<Rec>) -> u64
    ensures count { result ≡ length (option_to_list retired) }
    ensures few { result ≤ 1 }
{
    match retired {
        Some(_) => 1,
        None => 0,
    }
}
