//! Whether the fetch is that of the next instruction, and what D loads from it.
ghost use Rattle.std.specs.Prelude.{◌≡◌, ◌≤◌};
ghost use Rattle.control_values.specs.Given.{at};
ghost use Rattle.ctl_atoms.specs.declared.leaf.Leaf.TheVariants as leaf;
ghost use Rattle.ctl_rules.specs.ColumnDemands as words;
ghost use Rattle.pipe_requirements.specs.Requirements.{unread};
ghost use Rattle.pipe_requirements.specs.Flows.{as_stage_flow, at_now};
ghost use Rattle.pipe_obligations.specs.Obligations as rule;

use crate::moves::{of_youngest, path, youngest_stops};
use ctl_atoms::{Leaf, same_leaf};
use dp_signals::pipe_row as name;
use hcl_types::NameId;
use pipe_requirements::{Now, StageFlowNow, is_jump, leaf_at, other_way, set, stops_by};
use y86_isa::{next_is_val_m, row};

/// The signal picks a name.
pub(crate) fn picks_leaf(leaves: &[Leaf], n: NameId, other: NameId) -> bool
    ensures { result ≡ words.picks_leaf (at leaves.now) n (leaf.Name other) }
{
    same_leaf(leaf_at(leaves, n), Leaf::Name(other))
}

/// The number of a code; a name counts as 15.
fn code_of(leaf: Leaf) -> u64
    ensures { result ≡ rule.code_of leaf }
{
    match leaf {
        Leaf::Number(n) => n,
        Leaf::Name(_) => 15,
    }
}

fn right_after_e(n: &Now<'_>) -> bool
    ensures { result ≡ at_now rule.right_after_e n.now unread (at n.now.leaves.now) }
{
    is_jump(n.v, n.l.e.stat, n.l.e.icode)
        && picks_leaf(
            n.leaves,
            name::F_PC,
            if set(n.l.e.cnd) {
                name::HELD_E_VAL_C
            } else {
                name::HELD_E_VAL_A
            },
        )
}

fn right_after_m(n: &Now<'_>) -> bool
    ensures { result ≡ at_now rule.right_after_m n.now unread (at n.now.leaves.now) }
{
    (is_jump(n.v, n.l.m.stat, n.l.m.icode)
        && (if set(n.l.m.cnd) {
            n.s.tv && picks_leaf(n.leaves, name::F_PC, name::HELD_M_VAL_E)
        } else {
            picks_leaf(n.leaves, name::F_PC, name::HELD_M_VAL_A)
        }))
        || (n.y.m.ret && picks_leaf(n.leaves, name::F_PC, name::M_VAL_M))
}

fn right_after_w(n: &Now<'_>) -> bool
    ensures { result ≡ at_now rule.right_after_w n.now unread (at n.now.leaves.now) }
{
    n.y.w.ret && picks_leaf(n.leaves, name::F_PC, name::HELD_W_VAL_M)
}

/// The fetch is that of the next instruction.
pub fn is_fetch_good(n: &Now<'_>) -> bool
    ensures { result ≡ at_now rule.fetch_good n.now unread (at n.now.leaves.now) }
{
    let right = of_youngest(
        n.y,
        false,
        right_after_e(n),
        right_after_m(n),
        right_after_w(n),
    );
    !youngest_stops(n.y)
        && ((picks_leaf(n.leaves, name::F_PC, name::HELD_F_PRED_PC) && path(n.y)) || right)
}

/// What D loads from a good fetch.
pub fn fetched(n: &Now<'_>) -> StageFlowNow
    ensures { as_stage_flow result ≡ at_now rule.fetched n.now unread (at n.now.leaves.now) }
{
    let stat = code_of(leaf_at(n.leaves, name::F_STAT));
    let icode = code_of(leaf_at(n.leaves, name::F_ICODE));
    let ifun = code_of(leaf_at(n.leaves, name::F_IFUN));
    StageFlowNow {
        good: true,
        wrong: false,
        stops: stops_by(stat, n.l.f.stops),
        ret: next_is_val_m(row(n.v, icode).next),
        missed: is_jump(n.v, stat, icode) && other_way(n.s, ifun, n.l.f.taken, n.l.f.back),
    }
}
