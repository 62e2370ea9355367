//! Where the values of f_pc, d_valA and d_valB come from in a cycle, as far as a definition picks them by name.
ghost use Rattle.std.specs.Prelude.{◌≡◌, ◌≤◌};
ghost use Rattle.hcl_types.specs.Terms.{at};
ghost use Rattle.hcl_types.specs.declared.term.Term.TheVariants.{Case};
ghost use Rattle.pipe_stage_text.specs.Sources as spec;

use dp_signals::pipe_row as row;
use hcl_types::{Design, NameId, Row, Term, TermBranch, value_of};

/// The names that the definitions of f_pc, d_valA and d_valB pick in a cycle, as they are printed.
#[derive(Clone, Copy)]
pub struct SourceNames<'a> {
    pub pc: &'a [u8],
    pub val_a: &'a [u8],
    pub val_b: &'a [u8],
}

/// The name that a term picks: the term itself, or what the first branch whose guard holds picks.
#[cycle(picking)]
fn picked_name(t: &Term, values: &[u64]) -> Option<NameId>
    ensures { result ≡ spec.picked_name (at values.now) t.now }
{
    match t {
        Term::Name(id) => Some(*id),
        Term::Case(all) => picked_branch(all.items(), values),
        Term::Num(_) => None,
        Term::Not(_) => None,
        Term::And(_) => None,
        Term::Or(_) => None,
        Term::Cmp(_, _, _) => None,
        Term::In(_, _) => None,
    }
}

/// The name that the first branch whose guard holds picks.
#[cycle(picking)]
fn picked_branch(all: &[TermBranch], values: &[u64]) -> Option<NameId>
    ensures { result ≡ spec.picked_name (at values.now) (Case all.now) }
{
    for branch in all {
        if value_of(&branch.guard, values) != 0 {
            return picked_name(&branch.value, values);
        }
    }
    None
}

/// The name that the definition of a row picks.
fn picked_of(design: &Design, values: &[u64], first: NameId, id: NameId) -> Option<NameId>
    requires { first ≤ id }
    ensures { result ≡ spec.name_picked first design.now.terms (at values.now) id }
{
    match design.terms.items().get((id - first) as usize) {
        Some(term) => picked_name(term, values),
        None => None,
    }
}

/// The name of a row, and `-` if there is none.
fn name_text(rows: &[Row], id: Option<NameId>) -> &[u8]
    ensures { result.now ≡ spec.name_text rows.now id }
{
    match id {
        None => b"-",
        Some(id) => match rows.get(id as usize) {
            Some(it) => it.name.bytes(),
            None => b"-",
        },
    }
}

/// The name that the definition of the row `id` picks in a cycle with these values, and `-` if it picks none. `first`
/// is the first row that a file defines.
pub fn source<'a>(
    rows: &'a [Row],
    design: &Design,
    values: &[u64],
    first: NameId,
    id: NameId,
) -> &'a [u8]
    requires { first ≤ id }
    ensures { result.now ≡ spec.source first rows.now design.now.terms (at values.now) id }
{
    name_text(rows, picked_of(design, values, first, id))
}

/// Where f_pc, d_valA and d_valB come from in a cycle with these values.
#[tactic(auto, unfolding(crate::specs::Sources::sources))]
pub(crate) fn sources_of<'a>(rows: &'a [Row], design: &Design, values: &[u64]) -> SourceNames<'a>
    ensures { spec.sources_in result ≡ spec.sources rows.now design.now.terms (at values.now) }
{
    SourceNames {
        pc: source(rows, design, values, row::F_PC, row::F_PC),
        val_a: source(rows, design, values, row::F_PC, row::D_VAL_A),
        val_b: source(rows, design, values, row::F_PC, row::D_VAL_B),
    }
}
