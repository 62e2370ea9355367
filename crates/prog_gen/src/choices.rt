//! Which numbers a field of a control valuation of PIPE may have, given the numbers of the fields before it.
ghost use Rattle.std.specs.Prelude.{◌≡◌, ◌<◌, ◌≤◌, ◌^◌, ◌+◌, ◌&&◌, ◌||◌, ◌==◌, not, if◌then◌else◌, ℕ, Bool, length, get_or};
ghost use Rattle.std.specs.List.{filter, range_with_len};
ghost use Rattle.prog_gen.specs.Choices as spec;
ghost use Rattle.prog_gen.specs.Choices.{test_at};
ghost use Rattle.prog_gen.specs.Spans.{IsSelectionOf, is_selected};
ghost use Rattle.net_fields.specs.AllowedNumbers as fit;
ghost use Rattle.y86_base.specs.Words as words;
ghost use Rattle.pipe_fields.specs.Allowed.{is_good_aok as live};
ghost use Rattle.pipe_fields.specs.Layout.{fields_by, field_count, kind_fields, fetch_fields, decode_fields, execute_fields, memory_fields, write_fields};
ghost use Rattle.y86_isa.specs.RowTests as tests;
ghost use Rattle.y86_isa.specs.Table.{rows, inop, no_register};
ghost use Rattle.y86_isa.specs.Table as table;

use crate::spans::{
    Span, any, below, cnd, cnd_allowed_where, fetched_ifun, half, held_cnd, icode, ifun, just,
    register, second_source, stat, zero_unless,
};
use arrayvec::ArrayVec;
use pipe_fields::{D_FIRST, E_FIRST, F_FIRST, M_FIRST, W_FIRST};
use y86_base::Variant;
use y86_isa::{Row, accesses, icode_count, next_is_branch, row};

const NO_REGISTER: u64 = 15;

const NOP: u64 = 1;

/// The numbers that a field may have.
#[derive(Clone, Copy, Debug)]
pub(crate) enum Selection {
    /// Those of a span, as for most fields.
    Among(Span),
    /// Those of a span, and 15.
    OrNone(Span),
    /// The icode of a nop, and those of instructions that access memory.
    Faulted(Variant),
}

impl Selection {
    fn allows(self, n: u64) -> bool
        ensures { result ≡ is_selected self n }
    {
        match self {
            Selection::Among(span) => span.contains(n),
            Selection::OrNone(span) => span.contains(n) || n == NO_REGISTER,
            Selection::Faulted(v) => n == NOP || accesses(row(v, n).memory),
        }
    }

    /// The numbers of `bits` bits that it allows, in rising order.
    fn numbers(self, bits: u32) -> ArrayVec<u64, 16>
        requires { bits ≤ 4 }
        ensures { result.items ≡ filter (is_selected self) (range_with_len 0 (2 ^ bits)) }
    {
        let mut some = ArrayVec::new();
        let end = 1u64 << bits;
        for n in 0..end {
            if self.allows(n) {
                some.push(n);
            }
        }
        some
    }

    /// The number at a position among those of `bits` bits that it allows, modulo how many there are; 0 if there is
    /// none.
    fn chosen(self, bits: u32, position: u64) -> u64
        requires { bits ≤ 4 }
        ensures { (may : ℕ → Bool) → IsSelectionOf self may → result ≡ spec.chosen (filter may (range_with_len 0 (2 ^ bits))) position }
    {
        match self {
            Selection::Among(span) => span.chosen(bits, position),
            other => {
                let some = other.numbers(bits);
                at_position(some.as_slice(), position)
            }
        }
    }
}

/// The number at a position, modulo the length of the list; 0 if the list is empty.
fn at_position(some: &[u64], position: u64) -> u64
    ensures { result ≡ spec.chosen some.now position }
{
    let count = some.len() as u64;
    if count == 0 {
        return 0;
    }
    some[(position % count) as usize]
}

fn is_good_aok(kind: u64, stat: u64) -> bool
    ensures { result ≡ live kind stat }
{
    kind == 1 && stat == 1
}

/// An earlier number.
fn at(before: &[u64], k: usize) -> u64
    ensures { result ≡ get_or before.now k 0 }
{
    before.get(k).copied().unwrap_or(0)
}

/// The icodes of what is fetched.
fn fetched_icode(v: Variant, error: u64) -> Selection
    ensures { IsSelectionOf result (λ n. if words.set error then n == inop else fit.icode_allowed (length (rows v)) n) }
{
    if error == 0 {
        Selection::OrNone(below(icode_count(v)))
    } else {
        Selection::Among(just(NOP))
    }
}

/// The destination in M, which a conditional move may have lost.
fn memory_destination(r: &Row, ifun: u64) -> Selection
    ensures { IsSelectionOf result (λ n. fit.register_allowed r.now.dst_e n || (r.now.conditional && (n == no_register && not (ifun == 0)))) }
{
    let span = register(r.dst_e);
    if r.conditional && ifun != 0 {
        Selection::OrNone(span)
    } else {
        Selection::Among(span)
    }
}

/// The destination in W, which a conditional move may have lost.
fn write_destination(r: &Row) -> Selection
    ensures { IsSelectionOf result (λ n. (r.now.conditional && n == no_register) || fit.register_allowed r.now.dst_e n) }
{
    let span = register(r.dst_e);
    if r.conditional {
        Selection::OrNone(span)
    } else {
        Selection::Among(span)
    }
}

/// The icodes in W, where an instruction may have had an error at memory.
fn write_icode(v: Variant, kind: u64, status: u64) -> Selection
    ensures { IsSelectionOf result (λ n. spec.icode_choice_allowed (length (rows v)) kind (tests.accesses (table.row v n).memory) status n) }
{
    if kind != 0 && status == 3 {
        Selection::Faulted(v)
    } else {
        Selection::Among(icode(icode_count(v), kind, status))
    }
}

/// What field `i` of line F may be.
fn fetch(v: Variant, before: &[u64], i: usize) -> Selection
    requires { i < length fetch_fields }
    ensures { IsSelectionOf result (test_at (spec.fetch_tests (length (rows v)) (table.row v (fields_by before.now).f.icode) (fields_by before.now).f) i) }
{
    let error = at(before, F_FIRST);
    let ifun = at(before, F_FIRST + 2);
    let r = row(v, at(before, F_FIRST + 1));
    match i {
        0 => Selection::Among(any()),
        1 => fetched_icode(v, error),
        2 => Selection::Among(fetched_ifun(&r, error)),
        3 => Selection::Among(cnd_allowed_where(next_is_branch(r.next), ifun)),
        4 => Selection::Among(zero_unless(accesses(r.memory))),
        5 => Selection::Among(zero_unless(next_is_branch(r.next))),
        _ => unreachable!(),
    }
}

/// What field `i` of line D may be.
fn decode(v: Variant, before: &[u64], i: usize) -> Selection
    requires { i < length decode_fields }
    ensures { IsSelectionOf result (test_at (spec.decode_tests (length (rows v)) (table.row v (fields_by before.now).d.icode) (fields_by before.now).d) i) }
{
    let kind = at(before, 0);
    let status = at(before, D_FIRST);
    let function = at(before, D_FIRST + 2);
    let r = row(v, at(before, D_FIRST + 1));
    let live = is_good_aok(kind, status);
    Selection::Among(match i {
        0 => stat(kind),
        1 => icode(icode_count(v), kind, status),
        2 => ifun(&r, kind, status),
        3 => half(r.has_byte, r.uses_a),
        4 => half(r.has_byte, r.uses_b),
        5 => cnd_allowed_where(live && next_is_branch(r.next), function),
        6 => zero_unless(live && accesses(r.memory)),
        7 => zero_unless(live && next_is_branch(r.next)),
        _ => unreachable!(),
    })
}

/// What field `i` of line E may be.
fn execute(v: Variant, before: &[u64], i: usize) -> Selection
    requires { i < length execute_fields }
    ensures { IsSelectionOf result (test_at (spec.execute_tests (length (rows v)) (table.row v (fields_by before.now).e.icode) (fields_by before.now).e) i) }
{
    let kind = at(before, 1);
    let status = at(before, E_FIRST);
    let function = at(before, E_FIRST + 2);
    let dst_e = at(before, E_FIRST + 3);
    let r = row(v, at(before, E_FIRST + 1));
    let live = is_good_aok(kind, status);
    Selection::Among(match i {
        0 => stat(kind),
        1 => icode(icode_count(v), kind, status),
        2 => ifun(&r, kind, status),
        3 => register(r.dst_e),
        4 => register(r.dst_m),
        5 => register(r.src_a),
        6 => second_source(&r, dst_e),
        7 => cnd(function),
        8 => zero_unless(live && accesses(r.memory)),
        9 => zero_unless(live && next_is_branch(r.next)),
        _ => unreachable!(),
    })
}

/// What field `i` of line M may be.
fn memory(v: Variant, before: &[u64], i: usize) -> Selection
    requires { i < length memory_fields }
    ensures { IsSelectionOf result (test_at (spec.memory_tests (length (rows v)) (table.row v (fields_by before.now).m.icode) (fields_by before.now).m) i) }
{
    let kind = at(before, 2);
    let status = at(before, M_FIRST);
    let function = at(before, M_FIRST + 2);
    let dst_e = at(before, M_FIRST + 3);
    let r = row(v, at(before, M_FIRST + 1));
    let live = is_good_aok(kind, status);
    match i {
        0 => Selection::Among(stat(kind)),
        1 => Selection::Among(icode(icode_count(v), kind, status)),
        2 => Selection::Among(ifun(&r, kind, status)),
        3 => memory_destination(&r, function),
        4 => Selection::Among(register(r.dst_m)),
        5 => Selection::Among(held_cnd(&r, kind, function, dst_e)),
        6 => Selection::Among(zero_unless(live && accesses(r.memory))),
        7 => Selection::Among(zero_unless(live && next_is_branch(r.next))),
        _ => unreachable!(),
    }
}

/// What field `i` of line W may be.
fn write(v: Variant, before: &[u64], i: usize) -> Selection
    requires { i < length write_fields }
    ensures { IsSelectionOf result (test_at (spec.write_tests v (table.row v (fields_by before.now).w.icode) (fields_by before.now).w) i) }
{
    let kind = at(before, 3);
    let r = row(v, at(before, W_FIRST + 1));
    match i {
        0 => Selection::Among(stat(kind)),
        1 => write_icode(v, kind, at(before, W_FIRST)),
        2 => write_destination(&r),
        3 => Selection::Among(register(r.dst_m)),
        _ => unreachable!(),
    }
}

/// What the kind of stage `i` may be, from D on.
fn kind(i: usize) -> Selection
    requires { i < length kind_fields }
    ensures { IsSelectionOf result (test_at spec.kind_tests i) }
{
    match i {
        0 => Selection::Among(below(3)),
        1 => Selection::Among(below(3)),
        2 => Selection::Among(below(2)),
        3 => Selection::Among(below(2)),
        _ => unreachable!(),
    }
}

/// What the field after those of `before` may be, in the order of the variables.
#[tactic(auto, unfolding(crate::specs::Choices::choice_allowed))]
fn choice_behind(v: Variant, before: &[u64]) -> Selection
    requires { length before.now < field_count }
    ensures { IsSelectionOf result (spec.choice_allowed v (length before.now) (fields_by before.now)) }
{
    let j = before.len();
    if j < F_FIRST {
        kind(j)
    } else if j < D_FIRST {
        fetch(v, before, j - F_FIRST)
    } else if j < E_FIRST {
        decode(v, before, j - D_FIRST)
    } else if j < M_FIRST {
        execute(v, before, j - E_FIRST)
    } else if j < W_FIRST {
        memory(v, before, j - M_FIRST)
    } else {
        write(v, before, j - W_FIRST)
    }
}

/// The number at a position among those that may follow `before`, modulo how many there are.
pub fn choice(v: Variant, before: &[u64], bits: u32, position: u64) -> u64
    requires place { length before.now < field_count }
    requires bits { bits ≡ spec.width (length before.now) }
    requires few { bits ≤ 4 }
    ensures { result ≡ spec.chosen (spec.choices v before.now) position }
{
    choice_behind(v, before).chosen(bits, position)
}
