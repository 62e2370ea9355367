//! Spans of numbers: the numbers that most fields of a valuation may have are consecutive.
ghost use Rattle.std.specs.Prelude.{◌≡◌, ◌<◌, ◌≤◌, ◌^◌, ◌&&◌, ◌||◌, ◌==◌, not, nat_le, nat_lt, if◌then◌else◌, ℕ, Bool, true, false};
ghost use Rattle.std.specs.List.{filter, range_with_len};
ghost use Rattle.net_fields.specs.AllowedNumbers as fit;
ghost use Rattle.y86_base.specs.Words as words;
ghost use Rattle.pipe_fields.specs.Layout.{bubble};
ghost use Rattle.prog_gen.specs.Choices as spec;
ghost use Rattle.prog_gen.specs.Spans.{IsSpanOf, is_in};

use y86_isa::{RegisterColumn, Row, is_field_b};

/// The numbers from `first` on, below `end`.
#[derive(Clone, Copy, Debug)]
pub(crate) struct Span {
    first: u64,
    end: u64,
}

impl Span {
    /// The number at a position among the span's numbers of `bits` bits, modulo how many there are; 0 if there is none.
    pub(crate) fn chosen(self, bits: u32, position: u64) -> u64
        requires { bits ≤ 4 }
        ensures { (may : ℕ → Bool) → IsSpanOf self may → result ≡ spec.chosen (filter may (range_with_len 0 (2 ^ bits))) position }
    {
        let end = self.end.min(1 << bits);
        if self.first < end {
            self.first + position % (end - self.first)
        } else {
            0
        }
    }

    /// Whether a number is one of the span's.
    pub(crate) fn contains(self, n: u64) -> bool
        ensures { result ≡ is_in self n }
    {
        self.first <= n && n < self.end
    }
}

/// All numbers of a field.
pub(crate) fn any() -> Span
    ensures { IsSpanOf result (λ n. true) }
{
    Span { first: 0, end: 16 }
}

/// One number.
pub(crate) fn just(x: u64) -> Span
    requires { x < 16 }
    ensures { IsSpanOf result (λ n. n == x) }
{
    Span {
        first: x,
        end: x + 1,
    }
}

/// The numbers below an end.
pub(crate) fn below(end: u64) -> Span
    ensures { IsSpanOf result (λ n. nat_lt n end) }
{
    Span { first: 0, end }
}

/// The numbers up to `last`.
fn upto(last: u64) -> Span
    ensures { IsSpanOf result (λ n. nat_le n last) }
{
    if last < 15 { below(last + 1) } else { any() }
}

/// Numbers other than 0.
fn set() -> Span
    ensures { IsSpanOf result words.set }
{
    Span { first: 1, end: 16 }
}

pub(crate) fn register(field: RegisterColumn) -> Span
    ensures { IsSpanOf result (fit.register_allowed field) }
{
    match field {
        RegisterColumn::Dash => just(15),
        RegisterColumn::FieldA => below(15),
        RegisterColumn::FieldB => below(15),
        RegisterColumn::Stack => just(4),
    }
}

pub(crate) fn half(has_byte: bool, used: bool) -> Span
    ensures { IsSpanOf result (fit.register_field_allowed has_byte used) }
{
    if !has_byte {
        just(15)
    } else if used {
        below(15)
    } else {
        any()
    }
}

pub(crate) fn zero_unless(may: bool) -> Span
    ensures { IsSpanOf result (fit.zero_unless may) }
{
    if may { any() } else { just(0) }
}

pub(crate) fn cnd(ifun: u64) -> Span
    ensures { IsSpanOf result (fit.cnd_allowed ifun) }
{
    if ifun == 0 {
        set()
    } else if ifun < 7 {
        any()
    } else {
        just(0)
    }
}

pub(crate) fn cnd_allowed_where(may: bool, ifun: u64) -> Span
    ensures { IsSpanOf result (fit.cnd_allowed_where may ifun) }
{
    if may { cnd(ifun) } else { just(0) }
}

pub(crate) fn stat(kind: u64) -> Span
    ensures { IsSpanOf result (spec.stat_choice_allowed kind) }
{
    if kind == 0 {
        just(0)
    } else {
        Span { first: 1, end: 5 }
    }
}

/// The icodes that go with a status, if there was no error at memory.
fn icode_of(count: u64, stat: u64) -> Span
    ensures { IsSpanOf result (fit.stat_allowed count false stat) }
{
    if stat == 1 {
        Span {
            first: 1,
            end: count,
        }
    } else if stat == 2 {
        just(0)
    } else if stat == 3 {
        just(1)
    } else if stat == 4 {
        just(15)
    } else {
        Span { first: 0, end: 0 }
    }
}

pub(crate) fn icode(count: u64, kind: u64, stat: u64) -> Span
    ensures { IsSpanOf result (spec.icode_choice_allowed count kind false stat) }
{
    if kind == 0 {
        just(1)
    } else {
        icode_of(count, stat)
    }
}

pub(crate) fn ifun(r: &Row, kind: u64, stat: u64) -> Span
    ensures { IsSpanOf result (spec.ifun_choice_allowed r.now kind stat) }
{
    if kind == 0 || stat == 3 {
        just(0)
    } else {
        upto(r.ifun_top)
    }
}

/// The ifuns of what is fetched.
pub(crate) fn fetched_ifun(r: &Row, error: u64) -> Span
    ensures { IsSpanOf result (λ n. nat_le n r.now.ifun_top && (not (words.set error) || n == 0)) }
{
    if error == 0 {
        upto(r.ifun_top)
    } else {
        just(0)
    }
}

/// The numbers of srcB after a destination.
pub(crate) fn second_source(r: &Row, dst_e: u64) -> Span
    ensures { IsSpanOf result (λ n. fit.register_allowed r.now.src_b n && fit.shares_register r.now n dst_e) }
{
    if !(is_field_b(r.src_b) && is_field_b(r.dst_e)) {
        register(r.src_b)
    } else if dst_e < 15 {
        just(dst_e)
    } else {
        Span { first: 0, end: 0 }
    }
}

/// 0 if it may be, and the other numbers if they may be.
fn parts(zero: bool, others: bool) -> Span
    ensures { IsSpanOf result (λ n. if n == 0 then zero else others) }
{
    Span {
        first: if zero { 0 } else { 1 },
        end: if others { 16 } else { 1 },
    }
}

fn register_allowed(field: RegisterColumn, n: u64) -> bool
    ensures { result ≡ fit.register_allowed field n }
{
    match field {
        RegisterColumn::Dash => n == 15,
        RegisterColumn::FieldA => n < 15,
        RegisterColumn::FieldB => n < 15,
        RegisterColumn::Stack => n == 4,
    }
}

/// What M_Cnd may be after a destination, which a conditional move has lost if its condition failed.
pub(crate) fn held_cnd(r: &Row, kind: u64, ifun: u64, dst_e: u64) -> Span
    ensures { IsSpanOf result (λ n. if kind == bubble then true else fit.cnd_allowed ifun n && fit.destination_allowed r.now n dst_e) }
{
    let kept = register_allowed(r.dst_e, dst_e);
    let lost = if r.conditional { dst_e == 15 } else { kept };
    if kind == 0 {
        any()
    } else {
        parts(ifun != 0 && lost, ifun < 7 && kept)
    }
}
