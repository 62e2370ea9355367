//! Tests of the values of terms: by the evaluator that walks them, and by compiled signals.
ghost use Rattle.std.specs.Prelude.{◌≡◌};
ghost use Rattle.dp_signals.specs.PipeTable.{pipe_rows};

use dp_signals::{PipeState, constant_words, law_of_tables, pipe_table, solve_pipe};
use hcl_binding::bind;
use hcl_compile::compile;
use hcl_order::order;
use hcl_read::read;
use hcl_types::{OrderedDesign, Plain, Table};
use std::process::Abort;
use std::test::Fail;
use test_designs::Example;
use y86_base::{Image, Variant};

/// The least and the greatest number of a word in two's complement, and -1 and -8.
const LOW: u64 = 0x8000_0000_0000_0000;

const HIGH: u64 = 0x7fff_ffff_ffff_ffff;

const MINUS_1: u64 = 0xffff_ffff_ffff_ffff;

const MINUS_8: u64 = 0xffff_ffff_ffff_fff8;

/// A body for W_bubble, values for W_valE, W_valM and M_Cnd, and its value.
static COMPARED: [(&[u8], u64, u64, u64, u64); 8] = [
    (b"W_valE < W_valM", LOW, HIGH, 0, 1),
    (b"W_valE < W_valM", MINUS_1, MINUS_1, 0, 0),
    (b"W_valE <= W_valM", 0, MINUS_1, 0, 0),
    (b"W_valE <= W_valM", LOW, LOW, 0, 1),
    (b"W_valE > W_valM", HIGH, LOW, 0, 1),
    (b"W_valE >= W_valM", LOW, HIGH, 0, 0),
    (b"W_valE == W_valM", LOW, HIGH, 0, 0),
    (b"W_valE != W_valM", LOW, HIGH, 0, 1),
];

static JOINED: [(&[u8], u64, u64, u64, u64); 9] = [
    (b"M_Cnd", 0, 0, 2, 2),
    (b"M_Cnd", 0, 0, LOW, LOW),
    (b"!M_Cnd", 0, 0, LOW, 0),
    (b"!M_Cnd", 0, 0, 0, 1),
    (b"M_Cnd && 1", 0, 0, LOW, 1),
    (b"M_Cnd && W_valE < 0", HIGH, 0, MINUS_1, 0),
    (b"0 || M_Cnd || 0", 0, 0, 0, 0),
    (b"0 || M_Cnd || 0", 0, 0, LOW, 1),
    (b"1", 0, 0, 0, 1),
];

static CHOSEN: [(&[u8], u64, u64, u64, u64); 8] = [
    (b"W_valE == -9223372036854775808", LOW, 0, 0, 1),
    (b"W_valE in { 1, W_valM, -8 }", MINUS_8, 0, 0, 1),
    (b"W_valE in { 1, W_valM, -8 }", 8, 0, 0, 0),
    (
        b"W_valE in { -9223372036854775808, 9223372036854775807 }",
        HIGH,
        0,
        0,
        1,
    ),
    (
        b"[ W_valE < 0 : 3; 1 : 4; W_valE == 0 : 5; ] == W_valM",
        0,
        4,
        0,
        1,
    ),
    (b"[ W_valE < 0 : 3; M_Cnd : 4; ] == W_valM", 0, 0, 0, 1),
    (
        b"[ W_valE < W_valM : -9223372036854775808; 1 : 9223372036854775807; ] == W_valE",
        LOW,
        HIGH,
        0,
        1,
    ),
    (
        b"[ W_valE < W_valM : -9223372036854775808; 1 : 9223372036854775807; ] == W_valE",
        HIGH,
        LOW,
        0,
        1,
    ),
];

/// The values of W_bubble, the last row, in a cycle that begins with these values of W_valE, W_valM and M_Cnd: by the
/// evaluator that walks the terms, and by compiled signals.
fn values(
    rt: &(impl Abort + AllocGlobal),
    table: &Table,
    body: &[u8],
    x: u64,
    y: u64,
    cnd: u64,
) -> Result<(u64, u64), Fail>
    requires { table.now.rows ≡ pipe_rows }
{
    let mut added = Vec::from_slice(rt.alloc(), b"bool W_bubble = ")?;
    added.extend_from_slice(body)?;
    added.push(b';')?;
    law_of_tables();
    let text = Example::Std.with(rt.alloc(), added.as_slice())?;
    let file = read(rt.alloc(), text.as_slice())?;
    let design = bind(rt.alloc(), &file, table)?;
    let order = order(rt.alloc(), &design, table)?;
    let ordered = OrderedDesign { design, order };
    let mut state = PipeState::start(Image::new(rt.alloc(), 64)?);
    state.w.val_e = x;
    state.w.val_m = y;
    state.m.cnd = cnd;
    let mut plain = Plain::new(&ordered.design);
    let walked = solve_pipe(Variant::Base, &ordered, &state, &mut plain);
    let mut compiled = compile(rt.alloc(), &ordered, &constant_words())?;
    let run = solve_pipe(Variant::Base, &ordered, &state, &mut compiled);
    Ok((walked[114], run[114]))
}

/// Each of these bodies has its value on both evaluators.
fn have_values(
    rt: &(impl Abort + AllocGlobal),
    cases: &[(&'static [u8], u64, u64, u64, u64)],
) -> Result<(), Fail> {
    let table = pipe_table(rt.alloc())?;
    for (body, x, y, cnd, wanted) in cases {
        assert_eq!(rt;
            values(rt, &table, body, *x, *y, *cnd)?,
            (*wanted, *wanted),
            "{body:?}"
        );
    }
    Ok(())
}

#[test]
fn terms_have_their_values(rt: HostRuntime) -> Result<(), Fail> {
    have_values(&rt, &COMPARED)?;
    have_values(&rt, &JOINED)?;
    have_values(&rt, &CHOSEN)
}
