//! Tests of the orders of signals, and of the nodes of definitions.
ghost use Rattle.std.specs.Prelude.{◌<◌};

use dp_signals::{constant_words, law_of_tables, pipe_table, seq_table};
use hcl_binding::bind;
use hcl_compile::{Ask, Node, ROWS, compile};
use hcl_order::order;
use hcl_read::read;
use hcl_types::{NameId, OrderedDesign, Term};
use std::test::Fail;
use test_designs::Example;

/// A definition of f_pc. Its names are the rows 46 (M_icode), 64 (M_Cnd), 61 (M_valA) and 54 (F_predPC).
const F_PC: &[u8] =
    b"word f_pc = [ M_icode == IJXX && !M_Cnd : M_valA; 0 : 3; M_icode in { IRET, 9 } || 0 : -8; 1 : F_predPC; 1 : 5; ];";

/// A node that asks for the code in a row: one code leads to one target, and all others to another.
fn code(row: NameId, code: usize, target: u32, other: u32) -> Node
    requires { code < 17 }
{
    let mut next = [other; 17];
    next[code] = target;
    Node {
        ask: Ask::Code(row),
        next,
    }
}

/// The standard files have an order of all defined and hardware names.
#[test]
fn the_standard_files_have_an_order(rt: HostRuntime) -> Result<(), Fail> {
    let table = pipe_table(rt.alloc())?;
    law_of_tables();
    for design in [
        Example::Std,
        Example::Nb,
        Example::Lf,
        Example::Nt,
        Example::Bt,
        Example::Fu,
    ] {
        let file = read(rt.alloc(), design.text())?;
        let design = bind(rt.alloc(), &file, &table)?;
        let ordered = order(rt.alloc(), &design, &table)?;
        assert_eq!(rt; ordered.ids.items().len(), 50);
    }
    let table = seq_table(rt.alloc())?;
    let file = read(rt.alloc(), Example::Seq.text())?;
    let design = bind(rt.alloc(), &file, &table)?;
    let ordered = order(rt.alloc(), &design, &table)?;
    assert_eq!(rt; ordered.ids.items().len(), 32);
    Ok(())
}

/// Tests of one code are one node, a number other than the constants is a term, and a branch that is never taken has no node.
#[test]
fn a_definition_has_its_nodes(rt: HostRuntime) -> Result<(), Fail> {
    let table = pipe_table(rt.alloc())?;
    law_of_tables();
    let text = Example::Std.zeros(rt.alloc(), F_PC)?;
    let file = read(rt.alloc(), text.as_slice())?;
    let design = bind(rt.alloc(), &file, &table)?;
    let order = order(rt.alloc(), &design, &table)?;
    let ordered = OrderedDesign { design, order };
    let compiled = compile(rt.alloc(), &ordered, &constant_words())?;
    let mut first = code(46, 9, 0, ROWS + 54);
    first.next[7] = 3;
    let nodes = [
        Node {
            ask: Ask::Value(0),
            next: [0; 17],
        },
        code(46, 9, 0, ROWS + 54),
        code(46, 9, 0, ROWS + 54),
        code(64, 0, ROWS + 61, 2),
        first,
    ];
    assert_eq!(rt; compiled.roots.items().first().copied(), Some(4));
    assert_eq!(rt; compiled.roots.items().len(), 39);
    assert_eq!(rt; compiled.nodes.items(), nodes.as_slice());
    assert_eq!(rt;
        compiled.terms.items(),
        [Term::Num(0xffff_ffff_ffff_fff8)].as_slice()
    );
    Ok(())
}
