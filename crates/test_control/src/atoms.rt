//! Tests of the atoms of designs, and of designs without atoms.
use ctl_atoms::{Atom, AtomKind, CtlFault, Leaf, atoms};
use dp_signals::{law_of_tables, pipe_row as row, pipe_table};
use hcl_binding::bind;
use hcl_order::order;
use hcl_read::read;
use hcl_types::OrderedDesign;
use std::alloc::Global;
use std::process::Abort;
use std::test::Fail;
use test_designs::Example;

const LESS: AtomKind = AtomKind::Lt;

const SAME: AtomKind = AtomKind::Eq;

const F_PRED_PC: Leaf = Leaf::Name(row::HELD_F_PRED_PC);

const E_VAL_C: Leaf = Leaf::Name(row::HELD_E_VAL_C);

const E_VAL_A: Leaf = Leaf::Name(row::HELD_E_VAL_A);

const M_VAL_E: Leaf = Leaf::Name(row::HELD_M_VAL_E);

const M_VAL_A: Leaf = Leaf::Name(row::HELD_M_VAL_A);

const W_VAL_M: Leaf = Leaf::Name(row::HELD_W_VAL_M);

const F_VAL_C: Leaf = Leaf::Name(row::F_VAL_C);

const F_VAL_P: Leaf = Leaf::Name(row::F_VAL_P);

/// Definitions, with 0 for all others, and their atoms.
static ATOMS: [(&[u8], &[(AtomKind, Leaf, Leaf)]); 8] = [
    // no branch after a guard that is 1 has a leaf, the inner atoms come first, `<=` is not `>`
    (
        b"bool F_bubble = F_predPC <= [ E_valC < 3 : E_valC; 1 : E_valA; 1 : E_valB; ];",
        &[
            (LESS, E_VAL_C, Leaf::Number(3)),
            (LESS, E_VAL_C, F_PRED_PC),
            (LESS, E_VAL_A, F_PRED_PC),
        ],
    ),
    // if no guard is 1, the number 0 comes last; two numbers have no atom; the left leaf varies slowest
    (
        b"bool F_bubble = [ M_Cnd : E_valC; e_Cnd : E_valA; ] == [ M_Cnd : 7; e_Cnd : F_predPC; ];",
        &[
            (SAME, E_VAL_C, Leaf::Number(7)),
            (SAME, F_PRED_PC, E_VAL_C),
            (SAME, E_VAL_C, Leaf::Number(0)),
            (SAME, E_VAL_A, Leaf::Number(7)),
            (SAME, F_PRED_PC, E_VAL_A),
            (SAME, E_VAL_A, Leaf::Number(0)),
            (SAME, F_PRED_PC, Leaf::Number(0)),
        ],
    ),
    // a leaf is equal to itself and not less than itself
    (
        b"bool F_bubble = E_valC == E_valC || E_valC < E_valC || 3 < 4;",
        &[],
    ),
    // atoms that no value depends on are listed too
    (
        b"word f_pc = [ 1 : 0; M_valA != M_valE : 1; ];",
        &[(SAME, M_VAL_E, M_VAL_A)],
    ),
    // member by member: its own atoms, then those of its comparison
    (
        b"bool F_bubble = F_predPC in { 5, [ E_valC > E_valA : W_valM; 1 : 5; ], M_valE };",
        &[
            (SAME, F_PRED_PC, Leaf::Number(5)),
            (LESS, E_VAL_A, E_VAL_C),
            (SAME, F_PRED_PC, W_VAL_M),
            (SAME, F_PRED_PC, M_VAL_E),
        ],
    ),
    // by definitions in table order, and each atom once
    (
        b"bool F_bubble = F_predPC == 1;\nbool F_stall = F_predPC == 2 || F_predPC == 1;",
        &[
            (SAME, F_PRED_PC, Leaf::Number(2)),
            (SAME, F_PRED_PC, Leaf::Number(1)),
        ],
    ),
    // a defined name has the leaves of its definition
    (
        b"word aluA = [ M_Cnd : E_valC; 1 : -1; ];\nbool F_bubble = aluA < f_valC;",
        &[
            (LESS, E_VAL_C, F_VAL_C),
            (LESS, Leaf::Number(0xffff_ffff_ffff_ffff), F_VAL_C),
        ],
    ),
    // codes compare as numbers
    (
        b"bool F_bubble = E_icode in { IMRMOVQ, D_icode, f_icode };",
        &[],
    ),
];

/// The definitions of `backward_taken.hcl` have three atoms, those of `std.hcl` none.
static BT_ATOMS: [(AtomKind, Leaf, Leaf); 3] = [
    (LESS, M_VAL_E, M_VAL_A),
    (LESS, F_VAL_C, F_VAL_P),
    (LESS, E_VAL_C, E_VAL_A),
];

/// Definitions, with 0 for all others, and the number of their atoms or the fault.
static FAULTS: [(&[u8], Result<usize, CtlFault>); 9] = [
    (
        b"bool F_bubble = F_predPC in { 2, 3, 4, 5, 6, 7, 8, 9, 10, 11, 12, 13, 14, 15, 16, 17, 18, 19, 20, 21, 22, 23, 24, 25, 26, 27, 28, 29, 30, 31, 32, 33,
            34, 35, 36, 37, 38, 39, 40, 41, 42, 43, 44, 45, 46, 47, 48, 49, 50, 51, 52, 53, 54, 55, 56, 57, 58, 59, 60, 61, 62, 63, 64, 65 };",
        Ok(64),
    ),
    (
        b"bool F_bubble = F_predPC in { 2, 3, 4, 5, 6, 7, 8, 9, 10, 11, 12, 13, 14, 15, 16, 17, 18, 19, 20, 21, 22, 23, 24, 25, 26, 27, 28, 29, 30, 31, 32, 33,
            34, 35, 36, 37, 38, 39, 40, 41, 42, 43, 44, 45, 46, 47, 48, 49, 50, 51, 52, 53, 54, 55, 56, 57, 58, 59, 60, 61, 62, 63, 64, 65, 66 };",
        Err(CtlFault::AtomsOver64),
    ),
    (
        b"bool F_bubble = F_predPC in { 2, 3, 4, 5, 6, 7, 8, 9, 10, 11, 12, 13, 14, 15, 16, 17, 18, 19, 20, 21, 22, 23, 24, 25, 26, 27, 28, 29, 30, 31, 32, 33,
            34, 35, 36, 37, 38, 39, 40, 41, 42, 43, 44, 45, 46, 47, 48, 49, 50, 51, 52, 53, 54, 55, 56, 57, 58, 59, 60, 61, 62, 63, 64, 65, 66 };\nbool W_bubble = D_icode == D_valC;",
        Err(CtlFault::Mixed(row::W_BUBBLE)),
    ),
    (
        b"bool F_bubble = E_icode == E_valC;",
        Err(CtlFault::Mixed(row::F_BUBBLE)),
    ),
    (
        b"bool F_bubble = 1 in { E_icode, E_valC };",
        Err(CtlFault::Mixed(row::F_BUBBLE)),
    ),
    (
        b"bool W_bubble = E_icode == E_valC;\nbool F_bubble = M_Cnd && [ 1 : 0; M_Cnd : E_icode; 1 : E_valC; ] == 0;",
        Err(CtlFault::Mixed(row::F_BUBBLE)),
    ),
    (
        b"word f_icode = f_valC;",
        Err(CtlFault::Mixed(row::F_ICODE)),
    ),
    (
        b"word f_pc = [ 1 : F_predPC; 1 : D_icode; ];\nword f_predPC = M_icode;",
        Err(CtlFault::Mixed(row::F_PC)),
    ),
    (
        b"bool F_bubble = E_icode == 3 && 3 == E_valC && E_valC in { 3, IHALT };",
        Ok(2),
    ),
];

/// The atoms of PIPE under a file.
fn atoms_of(alloc: Global, file: &[u8]) -> Result<Result<Vec<Atom>, CtlFault>, Fail> {
    let table = pipe_table(alloc)?;
    law_of_tables();
    let file = read(alloc, file)?;
    let design = bind(alloc, &file, &table)?;
    let order = order(alloc, &design, &table)?;
    let ordered = OrderedDesign { design, order };
    Ok(atoms(alloc, &ordered, &table))
}

/// The atoms of PIPE under definitions, with 0 for all others.
fn atoms_with(alloc: Global, definitions: &[u8]) -> Result<Result<Vec<Atom>, CtlFault>, Fail> {
    let file = Example::Std.zeros(alloc, definitions)?;
    atoms_of(alloc, file.as_slice())
}

/// Whether the atoms are these.
fn are(atoms: &[Atom], wanted: &[(AtomKind, Leaf, Leaf)]) -> bool {
    if atoms.len() != wanted.len() {
        return false;
    }
    for (atom, (kind, left, right)) in atoms.iter().zip(wanted) {
        if atom.kind != *kind || atom.left != *left || atom.right != *right {
            return false;
        }
    }
    true
}

#[test]
fn atoms_come_in_order(rt: HostRuntime) -> Result<(), Fail> {
    for (definitions, wanted) in &ATOMS {
        let found = atoms_with(rt.alloc(), definitions)??;
        assert!(rt; are(found.as_slice(), wanted), "{found:?}");
    }
    let found = atoms_of(rt.alloc(), Example::Bt.text())??;
    assert!(rt; are(found.as_slice(), &BT_ATOMS), "{found:?}");
    let found = atoms_of(rt.alloc(), Example::Std.text())??;
    assert!(rt; found.is_empty(), "{found:?}");
    Ok(())
}

#[test]
fn mixed_classes_and_too_many_atoms(rt: HostRuntime) -> Result<(), Fail> {
    for (definitions, wanted) in &FAULTS {
        let found = match atoms_with(rt.alloc(), definitions)? {
            Ok(atoms) => Ok(atoms.len()),
            Err(fault) => Err(fault),
        };
        assert_eq!(rt; found, *wanted);
    }
    Ok(())
}
