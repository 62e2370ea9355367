//! Tests the gate of a definition against the meaning of its term, at all values of what it reads: icode and ifun, and
//! the truth of its comparison of words, if any.
ghost use Rattle.std.specs.Prelude.{◌≡◌, ◌<◌, ◌≤◌, IfOk, length};
ghost use Rattle.hcl_types.specs.Tables.{IsBound, IsOrderOf};
ghost use Rattle.dp_signals.specs.SeqTable.{seq_rows};

use ctl_atoms::atoms;
use ctl_formula::translate;
use dp_signals::{law_of_tables, seq_row as row, seq_table};
use hcl_binding::bind;
use hcl_order::order;
use hcl_read::read;
use hcl_types::OrderedDesign;
use net_fields::BitRange;
use nets::{Net, NetBuilder, Valuation, eval};
use seq_obligations::{BIT_COUNT, LINE, places};
use std::alloc::Global;
use std::test::Fail;
use y86_base::{Items, Memory};

/// A design for SEQ without its `srcA`, `aluA` and `set_cc`: the shortest that has all other signals.
static REST: &[u8] = b"word icode = imem_icode; word ifun = imem_ifun; bool instr_valid = 1;
bool need_regids = 0; bool need_valC = 0;
word srcB = RNONE; word dstE = RNONE; word dstM = RNONE;
word aluB = 0; word alufun = 0;
word mem_addr = 0; bool mem_read = 0; bool mem_write = 0; word mem_data = 0;
word Stat = SAOK; word new_pc = valP;
";

/// The usual `srcA` and `aluA`.
const PLAIN: &[u8] = b"word srcA = RNONE; word aluA = 0;\n";

/// Definitions of `srcA` and `aluA`, and of `set_cc`: all forms of terms, one after another.
static TERMS: [(&[u8], &[u8]); 22] = [
    (PLAIN, b"bool set_cc = 1;"),
    (PLAIN, b"bool set_cc = 0;"),
    (PLAIN, b"bool set_cc = icode == ifun;"),
    (PLAIN, b"bool set_cc = !(icode == ifun);"),
    (PLAIN, b"bool set_cc = icode < ifun && ifun < 8;"),
    (PLAIN, b"bool set_cc = icode <= ifun || icode > 12;"),
    (PLAIN, b"bool set_cc = icode >= 5 && ifun != 3;"),
    (PLAIN, b"bool set_cc = icode in { 1, ifun, 7 };"),
    (
        b"word srcA = [ icode == 2 : 3; ifun < 4 : icode; 1 : ifun; ]; word aluA = 0;\n",
        b"bool set_cc = srcA == 6;",
    ),
    (
        b"word srcA = [ icode == 2 : 3; ifun < 4 : 0; ]; word aluA = 0;\n",
        b"bool set_cc = srcA == 0;",
    ),
    (PLAIN, b"bool set_cc = valA == valB;"),
    (PLAIN, b"bool set_cc = valA < valB && icode == 6;"),
    (PLAIN, b"bool set_cc = valB <= valA;"),
    (PLAIN, b"bool set_cc = valA >= valB;"),
    (PLAIN, b"bool set_cc = valA > valB;"),
    (PLAIN, b"bool set_cc = valA != valB;"),
    (PLAIN, b"bool set_cc = valA in { valB, 5 };"),
    (
        b"word srcA = RNONE; word aluA = [ icode == 6 : valA; 1 : valB; ];\n",
        b"bool set_cc = aluA == valB;",
    ),
    (PLAIN, b"bool set_cc = valA == valA;"),
    (PLAIN, b"bool set_cc = valA < valA;"),
    (PLAIN, b"bool set_cc = imem_error;"),
    (PLAIN, b"bool set_cc = valA < 5;"),
];

/// The meaning of the term with this number, at an icode, an ifun and the truth of its comparisons of words (`valA ==
/// valB`, `valA < valB`, in number 14 `valB < valA`), which is also the truth of `imem_error`.
fn means(number: usize, icode: u32, ifun: u32, atom: bool) -> bool {
    match number {
        0 | 18 => true,
        2 => icode == ifun,
        3 => icode != ifun,
        4 => icode < ifun && ifun < 8,
        5 => icode <= ifun || icode > 12,
        6 => icode >= 5 && ifun != 3,
        7 => icode == 1 || icode == ifun || icode == 7,
        8 => icode != 2 && (if ifun < 4 { icode == 6 } else { ifun == 6 }),
        9 => icode != 2,
        10 | 14 | 16 | 20 | 21 => atom,
        11 => atom && icode == 6,
        12 | 13 | 15 => !atom,
        17 => icode != 6 || atom,
        _ => false,
    }
}

/// The gate of `set_cc` in the net of a design.
#[derive(Drop)]
struct Told {
    net: Net,
    gate: u64,
}

/// The net of a design: the fields first, then the atoms.
fn translated(alloc: Global, ordered: &OrderedDesign) -> Result<Told, Memory>
    requires bound { IsBound seq_rows ordered.now.design.terms }
    requires ordered { IsOrderOf seq_rows ordered.now.design.terms ordered.now.order.ids }
    ensures { IfOk result (λ r. r.gate < length r.net.gates) }
{
    let t = match seq_table(alloc) {
        Ok(t) => t,
        Err(_) => return Err(Memory),
    };
    let listed = match atoms(alloc, ordered, &t) {
        Ok(listed) => listed,
        Err(_) => return Err(Memory),
    };
    let mut b = NetBuilder::new(alloc, BIT_COUNT + listed.len() as u32);
    match translate(alloc, ordered, &t, places(), &mut b) {
        Ok(ctl) => {
            let gate = ctl.truth(row::SET_CC);
            let net = b.finish();
            Ok(Told { net, gate })
        }
        Err(_) => Err(Memory),
    }
}

/// The value of the variable `at` if the four variables of a place hold a number, the highest bit first; false for a
/// variable outside the place.
fn bit_of(number: u32, place: BitRange, at: u32) -> bool {
    if at < place.first {
        return false;
    }
    match at - place.first {
        0 => number / 8 % 2 == 1,
        1 => number / 4 % 2 == 1,
        2 => number / 2 % 2 == 1,
        3 => number % 2 == 1,
        _ => false,
    }
}

/// The bits of an icode and an ifun, with 0 for the other fields, and one truth for the error and for the atoms, which
/// follow the fields.
fn pattern(alloc: Global, vars: u32, icode: u32, ifun: u32, atom: bool) -> Result<Vec<bool>, Memory>
    ensures { IfOk result (λ bits. length bits.items ≡ vars) }
{
    let mut bits = match vec![in alloc; false; vars as usize] {
        Ok(bits) => bits,
        Err(_) => return Err(Memory),
    };
    let mut at = 0u32;
    for bit in bits.as_mut_slice() {
        let is_truth = at == LINE.error.first || at >= BIT_COUNT;
        *bit = bit_of(icode, LINE.icode, at) || bit_of(ifun, LINE.ifun, at) || (is_truth && atom);
        at = at.saturating_add(1);
    }
    Ok(bits)
}

/// The number of values at which the gate of the term with this number differs from the term's meaning.
fn differences(alloc: Global, number: usize, told: &Told) -> Result<u32, Memory>
    requires { told.now.gate < length told.now.net.gates }
{
    let mut count = 0u32;
    for values in 0..512u32 {
        let icode = values / 16 % 16;
        let ifun = values % 16;
        let atom = values / 256 == 1;
        let bits = Items::of(pattern(alloc, told.net.vars(), icode, ifun, atom)?);
        let is = eval(alloc, &told.net, told.gate, &Valuation { bits })?;
        if is != means(number, icode, ifun, atom) {
            count = count.saturating_add(1);
        }
    }
    Ok(count)
}

/// The same for definitions of `srcA`, `aluA` and `set_cc`.
fn compared(alloc: Global, number: usize, words: &[u8], definition: &[u8]) -> Result<u32, Fail> {
    let table = seq_table(alloc)?;
    law_of_tables();
    let mut text = Vec::from_slice(alloc, REST)?;
    text.extend_from_slice(words)?;
    text.extend_from_slice(definition)?;
    let file = read(alloc, text.as_slice())?;
    let design = bind(alloc, &file, &table)?;
    let order = order(alloc, &design, &table)?;
    let told = translated(alloc, &OrderedDesign { design, order })?;
    Ok(differences(alloc, number, &told)?)
}

#[test]
fn terms_have_their_gates(rt: HostRuntime) -> Result<(), Fail> {
    for (number, (words, definition)) in TERMS.iter().enumerate() {
        assert_eq!(rt; compared(rt.alloc(), number, words, definition)?, 0);
    }
    Ok(())
}
