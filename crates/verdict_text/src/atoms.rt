//! The line of the atoms.
ghost use Rattle.std.specs.Prelude.{◌≡◌, ◌≤◌, ◌++◌, length, OnOk};
ghost use Rattle.hcl_types.specs.Tables.{row_names};
ghost use Rattle.verdict_text.specs.Atoms.{atom_text, atoms_line, atoms_text, kind_text, leaf_text, truth_text};

use ctl_atoms::{Atom, AtomKind, Leaf};
use hcl_types::Row;
use y86_base::{Memory, put, put_signed};

/// Puts a leaf.
fn put_leaf(out: &mut Vec<u8>, rows: &[Row], leaf: Leaf) -> Result<(), Memory>
    ensures { OnOk result (out.new.items ≡ out.old.items ++ leaf_text (row_names rows.now) leaf) }
{
    match leaf {
        Leaf::Name(id) => match rows.get(id as usize) {
            Some(row) => put(out, row.name.bytes()),
            None => put(out, b""),
        },
        Leaf::Number(n) => put_signed(out, n),
    }
}

/// What precedes an atom's leaves.
fn opening(kind: AtomKind) -> &'static [u8]
    ensures { result.now ≡ kind_text kind }
{
    match kind {
        AtomKind::Lt => b" lt(",
        AtomKind::Eq => b" eq(",
    }
}

/// What follows an atom's leaves.
fn closing(truth: bool) -> &'static [u8]
    ensures { result.now ≡ truth_text truth }
{
    if truth { b")=1" } else { b")=0" }
}

/// Puts an atom and its truth.
fn put_atom(out: &mut Vec<u8>, rows: &[Row], atom: Atom, truth: bool) -> Result<(), Memory>
    ensures { OnOk result (out.new.items ≡ out.old.items ++ atom_text (row_names rows.now) atom truth) }
{
    put(out, opening(atom.kind))?;
    put_leaf(out, rows, atom.left)?;
    put(out, b",")?;
    put_leaf(out, rows, atom.right)?;
    put(out, closing(truth))
}

/// Puts the line of the atoms. Their truths are the bits from the first one on.
#[tactic(auto, unfolding(crate::specs::Atoms::atoms_line))]
pub(crate) fn put_atoms(
    out: &mut Vec<u8>,
    rows: &[Row],
    bits: &[bool],
    first: usize,
    atoms: &[Atom],
) -> Result<(), Memory>
    requires near { first ≤ 1000 }
    requires few { length atoms.now ≤ 64 }
    ensures { OnOk result (out.new.items ≡ out.old.items ++ atoms_line (row_names rows.now) bits.now first atoms.now) }
{
    put(out, b"atoms")?;
    let mut at = first;
    for atom in atoms {
        let truth = bits.get(at).copied().unwrap_or(false);
        match put_atom(out, rows, *atom, truth) {
            Ok(()) => {}
            Err(_) => return Err(Memory),
        }
        at += 1;
    }
    put(out, b"\n")
}
