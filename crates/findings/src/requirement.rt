//! What an obligation requires of one signal at a valuation, and lists of such requirements.
ghost use Rattle.std.specs.Prelude.{◌≡◌, ◌++◌, ◌∷◌, [], OnOk};
ghost use Rattle.findings.specs.Requirements as spec;

use ctl_atoms::Leaf;
use hcl_types::NameId;
use y86_base::{Memory, push};

/// The value that a signal has to have.
#[derive(Clone, Copy, Debug, PartialEq, Eq)]
pub enum Wanted {
    /// This name, or this number.
    Word(Leaf),
    /// A truth.
    Truth(bool),
    /// No value is right: it isn't available yet, and the instruction that needs it has to wait.
    Nothing,
}

/// A signal, and the value that it has to have.
#[derive(Clone, Copy, Debug, PartialEq, Eq)]
pub struct Requirement {
    pub signal: NameId,
    pub wanted: Wanted,
}

/// Appends a requirement.
pub fn put(out: &mut Vec<Requirement>, signal: NameId, wanted: Wanted) -> Result<(), Memory>
    ensures { OnOk result (out.new.items ≡ out.old.items ++ spec.requirement_of signal wanted ∷ []) }
{
    push(out, Requirement { signal, wanted })
}

/// Appends the requirement that the signal picks a leaf.
pub fn put_word(out: &mut Vec<Requirement>, signal: NameId, leaf: Leaf) -> Result<(), Memory>
    ensures { OnOk result (out.new.items ≡ out.old.items ++ spec.word signal leaf) }
{
    put(out, signal, Wanted::Word(leaf))
}

/// Appends the requirement that the signal picks a leaf, if there is one.
pub fn put_some(
    out: &mut Vec<Requirement>,
    signal: NameId,
    leaf: Option<Leaf>,
) -> Result<(), Memory>
    ensures { OnOk result (out.new.items ≡ out.old.items ++ spec.some_word signal leaf) }
{
    match leaf {
        None => Ok(()),
        Some(leaf) => put_word(out, signal, leaf),
    }
}

/// Appends the requirement that the signal picks a number.
pub fn put_number(out: &mut Vec<Requirement>, signal: NameId, number: u64) -> Result<(), Memory>
    ensures { OnOk result (out.new.items ≡ out.old.items ++ spec.number signal number) }
{
    put_word(out, signal, Leaf::Number(number))
}

/// Appends the requirement that the signal has this truth.
pub fn put_truth(out: &mut Vec<Requirement>, signal: NameId, truth: bool) -> Result<(), Memory>
    ensures { OnOk result (out.new.items ≡ out.old.items ++ spec.truth signal truth) }
{
    put(out, signal, Wanted::Truth(truth))
}
