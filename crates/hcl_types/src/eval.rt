//! The trait of evaluators of a design's definitions, and the plain evaluator.
ghost use Rattle.std.specs.Prelude.{◌≡◌, ◌<◌, ℕ, IsTrue, List, [], length, slice_get, Some};
ghost use Rattle.std.specs.List.{AllByRecursion};
ghost use Rattle.hcl_types.specs.Signals.{HasEntries, Starts};
ghost use Rattle.hcl_types.specs.Terms.{at, names, value, word_meaning};
ghost use Rattle.hcl_types.specs.declared.term.Term.{Term};

use crate::table::Design;
use crate::value::value_of;

/// An evaluator of designs: it computes the value of each definition under a list of numbers, one for each row of
/// the table.
///
/// `evaluates` says which designs it evaluates: for these, its answer is the value of the term. An evaluator may use
/// the words of the first rows in advance; these are a table's constants. `assumes` is the list of words that it has
/// used. It may only be asked about values that begin with them, so its owner checks once whether the constants fit.
pub trait SignalEval {
    ghost evaluates: { Self → List Term → Type 0 };

    ghost assumes: { Self → List ℕ };

    /// Whether these words begin with those that the evaluator assumes.
    fn fits(&self, constants: &[u64]) -> bool
        ensures { IsTrue result → Starts (assumes self.now) constants.now };

    /// The value of the term at `def`, counted over the defined rows from 0. Every name in it needs an entry in `vals`.
    fn eval(&mut self, def: u32, vals: &[u64]) -> u64
        requires asks { (terms : List Term) × evaluates self.old terms × HasEntries terms def (length vals.now) }
        requires assumed { Starts (assumes self.old) vals.now }
        ensures value { (terms : List Term) (t : Term) → evaluates self.old terms → slice_get terms def ≡ Some t →
            AllByRecursion (λ id. id < length vals.now) (names t) → result ≡ value word_meaning (at vals.now) t }
        ensures kept { (terms : List Term) → evaluates self.old terms → evaluates self.new terms }
        ensures same { assumes self.new ≡ assumes self.old };
}

/// The evaluator that walks the terms of a design. It allocates nothing, and assumes nothing.
#[derive(Drop)]
pub struct Plain<'a> {
    design: &'a Design,
}

impl<'a> Plain<'a> {
    /// An evaluator of a design.
    pub fn new(design: &'a Design) -> Plain<'a>
        ensures { ⟦<Plain<'a> as SignalEval>⟧.evaluates result design.now.terms }
    {
        Plain { design }
    }
}

impl<'a> SignalEval for Plain<'a> {
    ghost evaluates = { λ plain terms. plain.design.now.terms ≡ terms };

    ghost assumes = { λ _. [] };

    fn fits(&self, constants: &[u64]) -> bool {
        let _ = constants;
        true
    }

    fn eval(&mut self, def: u32, vals: &[u64]) -> u64 {
        value_of(&self.design.terms.items()[def as usize], vals)
    }
}
