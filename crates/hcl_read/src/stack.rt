//! The open brackets of an expression, as a stack, which limits the depth of nesting.
ghost use Rattle.std.specs.Prelude.{◌≡◌, ◌+◌, ◌∷◌, [], nat_le, OnOk, MatchOption};
ghost use Rattle.hcl_read.specs.Depth.{depth_of};

use crate::frames::Frame;
use std::alloc::Global;
use std::marker::Model;
use y86_base::{Memory, push};

/// How many of `(`, `[`, `{` and `!` may be open around a token.
pub const DEEPEST: u64 = 64;

/// The open brackets of an expression, seen as a list with the innermost first.
#[derive(Drop)]
pub struct Stack {
    frames: Vec<Frame>,
}

impl Model for Stack {
    ghost use Rattle.std.specs.Prelude.{List, reverse};
    ghost use Rattle.hcl_read.specs.declared.frames.Frame.{Frame};
    ghost use Rattle.hcl_tree.specs.contracts.tree.Expr as expr;
    ghost use Rattle.std.specs.Coded.{codes};

    ghost Value = { List Frame };

    ghost coded = { Prim.hlevel (codes, expr.the_row.coded) };

    ghost view = { λ s. reverse s.frames.items };
}

impl Stack {
    /// No open bracket.
    pub fn new(alloc: Global) -> Stack
        ensures { result ≡ [] }
    {
        Stack {
            frames: Vec::new(alloc),
        }
    }

    /// Opens a bracket.
    #[tactic(auto, using(crate::proofs::Stacks::stack_rules))]
    pub fn push(&mut self, frame: Frame) -> Result<(), Memory>
        ensures { OnOk result (self.new ≡ frame ∷ self.old) }
    {
        push(&mut self.frames, frame)
    }

    /// Closes the innermost bracket.
    #[tactic(auto, using(crate::proofs::Stacks::stack_rules))]
    pub fn pop(&mut self) -> Option<Frame>
        ensures { MatchOption result (self.old ≡ []) (λ frame. self.old ≡ frame ∷ self.new) }
    {
        self.frames.pop()
    }

    /// Whether 64 brackets and `!`s are open. `nots` counts the `!`s after the innermost bracket.
    #[tactic(auto, using(crate::proofs::Stacks::stack_rules))]
    pub fn is_full(&self, nots: u64) -> bool
        ensures { result ≡ nat_le 64 (nots + depth_of self.now) }
    {
        if nots >= DEEPEST {
            return true;
        }
        let mut room = DEEPEST - nots;
        let mut rest = self.frames.as_slice();
        'frames: loop {
            match rest.split_last() {
                None => return false,
                Some((frame, below)) => {
                    let nots = frame.nots();
                    if nots >= room - 1 {
                        return true;
                    }
                    room -= nots + 1;
                    rest = below;
                }
            }
        }
    }
}
