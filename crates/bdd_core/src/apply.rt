//! Operations on diagrams.
ghost use Rattle.std.specs.Prelude.{◌≡◌, ℕ, ◌+◌, ◌^◌, ◌<◌, ◌≤◌, cond, nat_eq, IfOk, IfSome, IfNone, length};
ghost use Rattle.bdd_core.specs.Answers.{IsAnswer, IsKey, IsMade, IsSplit, IsSettled};
ghost use Rattle.bdd_core.specs.Diagrams.{IsReduced, Keeps, at, count};

use crate::nodes::ChoiceNode;
use crate::results::{Op, OpKey};
use crate::store::Store;
use y86_base::Memory;

/// The parts of both arguments of an operation under the first variable that decides either of them.
#[derive(Clone, Copy)]
pub struct OperandSplit {
    pub var: u32,
    pub low_left: u32,
    pub low_right: u32,
    pub high_left: u32,
    pub high_right: u32,
}

/// The result of an operation, if it can be found without a look at the nodes.
fn settled(key: OpKey) -> Option<u32>
    ensures settled { IfSome result (IsSettled key) }
    ensures open { IfNone result (2 ≤ key.left) }
{
    match key.op {
        Op::Not => match key.left {
            0 => Some(1),
            1 => Some(0),
            _ => None,
        },
        Op::And => {
            if key.left == 0 || key.right == 0 {
                Some(0)
            } else if key.left == 1 {
                Some(key.right)
            } else if key.right == 1 || key.left == key.right {
                Some(key.left)
            } else {
                None
            }
        }
    }
}

/// The part of diagram `d` with node `node` where `var` is 0, if no earlier variable decides it.
fn low_part(node: ChoiceNode, var: u32, d: u32) -> u32
    ensures { result ≡ cond (nat_eq node.var var) node.low d }
{
    if node.var == var { node.low } else { d }
}

/// The part where `var` is 1.
fn high_part(node: ChoiceNode, var: u32, d: u32) -> u32
    ensures { result ≡ cond (nat_eq node.var var) node.high d }
{
    if node.var == var { node.high } else { d }
}

impl Store {
    /// Splits an operation into those on the low and on the high parts.
    #[tactic(auto, using(crate::proofs::Applying::splits))]
    fn split(&self, key: OpKey) -> OperandSplit
        requires key { IsKey self.now key }
        requires open { 2 ≤ key.left }
        ensures { IsSplit self.now key result }
    {
        let left = self.node_of(key.left);
        let right = self.node_of(key.right);
        let var = left.var.min(right.var);
        OperandSplit {
            var,
            low_left: low_part(left, var, key.left),
            low_right: low_part(right, var, key.right),
            high_left: high_part(left, var, key.left),
            high_right: high_part(right, var, key.right),
        }
    }

    /// The diagram that is the result of an operation.
    #[tactic(auto, using(crate::proofs::Applying::key_kept, crate::proofs::Applying::split_kept, crate::proofs::Applying::answer_kept, crate::proofs::Truths::keeps_self, crate::proofs::Truths::keeps_more))]
    pub fn apply(&mut self, key: OpKey) -> Result<u32, Memory>
        requires { IsKey self.old key }
        ensures kept { Keeps self.old self.new }
        ensures reduced_after { IsReduced self.new }
        ensures answer { IfOk result (IsAnswer self.new key) }
    {
        let _ = self.vars(); // brings the invariant of the store
        if let Some(d) = settled(key) {
            return Ok(d);
        }
        if let Some(d) = self.recall(key) {
            return Ok(d);
        }
        self.take_step()?;
        let split = self.split(key);
        let low = self.apply(OpKey {
            op: key.op,
            left: split.low_left,
            right: split.low_right,
        })?;
        let high = self.apply(OpKey {
            op: key.op,
            left: split.high_left,
            right: split.high_right,
        })?;
        self.finish(key, split, low, high)
    }

    /// Joins the results for both parts, and caches the result for the whole.
    #[tactic(auto, using(crate::proofs::Applying::low_later, crate::proofs::Applying::high_later))]
    fn finish(
        &mut self,
        key: OpKey,
        split: OperandSplit,
        low: u32,
        high: u32,
    ) -> Result<u32, Memory>
        requires key { IsKey self.old key }
        requires split { IsSplit self.old key split }
        requires low { IsAnswer self.old record { op = key.op; left = split.low_left; right = split.low_right } low }
        requires high { IsAnswer self.old record { op = key.op; left = split.high_left; right = split.high_right } high }
        ensures kept { Keeps self.old self.new }
        ensures reduced_after { IsReduced self.new }
        ensures answer { IfOk result (IsAnswer self.new key) }
    {
        let _ = self.vars(); // brings the invariant of the store
        let d = self.make(split.var, low, high)?;
        self.keep(key, d);
        Ok(d)
    }
}
