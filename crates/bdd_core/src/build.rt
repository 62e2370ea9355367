//! Each kind of gate as an operation on the diagrams of the gates that it reads.
ghost use Rattle.std.specs.Prelude.{IfOk, length};
ghost use Rattle.nets.specs.Nets.{ReadsEarlier};
ghost use Rattle.bdd_core.specs.Building.{AreMade, IsMadeOf};
ghost use Rattle.bdd_core.specs.Diagrams.{IsReduced, Keeps};

use crate::results::{Op, OpKey};
use crate::store::Store;
use nets::Gate;
use y86_base::Memory;

impl Store {
    /// The diagram of a gate, from those of the gates that it reads.
    #[tactic(auto, using(crate::proofs::Gates::made_not, crate::proofs::Truths::keeps_self))]
    pub(crate) fn add_gate(&mut self, made: &[u32], gate: Gate) -> Result<u32, Memory>
        requires reads { ReadsEarlier self.old.vars (length made.now) gate }
        requires has_truth { AreMade self.old made.now gate }
        ensures kept { Keeps self.old self.new }
        ensures reduced_after { IsReduced self.new }
        ensures has_truth { IfOk result (IsMadeOf self.old self.new made.now gate) }
    {
        let _ = self.vars(); // brings the invariant of the store
        match gate {
            Gate::Const(false) => Ok(0),
            Gate::Const(true) => Ok(1),
            Gate::Var(x) => self.make(x, 0, 1),
            Gate::Not(a) => {
                let arg = made[a as usize];
                self.apply(OpKey {
                    op: Op::Not,
                    left: arg,
                    right: arg,
                })
            }
            Gate::And(a, b) => {
                self.apply(OpKey {
                    op: Op::And,
                    left: made[a as usize],
                    right: made[b as usize],
                })
            }
        }
    }
}
