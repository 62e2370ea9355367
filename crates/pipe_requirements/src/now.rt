//! What is known at a valuation, and the tests of the obligations on it.
ghost use Rattle.std.specs.Prelude.{◌≡◌, ◌≤◌, if◌then◌else◌};
ghost use Rattle.ctl_atoms.specs.declared.leaf.Leaf.TheVariants.{Name};
ghost use Rattle.control_values.specs.Given.{at};
ghost use Rattle.pipe_motion.specs.Flow as flows;
ghost use Rattle.pipe_obligations.specs.Obligations as rule;
ghost use Rattle.pipe_motion.specs.Predictions as predictions;
ghost use Rattle.y86_base.specs.Words as numbers;
ghost use Rattle.y86_isa.specs.Table as table;
ghost use Rattle.pipe_requirements.specs.Requirements.{unread};
ghost use Rattle.pipe_requirements.specs.Flows.{at_now};

use crate::flow::{FlowNow, RegisterControlsNow, predicts};
use crate::lines::Lines;
use ctl_atoms::Leaf;
use dp_signals::pipe_row as name;
use findings::{destination_e, is_number, set};
use hcl_types::NameId;
use pipe_motion::Settings;
use y86_base::Variant;
use y86_isa::{NextPcColumn, row, stores_val_a};

/// What is known at a valuation: the fields, the instructions in the stages, the stall and bubble signals, the control value of each name.
#[derive(Clone, Copy)]
pub struct Now<'a> {
    pub v: Variant,
    pub s: &'a Settings,
    pub l: &'a Lines,
    pub y: &'a FlowNow,
    pub mv: &'a RegisterControlsNow,
    pub leaves: &'a [Leaf],
}

/// The predicted PC after an instruction, if the prediction matters.
pub fn predicted_leaf(next: NextPcColumn, taken: bool) -> Option<Leaf>
    ensures { result ≡ rule.predicted_leaf next taken }
{
    match next {
        NextPcColumn::Itself => None,
        NextPcColumn::Fall => Some(Leaf::Name(name::F_VAL_P)),
        NextPcColumn::Branch => {
            if taken {
                Some(Leaf::Name(name::F_VAL_C))
            } else {
                Some(Leaf::Name(name::F_VAL_P))
            }
        }
        NextPcColumn::Target => Some(Leaf::Name(name::F_VAL_C)),
        NextPcColumn::Loaded => None,
    }
}

impl<'a> Now<'a> {
    /// E's destination after the condition.
    pub fn late_dst_e(&self) -> u64
        ensures { result ≡ at_now rule.late_dst_e self.now unread (at self.now.leaves.now) }
    {
        destination_e(
            row(self.v, self.l.e.icode).conditional,
            set(self.l.e.cnd),
            self.l.e.dst_e,
        )
    }

    /// The source is the register that the good instruction in E is loading.
    pub fn loaded_in_e(&self, source: NameId) -> bool
        ensures { result ≡ at_now rule.loaded_in_e self.now unread (at self.now.leaves.now) source }
    {
        self.y.e.good && is_number(self.leaves, source, self.l.e.dst_m)
    }

    /// Where the value of a source is.
    pub fn right_value(&self, source: NameId, rest: NameId) -> Leaf
        ensures { result ≡ at_now rule.right_value self.now unread (at self.now.leaves.now) source rest }
    {
        let late = self.late_dst_e();
        if self.y.e.good && is_number(self.leaves, source, late) {
            Leaf::Name(name::E_VAL_E)
        } else if is_number(self.leaves, source, self.l.m.dst_m) {
            Leaf::Name(name::M_VAL_M)
        } else if is_number(self.leaves, source, self.l.m.dst_e) {
            Leaf::Name(name::HELD_M_VAL_E)
        } else if is_number(self.leaves, source, self.l.w.dst_m) {
            Leaf::Name(name::HELD_W_VAL_M)
        } else if is_number(self.leaves, source, self.l.w.dst_e) {
            Leaf::Name(name::HELD_W_VAL_E)
        } else {
            Leaf::Name(rest)
        }
    }

    /// A good instruction with status 1 (AOK) is in E.
    pub fn works_in_e(&self) -> bool
        ensures { result ≡ at_now rule.works_in_e self.now unread (at self.now.leaves.now) }
    {
        self.y.e.good && self.l.e.stat == 1
    }

    /// A store takes the word that it stores from the load in M.
    pub fn word_comes_late(&self) -> bool
        ensures { result ≡ at_now rule.word_comes_late self.now unread (at self.now.leaves.now) }
    {
        self.s.lf
            && (stores_val_a(row(self.v, self.l.e.icode).memory)
                && (self.y.m.good && self.l.m.dst_m == self.l.e.src_a))
    }

    /// The predicted PC after the fetched instruction, if the prediction matters.
    pub fn predicted(&self) -> Option<Leaf>
        ensures { result ≡ rule.predicted_leaf (table.row self.now.v self.now.l.now.f.icode).next (predictions.predicts self.now.s.now self.now.l.now.f.ifun (numbers.set self.now.l.now.f.back)) }
    {
        let taken = predicts(self.s, self.l.f.ifun, set(self.l.f.back));
        predicted_leaf(row(self.v, self.l.f.icode).next, taken)
    }
}
