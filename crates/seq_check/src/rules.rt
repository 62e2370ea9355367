//! The 16 rules of SEQ+ as gates.
ghost use Rattle.std.specs.Prelude.{◌≡◌, ◌≤◌, ◌+◌, length, IfErr, IfOk, IsTrue};
ghost use Rattle.nets.specs.Nets.{ExtendsNet, IsGate};
ghost use Rattle.y86_isa.specs.Table.{row, rows};
ghost use Rattle.ctl_atoms.specs.Atoms.{AreAtoms, IsCtlFault};
ghost use Rattle.ctl_picks.specs.Picks.{has_picks};
ghost use Rattle.y86_base.specs.Words.{set};
ghost use Rattle.net_fields.specs.Spelling.{spelt};
ghost use Rattle.hcl_types.specs.Tables.{IsBound, IsOrderOf};
ghost use Rattle.ctl_rules.specs.ColumnDemands.{next_leaf, picks_some_leaf};
ghost use Rattle.seq_obligations.specs.Fields.{p_cnd, p_icode, plus_bit_count};
ghost use Rattle.seq_plus.specs.PlusNames as signal;
ghost use Rattle.seq_plus.specs.PlusTable.{plus_rows};
ghost use Rattle.seq_plus.specs.Sound.{plus_sound};
ghost use Rattle.seq_check.specs.Designed.{places_stand, ready_by, spelt_at_places};
ghost use Rattle.seq_check.specs.Fields.{allowed, fields_of, goes_on, number_of};
ghost use Rattle.seq_check.specs.Obligations.{demand_at};
ghost use Rattle.seq_check.specs.Rules.{ArePlusRules, IsPlusReady, places};

use crate::fields::places;
use ctl_atoms::CtlFault;
use ctl_given::Place;
use ctl_picks::Controls;
use ctl_rules::{NextPcInputs, RowGates, Rules, by_icode, next_is};
use hcl_types::{OrderedDesign, Table};
use net_fields::below;
use nets::NetBuilder;
use seq_obligations::{
    P_CND, P_ICODE, PLUS_BIT_COUNT, PLUS_LINE, RULE_COUNT, RuleFamily, designed_rules,
    line_allowed, shared_demand_gate,
};
use seq_plus::plus_table;
use seq_plus::row::{P_VAL_C, P_VAL_M, P_VAL_P, PLUS};
use std::alloc::Global;
use y86_base::{Memory, Variant};
use y86_isa::{Row, icode_count};

/// The PC is the next PC of the previous instruction, by the row of its icode.
#[derive(Clone, Copy, Debug)]
struct NextPc;

impl RowGates for NextPc {
    ghost asks = { λ rule code r w α cv. picks_some_leaf cv signal.pc (next_leaf r.next signal.pValP signal.pValC signal.pValM (set (spelt w p_cnd.first p_cnd.bits))) };

    ghost knows = { λ rule vars ctl. (p_cnd.first + p_cnd.bits ≤ vars) × IsTrue (has_picks ctl signal.pc) };

    fn at_row(
        &self,
        b: &mut NetBuilder,
        ctl: &Controls,
        _icode: u64,
        row: Row,
    ) -> Result<u64, Memory> {
        let inputs = NextPcInputs {
            val_p: P_VAL_P,
            val_c: P_VAL_C,
            val_m: P_VAL_M,
            cnd: P_CND,
        };
        next_is(b, ctl, PLUS.pc, row.next, inputs)
    }
}

/// The icode of the previous instruction is that of an instruction that goes on.
#[tactic(auto, using(nets::proofs::Truths::begins_more))]
fn code_allowed(b: &mut NetBuilder, v: Variant) -> Result<u64, Memory>
    requires { p_cnd.first + p_cnd.bits ≤ b.old.vars }
    ensures extends { ExtendsNet b.old b.new }
    ensures has_truth { IfOk result (λ g. IsGate b.new g (λ w. goes_on (length (rows v)) (spelt w p_icode.first p_icode.bits))) }
{
    let none = below(b, P_ICODE, 1)?;
    let some = b.not(none)?;
    let known = below(b, P_ICODE, icode_count(v))?;
    b.and(some, known)
}

/// The rules of SEQ+.
#[derive(Clone, Copy, Debug)]
struct PlusRules {
    variant: Variant,
}

impl RuleFamily for PlusRules {
    ghost may = { λ it w α cv. allowed it.variant (fields_of w) };

    ghost asks = { λ it i w α cv. demand_at it.variant i (fields_of w) α cv };

    ghost knows = { λ it vars ctl. IsPlusReady vars ctl };

    ghost rows = { plus_rows };

    ghost places = { places };

    ghost bits = { plus_bit_count };

    ghost field = { λ w. number_of (fields_of w) };

    ghost sound = { plus_sound };

    ghost ready = { λ it. ready_by };

    ghost placed = { places_stand };

    ghost spelt = { spelt_at_places };

    fn table(&self, alloc: Global) -> Result<Table, Memory> {
        plus_table(alloc)
    }

    fn field_places(&self) -> &'static [Place] {
        places()
    }

    fn bit_count(&self) -> u32 {
        PLUS_BIT_COUNT
    }

    /// The lines are ones that a valuation of the variant can have.
    #[tactic(auto, unfolding(crate::specs::Fields::fields_of, crate::specs::Fields::allowed, seq_obligations::specs::Fields::line_at))]
    fn fits(&self, b: &mut NetBuilder, ctl: &Controls) -> Result<u64, Memory> {
        let code = code_allowed(b, self.variant)?;
        let rest = line_allowed(b, ctl, &PLUS_LINE, self.variant)?;
        b.and(code, rest)
    }

    #[tactic(auto, unfolding(crate::specs::Fields::fields_of, crate::specs::Obligations::demand_at, seq_obligations::specs::Fields::line_at))]
    fn demand(&self, b: &mut NetBuilder, ctl: &Controls, number: u32) -> Result<u64, Memory> {
        if number == RULE_COUNT {
            return by_icode(b, ctl, self.variant, P_ICODE, &NextPc);
        }
        shared_demand_gate(b, ctl, &PLUS, &PLUS_LINE, self.variant, number)
    }
}

/// The 16 rules of a design for SEQ+, in their order: each gate is its obligation at every pattern of bits of a control
/// valuation. The fields come first, then the atoms. A design that mixes classes or has more than 64 atoms has no
/// rules.
pub(crate) fn plus_rules(
    alloc: Global,
    variant: Variant,
    ordered: &OrderedDesign,
) -> Result<Rules, CtlFault>
    requires bound { IsBound plus_rows ordered.now.design.terms }
    requires ordered { IsOrderOf plus_rows ordered.now.design.terms ordered.now.order.ids }
    ensures rules { IfOk result (λ r. ArePlusRules variant ordered.now.design.terms r.net r.list) }
    ensures variant { IfOk result (λ r. r.variant ≡ variant) }
    ensures atoms { IfOk result (λ r. AreAtoms plus_rows ordered.now.design.terms r.atoms) }
    ensures fault { IfErr result (IsCtlFault plus_rows ordered.now.design.terms) }
{
    designed_rules(alloc, variant, ordered, &PlusRules { variant })
}
