//! What the row of an icode demands of one signal, as a gate.
ghost use Rattle.std.specs.Prelude.{◌||◌, not, IfOk};
ghost use Rattle.nets.specs.Nets.{ExtendsNet};
ghost use Rattle.ctl_picks.specs.Picks.{IsInside};
ghost use Rattle.dp_signals.specs.PipeNames as names;
ghost use Rattle.pipe_stage_gates.specs.Signals.{IsReady, demand_of_row};
ghost use Rattle.pipe_fields.specs.Layout.{fields_of};
ghost use Rattle.ctl_rules.specs.ControlGates.{IsControlGate};
ghost use Rattle.ctl_rules.specs.ColumnDemands as words;
ghost use Rattle.y86_isa.specs.Blocks.{alu_function};
ghost use Rattle.y86_isa.specs.RowTests.{has_operand_a};

use ctl_picks::Controls;
use ctl_rules::{
    RowGates, address_leaf, function_is, operand_leaf_a, operand_leaf_b, picks_some_leaf,
};
use dp_signals::pipe_row as signal;
use nets::NetBuilder;
use pipe_fields::places::E_IFUN;
use pipe_gates::{RowTest, row_passes};
use y86_base::Memory;
use y86_isa::Row;

/// What a row demands: the operands of the ALU in E, its function, the address in M.
#[derive(Clone, Copy, Debug, PartialEq, Eq)]
pub enum RowRule {
    OperandA,
    OperandB,
    Function,
    Address,
}

/// alufun is the function of the row, if the ALU is used.
#[tactic(auto, unfolding(pipe_fields::specs::Layout::fields_of))]
fn alu_function_is(b: &mut NetBuilder, ctl: &Controls, row: &Row) -> Result<u64, Memory>
    requires inside { IsInside b.old ctl.now }
    requires ready { IsReady b.old.vars ctl.now }
    ensures extends { ExtendsNet b.old b.new }
    ensures has_truth { IfOk result (λ g. IsControlGate b.new ctl.now g (λ w α cv.
        not (has_operand_a row.now.alu_a) || words.is_number cv names.alufun (alu_function row.now.selects (fields_of w).e.ifun))) }
{
    if row_passes(row, RowTest::Computes) {
        function_is(b, ctl, signal::ALUFUN, row.selects, E_IFUN)
    } else {
        picks_some_leaf(b, ctl, signal::ALUFUN, None)
    }
}

/// What the row demands.
fn row_asks(b: &mut NetBuilder, ctl: &Controls, rule: RowRule, row: &Row) -> Result<u64, Memory>
    requires inside { IsInside b.old ctl.now }
    requires ready { IsReady b.old.vars ctl.now }
    ensures extends { ExtendsNet b.old b.new }
    ensures has_truth { IfOk result (λ g. IsControlGate b.new ctl.now g (λ w α cv. demand_of_row rule row.now (fields_of w) cv)) }
{
    match rule {
        RowRule::OperandA => picks_some_leaf(
            b,
            ctl,
            signal::ALU_A,
            operand_leaf_a(row.alu_a, signal::HELD_E_VAL_A, signal::HELD_E_VAL_C),
        ),
        RowRule::OperandB => picks_some_leaf(
            b,
            ctl,
            signal::ALU_B,
            operand_leaf_b(row.alu_b, signal::HELD_E_VAL_B),
        ),
        RowRule::Function => alu_function_is(b, ctl, row),
        RowRule::Address => picks_some_leaf(
            b,
            ctl,
            signal::MEM_ADDR,
            address_leaf(row.memory, signal::HELD_M_VAL_A, signal::HELD_M_VAL_E),
        ),
    }
}

impl RowGates for RowRule {
    ghost asks = { λ rule code r w α cv. demand_of_row rule r (fields_of w) cv };

    ghost knows = { λ rule vars ctl. IsReady vars ctl };

    fn at_row(
        &self,
        b: &mut NetBuilder,
        ctl: &Controls,
        _icode: u64,
        row: Row,
    ) -> Result<u64, Memory> {
        row_asks(b, ctl, *self, &row)
    }
}
