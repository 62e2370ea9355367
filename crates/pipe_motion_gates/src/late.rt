//! Parts of the gates for lf, je and rm, given the flow of the stages.
ghost use Rattle.std.specs.Prelude.{◌<◌, ◌≤◌, ◌==◌, ◌&&◌, not, length, IfOk};
ghost use Rattle.nets.specs.Nets.{ExtendsNet, IsGate, truth};
ghost use Rattle.y86_isa.specs.Table.{row};
ghost use Rattle.y86_isa.specs.RowTests.{stores_val_a};
ghost use Rattle.pipe_fields.specs.Layout.{bit_count, fields_of};
ghost use Rattle.pipe_motion.specs.Gates.{flow_at, register_controls_at, HasRegisterControls, HasFlow};
ghost use Rattle.pipe_motion.specs.Flow.{leaves};

use net_fields::spells;
use nets::{NetBuilder, without};
use pipe_fields::places::{D_ICODE, E_DST_M};
use pipe_gates::{RowTest, row_has};
use pipe_motion::{FlowGates, RegisterControlsGates, leaves_gate};
use y86_base::{Memory, Variant};

/// D holds a store, and E a good instruction that loads a register.
#[tactic(auto, unfolding(pipe_fields::specs::Layout::fields_of), using(nets::proofs::Truths::begins_more, nets::proofs::Truths::begins_self))]
fn store_behind_load(b: &mut NetBuilder, v: Variant, y: &FlowGates) -> Result<u64, Memory>
    requires vars { bit_count ≤ b.old.vars }
    requires flow { HasFlow (length b.old.gates) y.now }
    ensures extends { ExtendsNet b.old b.new }
    ensures has_truth { IfOk result (λ g. IsGate b.new g (λ w.
        stores_val_a (row v (fields_of w).d.icode).memory && ((flow_at b.old w y.now).e.good && not ((fields_of w).e.dst_m == 15)))) }
{
    let stores = row_has(b, v, D_ICODE, RowTest::StoresA)?;
    let none = spells(b, E_DST_M, 15)?;
    let loads = without(b, y.e.good, none)?;
    b.and(stores, loads)
}

/// False exactly if a good store leaves D while E loads its source (`equal`), at a valuation that may show a setting
/// (`plain`).
pub fn no_late_load(
    b: &mut NetBuilder,
    v: Variant,
    equal: u64,
    k: &RegisterControlsGates,
    y: &FlowGates,
    plain: u64,
) -> Result<u64, Memory>
    requires vars { bit_count ≤ b.old.vars }
    requires flow { HasFlow (length b.old.gates) y.now }
    requires controls { HasRegisterControls (length b.old.gates) k.now }
    requires equal_in { equal < length b.old.gates }
    requires plain_in { plain < length b.old.gates }
    ensures extends { ExtendsNet b.old b.new }
    ensures has_truth { IfOk result (λ g. IsGate b.new g (λ w.
        not ((stores_val_a (row v (fields_of w).d.icode).memory && ((flow_at b.old w y.now).e.good && (not ((fields_of w).e.dst_m == 15)
        && (truth b.old equal w && leaves (register_controls_at b.old w k.now) (flow_at b.old w y.now))))) && truth b.old plain w))) }
{
    let pair = store_behind_load(b, v, y)?;
    let goes = leaves_gate(b, k, y)?;
    let past = b.and(equal, goes)?;
    let small = b.and(pair, past)?;
    let shown = b.and(small, plain)?;
    b.not(shown)
}

/// False exactly if E holds a missed jump, and f_pc is where it goes (`right`), at a valuation that may show a
/// setting (`plain`).
pub fn no_early_jump(
    b: &mut NetBuilder,
    y: &FlowGates,
    right: u64,
    plain: u64,
) -> Result<u64, Memory>
    requires flow { HasFlow (length b.old.gates) y.now }
    requires right_in { right < length b.old.gates }
    requires plain_in { plain < length b.old.gates }
    ensures extends { ExtendsNet b.old b.new }
    ensures has_truth { IfOk result (λ g. IsGate b.new g (λ w. not (((flow_at b.old w y.now).e.missed && truth b.old right w) && truth b.old plain w))) }
{
    let small = b.and(y.e.missed, right)?;
    let shown = b.and(small, plain)?;
    b.not(shown)
}

/// False exactly if M holds a ret that doesn't stop, and f_pc is where it goes (`right`), at a valuation that may
/// show a setting (`plain`).
pub fn no_early_ret(
    b: &mut NetBuilder,
    y: &FlowGates,
    right: u64,
    plain: u64,
) -> Result<u64, Memory>
    requires flow { HasFlow (length b.old.gates) y.now }
    requires right_in { right < length b.old.gates }
    requires plain_in { plain < length b.old.gates }
    ensures extends { ExtendsNet b.old b.new }
    ensures has_truth { IfOk result (λ g. IsGate b.new g (λ w.
        not ((((flow_at b.old w y.now).m.ret && not (flow_at b.old w y.now).m.stops) && truth b.old right w) && truth b.old plain w))) }
{
    let runs = without(b, y.m.ret, y.m.stops)?;
    let small = b.and(runs, right)?;
    let shown = b.and(small, plain)?;
    b.not(shown)
}
