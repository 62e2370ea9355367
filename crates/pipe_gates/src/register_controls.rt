//! The stall and bubble signals, as gates.
ghost use Rattle.std.specs.Prelude.{◌≡◌, Bool, IfOk, IsTrue, List, length, not, ℕ};
ghost use Rattle.nets.specs.Nets.{ExtendsNet, Gates};
ghost use Rattle.ctl_atoms.specs.declared.leaf.Leaf.{Leaf};
ghost use Rattle.ctl_atoms.specs.Leaves.{Assignment, leaf_holds};
ghost use Rattle.ctl_picks.specs.Picks.{Covers, IsInside, EncodesControls, has_gate};
ghost use Rattle.dp_signals.specs.PipeTable.{pipe_rows};
ghost use Rattle.pipe_motion.specs.Gates.{HasRegisterControl, HasRegisterControls, HasFlow, register_control_at, register_controls_at, flow_at};
ghost use Rattle.pipe_motion.specs.Flow.{leaves};
ghost use Rattle.ctl_rules.specs.ControlGates.{IsControlGate};
ghost use Rattle.pipe_obligations.specs.Obligations as spec;

use ctl_picks::Controls;
use dp_signals::pipe_row as signal;
use hcl_types::NameId;
use nets::NetBuilder;
use pipe_motion::{FlowGates, RegisterControlGates, RegisterControlsGates, leaves_gate};
use y86_base::Memory;

/// The gates of the stall and bubble signals of one register.
fn register_control_of(ctl: &Controls, stall: NameId, bubble: NameId) -> RegisterControlGates
    requires stall_known { IsTrue (has_gate ctl.now stall) }
    requires bubble_known { IsTrue (has_gate ctl.now bubble) }
    ensures inside { (net : Gates) → IsInside net ctl.now → HasRegisterControl (length net.gates) result }
    ensures encodes { (net : Gates) (w : List Bool) (α : Assignment) (cv : ℕ → Leaf) → EncodesControls net ctl.now w α cv →
        register_control_at net w result ≡ record { stall = leaf_holds α (cv stall); bubble = leaf_holds α (cv bubble) } }
{
    RegisterControlGates {
        stall: ctl.truth(stall),
        bubble: ctl.truth(bubble),
    }
}

/// The gates of the ten stall and bubble signals.
pub fn register_controls_of(ctl: &Controls) -> RegisterControlsGates
    requires { Covers pipe_rows ctl.now }
    ensures inside { (net : Gates) → IsInside net ctl.now → HasRegisterControls (length net.gates) result }
    ensures encodes { (net : Gates) (w : List Bool) (α : Assignment) (cv : ℕ → Leaf) → EncodesControls net ctl.now w α cv → register_controls_at net w result ≡ spec.register_controls_of α cv }
{
    RegisterControlsGates {
        f: register_control_of(ctl, signal::F_STALL, signal::F_BUBBLE),
        d: register_control_of(ctl, signal::D_STALL, signal::D_BUBBLE),
        e: register_control_of(ctl, signal::E_STALL, signal::E_BUBBLE),
        m: register_control_of(ctl, signal::M_STALL, signal::M_BUBBLE),
        w: register_control_of(ctl, signal::W_STALL, signal::W_BUBBLE),
    }
}

/// No good instruction leaves D.
pub fn none_leaves(b: &mut NetBuilder, ctl: &Controls, y: &FlowGates) -> Result<u64, Memory>
    requires inside { IsInside b.old ctl.now }
    requires flow { HasFlow (length b.old.gates) y.now }
    requires known { Covers pipe_rows ctl.now }
    ensures extends { ExtendsNet b.old b.new }
    ensures has_truth { IfOk result (λ g. IsControlGate b.new ctl.now g (λ w α cv. not (leaves (spec.register_controls_of α cv) (flow_at b.old w y.now)))) }
{
    let controls = register_controls_of(ctl);
    let goes = leaves_gate(b, &controls, y)?;
    b.not(goes)
}
