//! The gates on which the truth of a gate depends.
ghost use Rattle.std.specs.Prelude.{◌≡◌, ℕ, ◌<◌, ◌≤◌, IfOk, get_or, length, slice_get, Some, true, false};
ghost use Rattle.nets.specs.declared.net.Gate.{Gate};
ghost use Rattle.bdd_core.specs.Building.{IsCone, ReadsMarked};

use nets::{Gate, Net};
use std::alloc::Global;
use y86_base::Memory;

/// Marks the gates that gate `i` reads, if it is marked itself.
#[tactic(auto, using(crate::proofs::Gates::marked_one, crate::proofs::Gates::marked_stays, crate::proofs::Gates::marked_later))]
fn mark(needed: &mut [bool], i: u64, n: &Net)
    requires inside { i < length n.now.gates }
    requires size { length needed.old ≡ length n.now.gates }
    ensures later { (j : ℕ) → i ≤ j → get_or needed.new j false ≡ get_or needed.old j false }
    ensures stays { (j : ℕ) → get_or needed.old j false ≡ true → get_or needed.new j false ≡ true }
    ensures reads { (g : Gate) → slice_get n.now.gates i ≡ Some g → get_or needed.old i false ≡ true → ReadsMarked needed.new g }
{
    if needed[i as usize] {
        match n.gate(i) {
            Gate::Not(a) => needed[a as usize] = true,
            Gate::And(a, b) => {
                needed[a as usize] = true;
                needed[b as usize] = true;
            }
            _ => {}
        }
    }
}

/// Marks the gates on which the truth of gate `gate` depends.
#[tactic(auto, using(crate::proofs::Gates::cone_started, crate::proofs::Gates::cone_more, crate::proofs::Gates::cone_ended))]
pub fn cone(alloc: Global, n: &Net, gate: u64) -> Result<Vec<bool>, Memory>
    requires { gate < length n.now.gates }
    ensures root { IfOk result (λ needed. get_or needed.items gate false ≡ true) }
    ensures cone { IfOk result (λ needed. IsCone n.now needed.items) }
{
    let len = n.len();
    let mut needed = match vec![in alloc; false; len as usize] {
        Ok(needed) => needed,
        Err(_) => return Err(Memory),
    };
    needed[gate as usize] = true;
    let mut i = len;
    while i > 0 {
        i -= 1;
        mark(needed.as_mut_slice(), i, n);
    }
    Ok(needed)
}
