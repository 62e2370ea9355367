//! Connectives made of other gates. Each function returns a gate with the truth that its comment gives.
ghost use Rattle.std.specs.Prelude.{◌<◌, ◌&&◌, ◌||◌, not, if◌then◌else◌, length, IfOk};
ghost use Rattle.nets.specs.Nets.{ExtendsNet, IsGate, truth};

use crate::builder::NetBuilder;
use y86_base::Memory;

/// The truth of `x` where `c` is true, that of `y` where it is false.
pub fn choose(b: &mut NetBuilder, c: u64, x: u64, y: u64) -> Result<u64, Memory>
    requires condition { c < length b.old.gates }
    requires first { x < length b.old.gates }
    requires second { y < length b.old.gates }
    ensures extends { ExtendsNet b.old b.new }
    ensures has_truth { IfOk result (λ g. IsGate b.new g (λ w. if truth b.old c w then truth b.old x w else truth b.old y w)) }
{
    let first = b.and(c, x)?;
    let other = b.not(c)?;
    let second = b.and(other, y)?;
    b.or(first, second)
}

/// `x` is true and `y` is false.
pub fn without(b: &mut NetBuilder, x: u64, y: u64) -> Result<u64, Memory>
    requires first { x < length b.old.gates }
    requires second { y < length b.old.gates }
    ensures extends { ExtendsNet b.old b.new }
    ensures has_truth { IfOk result (λ g. IsGate b.new g (λ w. truth b.old x w && not (truth b.old y w))) }
{
    let none = b.not(y)?;
    b.and(x, none)
}

/// `x` is false or `y` is true.
pub fn implies(b: &mut NetBuilder, x: u64, y: u64) -> Result<u64, Memory>
    requires first { x < length b.old.gates }
    requires second { y < length b.old.gates }
    ensures extends { ExtendsNet b.old b.new }
    ensures has_truth { IfOk result (λ g. IsGate b.new g (λ w. not (truth b.old x w) || truth b.old y w)) }
{
    let none = b.not(x)?;
    b.or(none, y)
}

/// `x` and `y` are not both true.
pub fn excludes(b: &mut NetBuilder, x: u64, y: u64) -> Result<u64, Memory>
    requires first { x < length b.old.gates }
    requires second { y < length b.old.gates }
    ensures extends { ExtendsNet b.old b.new }
    ensures has_truth { IfOk result (λ g. IsGate b.new g (λ w. not (truth b.old x w && truth b.old y w))) }
{
    let both = b.and(x, y)?;
    b.not(both)
}

/// `x` and `y` are both false.
pub fn neither(b: &mut NetBuilder, x: u64, y: u64) -> Result<u64, Memory>
    requires first { x < length b.old.gates }
    requires second { y < length b.old.gates }
    ensures extends { ExtendsNet b.old b.new }
    ensures has_truth { IfOk result (λ g. IsGate b.new g (λ w. not (truth b.old x w || truth b.old y w))) }
{
    let either = b.or(x, y)?;
    b.not(either)
}
