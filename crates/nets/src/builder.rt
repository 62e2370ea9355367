//! The builder of a net.
ghost use Rattle.std.specs.Prelude.{◌≡◌, ◌<◌, length, not, ◌&&◌, ◌||◌, IfOk, get_or, false};
ghost use Rattle.nets.specs.Nets.{ExtendsNet, IsGate, agree, truth};

use crate::connectives::implies;
use crate::net::{Gate, Net};
use std::alloc::Global;
use std::marker::Model;
use y86_base::Memory;

/// Builds a net, gate by gate. Each call returns the number of a gate with the requested truth: a new gate, or an
/// earlier one that is known to have it. A call that runs out of memory leaves the earlier gates.
#[derive(Drop)]
pub struct NetBuilder {
    net: Net,
}

impl Model for NetBuilder {
    ghost use Rattle.nets.specs.Nets.{Gates};

    ghost Value = { Gates };

    ghost view = { λ b. b.net };
}

impl NetBuilder {
    /// A builder of a net with variables 0 to `vars - 1`, without gates.
    pub fn new(alloc: Global, vars: u32) -> NetBuilder
        ensures vars { result.vars ≡ vars }
        ensures none { length result.gates ≡ 0 }
    {
        NetBuilder {
            net: Net::new(alloc, vars),
        }
    }

    /// Goes on from a net. Later calls allocate as those did that made the net.
    pub fn resume(_alloc: Global, n: Net) -> NetBuilder
        ensures { result ≡ n }
    {
        NetBuilder { net: n }
    }

    /// The net that was built.
    pub fn finish(self) -> Net
        ensures { result ≡ self }
    {
        let NetBuilder { net } = self;
        net
    }

    /// The number of variables.
    pub fn vars(&self) -> u32
        ensures { result ≡ self.now.vars }
    {
        self.net.vars()
    }

    /// The number of gates.
    pub fn len(&self) -> u64
        ensures { result ≡ length self.now.gates }
    {
        self.net.len()
    }

    /// A gate that is always true, or always false.
    pub fn constant(&mut self, value: bool) -> Result<u64, Memory>
        ensures extends { ExtendsNet self.old self.new }
        ensures has_truth { IfOk result (λ g. IsGate self.new g (λ w. value)) }
    {
        self.net.add(Gate::Const(value))
    }

    /// A gate that is true where variable `v` is 1.
    pub fn variable(&mut self, v: u32) -> Result<u64, Memory>
        requires { v < self.old.vars }
        ensures extends { ExtendsNet self.old self.new }
        ensures has_truth { IfOk result (λ g. IsGate self.new g (λ w. get_or w v false)) }
    {
        self.net.add(Gate::Var(v))
    }

    /// A gate that is true where `a` is false.
    #[tactic(auto, using(crate::proofs::Truths::made_not))]
    pub fn not(&mut self, a: u64) -> Result<u64, Memory>
        requires { a < length self.old.gates }
        ensures extends { ExtendsNet self.old self.new }
        ensures has_truth { IfOk result (λ g. IsGate self.new g (λ w. not (truth self.old a w))) }
    {
        match self.net.gate(a) {
            Gate::Const(value) => self.constant(!value),
            Gate::Not(inner) => Ok(inner),
            Gate::Var(_) | Gate::And(..) => self.add_not(a),
        }
    }

    /// The same as `not`, but always adds or finds the gate `Not(a)`.
    #[tactic(auto, using(crate::proofs::Truths::made_not))]
    fn add_not(&mut self, a: u64) -> Result<u64, Memory>
        requires { a < length self.old.gates }
        ensures extends { ExtendsNet self.old self.new }
        ensures has_truth { IfOk result (λ g. IsGate self.new g (λ w. not (truth self.old a w))) }
    {
        self.net.add(Gate::Not(a))
    }

    /// A gate that is true where `a` and `b` are.
    #[tactic(auto, using(crate::proofs::Truths::made_and))]
    pub fn and(&mut self, a: u64, b: u64) -> Result<u64, Memory>
        requires left { a < length self.old.gates }
        requires right { b < length self.old.gates }
        ensures extends { ExtendsNet self.old self.new }
        ensures has_truth { IfOk result (λ g. IsGate self.new g (λ w. truth self.old a w && truth self.old b w)) }
    {
        if a == b {
            return Ok(a);
        }
        match (self.net.gate(a), self.net.gate(b)) {
            (Gate::Const(true), _) | (_, Gate::Const(false)) => Ok(b),
            (Gate::Const(false), _) | (_, Gate::Const(true)) => Ok(a),
            _ => self.add_and(a, b),
        }
    }

    /// The same as `and`, but always adds or finds the gate `And(a, b)`.
    #[tactic(auto, using(crate::proofs::Truths::made_and))]
    fn add_and(&mut self, a: u64, b: u64) -> Result<u64, Memory>
        requires left { a < length self.old.gates }
        requires right { b < length self.old.gates }
        ensures extends { ExtendsNet self.old self.new }
        ensures has_truth { IfOk result (λ g. IsGate self.new g (λ w. truth self.old a w && truth self.old b w)) }
    {
        self.net.add(Gate::And(a, b))
    }

    /// A gate that is true where `a` or `b` is.
    pub fn or(&mut self, a: u64, b: u64) -> Result<u64, Memory>
        requires left { a < length self.old.gates }
        requires right { b < length self.old.gates }
        ensures extends { ExtendsNet self.old self.new }
        ensures has_truth { IfOk result (λ g. IsGate self.new g (λ w. truth self.old a w || truth self.old b w)) }
    {
        let x = self.not(a)?;
        let y = self.not(b)?;
        let none = self.and(x, y)?;
        self.not(none)
    }

    /// A gate that is true where `a` and `b` have the same truth.
    pub fn equal(&mut self, a: u64, b: u64) -> Result<u64, Memory>
        requires left { a < length self.old.gates }
        requires right { b < length self.old.gates }
        ensures extends { ExtendsNet self.old self.new }
        ensures has_truth { IfOk result (λ g. IsGate self.new g (λ w. agree (truth self.old a w) (truth self.old b w))) }
    {
        if a == b {
            return self.constant(true);
        }
        let x = implies(self, a, b)?;
        let y = implies(self, b, a)?;
        self.and(x, y)
    }
}
