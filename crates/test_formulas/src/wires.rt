//! Builds nets for samples.
ghost use Rattle.std.specs.Prelude.{◌≡◌, length, nat_lt};

use nets::{Net, NetBuilder};
use std::alloc::Global;

/// Builds a net from wires, which are numbers of its gates.
#[derive(Drop)]
pub struct Wires {
    builder: NetBuilder,
}

impl Wires {
    /// No wires yet.
    pub fn new(alloc: Global, vars: u32) -> Wires {
        Wires {
            builder: NetBuilder::new(alloc, vars),
        }
    }

    /// The net.
    pub fn finish(self) -> Net {
        let Wires { builder } = self;
        builder.finish()
    }

    /// Whether there is a wire.
    fn has(&self, a: u64) -> bool
        ensures { result ≡ nat_lt a (length self.now.builder.gates) }
    {
        a < self.builder.len()
    }

    /// A wire that is always true, or always false.
    pub fn constant(&mut self, value: bool) -> Option<u64> {
        self.builder.constant(value).ok()
    }

    /// The wire of a variable.
    pub fn variable(&mut self, v: u32) -> Option<u64> {
        if v >= self.builder.vars() {
            return None;
        }
        self.builder.variable(v).ok()
    }

    /// The negation of a wire.
    pub fn not(&mut self, a: u64) -> Option<u64> {
        if !self.has(a) {
            return None;
        }
        self.builder.not(a).ok()
    }

    /// Whether both wires are true.
    pub fn and(&mut self, a: u64, b: u64) -> Option<u64> {
        if !self.has(a) || !self.has(b) {
            return None;
        }
        self.builder.and(a, b).ok()
    }

    /// Whether at least one of two wires is true.
    pub fn or(&mut self, a: u64, b: u64) -> Option<u64> {
        if !self.has(a) || !self.has(b) {
            return None;
        }
        self.builder.or(a, b).ok()
    }

    /// Whether two wires have the same truth.
    pub fn equal(&mut self, a: u64, b: u64) -> Option<u64> {
        if !self.has(a) || !self.has(b) {
            return None;
        }
        self.builder.equal(a, b).ok()
    }

    /// Whether two wires have different truths.
    pub fn differ(&mut self, a: u64, b: u64) -> Option<u64> {
        let same = self.equal(a, b)?;
        self.not(same)
    }
}
