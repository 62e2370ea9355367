//! The checker's rule: what a line has to be after the lines before it.
ghost use Rattle.std.specs.Prelude.{◌≡◌, ◌+◌, ◌^◌, ◌<◌, ◌≤◌, length, slice_get, IfOk, IfNone, IfSome, None, Some, OnErr};
ghost use Rattle.cert_checker.specs.CheckerFacts.{after, with_claim, with_gate, with_term};
ghost use Rattle.cert_checker.specs.Rules as spec;
ghost use Rattle.cert_checker.specs.declared.known.Claim.TheVariants as claim;

use crate::fault::CertWhy;
use crate::known::{Claim, TermDef};
use crate::line::CertLine;
use nets::{Gate, Net};
use std::alloc::Global;
use std::marker::Model;
use y86_base::{Memory, push};

/// The definition of a term. Terms 0 and 1 have none.
pub fn made_at(terms: &[TermDef], t: u64) -> Option<TermDef>
    ensures { result ≡ spec.made_at terms.now t }
{
    if t < 2 {
        return None;
    }
    terms.get((t - 2) as usize).copied()
}

/// The part of a term where a variable is 0, or (`high`) is 1.
pub fn part(terms: &[TermDef], var: u64, high: bool, t: u64) -> u64
    ensures part { result ≡ spec.part terms.now var high t }
    ensures small { t < 2 ^ 32 → result < 2 ^ 32 }
{
    match made_at(terms, t) {
        None => t,
        Some(made) => {
            if made.var as u64 == var {
                if high {
                    made.high as u64
                } else {
                    made.low as u64
                }
            } else {
                t
            }
        }
    }
}

/// Whether a definition has this variable and these two terms.
pub fn is_made(made: Option<TermDef>, var: u32, low: u32, high: u32) -> bool
    ensures { result ≡ spec.is_made made var low high }
{
    match made {
        None => false,
        Some(made) => made.var == var && (made.low == low && made.high == high),
    }
}

/// Whether a claim says that a term is the conjunction of two others.
fn claims_and(found: Option<Claim>, left: u64, right: u64, both: u64) -> bool
    ensures { result ≡ spec.claims found (claim.And left right both) }
{
    match found {
        Some(
            Claim::And {
                left: a,
                right: b,
                both: c,
            },
        ) => a as u64 == left && (b as u64 == right && c as u64 == both),
        Some(Claim::Not { .. }) | None => false,
    }
}

/// Whether a claim says that a term is the negation of another.
fn claims_not(found: Option<Claim>, of: u64, not: u64) -> bool
    ensures { result ≡ spec.claims found (claim.Not of not) }
{
    match found {
        Some(Claim::Not { of: a, not: c }) => a as u64 == of && c as u64 == not,
        Some(Claim::And { .. }) | None => false,
    }
}

/// Whether a term is evidently the conjunction of two others, without a claim.
pub fn is_plain_and(a: u64, b: u64, c: u64) -> bool
    ensures { result ≡ spec.is_plain_and a b c }
{
    (a == 0 && c == 0)
        || ((b == 0 && c == 0)
            || ((a == 1 && c == b) || ((b == 1 && c == a) || (a == b && b == c))))
}

/// Whether a term is evidently the negation of another, without a claim.
pub fn is_plain_not(a: u64, c: u64) -> bool
    ensures { result ≡ spec.is_plain_not a c }
{
    (a == 0 && c == 1) || (a == 1 && c == 0)
}

/// The cases of a variable: the numbers of the claim for its value 0 and of the one for its value 1.
#[derive(Clone, Copy)]
struct Cases {
    var: u64,
    low: u64,
    high: u64,
}

/// What the lines so far have made.
#[derive(Drop)]
pub struct CheckerState {
    terms: Vec<TermDef>,
    claims: Vec<Claim>,
    gates: Vec<u32>,
}

impl Model for CheckerState {
    ghost use Rattle.std.specs.Prelude.{◌≤◌, length};
    ghost use Rattle.cert_checker.specs.CheckerFacts.{CheckerFacts};

    ghost Value = { CheckerFacts };

    ghost view = { λ k. record { terms = k.terms.items; claims = k.claims.items; gates = k.gates.items } };

    ghost invariant = { λ k. length k.terms.items ≤ 4000000000 };
}

/// The most terms that there may be, so that each number fits in 32 bits.
const MOST: usize = 4_000_000_000;

impl CheckerState {
    ghost use Rattle.std.specs.Prelude.{◌≡◌, ◌<◌, ◌^◌, ℕ, OnOk, true, None};
    ghost use Rattle.cert_checker.specs.CheckerFacts.{after, nothing};
    ghost use Rattle.cert_checker.specs.Rules as spec;

    /// The state before the first line.
    pub fn new(alloc: Global) -> CheckerState
        ensures { result ≡ nothing }
    {
        CheckerState {
            terms: Vec::new(alloc),
            claims: Vec::new(alloc),
            gates: Vec::new(alloc),
        }
    }

    /// How many gates have their terms.
    pub fn gates(&self) -> u64
        ensures { result ≡ length self.now.gates }
    {
        self.gates.len() as u64
    }

    /// The term of a gate.
    pub fn gate(&self, i: u64) -> Option<u32>
        ensures { result ≡ slice_get self.now.gates i }
    {
        self.gates.as_slice().get(i as usize).copied()
    }

    /// Whether a number names a term.
    fn is_term(&self, t: u64) -> bool
        ensures { result ≡ spec.is_term self.now t }
    {
        t < self.terms.len() as u64 + 2
    }

    /// Whether a number names a claim.
    fn is_claim(&self, p: u64) -> bool
        ensures { result ≡ spec.is_claim self.now p }
    {
        p < self.claims.len() as u64
    }

    /// Whether each number of a line names an earlier term, an earlier claim or a variable, as its place requires.
    fn names(&self, vars: u32, line: CertLine) -> bool
        ensures { result ≡ spec.names vars self.now line }
    {
        match line {
            CertLine::Term { var, low, high } => {
                var < vars as u64 && (self.is_term(low) && self.is_term(high))
            }
            CertLine::And { left, right, both } => {
                self.is_term(left) && (self.is_term(right) && self.is_term(both))
            }
            CertLine::AndCases {
                left,
                right,
                both,
                var,
                low,
                high,
            } => {
                (self.is_term(left) && (self.is_term(right) && self.is_term(both)))
                    && (var < vars as u64 && (self.is_claim(low) && self.is_claim(high)))
            }
            CertLine::Not { of, not } => self.is_term(of) && self.is_term(not),
            CertLine::NotCases {
                of,
                not,
                var,
                low,
                high,
            } => {
                (self.is_term(of) && self.is_term(not))
                    && (var < vars as u64 && (self.is_claim(low) && self.is_claim(high)))
            }
            CertLine::Gate { term } => self.is_term(term),
            CertLine::GateBy { term, claim } => self.is_term(term) && self.is_claim(claim),
        }
    }

    /// Whether the claims of both cases say about the parts of three terms what is claimed about the terms.
    fn and_by_cases(&self, left: u64, right: u64, both: u64, by: Cases) -> bool
        ensures { result ≡ spec.and_by_cases self.now.terms self.now.claims left right both by.var by.low by.high }
    {
        let terms = self.terms.as_slice();
        let found = self.claims.as_slice();
        claims_and(
            found.get(by.low as usize).copied(),
            part(terms, by.var, false, left),
            part(terms, by.var, false, right),
            part(terms, by.var, false, both),
        ) && claims_and(
            found.get(by.high as usize).copied(),
            part(terms, by.var, true, left),
            part(terms, by.var, true, right),
            part(terms, by.var, true, both),
        )
    }

    /// The same for two terms, one of which is the negation of the other.
    fn not_by_cases(&self, of: u64, not: u64, by: Cases) -> bool
        ensures { result ≡ spec.not_by_cases self.now.terms self.now.claims of not by.var by.low by.high }
    {
        let terms = self.terms.as_slice();
        let found = self.claims.as_slice();
        claims_not(
            found.get(by.low as usize).copied(),
            part(terms, by.var, false, of),
            part(terms, by.var, false, not),
        ) && claims_not(
            found.get(by.high as usize).copied(),
            part(terms, by.var, true, of),
            part(terms, by.var, true, not),
        )
    }

    /// Whether the claim that a line makes is justified.
    fn is_justified(&self, line: CertLine) -> bool
        ensures { result ≡ spec.is_justified self.now line }
    {
        match line {
            CertLine::And { left, right, both } => is_plain_and(left, right, both),
            CertLine::AndCases {
                left,
                right,
                both,
                var,
                low,
                high,
            } => self.and_by_cases(left, right, both, Cases { var, low, high }),
            CertLine::Not { of, not } => is_plain_not(of, not),
            CertLine::NotCases {
                of,
                not,
                var,
                low,
                high,
            } => self.not_by_cases(of, not, Cases { var, low, high }),
            CertLine::Term { .. } | CertLine::Gate { .. } | CertLine::GateBy { .. } => true,
        }
    }

    /// The next gate of a net that has no term yet.
    fn next_gate(&self, net: &Net) -> Option<Gate>
        ensures { result ≡ slice_get net.now.gates (length self.now.gates) }
    {
        let i = self.gates.len() as u64;
        if i < net.len() {
            Some(net.gate(i))
        } else {
            None
        }
    }

    /// Whether a term is that of the next gate, a constant or a variable.
    fn gate_matches_plainly(&self, net: &Net, term: u64) -> bool
        ensures { result ≡ spec.gate_matches_plainly self.now term (slice_get net.now.gates (length self.now.gates)) }
    {
        match self.next_gate(net) {
            Some(Gate::Const(false)) => term == 0,
            Some(Gate::Const(true)) => term == 1,
            Some(Gate::Var(v)) => is_made(made_at(self.terms.as_slice(), term), v, 0, 1),
            Some(Gate::Not(_)) | Some(Gate::And(..)) | None => false,
        }
    }

    /// Whether a claim says that a term is that of the next gate, a negation or a conjunction.
    fn gate_matches_by(&self, net: &Net, term: u64, found: Option<Claim>) -> bool
        ensures { result ≡ spec.gate_matches_by self.now term found (slice_get net.now.gates (length self.now.gates)) }
    {
        match self.next_gate(net) {
            Some(Gate::Not(a)) => match self.gate(a) {
                Some(of) => claims_not(found, of as u64, term),
                None => false,
            },
            Some(Gate::And(a, b)) => match (self.gate(a), self.gate(b)) {
                (Some(left), Some(right)) => claims_and(found, left as u64, right as u64, term),
                _ => false,
            },
            Some(Gate::Const(_)) | Some(Gate::Var(_)) | None => false,
        }
    }

    /// Whether a line fits the next gate, if it is about a gate.
    fn gate_matches(&self, net: &Net, line: CertLine) -> bool
        ensures { result ≡ spec.gate_matches net.now self.now line }
    {
        match line {
            CertLine::Gate { term } => self.gate_matches_plainly(net, term),
            CertLine::GateBy { term, claim } => {
                let found = self.claims.as_slice().get(claim as usize).copied();
                self.gate_matches_by(net, term, found)
            }
            CertLine::Term { .. }
            | CertLine::And { .. }
            | CertLine::AndCases { .. }
            | CertLine::Not { .. }
            | CertLine::NotCases { .. } => true,
        }
    }

    /// The error in a line that follows those so far, if it has one.
    #[tactic(auto, unfolding(crate::specs::Rules::flaw))]
    pub fn flaw(&self, net: &Net, line: CertLine) -> Option<CertWhy>
        ensures { result ≡ spec.flaw net.now self.now line }
    {
        if !self.names(net.vars(), line) {
            return Some(CertWhy::Number);
        }
        if !self.is_justified(line) {
            return Some(CertWhy::Claim);
        }
        if !self.gate_matches(net, line) {
            return Some(CertWhy::Gate);
        }
        None
    }

    /// A term's number in 32 bits.
    fn narrow(&self, t: u64) -> u32
        requires { spec.is_term self.now t ≡ true }
        ensures { result ≡ t }
    {
        let _ = self.terms.len(); // brings the invariant of the terms
        t as u32
    }

    /// Appends a term.
    fn add_term(&mut self, var: u32, low: u32, high: u32) -> Result<(), Memory>
        ensures { OnOk result (self.new ≡ with_term self.old (record { var = var; low = low; high = high })) }
    {
        if self.terms.len() >= MOST {
            return Err(Memory);
        }
        match self.terms.push(TermDef { var, low, high }) {
            Ok(()) => Ok(()),
            Err(_) => Err(Memory),
        }
    }

    /// Appends a claim.
    fn add_claim(&mut self, claim: Claim) -> Result<(), Memory>
        ensures { OnOk result (self.new ≡ with_claim self.old claim) }
    {
        push(&mut self.claims, claim)
    }

    /// Appends the term of a gate.
    fn add_gate(&mut self, term: u32) -> Result<(), Memory>
        ensures { OnOk result (self.new ≡ with_gate self.old term) }
    {
        push(&mut self.gates, term)
    }

    /// Adds what a correct line makes: a term, a claim or the term of a gate.
    pub fn add(&mut self, vars: u32, line: CertLine) -> Result<(), Memory>
        requires { spec.names vars self.old line ≡ true }
        ensures { OnOk result (self.new ≡ after self.old line) }
    {
        match line {
            CertLine::Term { var, low, high } => {
                let low = self.narrow(low);
                let high = self.narrow(high);
                self.add_term(var as u32, low, high)
            }
            CertLine::And { left, right, both }
            | CertLine::AndCases {
                left,
                right,
                both,
                ..
            } => {
                let left = self.narrow(left);
                let right = self.narrow(right);
                let both = self.narrow(both);
                self.add_claim(Claim::And { left, right, both })
            }
            CertLine::Not { of, not } | CertLine::NotCases { of, not, .. } => {
                let of = self.narrow(of);
                let not = self.narrow(not);
                self.add_claim(Claim::Not { of, not })
            }
            CertLine::Gate { term } | CertLine::GateBy { term, .. } => {
                let term = self.narrow(term);
                self.add_gate(term)
            }
        }
    }
}
