//! Claims about ordered terms, each proved from the claims about their parts.
ghost use Rattle.std.specs.Prelude.{◌≡◌, ◌⊎◌, ◌+◌, ◌<◌, ◌≤◌, ◌++◌, ◌∷◌, [], length, get_or, slice_get, Some, IfOk, IfSome};
ghost use Rattle.cert_checker.specs.declared.known.Claim.TheVariants as claim;
ghost use Rattle.cert_writer.specs.Proofs.{AreProved, IsProved, KeepsClaims, HasClaim, claim_of};
ghost use Rattle.cert_writer.specs.Terms.{AreOrdered, AreRanks, IsAnd, IsFirst, IsNot, rank_of, variable_of};
ghost use Rattle.cert_writer.specs.Writing.{AreClaims, AreGateTerms, MatchesBy};
ghost use Rattle.nets.specs.declared.net.Gate.{Gate};
ghost use Rattle.cert_checker.specs.Rules as spec;

use cert_checker::{CertLine, TermDef, is_plain_and, is_plain_not, made_at, part};
use nets::{Gate, Net};
use std::alloc::Global;
use std::marker::Model;
use y86_base::{Memory, push};

/// Claims about terms that all precede the claims, over ranks of the variables.
#[derive(Drop)]
pub struct ClaimWriter<'a> {
    terms: &'a [TermDef],
    ranks: &'a [u32],
    steps: Vec<CertLine>,
    places: Vec<u32>,
    most: usize,
}

impl<'a> Model for ClaimWriter<'a> {
    ghost use Rattle.std.specs.Prelude.{length};
    ghost use Rattle.cert_writer.specs.Proofs.{AreProved, Proof};

    ghost Value = { Proof };

    ghost view = { λ c. record { terms = c.terms.now; ranks = c.ranks.now; steps = c.steps.items } };

    ghost invariant = { λ c. AreProved (length c.ranks.now) c.terms.now c.steps.items };
}

/// The most claims that there may be, so that each number fits in 32 bits.
const MOST: usize = 4_000_000_000;

/// The number of places in the cache of claims: even, because each claim has two places.
const PLACES: usize = 4_194_304;

/// The first place of a claim about two terms. Its second place is the neighbour: 2n + 1 for 2n, and 2n for 2n + 1.
fn place(a: u32, b: u32) -> usize {
    let left = (a as u64).wrapping_mul(11_400_714_819_323_198_485);
    let right = (b as u64).wrapping_mul(14_029_467_366_897_019_727);
    let mixed = left ^ right;
    (mixed ^ (mixed >> 29) ^ (mixed >> 47)) as usize % PLACES
}

impl<'a> ClaimWriter<'a> {
    /// A writer without claims. There will be no more than `most`.
    #[tactic(auto, using(crate::proofs::Steps::proved_none))]
    pub fn new(
        alloc: Global,
        terms: &'a [TermDef],
        ranks: &'a [u32],
        most: usize,
    ) -> Result<ClaimWriter<'a>, Memory>
        ensures terms { IfOk result (λ c. c.terms ≡ terms.now) }
        ensures ranks { IfOk result (λ c. c.ranks ≡ ranks.now) }
        ensures none { IfOk result (λ c. c.steps ≡ []) }
    {
        let places = match vec![in alloc; 0u32; PLACES] {
            Ok(places) => places,
            Err(_) => return Err(Memory),
        };
        Ok(ClaimWriter {
            terms,
            ranks,
            steps: Vec::new(alloc),
            places,
            most,
        })
    }

    /// The lines of the claims.
    pub fn steps(&self) -> &[CertLine]
        ensures steps { result.now ≡ self.now.steps }
        ensures proved { AreProved (length self.now.ranks) self.now.terms self.now.steps }
    {
        self.steps.as_slice()
    }

    /// The rank of a term's variable.
    fn rank(&self, t: u32) -> u64
        ensures { result ≡ rank_of self.now.ranks self.now.terms t }
    {
        match made_at(self.terms, t as u64) {
            Some(made) => self.ranks.get(made.var as usize).copied().unwrap_or(0) as u64,
            None => self.ranks.len() as u64,
        }
    }

    /// The variable of a term; 0 for terms 0 and 1.
    fn variable(&self, t: u32) -> u32
        ensures { result ≡ variable_of self.now.terms t }
    {
        match made_at(self.terms, t as u64) {
            Some(made) => made.var,
            None => 0,
        }
    }

    /// The first variable of two terms, at least one of which isn't a constant.
    #[tactic(auto, using(crate::proofs::Steps::first_left, crate::proofs::Steps::first_right))]
    fn first_variable(&self, a: u32, b: u32) -> u32
        requires ranks { AreRanks self.now.ranks }
        requires ordered { AreOrdered self.now.ranks self.now.terms }
        requires left { a < length self.now.terms + 2 }
        requires right { b < length self.now.terms + 2 }
        requires large { (2 ≤ a) ⊎ (2 ≤ b) }
        ensures { IsFirst self.now.ranks self.now.terms a b result }
    {
        if self.rank(a) <= self.rank(b) {
            self.variable(a)
        } else {
            self.variable(b)
        }
    }

    /// The part of a term where a variable is 0, or (`high`) is 1.
    fn part_of(&self, var: u32, high: bool, t: u32) -> u32
        ensures { result ≡ spec.part self.now.terms var high t }
    {
        part(self.terms, var as u64, high, t as u64) as u32
    }

    /// The claim at a place, if it says that a term is the conjunction of two others.
    fn and_at(&self, at: usize, a: u32, b: u32, c: u32) -> Option<u32>
        ensures { IfSome result (HasClaim self.now (claim.And a b c)) }
    {
        let p = self.places.get(at).copied().unwrap_or(0);
        match self.steps.as_slice().get(p as usize).copied() {
            Some(CertLine::And { left, right, both })
            | Some(
                CertLine::AndCases {
                    left,
                    right,
                    both,
                    ..
                },
            ) => {
                if left == a as u64 && right == b as u64 && both == c as u64 {
                    Some(p)
                } else {
                    None
                }
            }
            Some(CertLine::Term { .. })
            | Some(CertLine::Not { .. })
            | Some(CertLine::NotCases { .. })
            | Some(CertLine::Gate { .. })
            | Some(CertLine::GateBy { .. })
            | None => None,
        }
    }

    /// The claim that a term is the conjunction of two others, if it is cached.
    fn known_and(&self, a: u32, b: u32, c: u32) -> Option<u32>
        ensures { IfSome result (HasClaim self.now (claim.And a b c)) }
    {
        let at = place(a, b);
        match self.and_at(at, a, b, c) {
            Some(p) => Some(p),
            None => self.and_at(at ^ 1, a, b, c),
        }
    }

    /// The claim at a place, if it says that a term is the negation of another.
    fn not_at(&self, at: usize, a: u32, c: u32) -> Option<u32>
        ensures { IfSome result (HasClaim self.now (claim.Not a c)) }
    {
        let p = self.places.get(at).copied().unwrap_or(0);
        match self.steps.as_slice().get(p as usize).copied() {
            Some(CertLine::Not { of, not }) | Some(CertLine::NotCases { of, not, .. }) => {
                if of == a as u64 && not == c as u64 {
                    Some(p)
                } else {
                    None
                }
            }
            Some(CertLine::Term { .. })
            | Some(CertLine::And { .. })
            | Some(CertLine::AndCases { .. })
            | Some(CertLine::Gate { .. })
            | Some(CertLine::GateBy { .. })
            | None => None,
        }
    }

    /// The claim that a term is the negation of another, if it is cached.
    fn known_not(&self, a: u32, c: u32) -> Option<u32>
        ensures { IfSome result (HasClaim self.now (claim.Not a c)) }
    {
        let at = place(a, u32::MAX);
        match self.not_at(at, a, c) {
            Some(p) => Some(p),
            None => self.not_at(at ^ 1, a, c),
        }
    }

    /// Caches a claim at its first place. The claim that was there moves to the second place.
    fn remember(&mut self, a: u32, b: u32, p: u32)
        ensures { self.new ≡ self.old }
    {
        let at = place(a, b);
        let other = at ^ 1;
        if at < self.places.len() && other < self.places.len() {
            self.places[other] = self.places[at];
            self.places[at] = p;
        }
    }

    /// Appends a claim.
    #[tactic(auto, using(crate::proofs::Steps::proved_push, crate::proofs::Steps::keeps_push, crate::proofs::Steps::keeps_self, crate::proofs::Steps::makes_last))]
    fn push(&mut self, line: CertLine) -> Result<u32, Memory>
        requires { IsProved (length self.old.ranks) self.old.terms self.old.steps line }
        ensures kept { KeepsClaims self.old self.new }
        ensures last { IfOk result (HasClaim self.new (claim_of line)) }
    {
        let p = self.steps.len();
        if p >= self.most || p >= MOST {
            return Err(Memory);
        }
        match self.steps.push(line) {
            Ok(()) => Ok(p as u32),
            Err(_) => Err(Memory),
        }
    }

    /// The claim that a term is the conjunction of two others, from the claims about their parts.
    #[tactic(auto, using(crate::proofs::Steps::and_open, crate::proofs::Steps::and_parts, crate::proofs::Steps::and_cases, crate::proofs::Steps::and_plain, crate::proofs::Steps::parts_less, crate::proofs::Steps::makes_kept, crate::proofs::Steps::keeps_more, crate::proofs::Steps::keeps_self))]
    pub fn and(&mut self, a: u32, b: u32, c: u32) -> Result<u32, Memory>
        requires ranks { AreRanks self.old.ranks }
        requires ordered { AreOrdered self.old.ranks self.old.terms }
        requires is { IsAnd self.old.ranks self.old.terms a b c }
        ensures kept { KeepsClaims self.old self.new }
        ensures claim { IfOk result (HasClaim self.new (claim.And a b c)) }
    {
        if let Some(p) = self.known_and(a, b, c) {
            return Ok(p);
        }
        let p = if is_plain_and(a as u64, b as u64, c as u64) {
            self.push(CertLine::And {
                left: a as u64,
                right: b as u64,
                both: c as u64,
            })?
        } else {
            let var = self.first_variable(a, b);
            let low = self.and(
                self.part_of(var, false, a),
                self.part_of(var, false, b),
                self.part_of(var, false, c),
            )?;
            let high = self.and(
                self.part_of(var, true, a),
                self.part_of(var, true, b),
                self.part_of(var, true, c),
            )?;
            self.push(CertLine::AndCases {
                left: a as u64,
                right: b as u64,
                both: c as u64,
                var: var as u64,
                low: low as u64,
                high: high as u64,
            })?
        };
        self.remember(a, b, p);
        Ok(p)
    }

    /// The claim that a term is the negation of another, from the claims about their parts.
    #[tactic(auto, using(crate::proofs::Steps::not_open, crate::proofs::Steps::not_plain, crate::proofs::Steps::makes_kept, crate::proofs::Steps::keeps_more, crate::proofs::Steps::keeps_self))]
    pub fn not(&mut self, a: u32, c: u32) -> Result<u32, Memory>
        requires ranks { AreRanks self.old.ranks }
        requires ordered { AreOrdered self.old.ranks self.old.terms }
        requires is { IsNot self.old.ranks self.old.terms a c }
        ensures kept { KeepsClaims self.old self.new }
        ensures claim { IfOk result (HasClaim self.new (claim.Not a c)) }
    {
        if let Some(p) = self.known_not(a, c) {
            return Ok(p);
        }
        let p = if is_plain_not(a as u64, c as u64) {
            self.push(CertLine::Not {
                of: a as u64,
                not: c as u64,
            })?
        } else {
            let var = self.variable(a);
            let low = self.not(self.part_of(var, false, a), self.part_of(var, false, c))?;
            let high = self.not(self.part_of(var, true, a), self.part_of(var, true, c))?;
            self.push(CertLine::NotCases {
                of: a as u64,
                not: c as u64,
                var: var as u64,
                low: low as u64,
                high: high as u64,
            })?
        };
        self.remember(a, u32::MAX, p);
        Ok(p)
    }

    /// The claim for a gate about the terms of the gates that it reads, if it reads any.
    #[tactic(auto, using(crate::proofs::Claimed::not_asked, crate::proofs::Claimed::and_asked, crate::proofs::Claimed::not_fits, crate::proofs::Claimed::and_fits, crate::proofs::Claimed::constant_fits, crate::proofs::Claimed::variable_fits, crate::proofs::Steps::keeps_self))]
    fn gate_claim(&mut self, n: &Net, ts: &[u32], i: u64) -> Result<u32, Memory>
        requires ranks { AreRanks self.old.ranks }
        requires ordered { AreOrdered self.old.ranks self.old.terms }
        requires inside { i < length n.now.gates }
        requires terms { AreGateTerms n.now (length self.old.ranks) self.old.terms ts.now (length n.now.gates) }
        ensures kept { KeepsClaims self.old self.new }
        ensures fits { IfOk result (λ p. (g : Gate) → slice_get n.now.gates i ≡ Some g → MatchesBy self.new ts.now (get_or ts.now i 0) p g) }
    {
        let t = ts[i as usize];
        match n.gate(i) {
            Gate::Const(_) | Gate::Var(_) => Ok(0),
            Gate::Not(a) => self.not(ts[a as usize], t),
            Gate::And(a, b) => self.and(ts[a as usize], ts[b as usize], t),
        }
    }

    /// The claims for the gates of a net.
    #[tactic(auto, using(crate::proofs::Claimed::claims_none, crate::proofs::Claimed::claims_more, crate::proofs::Steps::keeps_self))]
    pub fn gate_claims(&mut self, alloc: Global, n: &Net, ts: &[u32]) -> Result<Vec<u32>, Memory>
        requires ranks { AreRanks self.old.ranks }
        requires ordered { AreOrdered self.old.ranks self.old.terms }
        requires terms { AreGateTerms n.now (length self.old.ranks) self.old.terms ts.now (length n.now.gates) }
        ensures kept { KeepsClaims self.old self.new }
        ensures claims { IfOk result (λ by. AreClaims n.now self.new ts.now by.items (length n.now.gates)) }
    {
        let mut by: Vec<u32> = Vec::new(alloc);
        for i in 0..n.len() {
            let p = self.gate_claim(n, ts, i)?;
            push(&mut by, p)?;
        }
        Ok(by)
    }
}
