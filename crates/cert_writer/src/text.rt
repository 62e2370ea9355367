//! The text of a certificate, line by line.
ghost use Rattle.std.specs.Prelude.{◌≡◌, ◌<◌, ◌++◌, ◌∷◌, [], length, get_or, OnOk};
ghost use Rattle.std.specs.Fmt.{decimal};
ghost use Rattle.cert_checker.specs.CheckerFacts.{nothing};
ghost use Rattle.cert_checker.specs.Lines.{IsLine, line_text, numbers_text};
ghost use Rattle.cert_writer.specs.Writing.{AreGates, AreNamed, IsCertificatePrefix, facts_with, gate_line};

use crate::claims::ClaimWriter;
use cert_checker::{CertLine, Demands, TermDef};
use nets::Gate;
use y86_base::{Memory, put, put_decimal};

/// Puts a blank and a number.
#[tactic(auto, using(crate::proofs::Texts::number_put))]
fn put_number(out: &mut Vec<u8>, n: u64) -> Result<(), Memory>
    ensures { OnOk result (out.new.items ≡ out.old.items ++ 32 ∷ decimal n) }
{
    put(out, b" ")?;
    put_decimal(out, n)
}

/// Puts a line of a letter and some numbers.
#[tactic(auto, using(crate::proofs::Texts::numbers_start, crate::proofs::Texts::numbers_more, crate::proofs::Texts::numbers_end))]
fn put_numbers(out: &mut Vec<u8>, letter: u8, numbers: &[u64]) -> Result<(), Memory>
    ensures { OnOk result (out.new.items ≡ out.old.items ++ letter ∷ numbers_text numbers.now) }
{
    put(out, &[letter])?;
    for i in 0..numbers.len() {
        put_number(out, numbers[i])?;
    }
    put(out, b"\n")
}

/// Puts a line.
#[tactic(auto, unfolding(cert_checker::specs::Lines::line_text))]
fn put_line(out: &mut Vec<u8>, line: CertLine) -> Result<(), Memory>
    ensures put { OnOk result (out.new.items ≡ out.old.items ++ line_text line) }
    ensures small { IsLine line }
{
    match line {
        CertLine::Term { var, low, high } => put_numbers(out, b't', &[var, low, high]),
        CertLine::And { left, right, both } => put_numbers(out, b'a', &[left, right, both]),
        CertLine::AndCases {
            left,
            right,
            both,
            var,
            low,
            high,
        } => put_numbers(out, b's', &[left, right, both, var, low, high]),
        CertLine::Not { of, not } => put_numbers(out, b'n', &[of, not]),
        CertLine::NotCases {
            of,
            not,
            var,
            low,
            high,
        } => put_numbers(out, b'm', &[of, not, var, low, high]),
        CertLine::Gate { term } => put_numbers(out, b'g', &[term]),
        CertLine::GateBy { term, claim } => put_numbers(out, b'h', &[term, claim]),
    }
}

/// Puts the lines of the terms.
#[tactic(auto, using(crate::proofs::Writing::term_more, crate::proofs::Writing::terms_start, crate::proofs::Writing::terms_end))]
pub(crate) fn put_terms(out: &mut Vec<u8>, g: &Demands, terms: &[TermDef]) -> Result<(), Memory>
    requires named { AreNamed g.now.net.vars terms.now }
    requires wrote { IsCertificatePrefix g.now out.old.items nothing }
    ensures { OnOk result (IsCertificatePrefix g.now out.new.items (facts_with terms.now [] [])) }
{
    let _ = g.net.vars(); // brings the invariant of the net
    for i in 0..terms.len() {
        let made = terms[i];
        put_line(
            out,
            CertLine::Term {
                var: made.var as u64,
                low: made.low as u64,
                high: made.high as u64,
            },
        )?;
    }
    Ok(())
}

/// Puts the lines of the claims.
#[tactic(auto, using(crate::proofs::Writing::step_more, crate::proofs::Writing::steps_start, crate::proofs::Writing::steps_end))]
pub(crate) fn put_steps(out: &mut Vec<u8>, g: &Demands, claims: &ClaimWriter) -> Result<(), Memory>
    requires vars { length claims.now.ranks ≡ g.now.net.vars }
    requires wrote { IsCertificatePrefix g.now out.old.items (facts_with claims.now.terms [] []) }
    ensures { OnOk result (IsCertificatePrefix g.now out.new.items (facts_with claims.now.terms claims.now.steps [])) }
{
    let _ = g.net.vars(); // brings the invariant of the net
    let steps = claims.steps();
    for i in 0..steps.len() {
        put_line(out, steps[i])?;
    }
    Ok(())
}

/// The line of a gate with its term and its claim.
fn line_of(gate: Gate, term: u32, claim: u32) -> CertLine
    ensures { result ≡ gate_line gate term claim }
{
    match gate {
        Gate::Const(_) | Gate::Var(_) => CertLine::Gate { term: term as u64 },
        Gate::Not(_) | Gate::And(..) => CertLine::GateBy {
            term: term as u64,
            claim: claim as u64,
        },
    }
}

/// Puts the lines of the gates.
#[tactic(auto, using(crate::proofs::Writing::gate_more, crate::proofs::Writing::gates_start, crate::proofs::Writing::gates_end))]
pub(crate) fn put_gates(
    out: &mut Vec<u8>,
    g: &Demands,
    claims: &ClaimWriter,
    terms: &[u32],
    by: &[u32],
) -> Result<(), Memory>
    requires gates { AreGates g.now.net claims.now terms.now by.now }
    requires wrote { IsCertificatePrefix g.now out.old.items (facts_with claims.now.terms claims.now.steps []) }
    ensures { OnOk result (IsCertificatePrefix g.now out.new.items (facts_with claims.now.terms claims.now.steps terms.now)) }
{
    let _ = claims.steps(); // brings the invariant of the claims
    for i in 0..terms.len() {
        put_line(out, line_of(g.net.gate(i as u64), terms[i], by[i]))?;
    }
    Ok(())
}
