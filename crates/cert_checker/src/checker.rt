//! The checker: each line is checked against the earlier lines that it names.
ghost use Rattle.std.specs.Prelude.{◌≡◌, ◌≢◌, ◌+◌, ◌^◌, ◌≤◌, ◌<◌, ℕ, List, length, slice_get, Some, IfErr, OnOk, MatchOption, true, false};
ghost use Rattle.cert_checker.specs.Certificates.{BeginsWith, CertOk, HasRightLines, IsRefusal};
ghost use Rattle.cert_checker.specs.Certificates as spec;
ghost use Rattle.cert_checker.specs.CheckerFacts.{facts_of};
ghost use Rattle.cert_checker.specs.declared.line.CertLine.{CertLine};

use crate::demands::Demands;
use crate::fault::{CertError, CertFault, CertWhy};
use crate::heading::{HEAD, stated, syntax_at};
use crate::reading::line_at;
use crate::rules::CheckerState;
use pipe_motion::Settings;
use std::alloc::Global;

/// The index of the first demanded gate that doesn't have term 1, truth.
fn first_open(known: &CheckerState, want: &[u64]) -> Option<usize>
    ensures { MatchOption result ((k w : ℕ) → slice_get want.now k ≡ Some w → slice_get known.now.gates w ≡ Some 1)
        (λ k. (w : ℕ) × (slice_get want.now k ≡ Some w) × (slice_get known.now.gates w ≢ Some 1)) }
{
    for k in 0..want.len() {
        match known.gate(want[k]) {
            Some(term) => {
                if term != 1 {
                    return Some(k);
                }
            }
            None => return Some(k),
        }
    }
    None
}

/// A fault at a line.
fn fault_at(line: u64, why: CertWhy) -> CertError
    ensures { result ≡ spec.fault_at line why }
{
    CertError::Cert(CertFault { line, why })
}

/// Checks the end of a certificate, where no further line follows.
fn ended(g: &Demands, known: &CheckerState, rest: &[u8], line: u64) -> Result<(), CertError>
    requires few { line < 2 ^ 63 }
    ensures ok { OnOk result ((text : List ℕ) (lines : List CertLine) → HasRightLines g.now text lines rest.now → known.now ≡ facts_of lines → CertOk g.now text) }
    ensures fault { IfErr result (λ e. (text : List ℕ) (lines : List CertLine) → HasRightLines g.now text lines rest.now → known.now ≡ facts_of lines
        → ((l : CertLine) → BeginsWith rest.now l → ⊥) → line ≡ length lines + 3 → IsRefusal g.now text e) }
{
    if !rest.starts_with(b"end\n") {
        return Err(syntax_at(line));
    }
    if known.gates() != g.net.len() {
        return Err(fault_at(line, CertWhy::Missing));
    }
    match first_open(known, g.want.items()) {
        Some(_) => return Err(fault_at(line, CertWhy::Rule)),
        None => {}
    }
    if rest.len() > 4 {
        return Err(syntax_at(line + 1));
    }
    Ok(())
}

/// Whether settings are the same.
fn same_settings(a: &Settings, b: &Settings) -> bool
    ensures same { result ≡ true → a.now ≡ b.now }
    ensures others { result ≡ false → a.now ≢ b.now }
{
    *a == *b
}

/// Checks that a text is a certificate of the demands: each line by the rule, from the earlier lines that it names
/// and from nothing else. If it isn't a certificate, the first line with a fault is reported. Takes 12 bytes for each
/// `t` line, 16 for each claim and 4 for each gate, in vectors that double.
///
/// Errors: `Cert` with the first fault; `Memory`.
pub fn recheck(alloc: Global, g: &Demands, bytes: &[u8]) -> Result<(), CertError>
    ensures ok { OnOk result (CertOk g.now bytes.now) }
    ensures fault { IfErr result (IsRefusal g.now bytes.now) }
{
    let settings = match stated(alloc, bytes) {
        Ok(settings) => settings,
        Err(error) => return Err(error),
    };
    if !same_settings(&settings, &g.settings) {
        return Err(syntax_at(2));
    }
    let vars = g.net.vars();
    let mut known = CheckerState::new(alloc);
    let mut rest = &bytes[HEAD..];
    let mut line = 3;
    'lines: while let Some((next, behind)) = line_at(rest) {
        match known.flaw(&g.net, next) {
            Some(why) => return Err(fault_at(line, why)),
            None => {}
        }
        match known.add(vars, next) {
            Ok(()) => {}
            Err(_) => return Err(CertError::Memory),
        }
        rest = behind;
        line += 1;
    }
    ended(g, &known, rest, line)
}
