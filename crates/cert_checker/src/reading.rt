//! The lines of a certificate, read one by one.
ghost use Rattle.std.specs.Prelude.{◌≡◌, ◌≤◌, ◌++◌, ℕ, List, length, IfSome, IsSomeAnd, MatchOption};
ghost use Rattle.cert_checker.specs.Lines as spec;
ghost use Rattle.cert_checker.specs.declared.line.LineKind.{LineKind};
ghost use Rattle.cert_checker.specs.declared.line.CertLine.{CertLine};

use crate::line::{CertLine, LineKind};
use crate::numbers::numbers_at;

/// The kind of the lines that begin with a letter.
fn kind_of(letter: u8) -> Option<LineKind>
    ensures { MatchOption result ((k : LineKind) → spec.letter k ≡ letter → ⊥) (λ k. spec.letter k ≡ letter) }
{
    if letter == b't' {
        return Some(LineKind::Term);
    }
    if letter == b'a' {
        return Some(LineKind::And);
    }
    if letter == b's' {
        return Some(LineKind::AndCases);
    }
    if letter == b'n' {
        return Some(LineKind::Not);
    }
    if letter == b'm' {
        return Some(LineKind::NotCases);
    }
    if letter == b'g' {
        return Some(LineKind::Gate);
    }
    if letter == b'h' {
        return Some(LineKind::GateBy);
    }
    None
}

/// How many numbers a line of a kind has.
fn count(kind: LineKind) -> usize
    ensures count { result ≡ spec.count kind }
    ensures few { result ≤ 6 }
{
    match kind {
        LineKind::Term | LineKind::And => 3,
        LineKind::AndCases => 6,
        LineKind::Not | LineKind::GateBy => 2,
        LineKind::NotCases => 5,
        LineKind::Gate => 1,
    }
}

/// The line of a kind with these numbers.
fn line_with(kind: LineKind, n: &[u64; 6]) -> CertLine
    ensures { result ≡ spec.line_with kind n.now }
{
    match kind {
        LineKind::Term => CertLine::Term {
            var: n[0],
            low: n[1],
            high: n[2],
        },
        LineKind::And => CertLine::And {
            left: n[0],
            right: n[1],
            both: n[2],
        },
        LineKind::AndCases => CertLine::AndCases {
            left: n[0],
            right: n[1],
            both: n[2],
            var: n[3],
            low: n[4],
            high: n[5],
        },
        LineKind::Not => CertLine::Not {
            of: n[0],
            not: n[1],
        },
        LineKind::NotCases => CertLine::NotCases {
            of: n[0],
            not: n[1],
            var: n[2],
            low: n[3],
            high: n[4],
        },
        LineKind::Gate => CertLine::Gate { term: n[0] },
        LineKind::GateBy => CertLine::GateBy {
            term: n[0],
            claim: n[1],
        },
    }
}

/// The line at the front, and the bytes after it.
pub fn line_at(bytes: &[u8]) -> Option<(CertLine, &[u8])>
    ensures found { IfSome result (λ x. spec.IsLine x.0 × (bytes.now ≡ spec.line_text x.0 ++ x.1.now)) }
    ensures only { (line : CertLine) (rest : List ℕ) → spec.IsLine line → bytes.now ≡ spec.line_text line ++ rest →
        IsSomeAnd result (λ x. (x.0 ≡ line) × (x.1.now ≡ rest)) }
{
    if bytes.is_empty() {
        return None;
    }
    let Some(kind) = kind_of(bytes[0]) else {
        return None;
    };
    let Some(found) = numbers_at(&bytes[1..], count(kind)) else {
        return None;
    };
    Some((line_with(kind, &found.0), found.1))
}
