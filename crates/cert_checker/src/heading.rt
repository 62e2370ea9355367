//! The first two lines of a certificate: its format, and the `yes` of PIPE's check.
ghost use Rattle.std.specs.Prelude.{◌≡◌, ◌≤◌, ◌==◌, ◌++◌, ◌⊎◌, ℕ, List, drop, get_or, length, IfErr, IfOk, OnOk};
ghost use Rattle.cert_checker.specs.Certificates as spec;

use crate::fault::{CertError, CertFault, CertWhy};
use pipe_motion::Settings;
use std::alloc::Global;
use verdict_text::pipe_acceptance;

/// The number of bytes of the first two lines.
pub const HEAD: usize = 56;

/// Whether a setting's digit is 1.
fn is_set(bytes: &[u8], i: usize) -> bool
    ensures { result ≡ spec.is_set bytes.now i }
{
    match bytes.get(i) {
        Some(byte) => *byte == b'1',
        None => false,
    }
}

/// The settings that a `yes` states, read from the places of its digits.
#[tactic(auto, unfolding(crate::specs::Certificates::settings_at))]
fn settings_at(t: &[u8]) -> Settings
    ensures { result ≡ spec.settings_at t.now }
{
    let pt = [
        is_set(t, 7),
        is_set(t, 8),
        is_set(t, 9),
        is_set(t, 10),
        is_set(t, 11),
        is_set(t, 12),
        is_set(t, 13),
    ];
    let pb = [
        is_set(t, 18),
        is_set(t, 19),
        is_set(t, 20),
        is_set(t, 21),
        is_set(t, 22),
        is_set(t, 23),
        is_set(t, 24),
    ];
    Settings {
        pt,
        pb,
        tv: is_set(t, 29),
        lf: is_set(t, 34),
        je: is_set(t, 39),
        rm: is_set(t, 44),
    }
}

/// The error of a malformed line.
pub fn syntax_at(line: u64) -> CertError
    ensures { result ≡ spec.syntax_at line }
{
    CertError::Cert(CertFault {
        line,
        why: CertWhy::Syntax,
    })
}

/// The settings that a certificate states on its second line.
///
/// Errors: `Cert` with `Syntax` at line 1 or 2, the first of them that is malformed; `Memory`.
pub fn stated(alloc: Global, bytes: &[u8]) -> Result<Settings, CertError>
    ensures states { IfOk result (λ s. spec.StatesSettings bytes.now s (drop 56 bytes.now)) }
    ensures long { OnOk result (56 ≤ length bytes.now) }
    ensures none { IfErr result (spec.StatesNoSettings bytes.now) }
{
    if !bytes.starts_with(b"y86cert 1\n") {
        return Err(syntax_at(1));
    }
    let rest = &bytes[10..];
    let settings = settings_at(rest);
    let line = match pipe_acceptance(alloc, &settings) {
        Ok(line) => line,
        Err(_) => return Err(CertError::Memory),
    };
    if !rest.starts_with(line.as_slice()) {
        return Err(syntax_at(2));
    }
    Ok(settings)
}
