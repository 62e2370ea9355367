//! Why a text isn't a certificate.
use thiserror::Error;

/// The error in a line of a certificate. If a line has several, the first one in this order is reported.
#[derive(Clone, Copy, Debug, PartialEq, Eq, Error)]
pub enum CertWhy {
    /// It isn't a line of a certificate, or not the one that is required there.
    #[error("Syntax")]
    Syntax,
    /// One of its numbers doesn't name an earlier term, an earlier claim or a variable, as its place requires.
    #[error("Number")]
    Number,
    /// It makes a claim that isn't justified.
    #[error("Claim")]
    Claim,
    /// It doesn't fit the next gate, or there is no next gate.
    #[error("Gate")]
    Gate,
    /// The certificate ends before each gate has its line.
    #[error("Missing")]
    Missing,
    /// The certificate ends, but a demanded gate doesn't have term 1.
    #[error("Rule")]
    Rule,
}

/// The first line with a fault, counted from 1.
#[derive(Clone, Copy, Debug, PartialEq, Eq, Error)]
#[error("{line}: {why}")]
pub struct CertFault {
    pub line: u64,
    pub why: CertWhy,
}

/// Why a certificate isn't accepted.
#[derive(Clone, Copy, Debug, PartialEq, Eq, Error)]
pub enum CertError {
    /// The text isn't a certificate of the demands.
    #[error("{0}")]
    Cert(CertFault),
    /// An allocation was refused.
    #[error("Memory")]
    Memory,
}
