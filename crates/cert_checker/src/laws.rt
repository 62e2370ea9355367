//! The theorem about certificates. It is a function that does nothing and whose contract is the theorem.
ghost use Rattle.cert_checker.specs.Faults.{FaultsAreFirst, OthersRefuseByGates};
ghost use Rattle.cert_checker.specs.Meaning.{CertificatesShow};

/// If a text is a certificate of some demands, each demanded gate is true at every pattern of bits.
pub fn law_of_certificates()
    ensures { CertificatesShow }
{}

/// A text has at most one first fault, and none if it is a certificate.
pub fn law_of_faults()
    ensures { FaultsAreFirst }
{}

/// A certificate can be refused for another net with as many variables and the same settings only because of that net's
/// gates: its form, its numbers and its claims are right there too.
pub fn law_of_other_nets()
    ensures { OthersRefuseByGates }
{}
