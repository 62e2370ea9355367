//! The theorems about certificates of files. Each is a function that does nothing and whose contract is the theorem.
ghost use Rattle.cert_log.specs.DesignDemands.{CertifiedFilesHold, CertifiedFilesRefine, DemandsAreExact};
ghost use Rattle.cert_log.specs.Files.{CertificatesAreKept};

/// The demands of a file at settings are true at every pattern of bits exactly if the file meets its obligations at
/// these settings. So `write` has a certificate of each file that meets them.
pub fn law_of_demands()
    ensures { DemandsAreExact }
{}

/// If a text is a certificate of the demands of a file at settings, the file meets its obligations at these settings.
pub fn law_of_certified_files()
    ensures { CertifiedFilesHold }
{}

/// So the pipelined machine of a certified file refines the run of instructions.
pub fn law_of_certified_refinement()
    ensures { CertifiedFilesRefine }
{}

/// A certificate of a design is for one list of settings. If it is checked for the same design, it can be refused only
/// because of the gates of the net.
pub fn law_of_kept_certificates()
    ensures { CertificatesAreKept }
{}
