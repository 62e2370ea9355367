//! Theorems about assembled sources: comments, lines, faults, labels, listings and images.
ghost use Rattle.yas_asm.specs.Spacing.{SpacingIsFree};
ghost use Rattle.yas_asm.specs.Laws.{AcceptedWithoutFault, AlignIsLeast, BytesHaveOneLine, CloseIsFirst, FirstFaultIsReported, ImageHasLines, ImageIsZeroElsewhere, LabelsAreAddresses, LabelsAreOfLines, LeastReasonIsReported, LinesFollow, LinesShow, SweepPassesComments, TextsStandThere};

/// A `/*` extends to the first `*/`. The sweep for bad bytes passes a comment as a whole, and any other byte by itself.
pub fn law_of_comments()
    ensures close { CloseIsFirst }
    ensures sweep { SweepPassesComments }
{}

/// The lines of a source have its texts; each is read by itself; the first is at address 0, and each other where the
/// line before it leads.
pub fn law_of_source_lines()
    ensures { LinesFollow }
{}

/// A source is accepted exactly if no line has a fault. Otherwise the first line with a fault is reported, with the
/// first reason, in the order of `AsmWhy`, that applies to it.
pub fn law_of_faults()
    ensures accepted { AcceptedWithoutFault }
    ensures first { FirstFaultIsReported }
    ensures least { LeastReasonIsReported }
{}

/// In an accepted source the value of a label is the address before its line's statement. In every source a label with
/// a value belongs to the first line that has it, and its value is this line's address.
pub fn law_of_labels()
    ensures addresses { LabelsAreAddresses }
    ensures lines { LabelsAreOfLines }
{}

/// Each line of an accepted source's listing belongs to the source line in the same place. It shows the address before
/// its statement, or the one to which `.pos` or `.align` leads, and has the bytes of its statement.
#[tactic(auto, using(crate::proofs::ShownLines::lines_show))]
pub fn law_of_listings()
    ensures { LinesShow }
{}

/// In the listing of an accepted source no two lines emit a byte at one address.
#[tactic(auto, using(crate::proofs::ByteLemmas::bytes_have_one_line))]
pub fn law_of_bytes()
    ensures { BytesHaveOneLine }
{}

/// The memory image of an accepted source has the bytes of each line at its address, and zeros elsewhere.
pub fn law_of_images()
    ensures lines { ImageHasLines }
    ensures zeros { ImageIsZeroElsewhere }
{}

/// Two sources that differ only in comments and blanks have the same addresses and bytes, line for line, or the same
/// fault in the same line.
pub fn law_of_spacing()
    ensures { SpacingIsFree }
{}

/// `.align` goes to the least multiple of its number that is not below the address.
pub fn law_of_align()
    ensures { AlignIsLeast }
{}

/// The listing of an accepted source says where in the source the text of each of its lines is.
pub fn law_of_source_texts()
    ensures { TextsStandThere }
{}
