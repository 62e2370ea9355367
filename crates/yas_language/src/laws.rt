//! The theorems about the assembler's definition of a line. Each is a function that does nothing; its contract is the
//! theorem.
ghost use Rattle.yas_language.specs.Language.{AcceptsTheLanguage, ReadsTheLanguage, ReportsBadBytes, ReportsSyntax, ReportsWideNumbers};

/// For every text: a line is read with a content exactly if its tokens have this content in the language.
pub fn law_of_language()
    ensures { ReadsTheLanguage }
{}

/// A line is accepted, or refused for one of the faults of its own, exactly if the language says so. A bad byte outside
/// its comments comes first, then a text that is no line, then a number outside its bounds.
pub fn law_of_line_faults()
    ensures accepted { AcceptsTheLanguage }
    ensures bad_byte { ReportsBadBytes }
    ensures syntax { ReportsSyntax }
    ensures too_wide { ReportsWideNumbers }
{}
