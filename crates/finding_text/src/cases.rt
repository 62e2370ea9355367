//! Where the cases of definitions are in the text of a file, to print the case that a definition takes.

/// A case of a definition in the text of a file: its signal, its number, counted from 0, its place, counted from 1, and its bytes.
#[derive(Clone, Copy, Debug)]
pub struct CasePlace<'a> {
    pub signal: &'a str,
    pub number: usize,
    pub line: u64,
    pub column: u64,
    pub text: &'a str,
}

/// The place of a case.
pub fn place_of<'a>(
    cases: &'a [CasePlace<'a>],
    signal: &str,
    number: usize,
) -> Option<&'a CasePlace<'a>> {
    for case in cases {
        if case.number == number && case.signal == signal {
            return Some(case);
        }
    }
    None
}
