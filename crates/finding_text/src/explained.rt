//! A file as the explanations need it.
use crate::cases::CasePlace;
use hcl_types::{Row, Term};

/// What the findings on a file are explained with.
#[derive(Clone, Copy)]
pub struct ExplainedFile<'a> {
    /// The rows of its table, with their names.
    pub rows: &'a [Row],
    /// Its definitions, in the order of the rows.
    pub terms: &'a [Term],
    /// Where the cases of the definitions are in its text.
    pub cases: &'a [CasePlace<'a>],
}
