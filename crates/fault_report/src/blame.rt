//! Which part of a definition's body is a word where a Boolean is required, or a Boolean where a word is.
use crate::binding_faults::row_of;
use hcl_tree::{Branch, Expr, Kind};
use hcl_types::{Class, Row};

/// What has the wrong kind.
#[derive(Clone, Copy, Debug, PartialEq, Eq)]
pub enum Blamed {
    /// The name of a word, where a Boolean is required.
    WordName,
    /// The name of a Boolean, where a word is required.
    BooleanName,
    /// A number other than 0 and 1, where a Boolean is required.
    Number,
    /// A list of cases, where a Boolean is required.
    Cases,
    /// Another expression, where a word is required.
    Expression,
}

/// What has the wrong kind, and the number of names and numbers before it in the body.
#[derive(Clone, Copy, Debug, PartialEq, Eq)]
pub struct Blame {
    pub what: Blamed,
    pub leaf: usize,
}

/// The kind of a row's values.
pub fn kind_of_row(row: &Row) -> Kind {
    match row.class {
        Class::Truth => Kind::Bool,
        Class::Number => Kind::Word,
        Class::Code => Kind::Word,
        Class::Value => Kind::Word,
    }
}

/// Blames a name if its kind isn't the required one.
fn blame_name(rows: &[Row], name: &[u8], wanted: Kind, leaf: usize) -> Option<Blame> {
    match row_of(rows, name) {
        None => None,
        Some(row) => match (wanted, kind_of_row(row)) {
            (Kind::Bool, Kind::Word) => Some(Blame {
                what: Blamed::WordName,
                leaf,
            }),
            (Kind::Word, Kind::Bool) => Some(Blame {
                what: Blamed::BooleanName,
                leaf,
            }),
            _ => None,
        },
    }
}

/// The first part of an expression that has the wrong kind, if the expression is required to have kind `wanted`. Adds
/// to `leaf` how many names and numbers it passes.
#[cycle(blaming)]
pub fn first_blame(rows: &[Row], e: &Expr, wanted: Kind, leaf: &mut usize) -> Option<Blame> {
    let first = *leaf;
    let is_word = wanted == Kind::Word;
    match e {
        Expr::Num(n) => {
            *leaf = first.saturating_add(1);
            if is_word || *n < 2 {
                return None;
            }
            let what = Blamed::Number;
            Some(Blame { what, leaf: first })
        }
        Expr::Name(name) => {
            *leaf = first.saturating_add(1);
            blame_name(rows, name.bytes(), wanted, first)
        }
        Expr::Case(all) => {
            if is_word {
                return blame_cases(rows, all.items(), leaf);
            }
            let what = Blamed::Cases;
            Some(Blame { what, leaf: first })
        }
        _ => {
            if is_word {
                let what = Blamed::Expression;
                return Some(Blame { what, leaf: first });
            }
            blame_truth(rows, e, leaf)
        }
    }
}

/// The same for an expression that is a Boolean, by its operands.
#[cycle(blaming)]
fn blame_truth(rows: &[Row], e: &Expr, leaf: &mut usize) -> Option<Blame> {
    match e {
        Expr::Not(x) => first_blame(rows, x.get(), Kind::Bool, leaf),
        Expr::And(all) => blame_all(rows, all.items(), Kind::Bool, leaf),
        Expr::Or(all) => blame_all(rows, all.items(), Kind::Bool, leaf),
        Expr::Cmp(_, x, y) => match first_blame(rows, x.get(), Kind::Word, leaf) {
            Some(found) => Some(found),
            None => first_blame(rows, y.get(), Kind::Word, leaf),
        },
        Expr::In(x, all) => match first_blame(rows, x.get(), Kind::Word, leaf) {
            Some(found) => Some(found),
            None => blame_all(rows, all.items(), Kind::Word, leaf),
        },
        _ => None,
    }
}

#[cycle(blaming)]
fn blame_all(rows: &[Row], all: &[Expr], wanted: Kind, leaf: &mut usize) -> Option<Blame> {
    for e in all {
        if let Some(found) = first_blame(rows, e, wanted, leaf) {
            return Some(found);
        }
    }
    None
}

#[cycle(blaming)]
fn blame_cases(rows: &[Row], all: &[Branch], leaf: &mut usize) -> Option<Blame> {
    for branch in all {
        if let Some(found) = first_blame(rows, &branch.guard, Kind::Bool, leaf) {
            return Some(found);
        }
        if let Some(found) = first_blame(rows, &branch.value, Kind::Word, leaf) {
            return Some(found);
        }
    }
    None
}
