//! The tokens of HCL.
use hcl_tree::{CmpOp, Kind, Text};

/// A token of HCL, the smallest unit of the grammar.
#[derive(Debug, Drop)]
pub enum Token {
    /// `quote`
    KeyQuote,
    /// `wordsig` and `intsig`, or `boolsig`
    KeySig(Kind),
    /// `word` and `int`, or `bool`
    KeyDef(Kind),
    /// `in`
    KeyIn,
    /// A name.
    Ident(Text),
    /// A number in range, a negative one as its two's complement.
    Number(u64),
    /// A number that is not in range.
    Wide,
    /// The text between two quotes.
    Quoted(Text),
    Assign,
    Semicolon,
    OrOr,
    AndAnd,
    Bang,
    Compare(CmpOp),
    OpenParen,
    CloseParen,
    OpenBrace,
    CloseBrace,
    OpenBracket,
    CloseBracket,
    Comma,
    Colon,
    /// A byte that may occur only in comments and quoted texts.
    Bad,
    /// A byte that begins no token, such as a lone `&` or a quote that is not closed on its line.
    Odd,
}
