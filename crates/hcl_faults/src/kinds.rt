//! The kinds of tokens that the grammar distinguishes.
ghost use Rattle.std.specs.Prelude.{◌≡◌};
ghost use Rattle.hcl_faults.specs.Kinds as spec;

use hcl_read::Token;
use hcl_tree::{CmpOp, Kind, Text};
use std::alloc::Global;

/// A kind of token that the grammar distinguishes.
#[derive(Clone, Copy, Debug, PartialEq, Eq)]
pub enum TokenKind {
    /// `quote`
    Quote,
    /// `wordsig`, `intsig` or `boolsig`
    Declaration,
    /// `word`, `int` or `bool`
    Definition,
    /// `in`
    In,
    /// A name.
    Name,
    /// A number in range.
    Number,
    /// A number that is out of range.
    WideNumber,
    /// A text in quotes.
    QuotedText,
    Assign,
    Semicolon,
    Or,
    And,
    Not,
    /// `==`, `!=`, `<`, `<=`, `>` or `>=`
    Comparison,
    OpenParenthesis,
    CloseParenthesis,
    OpenBrace,
    CloseBrace,
    OpenBracket,
    CloseBracket,
    Comma,
    Colon,
    /// A byte that may occur only in comments and quoted texts.
    BadByte,
    /// A byte that begins no token.
    Stray,
}

/// The kind of a token.
pub fn kind_of(token: &Token) -> TokenKind
    ensures { result ≡ spec.kind_of token.now }
{
    match token {
        Token::KeyQuote => TokenKind::Quote,
        Token::KeySig(_) => TokenKind::Declaration,
        Token::KeyDef(_) => TokenKind::Definition,
        Token::KeyIn => TokenKind::In,
        Token::Ident(_) => TokenKind::Name,
        Token::Number(_) => TokenKind::Number,
        Token::Wide => TokenKind::WideNumber,
        Token::Quoted(_) => TokenKind::QuotedText,
        Token::Assign => TokenKind::Assign,
        Token::Semicolon => TokenKind::Semicolon,
        Token::OrOr => TokenKind::Or,
        Token::AndAnd => TokenKind::And,
        Token::Bang => TokenKind::Not,
        Token::Compare(_) => TokenKind::Comparison,
        Token::OpenParen => TokenKind::OpenParenthesis,
        Token::CloseParen => TokenKind::CloseParenthesis,
        Token::OpenBrace => TokenKind::OpenBrace,
        Token::CloseBrace => TokenKind::CloseBrace,
        Token::OpenBracket => TokenKind::OpenBracket,
        Token::CloseBracket => TokenKind::CloseBracket,
        Token::Comma => TokenKind::Comma,
        Token::Colon => TokenKind::Colon,
        Token::Bad => TokenKind::BadByte,
        Token::Odd => TokenKind::Stray,
    }
}

/// A token of a kind. Where it may occur, each token of its kind may.
pub fn sample(alloc: Global, kind: TokenKind) -> Token
    ensures { result ≡ spec.sample kind }
{
    match kind {
        TokenKind::Quote => Token::KeyQuote,
        TokenKind::Declaration => Token::KeySig(Kind::Word),
        TokenKind::Definition => Token::KeyDef(Kind::Word),
        TokenKind::In => Token::KeyIn,
        TokenKind::Name => Token::Ident(Text::empty(alloc)),
        TokenKind::Number => Token::Number(0),
        TokenKind::WideNumber => Token::Wide,
        TokenKind::QuotedText => Token::Quoted(Text::empty(alloc)),
        TokenKind::Assign => Token::Assign,
        TokenKind::Semicolon => Token::Semicolon,
        TokenKind::Or => Token::OrOr,
        TokenKind::And => Token::AndAnd,
        TokenKind::Not => Token::Bang,
        TokenKind::Comparison => Token::Compare(CmpOp::Eq),
        TokenKind::OpenParenthesis => Token::OpenParen,
        TokenKind::CloseParenthesis => Token::CloseParen,
        TokenKind::OpenBrace => Token::OpenBrace,
        TokenKind::CloseBrace => Token::CloseBrace,
        TokenKind::OpenBracket => Token::OpenBracket,
        TokenKind::CloseBracket => Token::CloseBracket,
        TokenKind::Comma => Token::Comma,
        TokenKind::Colon => Token::Colon,
        TokenKind::BadByte => Token::Bad,
        TokenKind::Stray => Token::Odd,
    }
}
