//! Reads the tokens of a line, one after another.
ghost use Rattle.std.specs.Prelude.{IfNone, ◌≡◌, List, ℕ};
ghost use Rattle.yas_asm.specs.Comments as comments;
ghost use Rattle.yas_asm.specs.Tokens as tokens;
ghost use Rattle.yas_asm.specs.Tables as tables;
ghost use Rattle.yas_asm.specs.Grammar as grammar;
ghost use Rattle.yas_asm.specs.Reads.{LeavesRest, LeavesRestOfSign};

use crate::comment::comment_length;
use crate::name::Name;
use crate::number::number_at;
use crate::statement::Directive;
use crate::tables::directives;
use std::marker::Model;
use y86_base::{
    Number, after_blanks, after_byte, is_blank, is_letter, keyword_at, register_names, split_name,
};

/// The rest of a line as it is read, seen as its bytes.
#[derive(Drop)]
pub struct Reader<'a> {
    rest: &'a [u8],
}

impl<'a> Model for Reader<'a> {
    ghost use Rattle.std.specs.Prelude.{List, ℕ};

    ghost Value = { List ℕ };

    ghost view = { λ reader. reader.rest.now };
}

/// Whether a name can begin with a byte.
pub fn is_name_start(byte: u8) -> bool
    ensures { result ≡ tokens.is_name_start byte }
{
    is_letter(byte) || byte == b'_'
}

impl<'a> Reader<'a> {
    /// A reader at the beginning of a line.
    pub fn new(line: &'a [u8]) -> Reader<'a>
        ensures { result ≡ line.now }
    {
        Reader { rest: line }
    }

    /// Reads a sign.
    #[tactic(auto, unfolding(crate::specs::Tokens::sign))]
    pub fn sign(&mut self, wanted: u8) -> Option<()>
        ensures { LeavesRestOfSign result (tokens.sign wanted self.old) self.new }
    {
        self.rest = after_byte(after_blanks(self.rest), wanted)?;
        Some(())
    }

    /// Reads a name.
    #[tactic(auto, unfolding(crate::specs::Tokens::name))]
    pub fn name(&mut self) -> Option<Name<'a>>
        ensures { LeavesRest result (tokens.name self.old) self.new }
    {
        let text = after_blanks(self.rest);
        if !is_name_start(*text.first()?) {
            return None;
        }
        let (bytes, behind) = split_name(text);
        self.rest = behind;
        Some(Name::new(bytes))
    }

    /// Skips a sign that may be missing.
    #[tactic(auto, unfolding(crate::specs::Tokens::after_sign, crate::specs::Tokens::sign))]
    pub fn skip_sign(&mut self, wanted: u8)
        ensures { self.new ≡ tokens.after_sign wanted self.old }
    {
        if let Some(behind) = after_byte(after_blanks(self.rest), wanted) {
            self.rest = behind;
        }
    }

    /// Whether a sign comes next.
    #[tactic(auto, unfolding(crate::specs::Tokens::next_is))]
    pub fn next_is(&self, wanted: u8) -> bool
        ensures { result ≡ tokens.next_is wanted self.now }
    {
        match after_blanks(self.rest).first() {
            None => false,
            Some(first) => *first == wanted,
        }
    }

    /// Reads a number.
    #[tactic(auto, unfolding(crate::specs::Tokens::number))]
    pub fn number(&mut self) -> Option<Number>
        ensures read { LeavesRest result (tokens.number self.old) self.new }
        ensures stays { IfNone result (self.new ≡ self.old) }
    {
        let (number, behind) = number_at(after_blanks(self.rest))?;
        self.rest = behind;
        Some(number)
    }

    /// Reads a register.
    #[tactic(auto, unfolding(crate::specs::Tables::register))]
    pub fn register(&mut self) -> Option<u8>
        ensures { LeavesRest result (tables.register self.old) self.new }
    {
        let (number, behind) = keyword_at(register_names(), after_blanks(self.rest))?;
        self.rest = behind;
        Some(number)
    }

    /// Reads a directive.
    #[tactic(auto, unfolding(crate::specs::Tables::directive))]
    pub fn directive(&mut self) -> Option<Directive>
        ensures read { LeavesRest result (tables.directive self.old) self.new }
        ensures stays { IfNone result (self.new ≡ self.old) }
    {
        let (directive, behind) = keyword_at(directives(), after_blanks(self.rest))?;
        self.rest = behind;
        Some(directive)
    }

    /// Reads a label, if there is one in front.
    #[tactic(auto, unfolding(crate::specs::Grammar::label))]
    pub fn label(&mut self) -> Option<Name<'a>>
        ensures { (result, self.new) ≡ grammar.label self.old }
    {
        let start = self.rest;
        if let Some(name) = self.name() {
            if let Some(()) = self.sign(b':') {
                return Some(name);
            }
        }
        self.rest = start;
        None
    }

    /// Whether the line ends here, apart from a comment.
    #[tactic(auto, unfolding(crate::specs::Comments::ends))]
    pub fn ends(&self) -> bool
        ensures { result ≡ comments.ends self.now }
    {
        let text = after_blanks(self.rest);
        text.split_at(comment_length(text))
            .1
            .iter()
            .all(|byte| is_blank(*byte))
    }
}
