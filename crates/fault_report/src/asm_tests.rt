//! What the sentences on assembly depend on, as tests of the place at which a line stops being well-formed.
use asm_faults::Part;
use yas_asm::AsmWhy;

/// How the operands of a mnemonic or a directive are written.
#[derive(Clone, Copy, Debug, PartialEq, Eq)]
pub enum Form {
    Alone,
    Registers,
    Immediate,
    Store,
    Load,
    Target,
    Single,
    Position,
    Align,
    Data,
    /// No mnemonic or directive was read.
    Unread,
}

/// A test of the place at which a line stops being well-formed.
pub enum AsmTest {
    /// The line was refused for this reason.
    Refused(AsmWhy),
    /// The grammar requires one of these parts there.
    Wants(&'static [Part]),
    /// The operands have one of these forms.
    Of(&'static [Form]),
    /// The line ends there.
    AtEnd,
    /// The text there begins with one of these.
    Begins(&'static [&'static [u8]]),
    /// The word there is one of these.
    WordIs(&'static [&'static [u8]]),
    /// The word there, in lower case, is a mnemonic, a directive or a register.
    IsCapital,
    /// The word there is a register with `%` in front of it.
    IsNakedRegister,
    /// The word there is followed by a mnemonic, a directive or the end of the line.
    IsLabelLike,
    /// The text there begins with a digit.
    BeginsDigit,
    /// The text there begins with a letter, `_`, a digit or `-`: a name or a number.
    BeginsWord,
}
