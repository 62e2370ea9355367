//! The sentences on texts that are not HCL, as data. They depend on the fault, what was found, what is before it, which
//! brackets are open, and what could be there. The first rule whose tests all hold gives the sentence.
use hcl_faults::TokenKind as Kind;
use hcl_read::HclWhy as Why;

/// A test of the place at which the reader stopped.
pub enum Test {
    /// The reader's reason.
    Refused(Why),
    /// The token there has one of these kinds.
    Found(&'static [Kind]),
    /// The token there is a keyword that begins an item.
    FoundItemWord,
    /// The token there could begin an operand.
    FoundOperand,
    /// The text ends there.
    AtEnd,
    /// The text there begins with one of these.
    Begins(&'static [&'static [u8]]),
    /// The token there is one of these.
    FoundIs(&'static [&'static [u8]]),
    /// The token before it has one of these kinds.
    Behind(&'static [Kind]),
    /// The token before it is one of these.
    BehindIs(&'static [&'static [u8]]),
    /// The innermost open bracket is one of these.
    Inside(&'static [Kind]),
    /// A bracket is open.
    InsideBracket,
    /// No bracket is open.
    Outside,
    /// A token of this kind could be there.
    Takes(Kind),
    /// No token of this kind could be there.
    Refuses(Kind),
}

/// A sentence, and the tests under which it is printed.
pub struct HclRule {
    pub when: &'static [Test],
    pub code: &'static [u8],
    pub sentence: &'static [u8],
}

static LIMITS: [HclRule; 4] = [
    HclRule {
        when: &[Test::Refused(Why::BadByte)],
        code: b"hcl.byte",
        sentence: b"The byte here is no printable ASCII. Outside comments and quoted texts a file has nothing else; often it is a quotation mark, a dash or a blank from a word processor.",
    },
    HclRule {
        when: &[Test::Refused(Why::NumberTooWide)],
        code: b"hcl.number",
        sentence: b"`~found~` is out of range: numbers go from -2^63 to 2^63-1.",
    },
    HclRule {
        when: &[Test::Refused(Why::DepthOver64)],
        code: b"hcl.depth",
        sentence: b"With this `~found~` more than 64 brackets and `!` are open at one place.",
    },
    HclRule {
        when: &[Test::Refused(Why::NamesOver256)],
        code: b"hcl.names",
        sentence: b"`~found~` is the 257th different name; a file has at most 256.",
    },
];

/// Bytes, numbers, depth and names beyond the limits.
fn limits() -> &'static [HclRule] {
    &LIMITS
}

static SIGNS: [HclRule; 5] = [
    HclRule {
        when: &[Test::Begins(&[b"//", b"/*"])],
        code: b"hcl.comment",
        sentence: b"A comment begins with `#` and goes to the end of its line.",
    },
    HclRule {
        when: &[Test::Found(&[Kind::Stray]), Test::Begins(&[b"&"])],
        code: b"hcl.operator",
        sentence: b"Write `&&` for \"and\".",
    },
    HclRule {
        when: &[Test::Found(&[Kind::Stray]), Test::Begins(&[b"|"])],
        code: b"hcl.operator",
        sentence: b"Write `||` for \"or\".",
    },
    HclRule {
        when: &[Test::Found(&[Kind::Stray]), Test::Begins(&[b"'"])],
        code: b"hcl.quoted",
        sentence: b"The quoted text that begins here is not closed on its line.",
    },
    HclRule {
        when: &[Test::Found(&[Kind::Stray]), Test::Begins(&[b"\""])],
        code: b"hcl.quoted",
        sentence: b"Put a quoted text between `'` and `'`.",
    },
];

/// Comments, operators and quotes of other languages.
fn signs() -> &'static [HclRule] {
    &SIGNS
}

static ABSENT: [HclRule; 7] = [
    HclRule {
        when: &[Test::Found(&[Kind::Stray]), Test::Begins(&[b"?"])],
        code: b"hcl.conditional",
        sentence: b"HCL has no `? :`. Write a list of cases: `[ guard : value; 1 : value; ]`.",
    },
    HclRule {
        when: &[
            Test::Found(&[Kind::Stray]),
            Test::Begins(&[b"+", b"-", b"*", b"/", b"%"]),
        ],
        code: b"hcl.arithmetic",
        sentence: b"HCL has no arithmetic: only the ALU adds. Write the number itself, or a signal of the datapath.",
    },
    HclRule {
        when: &[
            Test::Found(&[Kind::Number]),
            Test::Begins(&[b"-"]),
            Test::Refuses(Kind::Number),
        ],
        code: b"hcl.arithmetic",
        sentence: b"HCL has no arithmetic: only the ALU adds. Write the number itself, or a signal of the datapath.",
    },
    HclRule {
        when: &[Test::Found(&[Kind::Stray])],
        code: b"hcl.stray",
        sentence: b"`~found~` begins no token of HCL.",
    },
    HclRule {
        when: &[
            Test::Found(&[Kind::Name]),
            Test::Begins(&[b"x", b"X"]),
            Test::BehindIs(&[b"0"]),
        ],
        code: b"hcl.hexadecimal",
        sentence: b"Numbers are decimal: `0~found~` is ~number~.",
    },
    HclRule {
        when: &[Test::BehindIs(&[b"if", b"else", b"switch", b"case", b"while"])],
        code: b"hcl.conditional",
        sentence: b"HCL has no `~before~`. Write a list of cases: `[ guard : value; 1 : value; ]`.",
    },
    HclRule {
        when: &[
            Test::Found(&[Kind::Name]),
            Test::FoundIs(&[b"if", b"else", b"switch", b"case", b"while"]),
            Test::Takes(Kind::Definition),
        ],
        code: b"hcl.conditional",
        sentence: b"HCL has no `~found~`. Write a list of cases: `[ guard : value; 1 : value; ]`.",
    },
];

/// What other languages have and HCL lacks.
fn absent() -> &'static [HclRule] {
    &ABSENT
}

static EQUALS: [HclRule; 5] = [
    HclRule {
        when: &[Test::Found(&[Kind::Assign]), Test::Begins(&[b"=<"])],
        code: b"hcl.operator",
        sentence: b"Write `<=`.",
    },
    HclRule {
        when: &[Test::Found(&[Kind::Assign]), Test::Begins(&[b"=>"])],
        code: b"hcl.operator",
        sentence: b"Write `>=`.",
    },
    HclRule {
        when: &[Test::Found(&[Kind::Assign]), Test::Takes(Kind::Comparison)],
        code: b"hcl.equals",
        sentence: b"`=` defines a signal. Write `==` to compare.",
    },
    HclRule {
        when: &[
            Test::Found(&[Kind::Assign]),
            Test::Behind(&[Kind::Comparison, Kind::Assign, Kind::Not]),
        ],
        code: b"hcl.equals",
        sentence: b"There is one `=` too many here: `=` defines a signal, and `==` and `!=` compare.",
    },
    HclRule {
        when: &[Test::Found(&[Kind::Comparison]), Test::Takes(Kind::Assign)],
        code: b"hcl.equals",
        sentence: b"A definition has a single `=`: write it in place of `~found~`.",
    },
];

/// One `=` or two.
fn equals() -> &'static [HclRule] {
    &EQUALS
}

static OPEN_ENDS: [HclRule; 6] = [
    HclRule {
        when: &[
            Test::Found(&[
                Kind::OpenParenthesis,
                Kind::OpenBracket,
                Kind::Name,
                Kind::Number,
            ]),
            Test::Behind(&[Kind::In]),
        ],
        code: b"hcl.set",
        sentence: b"Write a set in `{ }`: `x in { a, b }`.",
    },
    HclRule {
        when: &[
            Test::FoundItemWord,
            Test::Outside,
            Test::Takes(Kind::Semicolon),
        ],
        code: b"hcl.semicolon",
        sentence: b"The definition before ends without `;`. Put one after `~before~` in line ~before_line~.",
    },
    HclRule {
        when: &[Test::FoundItemWord, Test::InsideBracket],
        code: b"hcl.unclosed",
        sentence: b"The `~open~` in line ~open_line~ is not closed: `~close~` is missing before line ~line~.",
    },
    HclRule {
        when: &[Test::AtEnd, Test::InsideBracket],
        code: b"hcl.unclosed",
        sentence: b"The `~open~` in line ~open_line~ is not closed: the file ends without its `~close~`.",
    },
    HclRule {
        when: &[Test::AtEnd, Test::Outside, Test::Takes(Kind::Semicolon)],
        code: b"hcl.semicolon",
        sentence: b"The last definition ends without `;`. Put one after `~before~` in line ~before_line~.",
    },
    HclRule {
        when: &[Test::AtEnd],
        code: b"hcl.end",
        sentence: b"The file ends in the midst of an item: ~wanted~ is missing after `~before~`.",
    },
];

/// Definitions and brackets without an end.
fn open_ends() -> &'static [HclRule] {
    &OPEN_ENDS
}

static NAMES: [HclRule; 6] = [
    HclRule {
        when: &[
            Test::Found(&[Kind::Definition, Kind::Declaration, Kind::Quote, Kind::In]),
            Test::Takes(Kind::Name),
            Test::Refuses(Kind::Number),
        ],
        code: b"hcl.keyword",
        sentence: b"`~found~` is a keyword of HCL, so it can name no signal.",
    },
    HclRule {
        when: &[Test::Takes(Kind::Name), Test::Refuses(Kind::Number)],
        code: b"hcl.name",
        sentence: b"The name of a signal is missing after `~before~`: a letter, and then letters, digits and `_`.",
    },
    HclRule {
        when: &[Test::Found(&[Kind::Assign]), Test::Takes(Kind::QuotedText)],
        code: b"hcl.declaration",
        sentence: b"A declaration is `wordsig NAME 'text'`. A definition begins with `word` or `bool`.",
    },
    HclRule {
        when: &[Test::Takes(Kind::QuotedText)],
        code: b"hcl.declaration",
        sentence: b"A quoted text is missing after `~before~`: a declaration is `wordsig NAME 'text'`, and `quote` takes a quoted text alone.",
    },
    HclRule {
        when: &[Test::Begins(&[b":="]), Test::Takes(Kind::Assign)],
        code: b"hcl.equals",
        sentence: b"A definition is written with `=` alone.",
    },
    HclRule {
        when: &[Test::Takes(Kind::Assign)],
        code: b"hcl.equals",
        sentence: b"A definition is `word NAME = EXPRESSION;`: the `=` is missing after `~before~`.",
    },
];

/// Missing names, quoted texts and `=`.
fn names() -> &'static [HclRule] {
    &NAMES
}

static ITEM_BEGINS: [HclRule; 5] = [
    HclRule {
        when: &[Test::Found(&[Kind::Name]), Test::Takes(Kind::Definition)],
        code: b"hcl.definition",
        sentence: b"A definition begins with `word` or `bool`: `bool ~found~ = ..` or `word ~found~ = ..`.",
    },
    HclRule {
        when: &[
            Test::Found(&[Kind::Semicolon]),
            Test::Takes(Kind::Definition),
            Test::Behind(&[Kind::Semicolon]),
        ],
        code: b"hcl.extra",
        sentence: b"One `;` is too many.",
    },
    HclRule {
        when: &[
            Test::Found(&[Kind::Semicolon]),
            Test::Takes(Kind::Definition),
        ],
        code: b"hcl.extra",
        sentence: b"No `;` belongs here: a declaration ends with its quoted text.",
    },
    HclRule {
        when: &[
            Test::Found(&[Kind::CloseParenthesis, Kind::CloseBrace, Kind::CloseBracket]),
            Test::Outside,
        ],
        code: b"hcl.unopened",
        sentence: b"No `~opener~` is open here: this `~found~` is one too many.",
    },
    HclRule {
        when: &[Test::Takes(Kind::Definition)],
        code: b"hcl.item",
        sentence: b"An item begins with `word`, `bool`, `wordsig`, `boolsig` or `quote`, and not with `~found~`.",
    },
];

/// What cannot begin an item.
fn item_begins() -> &'static [HclRule] {
    &ITEM_BEGINS
}

static WRONG_BRACKETS: [HclRule; 3] = [
    HclRule {
        when: &[
            Test::Found(&[Kind::CloseParenthesis]),
            Test::Inside(&[Kind::OpenBrace, Kind::OpenBracket]),
        ],
        code: b"hcl.unclosed",
        sentence: b"This `~found~` does not close the `~open~` in line ~open_line~, whose `~close~` has to come first.",
    },
    HclRule {
        when: &[
            Test::Found(&[Kind::CloseBrace]),
            Test::Inside(&[Kind::OpenParenthesis, Kind::OpenBracket]),
        ],
        code: b"hcl.unclosed",
        sentence: b"This `~found~` does not close the `~open~` in line ~open_line~, whose `~close~` has to come first.",
    },
    HclRule {
        when: &[
            Test::Found(&[Kind::CloseBracket]),
            Test::Inside(&[Kind::OpenParenthesis, Kind::OpenBrace]),
        ],
        code: b"hcl.unclosed",
        sentence: b"This `~found~` does not close the `~open~` in line ~open_line~, whose `~close~` has to come first.",
    },
];

/// A bracket that closes one of another kind.
fn wrong_brackets() -> &'static [HclRule] {
    &WRONG_BRACKETS
}

static CASE_ENDS: [HclRule; 5] = [
    HclRule {
        when: &[
            Test::Found(&[Kind::Semicolon]),
            Test::Inside(&[Kind::OpenBracket]),
            Test::Takes(Kind::Colon),
        ],
        code: b"hcl.case",
        sentence: b"A case is `guard : value;`. Write a default as `1 : value;`.",
    },
    HclRule {
        when: &[
            Test::Found(&[Kind::Semicolon]),
            Test::Inside(&[Kind::OpenBracket]),
            Test::Takes(Kind::CloseBracket),
        ],
        code: b"hcl.extra",
        sentence: b"One `;` is too many.",
    },
    HclRule {
        when: &[
            Test::Found(&[Kind::Comma]),
            Test::Inside(&[Kind::OpenBracket]),
            Test::Takes(Kind::Semicolon),
        ],
        code: b"hcl.case",
        sentence: b"A case ends with `;`, not with `,`.",
    },
    HclRule {
        when: &[
            Test::Found(&[Kind::CloseBracket]),
            Test::Inside(&[Kind::OpenBracket]),
            Test::Takes(Kind::Semicolon),
        ],
        code: b"hcl.semicolon",
        sentence: b"The last case ends without `;`. Put one after `~before~` in line ~before_line~.",
    },
    HclRule {
        when: &[
            Test::Found(&[Kind::CloseBracket]),
            Test::Inside(&[Kind::OpenBracket]),
            Test::Takes(Kind::Colon),
        ],
        code: b"hcl.case",
        sentence: b"A case is `guard : value;`. Write a default as `1 : value;`.",
    },
];

/// The ends of cases.
fn case_ends() -> &'static [HclRule] {
    &CASE_ENDS
}

static CASE_PARTS: [HclRule; 4] = [
    HclRule {
        when: &[
            Test::Found(&[Kind::CloseBracket]),
            Test::Inside(&[Kind::OpenBracket]),
            Test::Behind(&[Kind::OpenBracket]),
        ],
        code: b"hcl.case",
        sentence: b"A list of cases has one case at least: `[ guard : value; ]`.",
    },
    HclRule {
        when: &[
            Test::Found(&[Kind::Colon]),
            Test::Inside(&[Kind::OpenBracket]),
            Test::Takes(Kind::Semicolon),
        ],
        code: b"hcl.case",
        sentence: b"A case has one `:`, between guard and value. Is a `;` missing before this guard?",
    },
    HclRule {
        when: &[
            Test::FoundOperand,
            Test::Inside(&[Kind::OpenBracket]),
            Test::Takes(Kind::Semicolon),
        ],
        code: b"hcl.semicolon",
        sentence: b"A `;` is missing after `~before~` in line ~before_line~, or an operator.",
    },
    HclRule {
        when: &[
            Test::FoundOperand,
            Test::Inside(&[Kind::OpenBracket]),
            Test::Takes(Kind::Colon),
        ],
        code: b"hcl.case",
        sentence: b"The `:` between guard and value is missing after `~before~`, or an operator.",
    },
];

/// The parts of cases.
fn case_parts() -> &'static [HclRule] {
    &CASE_PARTS
}

static SETS: [HclRule; 5] = [
    HclRule {
        when: &[
            Test::Found(&[Kind::Name, Kind::Number]),
            Test::Inside(&[Kind::OpenBrace]),
            Test::Takes(Kind::Comma),
        ],
        code: b"hcl.comma",
        sentence: b"The members of a set are separated by `,`: one is missing after `~before~`.",
    },
    HclRule {
        when: &[
            Test::Found(&[Kind::CloseBrace]),
            Test::Inside(&[Kind::OpenBrace]),
            Test::Behind(&[Kind::Comma]),
        ],
        code: b"hcl.comma",
        sentence: b"No `,` follows the last member of a set.",
    },
    HclRule {
        when: &[
            Test::Found(&[Kind::CloseBrace]),
            Test::Inside(&[Kind::OpenBrace]),
            Test::Behind(&[Kind::OpenBrace]),
        ],
        code: b"hcl.set",
        sentence: b"A set has one member at least: `{ a }`.",
    },
    HclRule {
        when: &[
            Test::Found(&[Kind::Semicolon, Kind::Colon]),
            Test::Inside(&[Kind::OpenBrace, Kind::OpenParenthesis]),
        ],
        code: b"hcl.unclosed",
        sentence: b"The `~open~` in line ~open_line~ is not closed: `~close~` is missing after `~before~`.",
    },
    HclRule {
        when: &[
            Test::Found(&[Kind::CloseParenthesis]),
            Test::Inside(&[Kind::OpenParenthesis]),
            Test::Behind(&[Kind::OpenParenthesis]),
        ],
        code: b"hcl.operand",
        sentence: b"An expression is missing between `(` and `)`.",
    },
];

/// Sets and parentheses.
fn sets() -> &'static [HclRule] {
    &SETS
}

static PLACES: [HclRule; 5] = [
    HclRule {
        when: &[
            Test::Found(&[Kind::Comparison, Kind::In]),
            Test::Takes(Kind::And),
        ],
        code: b"hcl.chain",
        sentence: b"Comparisons do not chain: join two of them by `&&`.",
    },
    HclRule {
        when: &[Test::Found(&[Kind::Not]), Test::Behind(&[Kind::Comparison])],
        code: b"hcl.operand",
        sentence: b"After `~before~` comes a word: a number, a name or an expression in brackets.",
    },
    HclRule {
        when: &[Test::Found(&[Kind::OpenBrace])],
        code: b"hcl.set",
        sentence: b"`{ }` follows `in` alone. Write a list of cases in `[ ]`, and group by `( )`.",
    },
    HclRule {
        when: &[Test::Found(&[Kind::QuotedText])],
        code: b"hcl.quoted",
        sentence: b"Quoted texts belong to `quote` and to declarations alone.",
    },
    HclRule {
        when: &[Test::Found(&[Kind::Comma])],
        code: b"hcl.comma",
        sentence: b"`,` separates the members of a set, `{ a, b }`, and nothing else.",
    },
];

/// Tokens that belong elsewhere.
fn places() -> &'static [HclRule] {
    &PLACES
}

static OPERANDS: [HclRule; 5] = [
    HclRule {
        when: &[
            Test::Found(&[Kind::OpenParenthesis]),
            Test::Behind(&[Kind::Name]),
            Test::Takes(Kind::And),
        ],
        code: b"hcl.operator",
        sentence: b"HCL has no functions: an operator is missing between `~before~` and `(`.",
    },
    HclRule {
        when: &[Test::Takes(Kind::Number)],
        code: b"hcl.operand",
        sentence: b"An operand is missing after `~before~`: a number, a name or an expression in brackets.",
    },
    HclRule {
        when: &[Test::FoundOperand, Test::Takes(Kind::Semicolon)],
        code: b"hcl.operator",
        sentence: b"An operator is missing between `~before~` and `~found~`, or a `;`.",
    },
    HclRule {
        when: &[Test::Found(&[Kind::Colon])],
        code: b"hcl.case",
        sentence: b"`:` belongs in a list of cases alone: `[ guard : value; ]`.",
    },
    HclRule {
        when: &[],
        code: b"hcl.token",
        sentence: b"`~found~` does not belong here. Here could be: ~wanted~.",
    },
];

/// Operands and operators, and any other token.
fn operands() -> &'static [HclRule] {
    &OPERANDS
}

/// The rules in groups, in the order in which they are tried; `None` after the last group.
pub fn hcl_rules(group: usize) -> Option<&'static [HclRule]> {
    match group {
        0 => Some(limits()),
        1 => Some(signs()),
        2 => Some(absent()),
        3 => Some(equals()),
        4 => Some(open_ends()),
        5 => Some(names()),
        6 => Some(item_begins()),
        7 => Some(wrong_brackets()),
        8 => Some(case_ends()),
        9 => Some(case_parts()),
        10 => Some(sets()),
        11 => Some(places()),
        12 => Some(operands()),
        _ => None,
    }
}
