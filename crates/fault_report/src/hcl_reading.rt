//! The fault of a text that is not HCL, as a sentence.
use crate::facts::{Fault, Related, other_place, part};
use crate::fill::{Words, filled, no_words};
use crate::hcl_rules::{HclRule, Test, hcl_rules};
use hcl_faults::{Stopped, TokenAt, TokenKind as Kind, place_at, token_text};
use hcl_read::HclWhy;
use hcl_tree::Text;
use std::alloc::Global;
use y86_base::{Items, Memory, number_in_base, push, put};

/// The facts that the tests of a rule need.
#[derive(Clone, Copy)]
struct Scene<'a> {
    why: HclWhy,
    /// The text from the place on.
    rest: &'a [u8],
    found: Option<Kind>,
    found_text: &'a [u8],
    behind: Option<Kind>,
    behind_text: &'a [u8],
    open: Option<Kind>,
    expected: &'a [Kind],
}

/// The name of a kind of token.
pub fn kind_name(kind: Kind) -> &'static [u8] {
    match kind {
        Kind::Quote => b"`quote`",
        Kind::Declaration => b"`wordsig` or `boolsig`",
        Kind::Definition => b"`word` or `bool`",
        Kind::In => b"`in`",
        Kind::Name => b"a name",
        Kind::Number => b"a number",
        Kind::WideNumber => b"a number out of range",
        Kind::QuotedText => b"a quoted text",
        Kind::Assign => b"`=`",
        Kind::Semicolon => b"`;`",
        Kind::Or => b"`||`",
        Kind::And => b"`&&`",
        Kind::Not => b"`!`",
        Kind::Comparison => b"a comparison",
        Kind::OpenParenthesis => b"`(`",
        Kind::CloseParenthesis => b"`)`",
        Kind::OpenBrace => b"`{`",
        Kind::CloseBrace => b"`}`",
        Kind::OpenBracket => b"`[`",
        Kind::CloseBracket => b"`]`",
        Kind::Comma => b"`,`",
        Kind::Colon => b"`:`",
        Kind::BadByte => b"a byte that is no printable ASCII",
        Kind::Stray => b"a byte that begins no token",
    }
}

/// The bracket that closes an opening one, or opens a closing one.
fn partner(kind: Option<Kind>) -> &'static [u8] {
    match kind {
        Some(Kind::OpenParenthesis) => b")",
        Some(Kind::OpenBrace) => b"}",
        Some(Kind::OpenBracket) => b"]",
        Some(Kind::CloseParenthesis) => b"(",
        Some(Kind::CloseBrace) => b"{",
        Some(Kind::CloseBracket) => b"[",
        _ => b"",
    }
}

/// Whether a kind is in a list.
fn is_among(kinds: &[Kind], kind: Kind) -> bool {
    kinds.iter().any(|other| *other == kind)
}

/// Whether a kind, if there is one, is in a list.
fn is_one_of(kinds: &[Kind], kind: Option<Kind>) -> bool {
    match kind {
        None => false,
        Some(kind) => is_among(kinds, kind),
    }
}

/// Whether a token is a keyword that begins an item.
fn is_item_word(kind: Option<Kind>) -> bool {
    matches!(
        kind,
        Some(Kind::Definition | Kind::Declaration | Kind::Quote)
    )
}

/// Whether a token could begin an operand.
fn is_operand(kind: Option<Kind>) -> bool {
    matches!(
        kind,
        Some(Kind::Name | Kind::Number | Kind::Not | Kind::OpenParenthesis | Kind::OpenBracket)
    )
}

/// Whether a text begins with one of a list.
pub fn begins_with(texts: &[&'static [u8]], bytes: &[u8]) -> bool {
    for text in texts {
        if bytes.starts_with(*text) {
            return true;
        }
    }
    false
}

/// Whether a text is in a list.
pub fn is_text_of(texts: &[&'static [u8]], bytes: &[u8]) -> bool {
    for text in texts {
        if bytes == *text {
            return true;
        }
    }
    false
}

/// Whether a test holds.
fn holds(test: &Test, scene: &Scene) -> bool {
    match test {
        Test::Refused(why) => scene.why == *why,
        Test::Found(kinds) => is_one_of(*kinds, scene.found),
        Test::FoundItemWord => is_item_word(scene.found),
        Test::FoundOperand => is_operand(scene.found),
        Test::AtEnd => scene.found.is_none(),
        Test::Begins(texts) => begins_with(*texts, scene.rest),
        Test::FoundIs(texts) => is_text_of(*texts, scene.found_text),
        Test::Behind(kinds) => is_one_of(*kinds, scene.behind),
        Test::BehindIs(texts) => is_text_of(*texts, scene.behind_text),
        Test::Inside(kinds) => is_one_of(*kinds, scene.open),
        Test::InsideBracket => scene.open.is_some(),
        Test::Outside => scene.open.is_none(),
        Test::Takes(kind) => is_among(scene.expected, *kind),
        Test::Refuses(kind) => !is_among(scene.expected, *kind),
    }
}

/// Whether all tests of a rule hold.
fn applies(rule: &HclRule, scene: &Scene) -> bool {
    for test in rule.when {
        if !holds(test, scene) {
            return false;
        }
    }
    true
}

/// The first rule of a list that applies, as its code and its pattern.
fn rule_among(rules: &[HclRule], scene: &Scene) -> Option<(&'static [u8], &'static [u8])> {
    for rule in rules {
        if applies(rule, scene) {
            return Some((rule.code, rule.sentence));
        }
    }
    None
}

/// The first rule that applies, as its code and its pattern.
fn first_rule(scene: &Scene) -> (&'static [u8], &'static [u8]) {
    for group in 0..99 {
        if let Some(rules) = hcl_rules(group) {
            if let Some(found) = rule_among(rules, scene) {
                return found;
            }
        }
    }
    (b"hcl.token", b"The text is no HCL from here on.")
}

/// The names of the kinds, with `,` between them.
fn wanted_list(alloc: Global, kinds: &[Kind]) -> Result<Vec<u8>, Memory> {
    let mut out = Vec::new(alloc);
    for kind in kinds {
        if !out.is_empty() {
            match put(&mut out, b", ") {
                Err(memory) => return Err(memory),
                Ok(()) => {}
            }
        }
        match put(&mut out, kind_name(*kind)) {
            Err(memory) => return Err(memory),
            Ok(()) => {}
        }
    }
    Ok(out)
}

/// The names of the kinds.
fn expected_names(alloc: Global, kinds: &[Kind]) -> Result<Vec<&'static [u8]>, Memory> {
    let mut names = Vec::new(alloc);
    for kind in kinds {
        match push(&mut names, kind_name(*kind)) {
            Err(memory) => return Err(memory),
            Ok(()) => {}
        }
    }
    Ok(names)
}

/// The bytes of a token as they are printed. If no token begins there, it is only the first byte.
fn told_text<'a>(text: &'a [u8], token: &TokenAt) -> &'a [u8] {
    match token.kind {
        Kind::Stray | Kind::BadByte => part(text, token.from, token.from.saturating_add(1)),
        _ => token_text(text, token),
    }
}

/// The number that the hex digits after an `x` denote, and 0 if it is 2^64 or more.
fn hex_number(bytes: &[u8]) -> u64 {
    match bytes.split_first() {
        None => 0,
        Some((_, digits)) => number_in_base(16, digits).unwrap_or(0),
    }
}

/// Line and column of a token.
pub fn line_of(text: &[u8], token: &TokenAt) -> (u64, u64) {
    let at = token.from;
    if at <= text.len() {
        let place = place_at(text, at);
        (place.line, place.column)
    } else {
        (0, 0)
    }
}

/// The token before a position.
fn token_before(tokens: &[TokenAt], index: usize) -> Option<&TokenAt> {
    if index == 0 {
        return None;
    }
    tokens.get(index - 1)
}

/// Adds a token as a place that a fault refers to.
fn put_related(
    alloc: Global,
    list: &mut Vec<Related>,
    role: &'static [u8],
    text: &[u8],
    token: &TokenAt,
) -> Result<(), Memory> {
    let (line, column) = line_of(text, token);
    match other_place(alloc, role, told_text(text, token), line, column) {
        Err(memory) => Err(memory),
        Ok(other) => push(list, other),
    }
}

/// The open brackets, the innermost first, and the token in front.
fn related_places(
    alloc: Global,
    text: &[u8],
    open: &[TokenAt],
    before: Option<&TokenAt>,
) -> Result<Vec<Related>, Memory> {
    let mut list = Vec::new(alloc);
    let mut rest = open;
    'brackets: while let Some((bracket, outer)) = rest.split_last() {
        match put_related(alloc, &mut list, b"bracket", text, bracket) {
            Err(memory) => return Err(memory),
            Ok(()) => rest = outer,
        }
    }
    if let Some(token) = before {
        match put_related(alloc, &mut list, b"before", text, token) {
            Err(memory) => return Err(memory),
            Ok(()) => {}
        }
    }
    Ok(list)
}

/// The word that `y86` prints as the reason for refusing a text.
fn reason_word(why: HclWhy) -> &'static [u8] {
    match why {
        HclWhy::Syntax => b"Syntax",
        HclWhy::BadByte => b"BadByte",
        HclWhy::NumberTooWide => b"NumberTooWide",
        HclWhy::DepthOver64 => b"DepthOver64",
        HclWhy::NamesOver256 => b"NamesOver256",
        HclWhy::Memory => b"Memory",
    }
}

/// The facts that the tests need about the place where the reader stopped.
fn scene_of<'a>(text: &'a [u8], stopped: &'a Stopped) -> Scene<'a> {
    let tokens = stopped.tokens.items();
    let nothing = part(text, text.len(), text.len());
    let (found, found_text) = match tokens.get(stopped.index) {
        None => (None, nothing),
        Some(token) => (Some(token.kind), told_text(text, token)),
    };
    let (behind, behind_text) = match token_before(tokens, stopped.index) {
        None => (None, nothing),
        Some(token) => (Some(token.kind), told_text(text, token)),
    };
    let open = match stopped.open.items().last() {
        None => None,
        Some(token) => Some(token.kind),
    };
    Scene {
        why: stopped.fault.why,
        rest: part(text, stopped.at, text.len()),
        found,
        found_text,
        behind,
        behind_text,
        open,
        expected: stopped.expected.items(),
    }
}

/// The words that fill in the sentence.
fn words_of<'a>(
    text: &'a [u8],
    stopped: &'a Stopped,
    scene: &Scene<'a>,
    wanted: &'a [u8],
) -> Words<'a> {
    let tokens = stopped.tokens.items();
    let before_line = match token_before(tokens, stopped.index) {
        None => 1,
        Some(token) => line_of(text, token).0,
    };
    let open_line = match stopped.open.items().last() {
        None => 0,
        Some(token) => line_of(text, token).0,
    };
    let open = match stopped.open.items().last() {
        None => part(text, text.len(), text.len()),
        Some(token) => token_text(text, token),
    };
    let mut words: Words<'a> = no_words();
    words.found = scene.found_text;
    words.before = scene.behind_text;
    words.open = open;
    words.close = partner(scene.open);
    words.opener = partner(scene.found);
    words.wanted = wanted;
    words.line = stopped.fault.line;
    words.before_line = before_line;
    words.open_line = open_line;
    words.number = hex_number(scene.found_text);
    words
}

/// The sentence of a pattern.
fn sentence_of<'a>(
    alloc: Global,
    text: &'a [u8],
    stopped: &'a Stopped,
    wanted: &'a [u8],
    pattern: &[u8],
) -> Result<Text, Memory> {
    let scene = scene_of(text, stopped);
    let words = words_of(text, stopped, &scene, wanted);
    let sentence = filled(alloc, pattern, &words)?;
    Text::of(alloc, sentence.as_slice())
}

/// The fault of a text at which the reader stopped.
pub fn reading_fault<'a>(
    alloc: Global,
    text: &'a [u8],
    stopped: &'a Stopped,
) -> Result<Fault, Memory> {
    let scene = scene_of(text, stopped);
    let (code, pattern) = first_rule(&scene);
    let wanted = wanted_list(alloc, scene.expected)?;
    let sentence = sentence_of(alloc, text, stopped, wanted.as_slice(), pattern)?;
    let found = Text::of(alloc, scene.found_text)?;
    let before = token_before(stopped.tokens.items(), stopped.index);
    let places = related_places(alloc, text, stopped.open.items(), before)?;
    let expected = expected_names(alloc, scene.expected)?;
    Ok(Fault {
        line: stopped.fault.line,
        column: stopped.fault.col,
        code,
        reason: reason_word(stopped.fault.why),
        sentence,
        found,
        expected: Items::of(expected),
        related: Items::of(places),
    })
}
