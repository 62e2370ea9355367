//! The faults of assembly text, as sentences.
ghost use Rattle.std.specs.Prelude.{◌≡◌, IfOk, OnOk};
ghost use Rattle.yas_asm.specs.Assembly.{assembled};
ghost use Rattle.fault_report.specs.Told.{IsTold, Reports};

use crate::asm_rules::{AsmRule, asm_rules};
use crate::asm_tests::{AsmTest, Form};
use crate::binding_faults::sort_faults;
use crate::facts::{Fault, Related, Report, has_line, other_place, part};
use crate::fill::{Words, filled, no_words};
use crate::hcl_reading::{begins_with, is_text_of};
use asm_faults::{LineFault, Part, faulty_lines, line_stop};
use hcl_tree::Text;
use std::alloc::Global;
use y86_base::{
    Items, Keyword, Memory, Variant, after_blanks, first_line, is_decimal, is_letter, is_name_byte,
    keyword_at, meaning_of, push, register_names, split_name,
};
use yas_asm::{
    AsmFault, AsmWhy, Directive, Operand, Reader, Shape, Statement, assemble, directives,
    mnemonics, read_line,
};

/// The facts that the tests of a rule need.
#[derive(Clone, Copy)]
struct LineScene<'a> {
    variant: Variant,
    why: AsmWhy,
    wants: Option<Part>,
    form: Form,
    /// The mnemonic or the directive of the line.
    name: &'a [u8],
    /// The bytes from the place on.
    rest: &'a [u8],
    /// The word there.
    word: &'a [u8],
}

/// How the operands of a shape are written.
fn form_of(shape: Shape) -> Form {
    match shape {
        Shape::Alone => Form::Alone,
        Shape::Registers => Form::Registers,
        Shape::Immediate => Form::Immediate,
        Shape::Store => Form::Store,
        Shape::Load => Form::Load,
        Shape::Target => Form::Target,
        Shape::Single => Form::Single,
    }
}

/// The same for a directive.
fn form_of_directive(directive: Directive) -> Form {
    match directive {
        Directive::Position => Form::Position,
        Directive::Align => Form::Align,
        Directive::Data(_) => Form::Data,
    }
}

/// How the operands of a form are written, with a blank in front.
fn usage(form: Form) -> &'static [u8] {
    match form {
        Form::Alone => b"",
        Form::Registers => b" rA, rB",
        Form::Immediate => b" V, rB",
        Form::Store => b" rA, D(rB)",
        Form::Load => b" D(rB), rA",
        Form::Target => b" V",
        Form::Single => b" rA",
        Form::Position => b" N",
        Form::Align => b" N",
        Form::Data => b" V",
        Form::Unread => b"",
    }
}

/// The name of a part in messages.
fn part_name(wanted: Part) -> &'static [u8] {
    match wanted {
        Part::Statement => b"a mnemonic or a directive",
        Part::Register => b"a register",
        Part::Value => b"a number or a label",
        Part::Displacement => b"an address D(rB)",
        Part::Comma => b"`,`",
        Part::OpenParenthesis => b"`(`",
        Part::CloseParenthesis => b"`)`",
        Part::Natural => b"a number that is not negative",
        Part::Positive => b"a number that is at least 1",
        Part::LineEnd => b"the end of the line",
    }
}

/// Whether a byte may begin a word: a register, a directive, a number or a name.
fn begins_name(byte: u8) -> bool {
    byte == b'%' || byte == b'.' || byte == b'$' || byte == b'-' || is_name_byte(byte)
}

/// The number of bytes of a word after its first.
fn word_length(bytes: &[u8]) -> usize {
    bytes.iter().take_while(|byte| is_name_byte(**byte)).count()
}

/// The first word of a text without leading blanks: a name with what is in front of it, or one byte.
fn word_at(text: &[u8]) -> &[u8] {
    match text.split_first() {
        None => text,
        Some((first, behind)) => {
            if begins_name(*first) {
                part(text, 0, word_length(behind).saturating_add(1))
            } else {
                part(text, 0, 1)
            }
        }
    }
}

/// Whether a text is a mnemonic or a directive.
fn is_operation(variant: Variant, text: &[u8]) -> bool {
    meaning_of(mnemonics(variant), text).is_some() || meaning_of(directives(), text).is_some()
}

/// Whether a text differs from another in nothing but capital letters, of which it has at least one.
fn differs_in_capitals(text: &[u8], other: &[u8]) -> bool {
    if text.len() != other.len() {
        return false;
    }
    let mut has_capital = false;
    let mut rest = text;
    let mut left = other;
    'bytes: while let Some((one, behind)) = rest.split_first() {
        let Some((two, further)) = left.split_first() else {
            return false;
        };
        if one.to_ascii_lowercase() != *two {
            return false;
        }
        has_capital = has_capital || *one != *two;
        rest = behind;
        left = further;
    }
    has_capital
}

/// Whether a text differs from one of a table's in nothing but capital letters.
fn is_capital_of<T: Copy>(rows: &[Keyword<T>], text: &[u8]) -> bool {
    for row in rows {
        if differs_in_capitals(text, row.text) {
            return true;
        }
    }
    false
}

/// Whether a text differs from a mnemonic, a directive or a register in nothing but capital letters.
fn is_capital(variant: Variant, text: &[u8]) -> bool {
    is_capital_of(mnemonics(variant), text)
        || is_capital_of(directives(), text)
        || is_capital_of(register_names(), text)
}

/// Whether a text is a register without its `%`.
fn is_naked_register(text: &[u8]) -> bool {
    for row in register_names() {
        if let Some((_, name)) = row.text.split_first() {
            if text == name {
                return true;
            }
        }
    }
    false
}

/// Whether a word is followed by a statement or the end of the line.
fn is_label_like(variant: Variant, rest: &[u8], word: &[u8]) -> bool {
    let behind = after_blanks(part(rest, word.len(), rest.len()));
    Reader::new(behind).ends() || is_operation(variant, word_at(behind))
}

/// Whether a text begins with a digit or, unless only digits count, with a letter, `_` or `-`.
fn first_is(rest: &[u8], digits_alone: bool) -> bool {
    match rest.first() {
        None => false,
        Some(byte) => {
            is_decimal(*byte)
                || (!digits_alone && (is_letter(*byte) || *byte == b'_' || *byte == b'-'))
        }
    }
}

/// Whether the wanted part, if there is one, is in a list.
fn wants(parts: &[Part], wanted: Option<Part>) -> bool {
    match wanted {
        None => false,
        Some(wanted) => parts.iter().any(|one| *one == wanted),
    }
}

/// Whether a test holds.
fn holds(test: &AsmTest, scene: &LineScene) -> bool {
    match test {
        AsmTest::Refused(why) => scene.why == *why,
        AsmTest::Wants(parts) => wants(*parts, scene.wants),
        AsmTest::Of(forms) => forms.iter().any(|form| *form == scene.form),
        AsmTest::AtEnd => Reader::new(scene.rest).ends(),
        AsmTest::Begins(texts) => begins_with(*texts, scene.rest),
        AsmTest::WordIs(texts) => is_text_of(*texts, scene.word),
        AsmTest::IsCapital => is_capital(scene.variant, scene.word),
        AsmTest::IsNakedRegister => is_naked_register(scene.word),
        AsmTest::IsLabelLike => is_label_like(scene.variant, scene.rest, scene.word),
        AsmTest::BeginsDigit => first_is(scene.rest, true),
        AsmTest::BeginsWord => first_is(scene.rest, false),
    }
}

/// Whether all tests of a rule hold.
fn applies(rule: &AsmRule, scene: &LineScene) -> bool {
    for test in rule.when {
        if !holds(test, scene) {
            return false;
        }
    }
    true
}

/// The first rule of a list that applies, as its code and its pattern.
fn rule_among(rules: &[AsmRule], scene: &LineScene) -> Option<(&'static [u8], &'static [u8])> {
    for rule in rules {
        if applies(rule, scene) {
            return Some((rule.code, rule.sentence));
        }
    }
    None
}

/// The first rule that applies, as its code and its pattern.
fn first_rule(scene: &LineScene) -> (&'static [u8], &'static [u8]) {
    for group in 0..99 {
        if let Some(rules) = asm_rules(group) {
            if let Some(found) = rule_among(rules, scene) {
                return found;
            }
        }
    }
    (b"asm.line", b"The line is no line of assembly.")
}

/// The mnemonic or directive of a line, after its label, with the form of its operands.
fn operation_of(variant: Variant, line: &[u8]) -> (&[u8], Form) {
    let mut reader = Reader::new(line);
    let label = reader.label();
    let text = match label {
        None => after_blanks(line),
        Some(_) => after_blanks(behind_colon(line)),
    };
    let word = word_at(text);
    if let Some(directive) = meaning_of(directives(), word) {
        return (word, form_of_directive(directive));
    }
    match meaning_of(mnemonics(variant), word) {
        None => (word, Form::Unread),
        Some(operation) => (word, form_of(operation.shape)),
    }
}

/// What follows the first colon of a line.
fn behind_colon(line: &[u8]) -> &[u8] {
    let before = line.iter().take_while(|byte| **byte != b':').count();
    part(line, before.saturating_add(1), line.len())
}

/// The word that `y86` prints as the reason for refusing a line.
fn reason_word(why: AsmWhy) -> &'static [u8] {
    match why {
        AsmWhy::Syntax => b"Syntax",
        AsmWhy::BadByte => b"BadByte",
        AsmWhy::NumberTooWide => b"NumberTooWide",
        AsmWhy::LabelTwice => b"LabelTwice",
        AsmWhy::LabelUnknown => b"LabelUnknown",
        AsmWhy::OutsideMemory => b"OutsideMemory",
        AsmWhy::Overlap => b"Overlap",
        AsmWhy::LabelLimit => b"LabelLimit",
        AsmWhy::Memory => b"Memory",
    }
}

/// What is known of the label that a fault is about.
#[derive(Clone, Copy)]
struct LabelFact<'a> {
    name: &'a [u8],
    first_line: u64,
    size: u64,
}

/// The facts about a refused line that the tests need.
fn scene_of<'a>(variant: Variant, line: &'a [u8], why: AsmWhy) -> LineScene<'a> {
    let stop = match why {
        AsmWhy::Syntax => line_stop(variant, line),
        _ => None,
    };
    let (wants, from) = match stop {
        None => (None, part(line, 0, 0)),
        Some((wanted, from)) => (Some(wanted), from),
    };
    let rest = after_blanks(from);
    let (name, form) = operation_of(variant, line);
    LineScene {
        variant,
        why,
        wants,
        form,
        name,
        rest,
        word: word_at(rest),
    }
}

/// The words that fill in the sentence.
fn words_of<'a>(scene: &LineScene<'a>, label: LabelFact<'a>) -> Words<'a> {
    let mut words: Words<'a> = no_words();
    words.found = scene.word;
    if !label.name.is_empty() {
        words.found = label.name;
    }
    words.name = scene.name;
    words.usage = usage(scene.form);
    words.before_line = label.first_line;
    words.number = label.size;
    words
}

/// The name of the part that is wanted.
fn expected_names(alloc: Global, wants: Option<Part>) -> Result<Vec<&'static [u8]>, Memory> {
    let mut names: Vec<&'static [u8]> = Vec::new(alloc);
    match wants {
        None => Ok(names),
        Some(wanted) => match push(&mut names, part_name(wanted)) {
            Err(memory) => Err(memory),
            Ok(()) => Ok(names),
        },
    }
}

/// The line that defines a label first.
fn first_places(alloc: Global, label: LabelFact) -> Result<Vec<Related>, Memory> {
    let mut places = Vec::new(alloc);
    if label.first_line == 0 {
        return Ok(places);
    }
    match other_place(alloc, b"first", label.name, label.first_line, 0) {
        Err(memory) => Err(memory),
        Ok(place) => match push(&mut places, place) {
            Err(memory) => Err(memory),
            Ok(()) => Ok(places),
        },
    }
}

/// The column of a fault; 0 if the fault is the whole line.
fn scene_column(line: &[u8], scene: &LineScene) -> u64 {
    match scene.wants {
        None => 0,
        Some(_) => column_of(line, scene.rest),
    }
}

/// The fault of a line.
fn line_saying<'a>(
    alloc: Global,
    variant: Variant,
    number: u64,
    line: &'a [u8],
    why: AsmWhy,
    label: LabelFact<'a>,
) -> Result<Fault, Memory>
    ensures { IfOk result (λ fault. fault.line ≡ number) }
{
    let scene = scene_of(variant, line, why);
    let (code, pattern) = first_rule(&scene);
    let words = words_of(&scene, label);
    let sentence = filled(alloc, pattern, &words)?;
    let sentence = Text::of(alloc, sentence.as_slice())?;
    let found = Text::of(alloc, words.found)?;
    let expected = expected_names(alloc, scene.wants)?;
    let places = first_places(alloc, label)?;
    Ok(Fault {
        line: number,
        column: scene_column(line, &scene),
        code,
        reason: reason_word(why),
        sentence,
        found,
        expected: Items::of(expected),
        related: Items::of(places),
    })
}

/// The column, from 1, at which a part that ends a line begins.
fn column_of(line: &[u8], rest: &[u8]) -> u64 {
    if rest.len() <= line.len() {
        ((line.len() - rest.len()) as u64).saturating_add(1)
    } else {
        0
    }
}

/// The line of a text with this number.
fn line_at(text: &[u8], number: u64) -> &[u8] {
    let mut left = number;
    let mut rest = text;
    'lines: while let Some((line, behind)) = first_line(rest) {
        if left <= 1 {
            return line;
        }
        left -= 1;
        rest = behind;
    }
    rest
}

/// The label of a line, if it has one.
fn label_of(line: &[u8]) -> &[u8] {
    match Reader::new(line).label() {
        None => part(line, 0, 0),
        Some(name) => name.bytes(),
    }
}

/// The number of the first line before `before` that defines a label; 0 if there is none.
fn label_line(text: &[u8], name: &[u8], before: u64) -> u64 {
    let mut number: u64 = 1;
    let mut rest = text;
    'lines: while let Some((line, behind)) = first_line(rest) {
        if number >= before {
            return 0;
        }
        if label_of(line) == name {
            return number;
        }
        number = number.saturating_add(1);
        rest = behind;
    }
    0
}

/// The label that an operand names.
fn named<'a>(operand: &Operand<'a>, nothing: &'a [u8]) -> &'a [u8] {
    match operand {
        Operand::Label(name) => name.bytes(),
        _ => nothing,
    }
}

/// The label that a well-formed line names as its operand.
fn label_used(variant: Variant, line: &[u8]) -> &[u8] {
    let nothing = part(line, 0, 0);
    match read_line(variant, line) {
        Err(_) => nothing,
        Ok(parsed) => match &parsed.statement {
            Statement::Instruction {
                icode: _,
                ifun: _,
                r_a: _,
                r_b: _,
                constant,
            } => named(constant, nothing),
            Statement::Data { width: _, value } => named(value, nothing),
            _ => nothing,
        },
    }
}

/// The fault of a line's labels: a label that an earlier line defines, or one that no line defines.
fn label_fault(
    alloc: Global,
    variant: Variant,
    text: &[u8],
    number: u64,
    line: &[u8],
) -> Result<Option<Fault>, Memory> {
    let label = label_of(line);
    if !label.is_empty() {
        let first_line = label_line(text, label, number);
        if first_line > 0 && read_line(variant, line).is_ok() {
            let name = label;
            let fact = LabelFact {
                name,
                first_line,
                size: 0,
            };
            let told = line_saying(alloc, variant, number, line, AsmWhy::LabelTwice, fact)?;
            return Ok(Some(told));
        }
    }
    let used = label_used(variant, line);
    if !used.is_empty() && label_line(text, used, u64::MAX) == 0 {
        let name = used;
        let fact = LabelFact {
            name,
            first_line: 0,
            size: 0,
        };
        let told = line_saying(alloc, variant, number, line, AsmWhy::LabelUnknown, fact)?;
        return Ok(Some(told));
    }
    Ok(None)
}

/// Reports the label faults of each line.
fn put_labels(
    alloc: Global,
    variant: Variant,
    text: &[u8],
    out: &mut Vec<Fault>,
) -> Result<(), Memory> {
    let mut number: u64 = 1;
    let mut rest = text;
    'lines: while let Some((line, behind)) = first_line(rest) {
        match label_fault(alloc, variant, text, number, line) {
            Err(memory) => return Err(memory),
            Ok(None) => {}
            Ok(Some(fault)) => match push(out, fault) {
                Err(memory) => return Err(memory),
                Ok(()) => {}
            },
        }
        number = number.saturating_add(1);
        rest = behind;
    }
    Ok(())
}

/// Reports each line that is faulty by itself.
fn put_lines(
    alloc: Global,
    variant: Variant,
    text: &[u8],
    faults: &[LineFault],
    out: &mut Vec<Fault>,
) -> Result<(), Memory> {
    for fault in faults {
        let name = part(text, 0, 0);
        let fact = LabelFact {
            name,
            first_line: 0,
            size: 0,
        };
        let line = line_at(text, fault.line);
        match line_saying(alloc, variant, fault.line, line, fault.why, fact) {
            Err(memory) => return Err(memory),
            Ok(told) => match push(out, told) {
                Err(memory) => return Err(memory),
                Ok(()) => {}
            },
        }
    }
    Ok(())
}

/// Reports the assembler's first fault, unless a fault on its line has been reported.
#[tactic(auto, using(crate::proofs::Telling::told_last))]
fn put_first(
    alloc: Global,
    variant: Variant,
    text: &[u8],
    size: u64,
    first: AsmFault,
    out: &mut Vec<Fault>,
) -> Result<(), Memory>
    ensures { OnOk result (IsTold first.line out.new.items) }
{
    if has_line(out.as_slice(), first.line) {
        return Ok(());
    }
    let line = line_at(text, first.line);
    let name = label_of(line);
    let fact = LabelFact {
        name,
        first_line: 0,
        size,
    };
    push(
        out,
        line_saying(alloc, variant, first.line, line, first.why, fact)?,
    )
}

/// The faults of a source that the assembler refuses, in the order of their places; `first` is the assembler's fault.
#[tactic(auto, using(crate::proofs::Telling::told_again))]
fn all_faults(
    alloc: Global,
    variant: Variant,
    text: &[u8],
    size: u64,
    first: AsmFault,
) -> Result<Vec<Fault>, Memory>
    ensures { IfOk result (λ faults. IsTold first.line faults.items) }
{
    let mut out = Vec::new(alloc);
    let faults = faulty_lines(alloc, variant, text)?;
    put_lines(alloc, variant, text, faults.as_slice(), &mut out)?;
    put_labels(alloc, variant, text, &mut out)?;
    put_first(alloc, variant, text, size, first, &mut out)?;
    sort_faults(&mut out)?;
    Ok(out)
}

/// The faults of a source, none if it is accepted.
fn source_faults(
    alloc: Global,
    variant: Variant,
    text: &[u8],
    size: u64,
) -> Result<Vec<Fault>, Memory>
    ensures { IfOk result (λ faults. Reports (assembled variant text.now size) faults.items) }
{
    match assemble(alloc, variant, text, size) {
        Ok(_) => Ok(Vec::new(alloc)),
        Err(first) => {
            if first.why == AsmWhy::Memory {
                return Err(Memory);
            }
            all_faults(alloc, variant, text, size, first)
        }
    }
}

/// The faults of a source for a memory of a size: each line that is faulty by itself, each label that is defined twice
/// or nowhere, and the first line that goes past the memory or overwrites a byte. Without faults it is accepted.
pub fn assembly_report(
    alloc: Global,
    variant: Variant,
    text: &[u8],
    size: u64,
) -> Result<Report, Memory>
    ensures { IfOk result (λ report. Reports (assembled variant text.now size) report.faults) }
{
    let faults = source_faults(alloc, variant, text, size)?;
    Ok(Report {
        datapath: None,
        faults: Items::of(faults),
    })
}
