//! The faults of a file that is HCL but no design, as sentences.
ghost use Rattle.std.specs.Prelude.{◌≡◌, ◌≢◌, ◌↔◌, [], IfOk};
ghost use Rattle.std.specs.List.Sorted.{IsPermutation};
ghost use Rattle.hcl_types.specs.Tables.{IsSound};
ghost use Rattle.hcl_design.specs.Designs.{HasDesignOf};

use crate::blame::{Blame, Blamed, first_blame, kind_of_row};
use crate::facts::{Fault, Related, datapath_name, other_place};
use crate::fill::{Words, filled, words_about};
use crate::hcl_reading::line_of;
use hcl_binding::{BindFault, BindWhy, bind};
use hcl_faults::{
    ItemFault, TokenAt, TokenKind, definition_name, item_faults, item_start, missing_names,
    token_text,
};
use hcl_order::{OrderFault, order};
use hcl_tree::{File, Item, Kind, Text};
use hcl_types::{Datapath, Row, Table};
use std::alloc::Global;
use y86_base::{Items, Memory, push, put};

/// A text with its tokens, and the datapath whose names it may use.
#[derive(Clone, Copy)]
pub struct Source<'a> {
    pub text: &'a [u8],
    pub tokens: &'a [TokenAt],
    pub datapath: Datapath,
}

/// A sentence that needs no test: the stable name of its kind of fault, and the reason that `y86` prints for it.
#[derive(Clone, Copy)]
pub struct Saying {
    pub code: &'static [u8],
    pub reason: &'static [u8],
    pub pattern: &'static [u8],
}

/// A fault at a token, or one that belongs to no line.
fn fault_at(
    alloc: Global,
    source: &Source,
    token: Option<&TokenAt>,
    saying: Saying,
    words: &Words,
    related: Vec<Related>,
) -> Result<Fault, Memory> {
    let (line, column) = match token {
        None => (0, 0),
        Some(token) => line_of(source.text, token),
    };
    let sentence = filled(alloc, saying.pattern, words)?;
    let sentence = Text::of(alloc, sentence.as_slice())?;
    let found = Text::of(alloc, words.found)?;
    Ok(Fault {
        line,
        column,
        code: saying.code,
        reason: saying.reason,
        sentence,
        found,
        expected: Items::of(Vec::new(alloc)),
        related: Items::of(related),
    })
}

/// The row of a name.
pub fn row_of<'a>(rows: &'a [Row], name: &[u8]) -> Option<&'a Row> {
    for row in rows {
        if row.name.bytes() == name {
            return Some(row);
        }
    }
    None
}

/// Whether a token is a name that no row has.
fn is_unknown(text: &[u8], token: &TokenAt, rows: &[Row]) -> bool {
    token.kind == TokenKind::Name && row_of(rows, token_text(text, token)).is_none()
}

/// Whether a token is the first with its name.
fn is_first(text: &[u8], tokens: &[TokenAt], token: &TokenAt) -> bool {
    let name = token_text(text, token);
    for other in tokens {
        if other.from >= token.from {
            return true;
        }
        if other.kind == TokenKind::Name && token_text(text, other) == name {
            return false;
        }
    }
    true
}

/// The number of different names in a text that have no row.
pub fn count_unknown(text: &[u8], tokens: &[TokenAt], rows: &[Row]) -> u64 {
    let mut count: u64 = 0;
    for token in tokens {
        if is_unknown(text, token, rows) && is_first(text, tokens, token) {
            count = count.saturating_add(1);
        }
    }
    count
}

/// The first name of a text that has no row.
pub fn first_unknown<'a>(text: &[u8], tokens: &'a [TokenAt], rows: &[Row]) -> Option<&'a TokenAt> {
    for token in tokens {
        if is_unknown(text, token, rows) {
            return Some(token);
        }
    }
    None
}

/// The sentences on files that binding refuses.
static BINDING_SAYINGS: [Saying; 14] = [
    Saying {
        code: b"hcl.unknown",
        reason: b"Unknown",
        pattern: b"`~found~` is neither a signal nor a constant of ~name~.",
    },
    Saying {
        code: b"hcl.twice",
        reason: b"Twice",
        pattern: b"`~found~` is defined a second time; its first definition is in line ~before_line~.",
    },
    Saying {
        code: b"hcl.missing",
        reason: b"Missing",
        pattern: b"`~found~` has no definition: every file for ~name~ defines it.",
    },
    Saying {
        code: b"hcl.redefines",
        reason: b"Redefines",
        pattern: b"`~found~` cannot be defined: it is a constant of ~name~, or the hardware computes it.",
    },
    Saying {
        code: b"hcl.kind",
        reason: b"KindMismatch",
        pattern: b"`~found~` is a ~name~: its definition begins with `~wanted~`.",
    },
    Saying {
        code: b"hcl.kind",
        reason: b"KindMismatch",
        pattern: b"`~found~` is a ~name~: its declaration begins with `~wanted~sig`.",
    },
    Saying {
        code: b"hcl.kind",
        reason: b"KindMismatch",
        pattern: b"`~found~` is a word, and a Boolean belongs here, in the definition of `~name~`.",
    },
    Saying {
        code: b"hcl.kind",
        reason: b"KindMismatch",
        pattern: b"`~found~` is a Boolean, and a word belongs here, in the definition of `~name~`.",
    },
    Saying {
        code: b"hcl.kind",
        reason: b"KindMismatch",
        pattern: b"`~found~` is a word, and a Boolean, 0 or 1, belongs here, in the definition of `~name~`.",
    },
    Saying {
        code: b"hcl.kind",
        reason: b"KindMismatch",
        pattern: b"The list of cases that begins before `~found~` is a word, and a Boolean belongs there, in the definition of `~name~`.",
    },
    Saying {
        code: b"hcl.kind",
        reason: b"KindMismatch",
        pattern: b"The expression that begins with `~found~` is a Boolean, and a word belongs here, in the definition of `~name~`.",
    },
    Saying {
        code: b"hcl.kind",
        reason: b"KindMismatch",
        pattern: b"The definition of `~found~` is not of the kind of the signal.",
    },
    Saying {
        code: b"hcl.cycle",
        reason: b"Cycle",
        pattern: b"`~found~` depends on itself: ~wanted~.",
    },
    Saying {
        code: b"hcl.datapath",
        reason: b"Unknown",
        pattern: b"This is a file for ~wanted~, not for ~name~: ~wanted~ has all its names, and ~name~ lacks ~number~ of them, `~found~` first.",
    },
];

/// The sentences, in the order of the table.
#[derive(Clone, Copy)]
enum Said {
    Unknown,
    Twice,
    Missing,
    Redefines,
    DefinedKind,
    DeclaredKind,
    WordName,
    BooleanName,
    WrongNumber,
    WrongCases,
    WrongExpression,
    BodyKind,
    Cycle,
    OtherDatapath,
}

/// The sentences on files that binding refuses.
pub fn binding_sayings() -> &'static [Saying] {
    &BINDING_SAYINGS
}

/// No sentence.
pub const NOTHING_SAID: Saying = Saying {
    code: b"",
    reason: b"",
    pattern: b"",
};

/// A sentence of the table.
fn saying_at(said: Said) -> Saying {
    match binding_sayings().get(said as usize) {
        Some(saying) => *saying,
        None => NOTHING_SAID,
    }
}

/// Reports each name that has no row, at its first use.
fn put_unknown(
    alloc: Global,
    source: &Source,
    rows: &[Row],
    out: &mut Vec<Fault>,
) -> Result<(), Memory> {
    for token in source.tokens {
        if is_unknown(source.text, token, rows) && is_first(source.text, source.tokens, token) {
            let found = token_text(source.text, token);
            let words = words_about(found, datapath_name(source.datapath), b"", 0, 0);
            match fault_at(
                alloc,
                source,
                Some(token),
                saying_at(Said::Unknown),
                &words,
                Vec::new(alloc),
            ) {
                Err(memory) => return Err(memory),
                Ok(fault) => match push(out, fault) {
                    Err(memory) => return Err(memory),
                    Ok(()) => {}
                },
            }
        }
    }
    Ok(())
}

/// The keyword of a kind, and its name.
fn kind_words(kind: Kind) -> (&'static [u8], &'static [u8]) {
    match kind {
        Kind::Word => (b"word", b"word"),
        Kind::Bool => (b"bool", b"Boolean"),
    }
}

/// The sentence on a part of the wrong kind.
fn blamed_saying(what: Blamed) -> Saying {
    match what {
        Blamed::WordName => saying_at(Said::WordName),
        Blamed::BooleanName => saying_at(Said::BooleanName),
        Blamed::Number => saying_at(Said::WrongNumber),
        Blamed::Cases => saying_at(Said::WrongCases),
        Blamed::Expression => saying_at(Said::WrongExpression),
    }
}

/// The name or number that has `leaf` others before it, among the tokens after a position.
fn leaf_token(tokens: &[TokenAt], start: usize, leaf: usize) -> Option<&TokenAt> {
    let mut left = leaf;
    for (index, token) in tokens.iter().enumerate() {
        let is_leaf = token.kind == TokenKind::Name || token.kind == TokenKind::Number;
        if index > start && is_leaf {
            if left == 0 {
                return Some(token);
            }
            left -= 1;
        }
    }
    None
}

/// The fault of a definition whose body has the wrong kind, at the part that has it.
fn body_fault(
    alloc: Global,
    source: &Source,
    token: &TokenAt,
    start: usize,
    blamed: Option<Blame>,
) -> Result<Fault, Memory> {
    let name = token_text(source.text, token);
    if let Some(found) = blamed {
        if let Some(leaf) = leaf_token(source.tokens, start, found.leaf) {
            let words = words_about(token_text(source.text, leaf), name, b"", 0, 0);
            let saying = blamed_saying(found.what);
            return fault_at(alloc, source, Some(leaf), saying, &words, Vec::new(alloc));
        }
    }
    let words = words_about(name, name, b"", 0, 0);
    let saying = saying_at(Said::BodyKind);
    fault_at(alloc, source, Some(token), saying, &words, Vec::new(alloc))
}

/// The fault of a definition or a declaration whose keyword has another kind than the signal.
fn keyword_fault(
    alloc: Global,
    source: &Source,
    token: &TokenAt,
    wanted: Kind,
    said: Said,
) -> Result<Fault, Memory> {
    let (keyword, name) = kind_words(wanted);
    let words = words_about(token_text(source.text, token), name, keyword, 0, 0);
    fault_at(
        alloc,
        source,
        Some(token),
        saying_at(said),
        &words,
        Vec::new(alloc),
    )
}

/// The fault of a definition or a declaration of the wrong kind.
fn kind_fault(
    alloc: Global,
    source: &Source,
    rows: &[Row],
    item: &Item,
    start: usize,
    token: &TokenAt,
) -> Result<Fault, Memory> {
    let Some(row) = row_of(rows, token_text(source.text, token)) else {
        return body_fault(alloc, source, token, start, None);
    };
    let wanted = kind_of_row(row);
    match item {
        Item::Def {
            kind,
            name: _,
            body,
        } => {
            if *kind != wanted {
                return keyword_fault(alloc, source, token, wanted, Said::DefinedKind);
            }
            let mut leaf = 0;
            let blamed = first_blame(rows, body, wanted, &mut leaf);
            body_fault(alloc, source, token, start, blamed)
        }
        _ => keyword_fault(alloc, source, token, wanted, Said::DeclaredKind),
    }
}

/// The line and the column of the first definition of a name; 0 if there is none.
fn first_definition(source: &Source, name: &[u8]) -> (u64, u64) {
    match definition_name(source.text, source.tokens, name) {
        None => (0, 0),
        Some(index) => match source.tokens.get(index) {
            None => (0, 0),
            Some(token) => line_of(source.text, token),
        },
    }
}

/// The fault of a second definition.
fn twice_fault(alloc: Global, source: &Source, token: &TokenAt) -> Result<Fault, Memory> {
    let found = token_text(source.text, token);
    let (line, column) = first_definition(source, found);
    let words = words_about(found, b"", b"", line, 0);
    let mut places = Vec::new(alloc);
    push(
        &mut places,
        other_place(alloc, b"first", found, line, column)?,
    )?;
    fault_at(
        alloc,
        source,
        Some(token),
        saying_at(Said::Twice),
        &words,
        places,
    )
}

/// The fault of a definition of a signal that no file may define.
fn redefined_fault(alloc: Global, source: &Source, token: &TokenAt) -> Result<Fault, Memory> {
    let found = token_text(source.text, token);
    let words = words_about(found, datapath_name(source.datapath), b"", 0, 0);
    let saying = saying_at(Said::Redefines);
    fault_at(alloc, source, Some(token), saying, &words, Vec::new(alloc))
}

/// The fault of an item, unless it is a name that has no row.
fn item_saying(
    alloc: Global,
    source: &Source,
    rows: &[Row],
    items: &[Item],
    fault: &ItemFault,
) -> Result<Option<Fault>, Memory> {
    let Some(start) = item_start(source.tokens, fault.item) else {
        return Ok(None);
    };
    let Some(token) = source.tokens.get(start.saturating_add(1)) else {
        return Ok(None);
    };
    match fault.fault.why {
        BindWhy::Twice => Ok(Some(twice_fault(alloc, source, token)?)),
        BindWhy::Redefines => Ok(Some(redefined_fault(alloc, source, token)?)),
        BindWhy::KindMismatch => match items.get(fault.item) {
            None => Ok(None),
            Some(item) => {
                let told = kind_fault(alloc, source, rows, item, start.saturating_add(2), token)?;
                Ok(Some(told))
            }
        },
        _ => Ok(None),
    }
}

/// Reports each item's fault, except names that have no row.
fn put_items(
    alloc: Global,
    source: &Source,
    rows: &[Row],
    items: &[Item],
    faults: &[ItemFault],
    out: &mut Vec<Fault>,
) -> Result<(), Memory> {
    for fault in faults {
        match item_saying(alloc, source, rows, items, fault) {
            Err(memory) => return Err(memory),
            Ok(None) => {}
            Ok(Some(told)) => match push(out, told) {
                Err(memory) => return Err(memory),
                Ok(()) => {}
            },
        }
    }
    Ok(())
}

/// Reports each missing signal.
fn put_missing(
    alloc: Global,
    source: &Source,
    names: &[Text],
    out: &mut Vec<Fault>,
) -> Result<(), Memory> {
    for name in names {
        let words = words_about(name.bytes(), datapath_name(source.datapath), b"", 0, 0);
        match fault_at(
            alloc,
            source,
            None,
            saying_at(Said::Missing),
            &words,
            Vec::new(alloc),
        ) {
            Err(memory) => return Err(memory),
            Ok(fault) => match push(out, fault) {
                Err(memory) => return Err(memory),
                Ok(()) => {}
            },
        }
    }
    Ok(())
}

/// Sorts faults by their places. Faults at the same place keep their order.
pub fn sort_faults(faults: &mut Vec<Fault>) -> Result<(), Memory>
    ensures { IsPermutation faults.old.items faults.new.items }
{
    match faults.sort_by_key(|fault: &Fault| (fault.line, fault.column)) {
        Ok(()) => Ok(()),
        Err(_) => Err(Memory),
    }
}

/// The faults of a file over a table: each name that has no row, at its first use; the other faults of the items;
/// and the missing signals.
pub fn binding_faults(
    alloc: Global,
    source: &Source,
    file: File,
    table: &Table,
) -> Result<Vec<Fault>, Memory>
    requires { IsSound table.now.rows }
{
    let rows = table.rows.items();
    let (faults, items) = item_faults(alloc, file, table)?;
    let mut out = Vec::new(alloc);
    put_unknown(alloc, source, rows, &mut out)?;
    put_items(
        alloc,
        source,
        rows,
        items.as_slice(),
        faults.as_slice(),
        &mut out,
    )?;
    sort_faults(&mut out)?;
    let missing = missing_names(alloc, rows, items.as_slice())?;
    put_missing(alloc, source, missing.as_slice(), &mut out)?;
    Ok(out)
}

/// Adds a name in backticks.
fn put_name(out: &mut Vec<u8>, name: &[u8]) -> Result<(), Memory> {
    put(out, b"`")?;
    put(out, name)?;
    put(out, b"`")
}

/// The name of a row.
fn name_of(rows: &[Row], id: u32) -> &[u8] {
    match rows.get(id as usize) {
        None => b"",
        Some(row) => row.name.bytes(),
    }
}

/// The name of the first row of a list.
fn first_name<'a>(rows: &'a [Row], ids: &[u32]) -> &'a [u8] {
    match ids.first() {
        None => b"",
        Some(id) => name_of(rows, *id),
    }
}

/// Adds that one name needs another.
fn put_need(out: &mut Vec<u8>, one: &[u8], other: &[u8]) -> Result<(), Memory> {
    if !out.is_empty() {
        put(out, b", ")?;
    }
    put_name(out, one)?;
    put(out, b" needs ")?;
    put_name(out, other)
}

/// What each name of a cycle needs.
fn needs_text(alloc: Global, rows: &[Row], ids: &[u32]) -> Result<Vec<u8>, Memory> {
    let mut out = Vec::new(alloc);
    let first = match ids.first() {
        None => return Ok(out),
        Some(id) => name_of(rows, *id),
    };
    let mut rest = ids;
    'ids: while let Some((id, others)) = rest.split_first() {
        let next = match others.first() {
            None => first,
            Some(other) => name_of(rows, *other),
        };
        match put_need(&mut out, name_of(rows, *id), next) {
            Err(memory) => return Err(memory),
            Ok(()) => rest = others,
        }
    }
    Ok(out)
}

/// The places of the definitions on a cycle.
fn cycle_places(
    alloc: Global,
    source: &Source,
    rows: &[Row],
    ids: &[u32],
) -> Result<Vec<Related>, Memory> {
    let mut places = Vec::new(alloc);
    for id in ids {
        let name = name_of(rows, *id);
        let (line, column) = first_definition(source, name);
        match other_place(alloc, b"cycle", name, line, column) {
            Err(memory) => return Err(memory),
            Ok(place) => match push(&mut places, place) {
                Err(memory) => return Err(memory),
                Ok(()) => {}
            },
        }
    }
    Ok(places)
}

/// The fault of a cycle.
fn cycle_fault(alloc: Global, source: &Source, rows: &[Row], ids: &[u32]) -> Result<Fault, Memory> {
    let needs = needs_text(alloc, rows, ids)?;
    let places = cycle_places(alloc, source, rows, ids)?;
    let name = first_name(rows, ids);
    let words = words_about(name, b"", needs.as_slice(), 0, 0);
    let token = match definition_name(source.text, source.tokens, name) {
        None => None,
        Some(index) => source.tokens.get(index),
    };
    fault_at(alloc, source, token, saying_at(Said::Cycle), &words, places)
}

/// The sentence on a fault of binding for which no place was found.
fn saying_without_place(why: BindWhy) -> Saying {
    saying_at(match why {
        BindWhy::Unknown => Said::Unknown,
        BindWhy::Twice => Said::Twice,
        BindWhy::Redefines => Said::Redefines,
        BindWhy::KindMismatch => Said::BodyKind,
        BindWhy::Missing | BindWhy::Memory => Said::Missing,
    })
}

/// The faults of a file that isn't bound. The places of faults are found by the tokens of the text; if none was found,
/// the binder's own fault is reported without a place.
fn refused_faults(
    alloc: Global,
    source: &Source,
    file: File,
    table: &Table,
    first: &BindFault,
) -> Result<Vec<Fault>, Memory>
    requires { IsSound table.now.rows }
    ensures { IfOk result (λ faults. faults.items ≢ []) }
{
    let mut faults = binding_faults(alloc, source, file, table)?;
    if faults.is_empty() {
        let name = datapath_name(source.datapath);
        let words = words_about(first.name.bytes(), name, b"", 0, 0);
        let saying = saying_without_place(first.why);
        let fault = fault_at(alloc, source, None, saying, &words, Vec::new(alloc))?;
        push(&mut faults, fault)?;
    }
    Ok(faults)
}

/// The faults of a file over a table: those of binding, or a cycle of names that need each other.
#[tactic(auto, using(hcl_design::proofs::Faults::none_if_unbound, hcl_design::proofs::Faults::none_if_cyclic))]
pub fn table_faults(
    alloc: Global,
    source: &Source,
    file: File,
    table: &Table,
) -> Result<Vec<Fault>, Memory>
    requires { IsSound table.now.rows }
    ensures { IfOk result (λ faults. (faults.items ≡ []) ↔ HasDesignOf table.now.rows file.items) }
{
    match bind(alloc, &file, table) {
        Err(fault) => match fault.why {
            BindWhy::Memory => Err(Memory),
            _ => refused_faults(alloc, source, file, table, &fault),
        },
        Ok(design) => match order(alloc, &design, table) {
            Ok(_) => Ok(Vec::new(alloc)),
            Err(OrderFault::Memory) => Err(Memory),
            Err(OrderFault::Cycle(ids)) => {
                let mut out = Vec::new(alloc);
                push(
                    &mut out,
                    cycle_fault(alloc, source, table.rows.items(), ids.items())?,
                )?;
                Ok(out)
            }
        },
    }
}

/// The bytes of a token, if there is one.
fn text_at<'a>(text: &'a [u8], token: Option<&TokenAt>) -> &'a [u8] {
    match token {
        None => b"",
        Some(token) => token_text(text, token),
    }
}

/// The fault of a file for another datapath.
pub fn datapath_fault(
    alloc: Global,
    source: &Source,
    rows: &[Row],
    other: Datapath,
) -> Result<Fault, Memory> {
    let token = first_unknown(source.text, source.tokens, rows);
    let found = text_at(source.text, token);
    let count = count_unknown(source.text, source.tokens, rows);
    let (name, wanted) = (datapath_name(source.datapath), datapath_name(other));
    let words = words_about(found, name, wanted, 0, count);
    let saying = saying_at(Said::OtherDatapath);
    fault_at(alloc, source, token, saying, &words, Vec::new(alloc))
}
