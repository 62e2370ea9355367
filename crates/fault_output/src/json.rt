//! Writes a report as JSON (RFC 8259), on one line. Bytes that aren't printable ASCII are escaped as the characters
//! with their numbers.
ghost use Rattle.std.specs.Prelude.{◌≡◌, ◌++◌, codes, true, IfOk, OnOk};
ghost use Rattle.y86_base.specs.Numeral.{numeral};
ghost use Rattle.fault_output.specs.Json as spec;

use fault_report::{Fault, Related, Report, datapath_name};
use hcl_types::Datapath;
use std::alloc::Global;
use y86_base::{Memory, Numeral, put, put_decimal};

/// Adds a byte of a string.
fn put_char(out: &mut Vec<u8>, byte: u8) -> Result<(), Memory>
    ensures { OnOk result (out.new.items ≡ out.old.items ++ spec.char_text byte) }
{
    if byte == b'"' || byte == b'\\' {
        put(out, b"\\")?;
        return put(out, &[byte]);
    }
    if b' ' <= byte && byte <= b'~' {
        return put(out, &[byte]);
    }
    put(out, b"\\u")?;
    let digits = Numeral::hex(4, u64::from(byte));
    put(out, digits.as_bytes())
}

/// Adds a string.
#[tactic(auto, unfolding(crate::specs::Json::string_text))]
fn put_string(out: &mut Vec<u8>, bytes: &[u8]) -> Result<(), Memory>
    ensures { OnOk result (out.new.items ≡ out.old.items ++ spec.string_text bytes.now) }
{
    put(out, b"\"")?;
    for byte in bytes {
        match put_char(out, *byte) {
            Err(memory) => return Err(memory),
            Ok(()) => {}
        }
    }
    put(out, b"\"")
}

/// Adds a member of an object whose value is a string. `name` includes the punctuation in front of it.
fn put_text(out: &mut Vec<u8>, name: &[u8], bytes: &[u8]) -> Result<(), Memory>
    ensures { OnOk result (out.new.items ≡ out.old.items ++ name.now ++ spec.string_text bytes.now) }
{
    put(out, name)?;
    put_string(out, bytes)
}

/// Adds a member of an object whose value is a number. `name` includes the punctuation in front of it.
fn put_number(out: &mut Vec<u8>, name: &[u8], number: u64) -> Result<(), Memory>
    ensures { OnOk result (out.new.items ≡ out.old.items ++ name.now ++ numeral 10 1 number) }
{
    put(out, name)?;
    put_decimal(out, number)
}

/// Adds what separates two elements.
fn put_comma(out: &mut Vec<u8>, is_first: bool) -> Result<(), Memory>
    ensures { OnOk result (out.new.items ≡ out.old.items ++ spec.comma is_first) }
{
    if is_first { Ok(()) } else { put(out, b", ") }
}

/// Adds the names of what could be at the place.
#[tactic(auto, unfolding(crate::specs::Json::expected_text))]
fn put_expected(out: &mut Vec<u8>, expected: &[&'static [u8]]) -> Result<(), Memory>
    ensures { OnOk result (out.new.items ≡ out.old.items ++ spec.expected_text expected.now) }
{
    put(out, b", \"expected\": [")?;
    let mut is_first = true;
    for name in expected {
        match put_comma(out, is_first) {
            Err(memory) => return Err(memory),
            Ok(()) => {}
        }
        match put_string(out, *name) {
            Err(memory) => return Err(memory),
            Ok(()) => is_first = false,
        }
    }
    put(out, b"]")
}

/// Adds another place.
#[tactic(auto, unfolding(crate::specs::Json::place_text))]
fn put_place(out: &mut Vec<u8>, place: &Related) -> Result<(), Memory>
    ensures { OnOk result (out.new.items ≡ out.old.items ++ spec.place_text place.now) }
{
    put_text(out, b"{\"role\": ", place.role)?;
    put_text(out, b", \"text\": ", place.text.bytes())?;
    put_number(out, b", \"line\": ", place.line)?;
    put_number(out, b", \"column\": ", place.column)?;
    put(out, b"}")
}

/// Adds the other places.
#[tactic(auto, unfolding(crate::specs::Json::related_text))]
fn put_places(out: &mut Vec<u8>, places: &[Related]) -> Result<(), Memory>
    ensures { OnOk result (out.new.items ≡ out.old.items ++ spec.related_text places.now) }
{
    put(out, b", \"related\": [")?;
    let mut is_first = true;
    for place in places {
        match put_comma(out, is_first) {
            Err(memory) => return Err(memory),
            Ok(()) => {}
        }
        match put_place(out, place) {
            Err(memory) => return Err(memory),
            Ok(()) => is_first = false,
        }
    }
    put(out, b"]")
}

/// Adds where a fault is.
#[tactic(auto, unfolding(crate::specs::Json::where_text))]
fn put_where(out: &mut Vec<u8>, fault: &Fault) -> Result<(), Memory>
    ensures { OnOk result (out.new.items ≡ out.old.items ++ spec.where_text fault.now) }
{
    put_number(out, b"{\"line\": ", fault.line)?;
    put_number(out, b", \"column\": ", fault.column)
}

/// Adds the kind of a fault.
#[tactic(auto, unfolding(crate::specs::Json::kind_text))]
fn put_kind(out: &mut Vec<u8>, fault: &Fault) -> Result<(), Memory>
    ensures { OnOk result (out.new.items ≡ out.old.items ++ spec.kind_text fault.now) }
{
    put_text(out, b", \"code\": ", fault.code)?;
    put_text(out, b", \"reason\": ", fault.reason)
}

/// Adds the sentence on a fault.
#[tactic(auto, unfolding(crate::specs::Json::said_text))]
fn put_said(out: &mut Vec<u8>, fault: &Fault) -> Result<(), Memory>
    ensures { OnOk result (out.new.items ≡ out.old.items ++ spec.said_text fault.now) }
{
    put_text(out, b", \"sentence\": ", fault.sentence.bytes())?;
    put_text(out, b", \"found\": ", fault.found.bytes())
}

/// Adds a fault.
#[tactic(auto, unfolding(crate::specs::Json::fault_text))]
fn put_fault(out: &mut Vec<u8>, fault: &Fault) -> Result<(), Memory>
    ensures { OnOk result (out.new.items ≡ out.old.items ++ spec.fault_text fault.now) }
{
    put_where(out, fault)?;
    put_kind(out, fault)?;
    put_said(out, fault)?;
    put_expected(out, fault.expected.items())?;
    put_places(out, fault.related.items())?;
    put(out, b"}")
}

/// Adds all faults.
fn put_faults(out: &mut Vec<u8>, faults: &[Fault]) -> Result<(), Memory>
    ensures { OnOk result (out.new.items ≡ out.old.items ++ codes "\"faults\": [" ++ spec.faults_text true faults.now ++ codes "]") }
{
    put(out, b"\"faults\": [")?;
    let mut is_first = true;
    for fault in faults {
        match put_comma(out, is_first) {
            Err(memory) => return Err(memory),
            Ok(()) => {}
        }
        match put_fault(out, fault) {
            Err(memory) => return Err(memory),
            Ok(()) => is_first = false,
        }
    }
    put(out, b"]")
}

/// Adds the datapath, if there is one.
fn put_datapath(out: &mut Vec<u8>, datapath: Option<Datapath>) -> Result<(), Memory>
    ensures { OnOk result (out.new.items ≡ out.old.items ++ spec.datapath_text datapath) }
{
    match datapath {
        None => Ok(()),
        Some(datapath) => put_text(out, b", \"datapath\": ", datapath_name(datapath)),
    }
}

/// A report as a JSON object and a line feed: `file`, `datapath` if there is one, and `faults`, each with `line`,
/// `column`, `code`, `reason`, `sentence`, `found`, `expected` and `related`.
#[tactic(auto, unfolding(crate::specs::Json::report_json))]
pub fn report_json(alloc: Global, file: &[u8], report: &Report) -> Result<Vec<u8>, Memory>
    ensures { IfOk result (λ text. text.items ≡ spec.report_json file.now report.now) }
{
    let mut out = Vec::new(alloc);
    put_text(&mut out, b"{\"file\": ", file)?;
    put_datapath(&mut out, report.datapath)?;
    put(&mut out, b", ")?;
    put_faults(&mut out, report.faults.items())?;
    put(&mut out, b"}\n")?;
    Ok(out)
}
