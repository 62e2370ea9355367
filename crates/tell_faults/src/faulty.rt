//! `fault`: every fault of a file, in sentences or as JSON.
ghost use Rattle.std.specs.Prelude.{◌≡◌, ◌≢◌, ◌↔◌, [], IfErr, IfOk};
ghost use Rattle.y86_base.specs.Image.{IsSize};
ghost use Rattle.tell_faults.specs.Faultless.{HasWantedDesign, IsFaultlessFile, IsFaultlessText};
ghost use Rattle.tell_faults.specs.Faultless as kinds;
ghost use Rattle.tell_faults.specs.Faults as spec;
ghost use Rattle.tell_faults.specs.Stops.{status_of};
ghost use Rattle.tell_faults.specs.Told.{HasBytesWith};

use crate::datapaths::tables;
use crate::said::Said;
use crate::stop::{Stop, unread};
use fault_output::{report_json, report_text};
use fault_report::{Report, assembly_report, hcl_report, object_report};
use hcl_types::Datapath;
use std::alloc::Global;
use tell_words::FaultQuestion;
use wb_io::Files;
use y86_base::Memory;

/// What a file is, by the end of its name.
#[derive(Clone, Copy, Debug, PartialEq, Eq)]
pub enum Kind {
    Hcl,
    Assembly,
    Object,
}

/// The most bytes of an HCL file.
pub const HCL_LIMIT: u64 = 65_536;

/// The most bytes of an object file.
pub const OBJECT_LIMIT: u64 = 1_048_576;

/// The most bytes of a source.
const SOURCE_LIMIT: u64 = 1_048_576;

/// The most bytes of a file of a kind.
fn limit_of(kind: Kind) -> u64 {
    match kind {
        Kind::Hcl => HCL_LIMIT,
        Kind::Assembly => SOURCE_LIMIT,
        Kind::Object => OBJECT_LIMIT,
    }
}

/// What a file is by the end of its name: `.hcl`, `.yo`, and assembly otherwise.
fn kind_by_name(file: &str) -> Kind
    ensures { result ≡ kinds.kind_by_name file.now }
{
    let name = file.as_bytes();
    if name.ends_with(b".hcl") {
        Kind::Hcl
    } else if name.ends_with(b".yo") {
        Kind::Object
    } else {
        Kind::Assembly
    }
}

/// What a file is: HCL if a datapath is named.
fn kind_of(file: &str, path: Option<Datapath>) -> Kind
    ensures { result ≡ kinds.kind_of file.now path }
{
    match path {
        Some(_) => Kind::Hcl,
        None => kind_by_name(file),
    }
}

/// The faults of an HCL text, for the datapath that is asked for, or for the one whose names fit best.
#[tactic(auto, using(crate::proofs::Faultless::hcl_faultless))]
pub fn hcl_faults_of(alloc: Global, text: &[u8], asked: Option<Datapath>) -> Result<Report, Memory>
    ensures { IfOk result (λ report. (report.faults ≡ []) ↔ HasWantedDesign asked text.now) }
{
    let tables = tables(alloc)?;
    hcl_report(alloc, text, &tables, asked)
}

/// The faults of a text.
#[tactic(auto, using(crate::proofs::Faultless::source_faultless, crate::proofs::Faultless::object_faultless))]
fn report_of(alloc: Global, kind: Kind, text: &[u8], asked: FaultQuestion) -> Result<Report, Memory>
    requires { IsSize asked.size }
    ensures { IfOk result (λ report. (report.faults ≡ []) ↔ IsFaultlessText kind asked text.now) }
{
    match kind {
        Kind::Hcl => hcl_faults_of(alloc, text, asked.path),
        Kind::Assembly => assembly_report(alloc, asked.variant, text, asked.size),
        Kind::Object => object_report(alloc, text, asked.size),
    }
}

/// The output for a report.
fn printed(alloc: Global, file: &str, report: &Report, json: bool) -> Result<Vec<u8>, Memory>
    ensures { IfOk result (λ text. text.items ≡ spec.printed json file.now report.now) }
{
    if json {
        return report_json(alloc, file.as_bytes(), report);
    }
    if report.faults.items().is_empty() {
        return match Vec::from_slice(alloc, b"no fault\n") {
            Ok(text) => Ok(text),
            Err(_) => Err(Memory),
        };
    }
    report_text(alloc, file.as_bytes(), report)
}

/// The stop at a file with these faults.
pub fn report_stop(alloc: Global, file: &str, report: Result<Report, Memory>) -> Stop<'_> {
    let Ok(report) = report else {
        return Stop::Memory;
    };
    match printed(alloc, file, &report, false) {
        Ok(text) => Stop::Fault(text),
        Err(_) => Stop::Memory,
    }
}

/// The output for a report, and the status: 5 if it has a fault.
fn said_of(alloc: Global, file: &str, report: &Report, json: bool) -> Result<Said, Memory>
    ensures status { IfOk result (λ said. (said.status ≡ 0) ↔ (report.now.faults ≡ [])) }
    ensures faulty { IfOk result (λ said. said.status ≢ 0 → said.status ≡ 5) }
    ensures text { IfOk result (λ said. said.text.items ≡ spec.printed json file.now report.now) }
{
    let text = printed(alloc, file, report, json)?;
    if report.faults.items().is_empty() {
        Ok(Said { status: 0, text })
    } else {
        Ok(Said { status: 5, text })
    }
}

/// Prints every fault of a file. The status is 0 or 5: 0 exactly if the file is accepted.
#[tactic(auto, using(crate::proofs::Faultless::has_none, crate::proofs::Faultless::has_some))]
pub fn report_faults<'a, F: Files>(
    alloc: Global,
    file: &'a str,
    asked: FaultQuestion,
    files: &mut F,
) -> Result<Said, Stop<'a>>
    requires { IsSize asked.size }
    ensures faultless { IfOk result (λ said. said.status ≡ 0 → HasBytesWith (F.told files.old file.now) (IsFaultlessFile file.now asked)) }
    ensures faulty { IfOk result (λ said. said.status ≢ 0 → HasBytesWith (F.told files.old file.now) (λ text. IsFaultlessFile file.now asked text → ⊥)) }
    ensures status { IfOk result (λ said. said.status ≢ 0 → said.status ≡ 5) }
    ensures stops { IfErr result (λ stop. status_of stop ≢ 5) }
{
    let kind = kind_of(file, asked.path);
    let text = match files.read(alloc, file, limit_of(kind)) {
        Ok(text) => text,
        Err(error) => return Err(unread(file, error)),
    };
    let Ok(report) = report_of(alloc, kind, text.as_slice(), asked) else {
        return Err(Stop::Memory);
    };
    match said_of(alloc, file, &report, asked.json) {
        Ok(said) => Ok(said),
        Err(_) => Err(Stop::Memory),
    }
}
