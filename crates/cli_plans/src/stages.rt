//! The stages that commands share: the bytes of a file, the tree of an HCL text, the image of an object text. Each has
//! one way to go on and its ways to stop. Also the status after a run.
ghost use Rattle.std.specs.Prelude.{◌≡◌, ◌≤◌, List, ℕ, length, IfErr, IfOk};
ghost use Rattle.hcl_read.specs.Read.{ReadsAs};
ghost use Rattle.wb_io.specs.Files.{HasBytes};
ghost use Rattle.y86_base.specs.Image.{IsSize};
ghost use Rattle.cli_plans.specs.Stages.{image_of_text, run_status};
ghost use Rattle.cli_plans.specs.Designs.{RefusesHcl};
ghost use Rattle.cli_plans.specs.PlanFollowing.{IsStageResult, IsStageResultIn, IsLater, OnFiles, StopsAtRead};
ghost use Rattle.cli_plans.specs.Lines.{hcl_reason, object_reason};
ghost use Rattle.yo_object.specs.ObjectText.{object_of};

use crate::stop_reason::{InputFault, StopReason};
use hcl_read::{HclWhy, read};
use hcl_tree::File;
use std::alloc::Global;
use wb_io::{Files, ReadErr};
use y86_base::{Image, Stat};
use yo_object::{YoWhy, load};

/// The most bytes of an object file or an assembly file.
pub const FILE_LIMIT: u64 = 1_048_576;

/// The most bytes of an HCL file.
pub const HCL_LIMIT: u64 = 65_536;

/// The bytes of a file with this name.
pub fn read_file<'a, F: Files>(
    alloc: Global,
    name: &'a str,
    limit: u64,
    files: &mut F,
) -> Result<Vec<u8>, StopReason<'a>>
    ensures later { IfOk result (λ bytes. OnFiles F.told F.faults IsLater files.old files.new) }
    ensures bytes { IfOk result (λ bytes. (length bytes.items ≤ limit) × HasBytes (F.told files.old name.now) bytes.items) }
    ensures stops { IfErr result (λ stop. OnFiles F.told F.faults (StopsAtRead name.now limit) files.old files.new stop) }
{
    match files.read(alloc, name, limit) {
        Ok(bytes) => Ok(bytes),
        Err(ReadErr::Failed) => Err(StopReason::Read(name)),
        Err(ReadErr::TooLong) => Err(StopReason::TooLong(name, limit)),
        Err(ReadErr::Memory) => Err(StopReason::Memory),
    }
}

/// The name of a reason for which the HCL reader refuses a text.
fn hcl_why(why: HclWhy) -> &'static [u8]
    ensures { result.now ≡ hcl_reason why }
{
    match why {
        HclWhy::Syntax => b"Syntax",
        HclWhy::BadByte => b"BadByte",
        HclWhy::NumberTooWide => b"NumberTooWide",
        HclWhy::DepthOver64 => b"DepthOver64",
        HclWhy::NamesOver256 => b"NamesOver256",
        HclWhy::Memory => b"Memory",
    }
}

/// The tree of an HCL text. `name` is the file's name, for messages.
#[tactic(auto, using(crate::proofs::Staged::hcl_refused))]
pub fn read_hcl<'a>(alloc: Global, name: &'a str, text: &[u8]) -> Result<File, StopReason<'a>>
    ensures { IsStageResultIn (ReadsAs text.now) (RefusesHcl name.now text.now) (λ file. file) result }
{
    match read(alloc, text) {
        Ok(file) => Ok(file),
        Err(fault) => match fault.why {
            HclWhy::Memory => Err(StopReason::Memory),
            why => Err(StopReason::Refused(
                name,
                InputFault::AtPlace {
                    line: fault.line,
                    column: fault.col,
                    why: hcl_why(why),
                },
            )),
        },
    }
}

/// The name of a reason for which an object text is refused.
fn object_why(why: YoWhy) -> &'static [u8]
    ensures { result.now ≡ object_reason why }
{
    match why {
        YoWhy::Syntax => b"Syntax",
        YoWhy::OddDigits => b"OddDigits",
        YoWhy::OutsideMemory => b"OutsideMemory",
        YoWhy::AddressTooWide => b"AddressTooWide",
        YoWhy::Memory => b"Memory",
    }
}

/// The image of an object text. `name` is the file's name, for messages.
#[tactic(auto)]
pub fn load_image<'a>(
    alloc: Global,
    name: &'a str,
    bytes: &[u8],
    size: u64,
) -> Result<Image, StopReason<'a>>
    requires { IsSize size }
    ensures { IsStageResult (λ image. image) (image_of_text name.now (object_of bytes.now size)) result }
{
    match load(alloc, bytes, size) {
        Ok(image) => Ok(image),
        Err(fault) => match fault.why {
            YoWhy::Memory => Err(StopReason::Memory),
            why => Err(StopReason::Refused(
                name,
                InputFault::AtLine {
                    line: fault.line,
                    why: object_why(why),
                },
            )),
        },
    }
}

/// 0 if a run ended at a halt, otherwise 1.
pub fn status(stat: Stat) -> u8
    ensures status { result ≡ run_status stat }
    ensures low { result ≤ 1 }
{
    match stat {
        Stat::Hlt => 0,
        _ => 1,
    }
}
