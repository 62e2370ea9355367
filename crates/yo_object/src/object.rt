//! The call that loads object text.
ghost use Rattle.std.specs.Prelude.{◌≡◌, ◌⊎◌, IfErr, IfOk};
ghost use Rattle.y86_base.specs.Image.{IsSize};
ghost use Rattle.yo_object.specs.Loads.{out_of_memory};
ghost use Rattle.yo_object.specs.ObjectText.{object_of};

use crate::line::put_line;
use std::alloc::Global;
use thiserror::Error;
use y86_base::{Image, first_line};

/// Why an object text has no image.
#[derive(Clone, Copy, Debug, PartialEq, Eq, Error)]
pub enum YoWhy {
    /// The line begins with `0x` and is not well-formed.
    #[error("Syntax")]
    Syntax,
    /// An odd number of byte digits.
    #[error("OddDigits")]
    OddDigits,
    /// A byte at or past the size of the memory.
    #[error("OutsideMemory")]
    OutsideMemory,
    /// More than 16 address digits.
    #[error("AddressTooWide")]
    AddressTooWide,
    /// Out of memory; the fault has no line.
    #[error("Memory")]
    Memory,
}

/// A fault of an object text and its line, counted from 1; the line is 0 for `Memory`.
#[derive(Clone, Copy, Debug, PartialEq, Eq, Error)]
#[error("{line}: {why}")]
pub struct YoFault {
    pub line: u64,
    pub why: YoWhy,
}

/// The image of an object text: `size` bytes, which are 0 where no line stores a byte. A later line overwrites
/// an earlier one.
pub fn load(alloc: Global, bytes: &[u8], size: u64) -> Result<Image, YoFault>
    requires { IsSize size }
    ensures image { IfOk result (λ image. object_of bytes.now size ≡ Ok image) }
    ensures fault { IfErr result (λ fault. (fault ≡ out_of_memory) ⊎ (object_of bytes.now size ≡ Err fault)) }
{
    let mut image = match Image::new(alloc, size) {
        Ok(image) => image,
        Err(_) => {
            return Err(YoFault {
                line: 0,
                why: YoWhy::Memory,
            });
        }
    };
    let mut rest = bytes;
    let mut number: u64 = 1;
    while let Some((line, behind)) = first_line(rest) {
        match put_line(&mut image, line) {
            Ok(()) => {}
            Err(why) => return Err(YoFault { line: number, why }),
        }
        rest = behind;
        number += 1;
    }
    Ok(image)
}
