//! The call that assembles a source.
ghost use Rattle.std.specs.Prelude.{◌≡◌, IfOk};
ghost use Rattle.yas_asm.specs.Assembly.{assembled};
ghost use Rattle.yas_asm.specs.Outcome.{GivesOrFaults};
ghost use Rattle.yas_asm.specs.Listing.{lines_of};

use crate::check::SecondPass;
use crate::fault::{AsmFault, AsmWhy};
use crate::listing::Listing;
use crate::passes::{collect_labels, emit};
use std::alloc::Global;
use y86_base::Variant;

/// The fault that is reported if an allocation was refused.
const NO_MEMORY: AsmFault = AsmFault {
    line: 0,
    why: AsmWhy::Memory,
};

/// Assembles a source for a memory of `size` bytes: returns its listing, or the first line with a fault and the first
/// reason there. The language is that of CS:APP 3e, section 4.1.5 and figure 4.7, with data directives of one, two,
/// four and eight bytes. Any size is accepted; after a refusal nothing is kept.
pub fn assemble(alloc: Global, v: Variant, src: &[u8], size: u64) -> Result<Listing, AsmFault>
    ensures lines { GivesOrFaults lines_of result (assembled v src.now size) }
    ensures source { IfOk result (λ listing. listing.source ≡ src.now) }
{
    let Ok(labels) = collect_labels(alloc, v, src, size) else {
        return Err(NO_MEMORY);
    };
    let pass = SecondPass {
        variant: v,
        size,
        labels: &labels,
    };
    match emit(alloc, &pass, src) {
        Err(fault) => Err(fault),
        Ok(lines) => match Vec::from_slice(alloc, src) {
            Err(_) => Err(NO_MEMORY),
            Ok(source) => Ok(Listing::new(lines, source)),
        },
    }
}
