//! From an object text to the outcome of its watched run.
ghost use Rattle.std.specs.Prelude.{◌≡◌, ◌⊎◌, IfErr, IfOk, List, Ok, Err, ℕ};
ghost use Rattle.program_check.specs.Near.{IsWatched};
ghost use Rattle.y86_base.specs.Image.{IsSize};
ghost use Rattle.yo_object.specs.Loads.{out_of_memory};
ghost use Rattle.yo_object.specs.ObjectText.{object_of};

use program_check::{Watched, watch};
use std::alloc::Global;
use y86_base::Variant;
use yo_object::{YoFault, load};

/// Loads an object text into `size` bytes of memory, and watches its run for at most `limit` steps.
pub fn watch_object(
    alloc: Global,
    variant: Variant,
    text: &[u8],
    size: u64,
    limit: u64,
) -> Result<Watched, YoFault>
    requires { IsSize size }
    ensures watched { IfOk result (λ w. (image : List ℕ) × (object_of text.now size ≡ Ok image) × IsWatched variant image limit w) }
    ensures fault { IfErr result (λ fault. (fault ≡ out_of_memory) ⊎ (object_of text.now size ≡ Err fault)) }
{
    match load(alloc, text, size) {
        Ok(image) => Ok(watch(variant, image, limit)),
        Err(fault) => Err(fault),
    }
}
