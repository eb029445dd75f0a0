//! Synchronization scopes (Vulkan, "Synchronization").
ghost use Rattle.std.specs.Prelude.{◌≡◌};
ghost use Rattle.sv_mask.specs.Scopes as spec;

use crate::rows::{DEVICE_STAGES, EARLIER, LATER, PLAIN_STAGES};
use crate::union::{holds, union_of_rows, with_flag};
use sv_mask::{StageWord, Stages};

/// The first synchronization scope of a source mask (Vulkan 1.3, "Execution and Memory Dependencies"): the
/// named stages with all logically earlier ones, and all stages but the host where the bottom of the pipe is
/// named.
/// Bits of the word above the 17 plain stages name nothing.
pub fn first_sync(word: StageWord) -> Stages
    ensures { result ≡ spec.first_sync word }
{
    let named = union_of_rows(word.plain.0, &EARLIER);
    let all = with_flag(named, word.bottom, DEVICE_STAGES);
    Stages(all as u32)
}

/// The second synchronization scope of a destination mask (Vulkan 1.3, "Execution and Memory
/// Dependencies"): the named stages with all logically later ones, and all stages but the host where the
/// top of the pipe is named. Bits of the word above the 17 plain stages name nothing.
pub fn second_sync(word: StageWord) -> Stages
    ensures { result ≡ spec.second_sync word }
{
    let named = union_of_rows(word.plain.0, &LATER);
    let all = with_flag(named, word.top, DEVICE_STAGES);
    Stages(all as u32)
}

/// Whether the named stages hold all that `all_commands` names, by whichever names.
pub fn names_all(word: StageWord) -> bool
    ensures { result ≡ spec.names_all word }
{
    let plain = word.plain.0 as u64;
    plain & DEVICE_STAGES == DEVICE_STAGES
}

/// Whether a mask names all that the other names.
pub(crate) fn names_all_of(word: StageWord, other: StageWord) -> bool
    ensures { result ≡ spec.names_all_of word other }
{
    let stages = holds(word.plain.0 as u64, other.plain.0 as u64 & PLAIN_STAGES);
    let top = !other.top | word.top;
    let bottom = !other.bottom | word.bottom;
    stages & top & bottom
}
