//! Access scopes (Vulkan, "Access Types").
ghost use Rattle.std.specs.Prelude.{◌≡◌};
ghost use Rattle.sv_mask.specs.Scopes as spec;
ghost use Rattle.sv_mask.specs.Scopes.{IsAtStages};

use crate::rows::{ACCESSES_AT, PLAIN_ACCESSES, READS, USAGES_AT, USAGES_WITH, WRITES};
use crate::stages::names_all_of;
use crate::union::{holds, union_of_rows, with_flag};
use sv_mask::{AccessWord, StageWord, Usages};

/// The access scope of a mask (Vulkan 1.3, "Execution and Memory Dependencies"): the usages whose stage and
/// whose access are named. The logical order of the stages, the top and the bottom of the pipe add nothing
/// to it. Bits above the plain stages and accesses name nothing.
pub fn access(stages: StageWord, accesses: AccessWord) -> Usages
    ensures exact { result ≡ spec.access stages accesses }
    ensures in_first_scope { IsAtStages result (spec.first_sync stages) }
    ensures in_second_scope { IsAtStages result (spec.second_sync stages) }
{
    let at = union_of_rows(stages.plain.0, &USAGES_AT);
    let plain = union_of_rows(accesses.plain.0, &USAGES_WITH);
    let with_reads = with_flag(plain, accesses.memory_read, READS);
    let with_writes = with_flag(with_reads, accesses.memory_write, WRITES);
    Usages(at & with_writes)
}

/// All usages of the named stages.
pub fn usages_at(word: StageWord) -> Usages
    ensures exact { result ≡ spec.usages_at word }
    ensures in_first_scope { IsAtStages result (spec.first_sync word) }
    ensures in_second_scope { IsAtStages result (spec.second_sync word) }
{
    Usages(union_of_rows(word.plain.0, &USAGES_AT))
}

/// Whether each access that is named otherwise than by `memory_read` or `memory_write` has a
/// usage at some named stage. Bits above the plain stages and accesses name nothing.
pub fn supported(stages: StageWord, accesses: AccessWord) -> bool
    ensures { result ≡ spec.supported stages accesses }
{
    let at = union_of_rows(stages.plain.0, &ACCESSES_AT);
    let named = accesses.plain.0 as u64 & PLAIN_ACCESSES;
    at & named == named
}

/// Whether one half of a dependency holds one half of another: its stage mask names all that the
/// other's names, and its access scope has the other's (Vulkan, "Subpass Self-dependency").
pub fn is_within(
    stages: StageWord,
    accesses: AccessWord,
    of_stages: StageWord,
    of_accesses: AccessWord,
) -> bool
    ensures { result ≡ spec.is_within stages accesses of_stages of_accesses }
{
    let scope = access(stages, accesses);
    let of_scope = access(of_stages, of_accesses);
    let has_stages = names_all_of(of_stages, stages);
    let has_usages = holds(of_scope.0, scope.0);
    has_stages & has_usages
}
