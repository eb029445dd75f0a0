//! The number of a step, and the positions in it.
ghost use Rattle.std.specs.Prelude.{◌≡◌, IfOk};
ghost use Rattle.std.specs.List.{All};
ghost use Rattle.sv_model.specs.Size.{HasShortOlds, HasSmallPlaces};
ghost use Rattle.sv_model.specs.Positions.{accesses_from, groups_from, numbered_group};

use crate::sums::sum_small;
use std::alloc::{AllocError, Global};
use sv_model::work::{Access, Group};
use sv_range::List;

/// The accesses of that step, whose positions count from `first` on.
pub fn number_accesses(
    alloc: Global,
    step: u64,
    first: u32,
    accesses: &[Access],
) -> Result<List<Access>, AllocError>
    ensures { IfOk result (λ numbered. numbered ≡ accesses_from step first accesses.now) }
{
    let mut numbered = List::with_capacity(alloc, accesses.len())?;
    let mut pos = first;
    for access in accesses {
        numbered.push_or_drop(Access {
            step,
            pos,
            ..*access
        })?;
        pos = sum_small(pos, 1)?;
    }
    Ok(numbered)
}

fn number_group(alloc: Global, step: u64, pos: u32, group: Group) -> Result<Group, AllocError>
    ensures numbered { IfOk result (λ numbered. numbered ≡ numbered_group step pos group) }
    ensures short { IfOk result HasShortOlds }
{
    sum_small(0, group.olds.len())?;
    let transitions = number_accesses(alloc, step, pos, group.transitions.as_slice())?;
    Ok(Group {
        step,
        place: group.place,
        deps: group.deps,
        transitions,
        olds: group.olds,
        transfer: group.transfer,
    })
}

/// The groups of that step. Positions count over their transitions in order. Groups, and the pairs of
/// layouts of each, have places of 32 bits.
pub fn number_groups(
    alloc: Global,
    step: u64,
    groups: List<Group>,
) -> Result<List<Group>, AllocError>
    ensures numbered { IfOk result (λ numbered. numbered ≡ groups_from step 0 groups) }
    ensures short { IfOk result HasSmallPlaces }
    ensures short_olds { IfOk result (All HasShortOlds) }
{
    let mut numbered = List::with_capacity(alloc, groups.len())?;
    let mut pos = 0;
    for group in groups.into_vec() {
        let next = sum_small(pos, group.transitions.len())?;
        numbered.push_or_drop(number_group(alloc, step, pos, group)?)?;
        pos = next;
    }
    sum_small(0, numbered.len())?;
    Ok(numbered)
}
